// The written text of a step with its signals, with the wires' names as they are now. All of it is total: a word past a table's end counts as 0.
#![tactic(auto)]

ghost use Rattle.std.specs.Prelude.{◌≡◌, ◌++◌, ◌≤◌, ◌<◌, length};
ghost use Rattle.rules.specs.Limits.{bits_length, past_text, many_rows};
ghost use Rattle.rules.specs.Text.{sig, sig_tokens};
ghost use Rattle.numbers.specs.Kinds.{signal_of};
ghost use Rattle.wires.specs.Rows.{column};
ghost use Rattle.netlist.specs.Steps.{step_named, signals_at};
ghost use Rattle.wire_names.specs.Now.{wires_in};
ghost use Rattle.text.specs.Written.{Written};
ghost use Rattle.signal_text.specs.Pieces.{spread};
ghost use Rattle.step_text.specs.Steps.{names_step, step_words, signals_text, step_text, EventIs};
ghost use Rattle.step_text.specs.StepLaws.{gap_text};

use context::steps::{
    ALWAYS_STEP, ASSIGN_STEP, CASE_STEP, EDGE_STEP, GLOBAL_STEP, HIGH_STEP, INIT_STEP, LOW_STEP,
    NEGEDGE_STEP, POSEDGE_STEP, SWITCH_STEP, UPDATE_STEP,
};
use netlist::design::Design;
use scanner::parts::part;
use signal_text::put_signal;
use text::put_bytes;
use wire_names::Module;
use wires::column;

// The columns of a step's row: its code, where its bits start, the width of each of its signals, how many signals.
const STEP_CODE: usize = 1;

const STEP_BITS: usize = 2;

const STEP_WIDTH: usize = 3;

const STEP_SIGNALS: usize = 4;

// A signal, and a comma behind it if another follows.
fn put_listed(
    design: &Design,
    m: Module,
    s: &[u32],
    comma: bool,
    out: &mut [u8],
    at: usize,
) -> usize
    requires { (at ≤ past_text) × (length s.now ≤ bits_length) }
    ensures { Written at (spread (sig_tokens (sig (wires_in design.now.names.now design.now.wires.now design.now.rows.now m) (signal_of s.now))) ++ gap_text comma) out.old out.new result }
{
    let end = put_signal(design, m, s, out, at);
    if comma {
        return put_bytes(out, end, b" ,");
    }
    end
}

// The signals of a step's row, in their order.
fn put_signals(
    design: &Design,
    m: Module,
    row: usize,
    comma: bool,
    out: &mut [u8],
    at: usize,
) -> usize
    requires { (at ≤ past_text) × (row < many_rows) × (length design.now.bits.now ≤ bits_length) }
    ensures { Written at (signals_text (wires_in design.now.names.now design.now.wires.now design.now.rows.now m) comma (signals_at design.now.bits.now design.now.rows.now row)) out.old out.new result }
{
    let width = column(design.rows, row, STEP_WIDTH) as usize;
    let mut start = column(design.rows, row, STEP_BITS) as usize;
    let mut end = at;
    for left in (0..column(design.rows, row, STEP_SIGNALS)).rev() {
        let s = part(design.bits, start, start + width);
        end = put_listed(design, m, s, comma & (0 < left), out, end);
        start += width;
    }
    end
}

fn names_step(step: u32) -> bool
    ensures { result ≡ names_step step }
{
    (step == ASSIGN_STEP)
        | (step == UPDATE_STEP)
        | (step == SWITCH_STEP)
        | (step == CASE_STEP)
        | (step == LOW_STEP)
        | (step == HIGH_STEP)
        | (step == POSEDGE_STEP)
        | (step == NEGEDGE_STEP)
        | (step == EDGE_STEP)
        | (step == GLOBAL_STEP)
        | (step == INIT_STEP)
        | (step == ALWAYS_STEP)
}

// The words of a sync, by its code.
fn put_event(out: &mut [u8], at: usize, step: u32) -> usize
    requires { at ≤ past_text }
    ensures { EventIs step at out.old out.new result }
{
    if step == LOW_STEP {
        return put_bytes(out, at, b"sync low");
    }
    if step == HIGH_STEP {
        return put_bytes(out, at, b"sync high");
    }
    if step == POSEDGE_STEP {
        return put_bytes(out, at, b"sync posedge");
    }
    if step == NEGEDGE_STEP {
        return put_bytes(out, at, b"sync negedge");
    }
    if step == EDGE_STEP {
        return put_bytes(out, at, b"sync edge");
    }
    if step == GLOBAL_STEP {
        return put_bytes(out, at, b"sync global");
    }
    if step == INIT_STEP {
        return put_bytes(out, at, b"sync init");
    }
    if step == ALWAYS_STEP {
        return put_bytes(out, at, b"sync always");
    }
    at
}

// The words of a step, by its code.
fn put_words(out: &mut [u8], at: usize, step: u32) -> usize
    requires { at ≤ past_text }
    ensures { Written at (step_words (step_named step)) out.old out.new result }
{
    if step == ASSIGN_STEP {
        return put_bytes(out, at, b"assign");
    }
    if step == UPDATE_STEP {
        return put_bytes(out, at, b"update");
    }
    if step == SWITCH_STEP {
        return put_bytes(out, at, b"switch");
    }
    if step == CASE_STEP {
        return put_bytes(out, at, b"case");
    }
    put_event(out, at, step)
}

// The step in a row, its words and its signals, commas between those of a case; nothing if the row's code names no step.
pub fn put_step(design: &Design, m: Module, row: usize, out: &mut [u8], at: usize) -> usize
    requires { (at ≤ past_text) × (row < many_rows) × (length design.now.bits.now ≤ bits_length) }
    ensures { Written at (step_text (wires_in design.now.names.now design.now.wires.now design.now.rows.now m) (step_named (column design.now.rows.now row 1)) (signals_at design.now.bits.now design.now.rows.now row)) out.old out.new result }
{
    let step = column(design.rows, row, STEP_CODE);
    if !names_step(step) {
        return at;
    }
    let end = put_words(out, at, step);
    let comma = step == CASE_STEP;
    put_signals(design, m, row, comma, out, end)
}
