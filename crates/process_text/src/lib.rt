// The written text of a process in design memory: its line and the rows behind it up to its own `end`, each at its level.
// All of it is total: a word past a table's end counts as 0, and a row that holds no statement is written as an empty line.
#![tactic(auto)]

ghost use Rattle.std.specs.Prelude.{◌≡◌, ◌+◌, ◌-◌, ◌≤◌, ◌<◌, length};
ghost use Rattle.rules.specs.Limits.{bits_length, past_text};
ghost use Rattle.context.specs.Place.{is_sync};
ghost use Rattle.line_text.specs.Lines.{most_level};
ghost use Rattle.netlist.specs.Designs.{tabled_in};
ghost use Rattle.text.specs.Written.{Written};
ghost use Rattle.process_text.specs.Rows.{waiting_from, step_at, level_of, deepens, opened_by, behind, row_lines, step_rows, inside_rows, process_rows};

use context::kinds::{ATTRIBUTE_KIND, END_KIND, STEP_KIND};
use context::steps::{CASE_STEP, EDGE_STEP, GLOBAL_STEP, NO_STEP, SWITCH_STEP};
use line_text::put_line;
use netlist::design::Design;
use netlist::rows::row_kind;
use text::put_bytes;
use wire_names::Module;
use wires::column;

// The column of a step's code in its row.
const STEP_CODE: usize = 1;

// The level of a process, and of the lines in it that stand below no switch and no sync.
const PROCESS_LEVEL: usize = 1;

const BODY_LEVEL: usize = 2;

// Where a line of a process stands: how many switches are open, and the level that the last line leads to.
#[derive(Clone, Copy)]
pub struct Inside {
    pub opened: u32,
    pub level: usize,
}

// Where the attributes that wait begin behind row k: an attribute waits on, any other statement ends the wait.
pub fn waiting_from(kind: u32, first: u32, k: u32) -> u32
    requires { k < 4294967295 }
    ensures { result ≡ waiting_from kind first k }
{
    if kind == ATTRIBUTE_KIND {
        return first;
    }
    k + 1
}

// The code of the step in a row.
fn step_at(rows: &[u32], k: u32) -> u32
    ensures { result ≡ step_at rows.now k }
{
    if row_kind(rows, k) == STEP_KIND {
        return column(rows, k as usize, STEP_CODE);
    }
    NO_STEP
}

fn is_sync(step: u32) -> bool
    ensures { result ≡ is_sync step }
{
    (GLOBAL_STEP <= step) & (step <= EDGE_STEP)
}

// The level of a line.
fn level_of(z: Inside, kind: u32, step: u32) -> usize
    ensures { result ≡ level_of z kind step }
{
    let opened = z.opened as usize;
    if kind == END_KIND {
        return 2 * opened;
    }
    if step == CASE_STEP {
        return 2 * opened + 1;
    }
    if is_sync(step) {
        return BODY_LEVEL;
    }
    z.level
}

// Whether lines stand below a step.
fn deepens(step: u32) -> bool
    ensures { result ≡ deepens step }
{
    (step == SWITCH_STEP) | (step == CASE_STEP) | is_sync(step)
}

// How many switches are open behind a line.
fn opened_by(opened: u32, kind: u32, step: u32) -> u32
    requires { opened < 4294967295 }
    ensures { result ≡ opened_by opened kind step }
{
    if kind == END_KIND {
        return opened.saturating_sub(1);
    }
    if step == SWITCH_STEP {
        return opened + 1;
    }
    opened
}

// Where the line behind a line stands.
fn behind(z: Inside, kind: u32, step: u32) -> Inside
    requires { (z.opened < 4294967295) × (z.level ≤ most_level) }
    ensures { result ≡ behind z kind step }
{
    let opened = opened_by(z.opened, kind, step);
    let level = level_of(z, kind, step);
    if deepens(step) {
        return Inside {
            opened,
            level: level + 1,
        };
    }
    Inside { opened, level }
}

// The lines of some rows, all at one level.
fn put_rows(
    design: &Design,
    m: Module,
    level: usize,
    from: u32,
    to: u32,
    out: &mut [u8],
    at: usize,
) -> usize
    requires { (at ≤ past_text) × (length design.now.bits.now ≤ bits_length) × (level ≤ most_level) }
    ensures { Written at (row_lines (tabled_in design.now) m level from (to - from)) out.old out.new result }
{
    let mut end = at;
    for k in from..to {
        end = put_line(design, m, k, level, out, end);
    }
    end
}

// A row with the attributes before it, which begin in row `first`: an attribute waits, and an `end` has none.
fn put_row(
    design: &Design,
    m: Module,
    level: usize,
    kind: u32,
    first: u32,
    k: u32,
    out: &mut [u8],
    at: usize,
) -> usize
    requires { (at ≤ past_text) × (length design.now.bits.now ≤ bits_length) × (level ≤ most_level) × (k < 4294967295) }
    ensures { Written at (step_rows (tabled_in design.now) m level kind first k) out.old out.new result }
{
    if kind == ATTRIBUTE_KIND {
        return at;
    }
    let from = if kind == END_KIND { k } else { first };
    put_rows(design, m, level, from, k + 1, out, at)
}

// The lines of a process from a row on, up to its own `end`.
fn put_inside(design: &Design, m: Module, from: u32, to: u32, out: &mut [u8], at: usize) -> usize
    requires { (at ≤ past_text) × (length design.now.bits.now ≤ bits_length) }
    ensures { Written at (inside_rows (tabled_in design.now) m (record { opened = 0; level = 2 }) from from (to - from)) out.old out.new result }
{
    let mut end = at;
    let mut first = from;
    let mut z = Inside {
        opened: 0,
        level: BODY_LEVEL,
    };
    for k in from..to {
        let kind = row_kind(design.rows, k);
        let step = step_at(design.rows, k);
        if (kind == END_KIND) & (z.opened == 0) {
            return end;
        }
        let level = level_of(z, kind, step);
        end = put_row(design, m, level, kind, first, k, out, end);
        z = behind(z, kind, step);
        first = waiting_from(kind, first, k);
    }
    end
}

// A process: its line in row k, the lines in it, its end.
pub fn put_process(design: &Design, m: Module, k: u32, to: u32, out: &mut [u8], at: usize) -> usize
    requires { (at ≤ past_text) × (length design.now.bits.now ≤ bits_length) × (k < to) }
    ensures { Written at (process_rows (tabled_in design.now) m k (to - (k + 1))) out.old out.new result }
{
    let line = put_line(design, m, k, PROCESS_LEVEL, out, at);
    let end = put_inside(design, m, k + 1, to, out, line);
    put_bytes(out, end, b"  end\n")
}
