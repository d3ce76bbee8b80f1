// The written text of a signal, with the wires' names as they are now.
// All of it is total: a word past a table's end counts as 0, and a span past its end is cut.
#![tactic(auto)]

ghost use Rattle.std.specs.Prelude.{◌≡◌, cond, [], ◌∷◌, ◌++◌, ◌+◌, ◌-◌, ◌≤◌, ◌<◌, eqb, pos, length, drop};
ghost use Rattle.std.proofs.Math.Option.{none, some};
ghost use Rattle.rules.specs.Limits.{most_width, bits_length, past_text};
ghost use Rattle.rules.specs.Tokens.{mark};
ghost use Rattle.rules.specs.Text.{cut, run_sig, sig, number_token, low_tokens, sig_tokens};
ghost use Rattle.numbers.specs.Kinds.{signal_of};
ghost use Rattle.wire_names.specs.Now.{wires_in};
ghost use Rattle.text.specs.Written.{Written};
ghost use Rattle.signal_runs.specs.Runs.{first_run};
ghost use Rattle.signal_text.specs.Pieces.{spread};
ghost use Rattle.signal_text.specs.Runs.{runs_text};

use constant_text::put_value;
use netlist::design::Design;
use numbers::kinds::{SignalBit, WireNumber, decode};
use signal_runs::run_low;
use text::{put_byte, put_bytes, put_decimal, put_token};
use wire_names::{Module, name_now};
use wires::{WIRE_WIDTH, column};

// `[i]` or `[h:l]`.
fn put_bounds(out: &mut [u8], at: usize, low: u32, count: u32) -> usize
    requires { (at ≤ past_text) × (low < most_width) × (0 < count) × (count ≤ bits_length) }
    ensures { Written at (spread (mark 91 ∷ number_token (pos (low + count - 1)) ∷ low_tokens (cond (eqb count 1) none (some (pos low))) ++ mark 93 ∷ [])) out.old out.new result }
{
    let open = put_bytes(out, at, b" [");
    let high = put_decimal(out, open, low + count - 1);
    if count == 1 {
        return put_byte(out, high, b']');
    }
    let colon = put_byte(out, high, b':');
    let end = put_decimal(out, colon, low);
    put_byte(out, end, b']')
}

// So many bits of a wire from a bit up; a number past the module's wires counts as that of the last one.
fn put_cut(
    design: &Design,
    m: Module,
    wire: WireNumber,
    low: u32,
    count: u32,
    out: &mut [u8],
    at: usize,
) -> usize
    requires { (at ≤ past_text) × (low < most_width) × (0 < count) × (count ≤ bits_length) }
    ensures { Written at (spread (sig_tokens (cut (drop (m.wires - (wire.0 + 1)) (wires_in design.now.names.now design.now.wires.now design.now.rows.now m)) low count))) out.old out.new result }
{
    let many = m.wires;
    if many == 0 {
        return put_bytes(out, at, b" { }");
    }
    let n = if wire.0 < many { wire.0 } else { many - 1 };
    let row = m.first as usize + n as usize;
    let end = put_token(out, at, name_now(design, m, WireNumber(n), row));
    if count == column(design.wires, row, WIRE_WIDTH) {
        return end;
    }
    put_bounds(out, end, low, count)
}

// The run of the bits from j up to i.
fn put_run(
    design: &Design,
    m: Module,
    s: &[u32],
    j: usize,
    i: usize,
    out: &mut [u8],
    at: usize,
) -> usize
    requires { (at ≤ past_text) × (j < i) × (i ≤ length s.now) × (length s.now ≤ bits_length) }
    ensures { Written at (spread (sig_tokens (run_sig (wires_in design.now.names.now design.now.wires.now design.now.rows.now m) (first_run (drop j s.now) (i - j))))) out.old out.new result }
{
    match decode(s[j]) {
        SignalBit::Digit(_) => {
            let behind = put_byte(out, at, b' ');
            put_value(out, behind, &s[j..i])
        }
        SignalBit::Wire(wire, low) => {
            let count = (i - j) as u32;
            put_cut(design, m, wire, low, count, out, at)
        }
    }
}

// The runs of a signal, the highest first.
fn put_runs(design: &Design, m: Module, s: &[u32], out: &mut [u8], at: usize) -> usize
    requires { (at ≤ past_text) × (length s.now ≤ bits_length) }
    ensures { Written at (runs_text (wires_in design.now.names.now design.now.wires.now design.now.rows.now m) s.now) out.old out.new result }
{
    let mut end = at;
    let mut i = s.len();
    // A run may have any number of bits: where it begins is found, not counted.
    while 0 < i {
        let j = run_low(s, i);
        end = put_run(design, m, s, j, i, out, end);
        i = j;
    }
    end
}

// One run stands bare, none or several in `{ }`.
pub fn put_signal(design: &Design, m: Module, s: &[u32], out: &mut [u8], at: usize) -> usize
    requires { (at ≤ past_text) × (length s.now ≤ bits_length) }
    ensures { Written at (spread (sig_tokens (sig (wires_in design.now.names.now design.now.wires.now design.now.rows.now m) (signal_of s.now)))) out.old out.new result }
{
    let n = s.len();
    if n == 0 {
        return put_bytes(out, at, b" { }");
    }
    if run_low(s, n) == 0 {
        return put_run(design, m, s, 0, n, out, at);
    }
    let open = put_bytes(out, at, b" {");
    let end = put_runs(design, m, s, out, open);
    put_bytes(out, end, b" }")
}
