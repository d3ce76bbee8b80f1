// The runs of a signal, by the codes of its bits: constant bits, or falling bits of one wire.
#![tactic(auto)]

ghost use Rattle.std.specs.Prelude.{◌≡◌, ◌≤◌, ◌<◌, length};
ghost use Rattle.signal_runs.specs.Runs.{is_digit, is_bit, joint, Apart, Lowest};

use numbers::kinds::{SignalBit, WireNumber, decode};

fn is_digit(b: SignalBit) -> bool
    ensures { result ≡ is_digit b }
{
    match b {
        SignalBit::Digit(_) => true,
        SignalBit::Wire(_, _) => false,
    }
}

// Whether a bit is bit i of this wire.
fn is_bit(wire: WireNumber, i: u32, b: SignalBit) -> bool
    ensures { result ≡ is_bit wire i b }
{
    match b {
        SignalBit::Digit(_) => false,
        SignalBit::Wire(w, k) => {
            if wire.0 != w.0 {
                return false;
            }
            i == k
        }
    }
}

// Whether a bit and the bit above it, by their codes, stand in one run: two constant bits, or a bit of a wire and the next.
fn joins(low: u32, high: u32) -> bool
    ensures { result ≡ joint low high }
{
    let above = decode(high);
    let below = decode(low);
    match below {
        SignalBit::Digit(_) => is_digit(above),
        SignalBit::Wire(w, i) => is_bit(w, i + 1, above),
    }
}

// Where the run starts whose highest bit is the one below i.
pub fn run_low(s: &[u32], i: usize) -> usize
    requires i_nonzero { (0 < i) × (i ≤ length s.now) }
    requires apart { Apart s.now i }
    ensures { Lowest s.now i result }
{
    for j in (1..i).rev() {
        if !joins(s[j - 1], s[j]) {
            return j;
        }
    }
    0
}
