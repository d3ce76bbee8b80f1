// Signals and wires: each bit inside its wire, each wire within the rules.
ghost use Rattle.std.specs.Prelude.{◌≤◌};
ghost use Rattle.row_statements.specs.Parts.{BitFits, BitsFit, BitsStand, SignalFits, WireFits};

use crate::parts::{MOST_WIDTH, is_whole};
use netlist::design::Design;
use numbers::kinds::{SignalBit, decode};
use numbers::signed::offset_fits;
use tables::{ROW_WORDS, word};
use wires::{WIRE_FLAGS, WIRE_OFFSET, WIRE_PORT, WIRE_WIDTH, port_taken};

// A port's direction, times this, stands in its wire's flags.
const PORT_FLAG: u32 = 4;

// The last of the directions: input, output, inout.
const INOUT: u32 = 3;

// The highest number of a port.
const MOST_PORT: u32 = 1023;

// A bit's code, in a module whose wires are count rows from first on.
fn bit_fits(wires: &[u32], first: u32, count: u32, code: u32) -> bool
    ensures { BitFits wires.now first count code result }
{
    let b = decode(code);
    match b {
        SignalBit::Digit(_) => true,
        SignalBit::Wire(w, i) => {
            let n = w.0;
            if count <= n {
                return false;
            }
            i < word(
                wires,
                ROW_WORDS * (first as usize + n as usize) + WIRE_WIDTH,
            )
        }
    }
}

fn all_fit(wires: &[u32], first: u32, count: u32, codes: &[u32]) -> bool
    ensures { BitsFit wires.now first count codes.now result }
{
    for &code in codes {
        if !bit_fits(wires, first, count, code) {
            return false;
        }
    }
    true
}

// So many bits, by their codes.
pub fn bits_stand(design: &Design, first: u32, count: u32, at: u32, size: u32) -> bool
    ensures { BitsStand design.now.wires.now first count design.now.bits.now at size result }
{
    if !is_whole(design.bits.len(), at, size) {
        return false;
    }
    if size == 0 {
        return true;
    }
    let from = at as usize;
    all_fit(
        design.wires,
        first,
        count,
        &design.bits[from..from + size as usize],
    )
}

// The bits of a signal.
pub fn signal_stands(design: &Design, first: u32, count: u32, at: u32, size: u32) -> bool
    ensures { SignalFits design.now.wires.now first count design.now.bits.now at size result }
{
    if MOST_WIDTH < size {
        return false;
    }
    bits_stand(design, first, count, at, size)
}

// The wire of row k, whose module's wires before it are those from row first on.
pub fn wire_fits(wires: &[u32], first: u32, k: u32) -> bool
    requires { first ≤ k }
    ensures { WireFits wires.now first k result }
{
    let at = ROW_WORDS * (k as usize);
    let width = word(wires, at + WIRE_WIDTH);
    if MOST_WIDTH < width {
        return false;
    }
    if !offset_fits(word(wires, at + WIRE_OFFSET), width) {
        return false;
    }
    let direction = word(wires, at + WIRE_FLAGS) / PORT_FLAG;
    if direction == 0 {
        return true;
    }
    if INOUT < direction {
        return true;
    }
    let port = word(wires, at + WIRE_PORT);
    if port == 0 {
        return false;
    }
    if MOST_PORT < port {
        return false;
    }
    !port_taken(wires, first, k - first, port)
}
