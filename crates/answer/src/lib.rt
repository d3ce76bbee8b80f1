// The program's whole answer to a file: its one text, or the number and place of its refusal.
#![tactic(auto)]

ghost use Rattle.std.specs.Prelude.{◌≡◌, true, ◌≤◌, length};
ghost use Rattle.rules.specs.Limits.{longest_file};
ghost use Rattle.rules.specs.Text.{program};
ghost use Rattle.netlist.specs.Designs.{lent_in};
ghost use Rattle.netlist.specs.Results.{lent};
ghost use Rattle.netlist.specs.Lengths.{right_lengths};
ghost use Rattle.answer.specs.Printed.{putting, PrintedAs};

use netlist::design::Design;
use netlist::lengths::{BITS_LENGTH, NAMES_LENGTH, ROWS_LENGTH, STRINGS_LENGTH, WIRES_LENGTH};
use reader::{check, fill};
use text::{TEXT_LENGTH, put_refusal};
use writer::write;

// The text of the design that the memory holds, or the number of its refusal with place 0.
fn put_held(design: &Design, out: &mut [u8]) -> usize
    ensures printed_as { PrintedAs (lent_in design.now) out.old out.new result }
    ensures upper_bound { result ≤ longest_file }
{
    let written = write(design, out);
    if written.number != 0 {
        return put_refusal(out, 0, written.number, 0);
    }
    written.length as usize
}

// By way of these tables, whatever they hold.
fn answer_in(
    f: &[u8],
    names: &mut [u8],
    strings: &mut [u8],
    bits: &mut [u32],
    wires: &mut [u32],
    rows: &mut [u32],
    out: &mut [u8],
) -> usize
    requires rows_value { right_lengths (lent names.old strings.old bits.old wires.old rows.old 0 0) ≡ true }
    requires out_len { length out.old ≡ longest_file }
    ensures out_after { (result, out.new) ≡ putting out.old (program f.now) }
    ensures upper_bound { result ≤ longest_file }
{
    let found = check(f);
    if found.number != 0 {
        return put_refusal(out, 0, found.number, found.place);
    }
    let left = fill(f, names, strings, bits, wires, rows, 0, 0);
    let design = Design {
        names,
        strings,
        bits,
        wires,
        rows,
        renames: left.renames,
        room: left.room,
    };
    put_held(&design, out)
}

// What the program writes for a file, at the start of the room lent, and its length.
pub fn answer(f: &[u8], out: &mut [u8; TEXT_LENGTH]) -> usize
    ensures out_after { (result, out.new) ≡ putting out.old (program f.now) }
    ensures upper_bound { result ≤ longest_file }
{
    let mut names = [0u8; NAMES_LENGTH];
    let mut strings = [0u8; STRINGS_LENGTH];
    let mut bits = [0u32; BITS_LENGTH];
    let mut wires = [0u32; WIRES_LENGTH];
    let mut rows = [0u32; ROWS_LENGTH];
    answer_in(
        f,
        &mut names,
        &mut strings,
        &mut bits,
        &mut wires,
        &mut rows,
        out,
    )
}
