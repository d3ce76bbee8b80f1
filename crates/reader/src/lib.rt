// The two halves of reading: a check that is lent only the file, and a fill of lent tables.
#![tactic(auto)]

ghost use Rattle.std.specs.Prelude.{◌≡◌};
ghost use Rattle.rules.specs.Reading.{read, checked};
ghost use Rattle.rules.specs.Layout.{empty, memory};
ghost use Rattle.layout.specs.Put.{tables_of};
ghost use Rattle.layout.specs.Stored.{Sized};
ghost use Rattle.netlist.specs.Tables.{tabled};
ghost use Rattle.netlist.specs.Results.{result as outcome, lent};
ghost use Rattle.reader.specs.Fill.{leaves, fill_into};

use file_reader::{MOST_FILE_BYTES, read_file};
use netlist::lengths::{
    BITS_LENGTH, NAMES_LENGTH, ROWS_LENGTH, STRINGS_LENGTH, WIRES_LENGTH, right_lengths,
};
use netlist::results::{CallResult, FILE_TOO_LONG, Refused, WRONG_LENGTH};
use zeros::{clear_bytes, clear_words};

// Number 0 is none.
#[derive(Clone, Copy)]
pub struct Checked {
    pub number: u32,
    pub place: u32,
}

// By way of tables of its own: a line is judged by the names, wires and rows of those before it.
pub fn check(f: &[u8]) -> Checked
    ensures { (result.number, result.place) ≡ checked (read f.now) }
{
    let size = f.len();
    if MOST_FILE_BYTES < size {
        return Checked {
            number: FILE_TOO_LONG,
            place: 0,
        };
    }
    let mut names = [0u8; NAMES_LENGTH];
    let mut strings = [0u8; STRINGS_LENGTH];
    let mut bits = [0u32; BITS_LENGTH];
    let mut wires = [0u32; WIRES_LENGTH];
    let mut rows = [0u32; ROWS_LENGTH];
    match read_file(
        f,
        &mut names,
        &mut strings,
        &mut bits,
        &mut wires,
        &mut rows,
    ) {
        Ok(_) => Checked {
            number: 0,
            place: 0,
        },
        Err(Refused { number, place }) => Checked { number, place },
    }
}

fn clear_tables(
    names: &mut [u8],
    strings: &mut [u8],
    bits: &mut [u32],
    wires: &mut [u32],
    rows: &mut [u32],
)
    requires { Sized (tabled names.old strings.old bits.old wires.old rows.old) }
    ensures { tabled names.new strings.new bits.new wires.new rows.new ≡ tables_of (memory empty 0) }
{
    clear_bytes(names);
    clear_bytes(strings);
    clear_words(bits);
    clear_words(wires);
    clear_words(rows);
}

// Into tables of the right lengths.
fn fill_sized(
    f: &[u8],
    names: &mut [u8],
    strings: &mut [u8],
    bits: &mut [u32],
    wires: &mut [u32],
    rows: &mut [u32],
) -> CallResult
    requires { Sized (tabled names.old strings.old bits.old wires.old rows.old) }
    ensures { outcome result.number result.place (lent names.new strings.new bits.new wires.new rows.new result.renames result.room) ≡ leaves (read f.now) }
{
    clear_tables(names, strings, bits, wires, rows);
    if MOST_FILE_BYTES < f.len() {
        return CallResult {
            number: FILE_TOO_LONG,
            place: 0,
            renames: 0,
            room: 0,
        };
    }
    match read_file(f, names, strings, bits, wires, rows) {
        Ok(standing) => CallResult {
            number: 0,
            place: 0,
            renames: 0,
            room: standing.sums.name_bytes,
        },
        Err(Refused { number, place }) => {
            clear_tables(names, strings, bits, wires, rows);
            CallResult {
                number,
                place,
                renames: 0,
                room: 0,
            }
        }
    }
}

pub fn fill(
    f: &[u8],
    names: &mut [u8],
    strings: &mut [u8],
    bits: &mut [u32],
    wires: &mut [u32],
    rows: &mut [u32],
    renames: u32,
    room: u32,
) -> CallResult
    ensures { outcome result.number result.place (lent names.new strings.new bits.new wires.new rows.new result.renames result.room) ≡ fill_into f.now (lent names.old strings.old bits.old wires.old rows.old renames room) }
{
    if right_lengths(
        names.len(),
        strings.len(),
        bits.len(),
        wires.len(),
        rows.len(),
    ) {
        return fill_sized(f, names, strings, bits, wires, rows);
    }
    CallResult {
        number: WRONG_LENGTH,
        place: 0,
        renames,
        room,
    }
}
