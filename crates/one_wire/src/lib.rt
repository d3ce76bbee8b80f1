// One wire of a file, asked by its module's number and its name: how wide it is, and the index that its author gave a bit. The file is read no
// further than the line that declares the wire, into tables of the call's own.
#![tactic(auto)]

ghost use Rattle.std.specs.Prelude.{◌≡◌, ◌<◌, pos};
ghost use Rattle.rules.specs.Limits.{many_rows};
ghost use Rattle.rules.specs.Quick.{gives, quick_width, quick_index};
ghost use Rattle.wires.specs.Rows.{wire_of};
ghost use Rattle.modules.specs.Ranges.{wire_range};
ghost use Rattle.one_wire.specs.Asked.{told, wire_sought, row_sought, DeclaredAs, IndexTold};

use file_reader::{MOST_FILE_BYTES, read_until};
use modules::module_wires;
use names::same_bytes;
use netlist::lengths::{BITS_LENGTH, NAMES_LENGTH, ROWS_LENGTH, STRINGS_LENGTH, WIRES_LENGTH};
use netlist::results::{BAD_WIDTH, FILE_TOO_LONG, NOT_THERE, Refused};
use numbers::kinds::ModuleNumber;
use numbers::signed::author_index;
use wires::{WIRE_FLAGS, WIRE_NAME, WIRE_OFFSET, WIRE_WIDTH, bytes_at, column};

// Number 0 is none.
#[derive(Clone, Copy)]
pub struct Width {
    pub number: u32,
    pub place: u32,
    pub width: u32,
}

#[derive(Clone, Copy)]
pub struct BitIndex {
    pub number: u32,
    pub place: u32,
    pub index: i64,
}

// What is asked of a declared wire.
#[derive(Clone, Copy)]
struct Declared {
    width: u32,
    offset: u32,
    upto: bool,
}

// The wire in a row.
fn wire_in(wires: &[u32], row: usize) -> Declared
    requires { row < many_rows }
    ensures { DeclaredAs (gives (wire_of wires.now row)) (Ok result) }
{
    Declared {
        width: column(wires, row, WIRE_WIDTH),
        offset: column(wires, row, WIRE_OFFSET),
        upto: column(wires, row, WIRE_FLAGS) % 2 == 1,
    }
}

// The first wire of a module that has this name, of `total` wires in all.
fn find_wire(
    names: &[u8],
    wires: &[u32],
    total: u32,
    m: ModuleNumber,
    name: &[u8],
) -> Result<Declared, Refused>
    ensures { DeclaredAs (row_sought names.now wires.now name.now (wire_range wires.now total m.0)) result }
{
    let own = module_wires(wires, total, m);
    for k in 0..own.count {
        let row = own.first as usize + k as usize;
        if same_bytes(bytes_at(names, wires, row, WIRE_NAME), name) {
            return Ok(wire_in(wires, row));
        }
    }
    Err(Refused {
        number: NOT_THERE,
        place: 0,
    })
}

fn seek_wire(f: &[u8], m: ModuleNumber, name: &[u8]) -> Result<Declared, Refused>
    ensures { DeclaredAs (wire_sought f.now m.0 name.now) result }
{
    let size = f.len();
    if MOST_FILE_BYTES < size {
        return Err(Refused {
            number: FILE_TOO_LONG,
            place: 0,
        });
    }
    let mut names = [0u8; NAMES_LENGTH];
    let mut strings = [0u8; STRINGS_LENGTH];
    let mut bits = [0u32; BITS_LENGTH];
    let mut wires = [0u32; WIRES_LENGTH];
    let mut rows = [0u32; ROWS_LENGTH];
    let standing = read_until(
        f,
        &mut names,
        &mut strings,
        &mut bits,
        &mut wires,
        &mut rows,
        Some(m),
        name,
    )?;
    find_wire(&names, &wires, standing.place.wires, m, name)
}

pub fn width_of(f: &[u8], m: ModuleNumber, name: &[u8]) -> Width
    ensures { (result.number, result.place, result.width) ≡ told 0 (quick_width f.now m.0 name.now) }
{
    match seek_wire(f, m, name) {
        Ok(wire) => Width {
            number: 0,
            place: 0,
            width: wire.width,
        },
        Err(Refused { number, place }) => Width {
            number,
            place,
            width: 0,
        },
    }
}

fn no_index(number: u32, place: u32) -> BitIndex
    ensures { result ≡ record { number = number; place = place; index = pos 0 } }
{
    BitIndex {
        number,
        place,
        index: 0,
    }
}

#[tactic(auto, unfolding(crate::specs::Asked::told, rules::specs::Quick::of_verdict, numbers::specs::Signed::verdict_of))]
fn index_in(wire: Declared, bit: u32) -> BitIndex
    ensures { IndexTold wire.offset wire.width wire.upto bit (result.number, result.place, result.index) }
{
    match author_index(wire.offset, wire.width, wire.upto, bit) {
        Some(index) => BitIndex {
            number: 0,
            place: 0,
            index,
        },
        None => no_index(BAD_WIDTH, 0),
    }
}

pub fn index_of(f: &[u8], m: ModuleNumber, name: &[u8], bit: u32) -> BitIndex
    ensures { (result.number, result.place, result.index) ≡ told (pos 0) (quick_index f.now m.0 name.now bit) }
{
    match seek_wire(f, m, name) {
        Ok(wire) => index_in(wire, bit),
        Err(Refused { number, place }) => no_index(number, place),
    }
}
