// The name now of a wire: that of its last standing rename, else its own.
// All of it is total: a word past a table's end counts as 0, and a span past its end is cut.
#![tactic(auto)]

ghost use Rattle.std.specs.Prelude.{◌≡◌, ◌<◌};
ghost use Rattle.rules.specs.Limits.{many_rows};
ghost use Rattle.wire_names.specs.Now.{renames, last_rename, name_now};

use netlist::design::Design;
use numbers::kinds::{ModuleNumber, WireNumber};
use wires::{WIRE_NAME, bytes_at, column};

// The columns of a rename's row: where the new name starts, and the numbers of the module and the wire.
const RENAME_NAME: usize = 1;

const RENAME_MODULE: usize = 3;

const RENAME_WIRE: usize = 4;

// A module: its number, the rows of its wires, and the rows of the renames that stand.
#[derive(Clone, Copy)]
pub struct Module {
    pub number: ModuleNumber,
    pub first: u32,
    pub wires: u32,
    pub from: u32,
    pub renames: u32,
}

// Whether a rename's row is of this wire.
fn renames(rows: &[u32], row: usize, m: ModuleNumber, wire: WireNumber) -> bool
    requires { row < many_rows }
    ensures { result ≡ renames rows.now row m.0 wire.0 }
{
    column(rows, row, RENAME_MODULE) == m.0 && column(rows, row, RENAME_WIRE) == wire.0
}

// How many of the rename rows from a row on there are up to the last one of this wire; 0 if it has none.
pub fn last_rename(rows: &[u32], from: u32, count: u32, m: ModuleNumber, wire: WireNumber) -> u32
    ensures { result ≡ last_rename rows.now from count m.0 wire.0 }
{
    for last in (0..count).rev() {
        if renames(rows, from as usize + last as usize, m, wire) {
            return last + 1;
        }
    }
    0
}

// The name now of a wire of the module whose row in the table of wires is k: the last rename of it, else its own.
pub fn name_now<'n>(design: &Design<'n, '_, '_>, m: Module, wire: WireNumber, k: usize) -> &'n [u8]
    requires { k < many_rows }
    ensures { result.now ≡ name_now design.now.names.now design.now.wires.now design.now.rows.now m.from m.renames m.number.0 wire.0 k }
{
    let last = last_rename(design.rows, m.from, m.renames, m.number, wire);
    if last == 0 {
        return bytes_at(design.names, design.wires, k, WIRE_NAME);
    }
    bytes_at(
        design.names,
        design.rows,
        m.from as usize + (last - 1) as usize,
        RENAME_NAME,
    )
}
