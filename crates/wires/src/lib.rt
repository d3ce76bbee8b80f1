// The wires of a module in the table of wires: a row of eight words for each, in consecutive rows, with its name's span in the table of names.
// All of it is total: a word past the table's end counts as 0, and a span past the names' end is cut.
#![tactic(auto)]

ghost use Rattle.std.specs.Prelude.{◌≡◌, ◌<◌};
ghost use Rattle.rules.specs.Limits.{many_rows};
ghost use Rattle.rules.specs.Session.{index_in};
ghost use Rattle.numbers.specs.Signed.{verdict_of};
ghost use Rattle.wires.specs.Rows.{column, span_at, wire_of, has_port, TakenIs};

use numbers::kinds::WireNumber;
use numbers::signed::author_index;
use scanner::parts::part;
use tables::word;

// The columns of a row in the table of wires. Its name's length stands behind its start, and the flags hold `upto`, `signed` and the port's
// direction.
pub const WIRE_NAME: usize = 1;

pub const WIRE_WIDTH: usize = 3;

pub const WIRE_OFFSET: usize = 4;

pub const WIRE_FLAGS: usize = 5;

pub const WIRE_PORT: usize = 6;

// The codes of a port's direction are 1 up to this one, that of inout.
const INOUT: u32 = 3;

// A wire that a search by its name finds: its number in its module and its width.
#[derive(Clone, Copy)]
pub struct FoundWire {
    pub number: WireNumber,
    pub width: u32,
}

// A column of a row in any table of rows. A row's number is the sum of two words at most, so that it may pass 32 bits.
pub fn column(table: &[u32], row: usize, c: usize) -> u32
    requires { (row < many_rows) × (c < 8) }
    ensures { result ≡ column table.now row c }
{
    word(table, 8 * row + c)
}

// The bytes whose start stands in column c, and their number behind it.
pub fn bytes_at<'a>(bytes: &'a [u8], table: &[u32], row: usize, c: usize) -> &'a [u8]
    requires { (row < many_rows) × (c < 7) }
    ensures { result.now ≡ span_at bytes.now table.now row c }
{
    let start = column(table, row, c) as usize;
    let size = column(table, row, c + 1) as usize;
    part(bytes, start, start + size)
}

fn has_port(wires: &[u32], row: usize, port: u32) -> bool
    requires { row < many_rows }
    ensures { result ≡ has_port port (wire_of wires.now row) }
{
    let direction = column(wires, row, WIRE_FLAGS) / 4;
    0 < direction && direction <= INOUT && port == column(wires, row, WIRE_PORT)
}

// Whether one of the wires in count rows from first on is a port of this number.
pub fn port_taken(wires: &[u32], first: u32, count: u32, port: u32) -> bool
    ensures { TakenIs wires.now first count port result }
{
    (0..count).any(|k| has_port(wires, first as usize + k as usize, port))
}

// The index that the author of row k's wire gave its bit.
pub fn wire_index(wires: &[u32], k: u32, bit: u32) -> Option<i64>
    ensures { index_in (wire_of wires.now k) bit ≡ verdict_of result }
{
    let row = k as usize;
    let width = column(wires, row, WIRE_WIDTH);
    let offset = column(wires, row, WIRE_OFFSET);
    let upto = column(wires, row, WIRE_FLAGS) % 2 == 1;
    author_index(offset, width, upto, bit)
}
