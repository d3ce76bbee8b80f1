// A row of eight words for each statement: its kind, then where its parts start and their lengths.
// All of it is total: a word past the table's end counts as 0, and a span past the names' end is cut.
ghost use Rattle.std.specs.Prelude.{◌≡◌, ◌&&◌, ◌<◌};
ghost use Rattle.rules.specs.Limits.{many_rows};
ghost use Rattle.rules.specs.Bytes.{same, any};
ghost use Rattle.netlist.specs.Rows.{name_column, kind_at, name_at, names_between};
ghost use Rattle.netlist.specs.Kinds.{is_kind};

use context::kinds::CELL_KIND;
use names::same_bytes;
use wires::{bytes_at, column};

// The columns of a row: its kind, and where its name starts, which in the row of a cell stands behind its type.
const KIND: usize = 0;

const NAME: usize = 1;

const CELL_NAME: usize = 3;

// The kinds of a constant in a row: a value, an integer, a string.
pub const VALUE_CONSTANT: u32 = 1;

pub const INTEGER_CONSTANT: u32 = 2;

pub const STRING_CONSTANT: u32 = 3;

// One to four kinds of statement by their codes: of fewer than four, one is repeated.
#[derive(Clone, Copy)]
pub struct Kinds {
    pub a: u32,
    pub b: u32,
    pub c: u32,
    pub d: u32,
}

fn kind_at(rows: &[u32], row: usize) -> u32
    requires { row < many_rows }
    ensures { result ≡ kind_at rows.now row }
{
    column(rows, row, KIND)
}

// A cell's type stands before its name.
fn name_column(kind: u32) -> usize
    ensures { result ≡ name_column kind }
{
    if kind == CELL_KIND { CELL_NAME } else { NAME }
}

fn name_at<'a>(names: &'a [u8], rows: &[u32], row: usize) -> &'a [u8]
    requires { row < many_rows }
    ensures { result.now ≡ name_at names.now rows.now row }
{
    let c = name_column(kind_at(rows, row));
    bytes_at(names, rows, row, c)
}

pub fn row_kind(rows: &[u32], k: u32) -> u32
    ensures { result ≡ kind_at rows.now k }
{
    kind_at(rows, k as usize)
}

// The statement's own name.
pub fn row_name<'a>(names: &'a [u8], rows: &[u32], k: u32) -> &'a [u8]
    ensures { result.now ≡ name_at names.now rows.now k }
{
    name_at(names, rows, k as usize)
}

fn is_kind(kinds: Kinds, kind: u32) -> bool
    ensures { result ≡ is_kind kinds kind }
{
    kinds.a == kind || kinds.b == kind || kinds.c == kind || kinds.d == kind
}

// The kind first, which is one word; then the name. As part of the searches, which ask it of each row.
#[inline(always)]
pub fn has_name(names: &[u8], rows: &[u32], row: usize, kinds: Kinds, name: &[u8]) -> bool
    requires { row < many_rows }
    ensures { result ≡ is_kind kinds (kind_at rows.now row) && same name.now (name_at names.now rows.now row) }
{
    is_kind(kinds, kind_at(rows, row)) && same_bytes(name, name_at(names, rows, row))
}

// Whether a statement of these kinds, in count rows from `from` on, has this name.
pub fn name_taken(
    names: &[u8],
    rows: &[u32],
    from: u32,
    count: u32,
    kinds: Kinds,
    name: &[u8],
) -> bool
    ensures { result ≡ any (same name.now) (names_between names.now rows.now (is_kind kinds) from count) }
{
    (0..count).any(|k| has_name(names, rows, from as usize + k as usize, kinds, name))
}
