// A private index of names: rows by the hash of their names, the youngest first. It is made for one call and is no part of design memory.
// heads: for each key one more than the youngest row of that key, or 0; chain: for each row one more than the next older row of its key, or 0.
// The hash of a name goes byte by byte: hash × 31 + byte, modulo 512. A row's key is its name's hash, or 512 where its kind has no name.
// Behind these, in the same two tables, stand the heads and the chain of the rows of wires.
#![tactic(auto)]

ghost use Rattle.std.specs.Prelude.{◌≡◌, ◌+◌, ◌<◌, ◌≤◌, cond, eqb, length, get_or, set};
ghost use Rattle.netlist.specs.Kinds.{has_name};
ghost use Rattle.name_index.specs.Index.{hash_of, key_at, wire_key, row_room, wire_room, Indexed, LinesIndexed};

use context::kinds::{AUTOIDX_KIND, CONNECTION_KIND, END_KIND, STEP_KIND, WIRE_KIND};
use netlist::rows::{row_kind, row_name};
use wires::{WIRE_NAME, bytes_at};

const FACTOR: usize = 31;

const HASHES: usize = 512;

// The key of a row whose kind has no name: no name has this hash.
const NAMELESS: usize = 512;

// The heads of an index of rows: one for each hash, and one for the rows without a name. Those of the wires may stand behind them.
pub const ROW_HEADS: usize = 513;

// Its chain: a place for each of a file's rows, and one more. That of the wires may stand behind it.
pub const ROW_CHAIN: usize = 6882;

// Both together: as many heads again, and places for 512 wires and one more.
pub const ALL_HEADS: usize = 1026;

pub const ALL_CHAIN: usize = 7395;

// Below 512.
pub fn hash(name: &[u8]) -> usize
    ensures { result ≡ hash_of name.now }
{
    let mut h: usize = 0;
    for &b in name {
        h = (h * FACTOR + b as usize) % HASHES;
    }
    h
}

// One row more of the key h: its place in the chain, and one more than its number.
pub fn put(heads: &mut [u32], chain: &mut [u32], at: usize, h: usize, more: u32)
    requires { (h < length heads.old) × (at < length chain.old) }
    ensures { (heads.new ≡ set heads.old h more) × (chain.new ≡ set chain.old at (get_or heads.old h 0)) }
{
    chain[at] = heads[h];
    heads[h] = more;
}

// All kinds have a name but these.
fn is_named(kind: u32) -> bool
    ensures { result ≡ has_name kind }
{
    kind != AUTOIDX_KIND && kind != CONNECTION_KIND && kind != END_KIND && kind != STEP_KIND
}

fn row_key(names: &[u8], rows: &[u32], row: u32) -> usize
    ensures { result ≡ key_at names.now rows.now row }
{
    if is_named(row_kind(rows, row)) {
        return hash(row_name(names, rows, row));
    }
    NAMELESS
}

// The row behind those that are indexed.
pub fn index_row(names: &[u8], rows: &[u32], heads: &mut [u32], chain: &mut [u32], row: u32)
    requires indexed { Indexed heads.old chain.old (key_at names.now rows.now) row }
    requires row_in_bounds { (row < length chain.old) × (row < 4294967295) }
    ensures indexed_2 { Indexed heads.new chain.new (key_at names.now rows.now) (row + 1) }
    ensures chain_len_unchanged { length chain.new ≡ length chain.old }
{
    let h = row_key(names, rows, row);
    put(heads, chain, row as usize, h, row + 1);
}

// The line behind those that are indexed, by its kind: its row and, where it is a wire, the wire's.
pub fn index_line(
    names: &[u8],
    wires: &[u32],
    rows: &[u32],
    heads: &mut [u32],
    chain: &mut [u32],
    row: u32,
    wire: u32,
    kind: u32,
)
    requires lines_indexed { LinesIndexed heads.old chain.old names.now wires.now rows.now row wire }
    requires row_lt_row_room { (row < row_room) × (wire < wire_room) }
    ensures { LinesIndexed heads.new chain.new names.now wires.now rows.now (row + 1) (wire + cond (eqb kind 5) 1 0) }
{
    let key = row_key(names, rows, row);
    put(heads, chain, row as usize, key, row + 1);
    if kind != WIRE_KIND {
        return;
    }
    let at = wire as usize;
    let g = hash(bytes_at(names, wires, at, WIRE_NAME));
    put(heads, chain, ROW_CHAIN + at, ROW_HEADS + g, wire + 1);
}

// An index of the first wires by their own names.
pub fn index_wires(names: &[u8], wires: &[u32], heads: &mut [u32], chain: &mut [u32], count: u32)
    requires indexed { Indexed heads.old chain.old (wire_key names.now wires.now) 0 }
    requires count_in_bounds { count ≤ length chain.old }
    ensures { Indexed heads.new chain.new (wire_key names.now wires.now) count }
{
    for k in 0..count {
        let h = hash(bytes_at(names, wires, k as usize, WIRE_NAME));
        put(heads, chain, k as usize, h, k + 1);
    }
}
