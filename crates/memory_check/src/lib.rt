// Whether design memory, whatever it contains, holds a design with its standing renames: refusal 3 otherwise.
#![tactic(auto)]

ghost use Rattle.std.specs.Prelude.{◌≡◌, ◌+◌, ◌≤◌, length};
ghost use Rattle.rules.specs.Limits.{most_wires, names_length};
ghost use Rattle.netlist.specs.Designs.{lent_in};
ghost use Rattle.netlist.specs.Lengths.{right_sizes};
ghost use Rattle.name_index.specs.Index.{key_at, wire_key, row_room, Indexed};
ghost use Rattle.memory_check.specs.Renamed.{is_rename, RenameIs, RenamesAre};
ghost use Rattle.memory_check.specs.Held.{rest_zero, HeldIs};

use context::kinds::RENAME_KIND;
use context::place::Place;
use context::sizes::Standing;
use name_index::{ROW_CHAIN, ROW_HEADS, index_wires};
use netlist::design::Design;
use netlist::lengths::right_lengths;
use numbers::kinds::{ModuleNumber, WireNumber};
use rename_rules::indexed_rename;
use replay::replay;
use scanner::parts::part;
use tables::{ROW_WORDS, Row, get_row};
use zeros::{zero_bytes_from, zero_from};

// The chain of an index of wires: a place for each wire of a design.
const WIRE_CHAIN: usize = 512;

// A rename's row, whose name starts behind the bytes that are used.
fn is_rename(x: Row, used: u32) -> bool
    ensures { result ≡ is_rename x used }
{
    x.kind == RENAME_KIND && x.a == used && x.e == 0 && x.f == 0 && x.g == 0
}

// One more rename, behind i of them: the bytes of names that are used behind it.
fn one_rename(
    design: &Design,
    heads: &[u32],
    chain: &[u32],
    wire_heads: &[u32],
    wire_chain: &[u32],
    place: Place,
    i: u32,
    used: u32,
) -> Option<u32>
    requires names_len_bound { length design.now.names.now ≤ names_length }
    requires indexed { Indexed heads.now chain.now (key_at design.now.names.now design.now.rows.now) place.rows }
    requires indexed_2 { Indexed wire_heads.now wire_chain.now (wire_key design.now.names.now design.now.wires.now) place.wires }
    ensures { RenameIs design.now.names.now design.now.wires.now design.now.rows.now place i used result }
{
    let at = ROW_WORDS * (place.rows as usize + i as usize);
    if design.rows.len() < at + ROW_WORDS {
        return None;
    }
    let x = get_row(design.rows, at);
    if !is_rename(x, used) {
        return None;
    }
    let start = used as usize;
    let end = start + x.b as usize;
    if design.names.len() < end {
        return None;
    }
    let new = part(design.names, start, end);
    indexed_rename(
        design,
        heads,
        chain,
        wire_heads,
        wire_chain,
        place,
        i,
        used,
        ModuleNumber(x.c),
        WireNumber(x.d),
        new,
    )
    .ok()?;
    Some(end as u32)
}

// So many renames behind the statements, each of which may stand behind those before it: the bytes of names that are used behind them.
fn all_renames(
    design: &Design,
    heads: &[u32],
    chain: &[u32],
    wire_heads: &[u32],
    wire_chain: &[u32],
    place: Place,
    renames: u32,
    used: u32,
) -> Option<u32>
    requires names_len_bound { length design.now.names.now ≤ names_length }
    requires indexed { Indexed heads.now chain.now (key_at design.now.names.now design.now.rows.now) place.rows }
    requires indexed_2 { Indexed wire_heads.now wire_chain.now (wire_key design.now.names.now design.now.wires.now) place.wires }
    ensures { RenamesAre design.now.names.now design.now.wires.now design.now.rows.now place renames used result }
{
    let mut room = used;
    for i in 0..renames {
        room = one_rename(design, heads, chain, wire_heads, wire_chain, place, i, room)?;
    }
    Some(room)
}

// The same, with an index of the wires where renames stand.
fn standing_renames(
    design: &Design,
    heads: &[u32],
    chain: &[u32],
    place: Place,
    renames: u32,
    used: u32,
) -> Option<u32>
    requires names_len_bound { (length design.now.names.now ≤ names_length) × (place.wires ≤ most_wires) }
    requires indexed { Indexed heads.now chain.now (key_at design.now.names.now design.now.rows.now) place.rows }
    ensures { RenamesAre design.now.names.now design.now.wires.now design.now.rows.now place renames used result }
{
    if renames == 0 {
        return Some(used);
    }
    let mut wire_heads = [0u32; ROW_HEADS];
    let mut wire_chain = [0u32; WIRE_CHAIN];
    index_wires(
        design.names,
        design.wires,
        &mut wire_heads,
        &mut wire_chain,
        place.wires,
    );
    all_renames(
        design,
        heads,
        chain,
        &wire_heads,
        &wire_chain,
        place,
        renames,
        used,
    )
}

// The words of bits that values and signals use.
fn bits_used(values: u32, signals: u32) -> usize
    ensures { result ≡ values + signals }
{
    values as usize + signals as usize
}

// Unused room is zero.
fn rest_is_zero(design: &Design, behind: Standing) -> bool
    ensures { result ≡ rest_zero (lent_in design.now) behind.place behind.sums }
{
    let place = behind.place;
    let sums = behind.sums;
    zero_bytes_from(design.names, design.room as usize)
        && zero_bytes_from(design.strings, sums.string_bytes as usize)
        && zero_from(design.bits, bits_used(sums.value_bits, sums.signal_bits))
        && zero_from(design.wires, ROW_WORDS * place.wires as usize)
        && zero_from(
            design.rows,
            ROW_WORDS * (place.rows as usize + design.renames as usize),
        )
}

// Whether the tables have their exact lengths.
fn right_tables(design: &Design) -> bool
    ensures { result ≡ right_sizes (length design.now.names.now) (length design.now.strings.now) (length design.now.bits.now) (length design.now.wires.now) (length design.now.rows.now) }
{
    right_lengths(
        design.names.len(),
        design.strings.len(),
        design.bits.len(),
        design.wires.len(),
        design.rows.len(),
    )
}

// What `judge_memory` answers, with an index of the names, of no row yet.
fn judge_indexed(design: &Design, heads: &mut [u32], chain: &mut [u32]) -> Option<Standing>
    requires indexed { Indexed heads.old chain.old (key_at design.now.names.now design.now.rows.now) 0 }
    requires row_room_in_bounds { row_room ≤ length chain.old }
    ensures { HeldIs (lent_in design.now) result }
{
    if !right_tables(design) {
        return None;
    }
    let behind = replay(design, heads, chain)?;
    let used = standing_renames(
        design,
        heads,
        chain,
        behind.place,
        design.renames,
        behind.sums.name_bytes,
    )?;
    if used != design.room {
        return None;
    }
    if rest_is_zero(design, behind) {
        return Some(behind);
    }
    None
}

// The place and the sums behind the statements that the memory holds; nothing for damaged memory, which no file read and no renames accepted after it
// leave.
pub fn judge_memory(design: &Design) -> Option<Standing>
    ensures { HeldIs (lent_in design.now) result }
{
    let mut heads = [0u32; ROW_HEADS];
    let mut chain = [0u32; ROW_CHAIN];
    judge_indexed(design, &mut heads, &mut chain)
}
