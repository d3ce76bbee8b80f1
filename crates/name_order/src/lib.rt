// The sorted index of a module's wires, by their names now: told by one pass, searched by halving, and built.
// A table of the index holds wire numbers of the module, one for each of its wires.
#![tactic(auto)]

ghost use Rattle.std.specs.Prelude.{◌≡◌, [], ◌∷◌, ◌++◌, map, ◌+◌, ◌≤◌, ◌<◌, length, take, drop};
ghost use Rattle.rules.specs.Bytes.{same};
ghost use Rattle.rules.specs.Sorted.{before};
ghost use Rattle.lists.specs.Lists.{up};
ghost use Rattle.tables.specs.Store.{store};
ghost use Rattle.byte_order.specs.Order.{Ordered, Apart, Halved, place, index_up, scan_up, stands_next};
ghost use Rattle.name_order.specs.Named.{name_in, sought, NextHalves};

use byte_order::comes_before;
use names::same_bytes;
use netlist::design::Design;
use numbers::kinds::WireNumber;
use wire_names::{Module, name_now};

// What is left of an index while it is halved.
#[derive(Clone, Copy)]
struct Halves {
    low: usize,
    high: usize,
}

// The name now of the module's wire of this number.
fn name_in<'n>(design: &Design<'n, '_, '_>, m: Module, wire: u32) -> &'n [u8]
    ensures { result.now ≡ name_in design.now.names.now design.now.wires.now design.now.rows.now m wire }
{
    let row = m.first as usize + wire as usize;
    name_now(design, m, WireNumber(wire), row)
}

// Whether the name now of a wire comes before a name.
fn wire_before(design: &Design, m: Module, wire: u32, name: &[u8]) -> bool
    ensures { result ≡ before (name_in design.now.names.now design.now.wires.now design.now.rows.now m wire) name.now }
{
    comes_before(name_in(design, m, wire), name)
}

// One half of what is left.
fn halve(design: &Design, m: Module, index: &[u32], name: &[u8], left: Halves) -> Halves
    requires ordered { Ordered (map (name_in design.now.names.now design.now.wires.now design.now.rows.now m) index.now) }
    requires halved { Halved name.now (map (name_in design.now.names.now design.now.wires.now design.now.rows.now m) index.now) left.low left.high }
    requires low_lt_high { left.low < left.high }
    ensures { NextHalves name.now (map (name_in design.now.names.now design.now.wires.now design.now.rows.now m) index.now) left result }
{
    let middle = left.low + (left.high - left.low) / 2;
    if wire_before(design, m, index[middle], name) {
        return Halves {
            low: middle + 1,
            high: left.high,
        };
    }
    Halves {
        low: left.low,
        high: middle,
    }
}

// How many wires of an index whose names are in order come before a name.
pub fn place_among(design: &Design, m: Module, index: &[u32], name: &[u8]) -> usize
    requires { Ordered (map (name_in design.now.names.now design.now.wires.now design.now.rows.now m) index.now) }
    ensures { result ≡ place name.now (map (name_in design.now.names.now design.now.wires.now design.now.rows.now m) index.now) }
{
    let mut left = Halves {
        low: 0,
        high: index.len(),
    };
    // Which half is left is found, not counted.
    while left.low < left.high {
        left = halve(design, m, index, name, left);
    }
    left.low
}

// The wire of the module that has this name now, by halving its sorted index.
pub fn find_sorted(design: &Design, m: Module, index: &[u32], name: &[u8]) -> Option<WireNumber>
    requires index_value { index.now ≡ index_up (name_in design.now.names.now design.now.wires.now design.now.rows.now m) m.wires 0 }
    requires apart { Apart (up (name_in design.now.names.now design.now.wires.now design.now.rows.now m) m.wires 0) }
    ensures { sought result ≡ scan_up (name_in design.now.names.now design.now.wires.now design.now.rows.now m) name.now m.wires 0 }
{
    let at = place_among(design, m, index, name);
    if index.len() <= at {
        return None;
    }
    let wire = index[at];
    if same_bytes(name_in(design, m, wire), name) {
        return Some(WireNumber(wire));
    }
    None
}

// Whether entry k is a wire of the module, and the name of the entry in front of it comes before its name.
fn stands_next(design: &Design, m: Module, index: &[u32], k: usize) -> bool
    requires { k < length index.now }
    ensures { result ≡ stands_next (name_in design.now.names.now design.now.wires.now design.now.rows.now m) m.wires index.now k }
{
    let wire = index[k];
    if m.wires <= wire {
        return false;
    }
    if k == 0 {
        return true;
    }
    let name = name_in(design, m, wire);
    wire_before(design, m, index[k - 1], name)
}

// Whether an index of as many entries as the module has wires is the sorted one.
pub fn is_sorted(design: &Design, m: Module, index: &[u32]) -> bool
    requires index_len { length index.now ≡ m.wires }
    requires apart { Apart (up (name_in design.now.names.now design.now.wires.now design.now.rows.now m) m.wires 0) }
    ensures { result ≡ same index.now (index_up (name_in design.now.names.now design.now.wires.now design.now.rows.now m) m.wires 0) }
{
    for k in 0..index.len() {
        if !stands_next(design, m, index, k) {
            return false;
        }
    }
    true
}

// Of the entries behind the one at a place, so many move to the front by one, and the wire is put behind them.
fn insert(index: &mut [u32], at: usize, count: usize, wire: u32)
    requires { at + count < length index.old }
    ensures { index.new ≡ store index.old at (take count (drop (at + 1) index.old) ++ wire ∷ []) }
{
    index.copy_within(at + 1..at + 1 + count, at);
    index[at + count] = wire;
}

// The module's sorted index, from `start` on: from its last wire to its first, each is put at its place among those behind it.
pub fn order_module(design: &Design, m: Module, index: &mut [u32], start: usize)
    requires { start + m.wires ≤ length index.old }
    ensures { index.new ≡ store index.old start (index_up (name_in design.now.names.now design.now.wires.now design.now.rows.now m) m.wires 0) }
{
    let end = start + m.wires as usize;
    for wire in (0..m.wires).rev() {
        let at = start + wire as usize;
        let name = name_in(design, m, wire);
        let count = place_among(design, m, &index[at + 1..end], name);
        insert(index, at, count, wire);
    }
}
