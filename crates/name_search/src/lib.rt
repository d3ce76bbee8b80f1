// The search of names in an index of them (name_index): of the rows with the name's hash only, the youngest first.
#![tactic(auto)]

ghost use Rattle.std.specs.Prelude.{◌≡◌, ◌+◌};
ghost use Rattle.rules.specs.Bytes.{same, any};
ghost use Rattle.netlist.specs.Rows.{names_between};
ghost use Rattle.netlist.specs.Kinds.{is_kind};
ghost use Rattle.netlist.specs.Found.{found_in};
ghost use Rattle.context.specs.Place.{Bounds};
ghost use Rattle.wires.specs.Found.{FoundIs};
ghost use Rattle.name_index.specs.Index.{key_at, Named, Indexed, WiresIndexed};

use context::place::Place;
use name_index::{ROW_CHAIN, ROW_HEADS, hash};
use names::same_bytes;
use netlist::rows::{Kinds, has_name};
use netlist::spaces::{space_from, space_kinds};
use numbers::kinds::WireNumber;
use wires::{FoundWire, WIRE_NAME, WIRE_WIDTH, bytes_at, column};

// Whether a statement of these kinds, in count rows from `from` on, has this name.
pub fn indexed_taken(
    names: &[u8],
    rows: &[u32],
    heads: &[u32],
    chain: &[u32],
    from: u32,
    count: u32,
    kinds: Kinds,
    name: &[u8],
) -> bool
    requires indexed { Indexed heads.now chain.now (key_at names.now rows.now) (from + count) }
    requires named { Named rows.now (is_kind kinds) from count }
    ensures { result ≡ any (same name.now) (names_between names.now rows.now (is_kind kinds) from count) }
{
    let h = hash(name);
    let mut at = heads[h];
    // Which row comes next stands in the chain.
    while from < at {
        let row = (at - 1) as usize;
        if has_name(names, rows, row, kinds, name) {
            return true;
        }
        at = chain[row];
    }
    false
}

// Whether a statement's name of this kind, at this place, is taken in its name space.
pub fn indexed_found(
    names: &[u8],
    rows: &[u32],
    heads: &[u32],
    chain: &[u32],
    place: Place,
    kind: u32,
    name: &[u8],
) -> bool
    requires bounds { Bounds place }
    requires indexed { Indexed heads.now chain.now (key_at names.now rows.now) place.rows }
    ensures { result ≡ found_in names.now rows.now place kind name.now }
{
    let from = space_from(place, kind);
    // Of a row without a name the columns of a name say nothing: it is not hashed.
    if from == place.rows {
        return false;
    }
    indexed_taken(
        names,
        rows,
        heads,
        chain,
        from,
        place.rows - from,
        space_kinds(kind),
        name,
    )
}

// The last of the wires in count rows from first on that has this name.
pub fn indexed_wire(
    names: &[u8],
    wires: &[u32],
    heads: &[u32],
    chain: &[u32],
    first: u32,
    count: u32,
    name: &[u8],
) -> Option<FoundWire>
    requires { WiresIndexed heads.now chain.now names.now wires.now (first + count) }
    ensures { FoundIs names.now wires.now first count name.now result }
{
    let h = hash(name);
    let mut at = heads[ROW_HEADS + h];
    // Which row comes next stands in the chain.
    while first < at {
        let last = at - 1;
        let row = last as usize;
        if same_bytes(bytes_at(names, wires, row, WIRE_NAME), name) {
            return Some(FoundWire {
                number: WireNumber(last - first),
                width: column(wires, row, WIRE_WIDTH),
            });
        }
        at = chain[ROW_CHAIN + row];
    }
    None
}
