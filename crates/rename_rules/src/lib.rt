// Whether a rename may stand behind the renames that stand already, by the tables that hold the design with them.
// All of it is total: a word past a table's end counts as 0, and a span past its end is cut.
#![tactic(auto)]

ghost use Rattle.std.specs.Prelude.{◌≡◌, ◌+◌, ◌<◌, ◌≤◌};
ghost use Rattle.rules.specs.Limits.{longest_name, many_rows};
ghost use Rattle.rules.specs.Bytes.{same, any};
ghost use Rattle.rules.specs.Session.{is_port};
ghost use Rattle.wires.specs.Rows.{wire_of};
ghost use Rattle.wire_names.specs.Now.{wires_in};
ghost use Rattle.name_index.specs.Index.{key_at, wire_key, Indexed};
ghost use Rattle.rename_rules.specs.Search.{search_now, named, Renamed, keeps_name, row_keeps};
ghost use Rattle.rename_rules.specs.Judged.{object_taken, name_taken, exceeds_room, module_by, ModuleIndexed, refusal, number_by, judged};

use context::kinds::{CELL_KIND, MEMORY_KIND, PROCESS_KIND};
use context::place::Place;
use context::sizes::MOST_RENAMES;
use modules::{module_rows, module_wires};
use name_index::hash;
use name_search::indexed_taken;
use names::{legal, same_bytes};
use netlist::design::Design;
use netlist::lengths::NAMES_LENGTH;
use netlist::results::{BAD_TOKEN, NOT_THERE, PORT_RENAME, TAKEN_NAME, TOO_MANY};
use netlist::rows::{Kinds, name_taken};
use numbers::kinds::{ModuleNumber, WireNumber};
use tables::{ROW_WORDS, word};
use wire_names::{Module, last_rename};
use wires::{WIRE_FLAGS, WIRE_NAME, bytes_at, column};

// The columns of a rename's row: its new name, whose length stands behind its start, and its wire.
const RENAME_NAME: usize = 1;

const RENAME_WIRE: usize = 4;

// What a direction counts in the flags of a wire, above `upto` and `signed`.
const DIRECTION_FLAG: u32 = 4;

// The last direction of a port, `inout`.
const LAST_DIRECTION: u32 = 3;

// What shares the names of a module with its wires.
const OBJECT_KINDS: Kinds = Kinds {
    a: MEMORY_KIND,
    b: CELL_KIND,
    c: PROCESS_KIND,
    d: PROCESS_KIND,
};

// Whether the wire in a row is a port.
fn is_port(wires: &[u32], row: usize) -> bool
    requires { row < many_rows }
    ensures { result ≡ is_port (wire_of wires.now row) }
{
    let direction = word(wires, ROW_WORDS * row + WIRE_FLAGS) / DIRECTION_FLAG;
    direction != 0 && direction <= LAST_DIRECTION
}

// The least wire so far; or the wire of rename row i, where it is less, has its name by that rename, and the name is this one.
fn renamed_by(design: &Design, m: Module, name: &[u8], i: u32, least: u32) -> u32
    requires renamed { Renamed design.now.names.now design.now.rows.now m name.now i least }
    requires i_lt_renames { i < m.renames }
    ensures { Renamed design.now.names.now design.now.rows.now m name.now (i + 1) result }
{
    let row = m.from as usize + i as usize;
    let wire = column(design.rows, row, RENAME_WIRE);
    if least <= wire {
        return least;
    }
    if !same_bytes(bytes_at(design.names, design.rows, row, RENAME_NAME), name) {
        return least;
    }
    if last_rename(design.rows, m.from, m.renames, m.number, WireNumber(wire)) != i + 1 {
        return least;
    }
    wire
}

// The least wire whose last rename gives it this name; how many wires there are, if there is none.
fn renamed_to(design: &Design, m: Module, name: &[u8]) -> u32
    ensures { Renamed design.now.names.now design.now.rows.now m name.now m.renames result }
{
    let mut least = m.wires;
    for i in 0..m.renames {
        least = renamed_by(design, m, name, i, least);
    }
    least
}

// Whether a wire has this name from its own line, and no rename.
fn keeps_name(design: &Design, m: Module, wire: WireNumber, name: &[u8]) -> bool
    ensures { result ≡ keeps_name design.now.names.now design.now.wires.now design.now.rows.now m name.now wire.0 }
{
    let own = bytes_at(
        design.names,
        design.wires,
        m.first as usize + wire.0 as usize,
        WIRE_NAME,
    );
    same_bytes(own, name) && last_rename(design.rows, m.from, m.renames, m.number, wire) == 0
}

// The first wire of the module that has this name now.
pub fn find_named(design: &Design, m: Module, name: &[u8]) -> Option<WireNumber>
    ensures { named result ≡ search_now design.now.names.now design.now.wires.now design.now.rows.now m name.now m.wires 0 }
{
    let least = renamed_to(design, m, name);
    for k in 0..least {
        if keeps_name(design, m, WireNumber(k), name) {
            return Some(WireNumber(k));
        }
    }
    if least < m.wires {
        return Some(WireNumber(least));
    }
    None
}

// Whether a wire of the module has this name now.
fn wire_name_taken(design: &Design, m: Module, name: &[u8]) -> bool
    ensures { result ≡ any (λ x. same name.now x.0) (wires_in design.now.names.now design.now.wires.now design.now.rows.now m) }
{
    find_named(design, m, name).is_some()
}

// Whether a memory, a cell or a process of the module has this name.
fn object_name_taken(design: &Design, total: u32, m: ModuleNumber, name: &[u8]) -> bool
    ensures { result ≡ object_taken design.now.names.now design.now.rows.now total m.0 name.now }
{
    let r = module_rows(design.rows, total, m);
    name_taken(
        design.names,
        design.rows,
        r.first,
        r.count,
        OBJECT_KINDS,
        name,
    )
}

// Whether the module's name space has this name now.
fn is_taken(design: &Design, m: Module, name: &[u8]) -> bool
    ensures { result ≡ name_taken design.now.names.now design.now.wires.now design.now.rows.now m name.now }
{
    wire_name_taken(design, m, name) || object_name_taken(design, m.from, m.number, name)
}

// Whether the wire in a row is the module's, has this name from its own line, and no rename.
fn row_keeps_name(design: &Design, m: Module, row: u32, name: &[u8]) -> bool
    requires { m.first ≤ row }
    ensures { result ≡ row_keeps design.now.names.now design.now.wires.now design.now.rows.now m name.now row }
{
    let k = row - m.first;
    k < m.wires && keeps_name(design, m, WireNumber(k), name)
}

// The answer of `wire_name_taken` where no rename gives the name: of the wires with the name's hash only.
fn indexed_kept(design: &Design, heads: &[u32], chain: &[u32], m: Module, name: &[u8]) -> bool
    requires module_indexed { ModuleIndexed heads.now chain.now design.now.names.now design.now.wires.now m }
    requires renamed { Renamed design.now.names.now design.now.rows.now m name.now m.renames m.wires }
    ensures { result ≡ any (λ x. same name.now x.0) (wires_in design.now.names.now design.now.wires.now design.now.rows.now m) }
{
    let h = hash(name);
    let mut at = heads[h];
    // The chain tells behind each row the one before it with the same hash.
    while m.first < at {
        let row = at - 1;
        if row_keeps_name(design, m, row, name) {
            return true;
        }
        at = chain[row as usize];
    }
    false
}

// The answer of `object_name_taken`. Only where a memory, a cell or a process of any module has the name the module's own are asked.
fn indexed_object(
    design: &Design,
    heads: &[u32],
    chain: &[u32],
    total: u32,
    m: ModuleNumber,
    name: &[u8],
) -> bool
    requires { Indexed heads.now chain.now (key_at design.now.names.now design.now.rows.now) total }
    ensures { result ≡ object_taken design.now.names.now design.now.rows.now total m.0 name.now }
{
    indexed_taken(
        design.names,
        design.rows,
        heads,
        chain,
        0,
        total,
        OBJECT_KINDS,
        name,
    ) && object_name_taken(design, total, m, name)
}

// The answer of `is_taken`, over an index of the names.
fn indexed_is_taken(
    design: &Design,
    heads: &[u32],
    chain: &[u32],
    wire_heads: &[u32],
    wire_chain: &[u32],
    m: Module,
    name: &[u8],
) -> bool
    requires indexed { Indexed heads.now chain.now (key_at design.now.names.now design.now.rows.now) m.from }
    requires module_indexed { ModuleIndexed wire_heads.now wire_chain.now design.now.names.now design.now.wires.now m }
    ensures { result ≡ name_taken design.now.names.now design.now.wires.now design.now.rows.now m name.now }
{
    if renamed_to(design, m, name) < m.wires {
        return true;
    }
    indexed_kept(design, wire_heads, wire_chain, m, name)
        || indexed_object(design, heads, chain, m.from, m.number, name)
}

// 64 renames stand, or the names pass 16,384 bytes.
fn exceeds_room(standing: u32, room: u32, size: usize) -> bool
    requires { size ≤ longest_name }
    ensures { result ≡ exceeds_room standing room size }
{
    MOST_RENAMES <= standing || NAMES_LENGTH < room as usize + size
}

// The module of this number, with the renames that stand.
pub fn module_of(wires: &[u32], place: Place, standing: u32, m: ModuleNumber) -> Module
    ensures { result ≡ module_by wires.now place standing m.0 }
{
    let own = module_wires(wires, place.wires, m);
    Module {
        number: m,
        first: own.first,
        wires: own.count,
        from: place.rows,
        renames: standing,
    }
}

// A rename's refusal, by the lowest of 4, 6, 8, 9 and 11. `taken`: whether the module's name space has the name.
fn judge_by(
    wires: &[u32],
    m: Module,
    room: u32,
    w: WireNumber,
    new: &[u8],
    taken: bool,
) -> Result<(), u32>
    ensures { result ≡ refusal (number_by wires.now m room w.0 new.now taken) }
{
    if !legal(new) {
        return Err(BAD_TOKEN);
    }
    let wire = w.0;
    if m.wires <= wire {
        return Err(NOT_THERE);
    }
    if is_port(wires, m.first as usize + wire as usize) {
        return Err(PORT_RENAME);
    }
    if taken {
        return Err(TAKEN_NAME);
    }
    if exceeds_room(m.renames, room, new.len()) {
        return Err(TOO_MANY);
    }
    Ok(())
}

// Whether a rename may stand behind those that stand, or the number of its refusal.
pub fn judge_rename(
    design: &Design,
    place: Place,
    standing: u32,
    room: u32,
    m: ModuleNumber,
    w: WireNumber,
    new: &[u8],
) -> Result<(), u32>
    ensures { result ≡ refusal (judged design.now.names.now design.now.wires.now design.now.rows.now place standing room m.0 w.0 new.now) }
{
    let module = module_of(design.wires, place, standing, m);
    let taken = is_taken(design, module, new);
    judge_by(design.wires, module, room, w, new, taken)
}

// The same, over an index of all rows and one of all wires.
pub fn indexed_rename(
    design: &Design,
    heads: &[u32],
    chain: &[u32],
    wire_heads: &[u32],
    wire_chain: &[u32],
    place: Place,
    standing: u32,
    room: u32,
    m: ModuleNumber,
    w: WireNumber,
    new: &[u8],
) -> Result<(), u32>
    requires indexed { Indexed heads.now chain.now (key_at design.now.names.now design.now.rows.now) place.rows }
    requires indexed_2 { Indexed wire_heads.now wire_chain.now (wire_key design.now.names.now design.now.wires.now) place.wires }
    ensures { result ≡ refusal (judged design.now.names.now design.now.wires.now design.now.rows.now place standing room m.0 w.0 new.now) }
{
    let module = module_of(design.wires, place, standing, m);
    let taken = indexed_is_taken(design, heads, chain, wire_heads, wire_chain, module, new);
    judge_by(design.wires, module, room, w, new, taken)
}
