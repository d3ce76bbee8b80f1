// Design memory opened, and the calls that change it: rename and undo. They take the lent tables, and the counts of the session card by value, in any
// state.
#![tactic(auto)]

ghost use Rattle.std.specs.Prelude.{◌≡◌, ◌+◌, ◌-◌, ◌*◌, ◌≤◌, length, replicate};
ghost use Rattle.rules.specs.Limits.{longest_name};
ghost use Rattle.rules.specs.Session.{Call};
ghost use Rattle.rules.specs.Layout.{rename_row};
ghost use Rattle.tables.specs.Store.{store};
ghost use Rattle.wires.specs.Rows.{column};
ghost use Rattle.netlist.specs.Designs.{lent_in};
ghost use Rattle.netlist.specs.Results.{lent, result as outcome};
ghost use Rattle.session.specs.Called.{CalledAs};
ghost use Rattle.session.specs.Steps.{Holding, OpenedIs};

use context::kinds::RENAME_KIND;
use context::place::Place;
use memory_check::judge_memory;
use netlist::design::Design;
use netlist::lengths::right_lengths;
use netlist::results::{CallResult, DAMAGED, NOTHING_TO_UNDO, WRONG_LENGTH};
use numbers::kinds::{ModuleNumber, WireNumber};
use rename_rules::judge_rename;
use tables::{ROW_WORDS, Row, put_row, store, word};
use zeros::zero_bytes;

// The column of a rename's row where its new name's start stands.
const RENAME_NAME: usize = 1;

// Memory that holds a design, whose statements end at a place; or the refusal's number.
pub fn open_memory(design: &Design) -> Result<Place, u32>
    ensures { OpenedIs (lent_in design.now) result }
{
    if !right_lengths(
        design.names.len(),
        design.strings.len(),
        design.bits.len(),
        design.wires.len(),
        design.rows.len(),
    ) {
        return Err(WRONG_LENGTH);
    }
    let behind = judge_memory(design).ok_or(DAMAGED)?;
    Ok(behind.place)
}

// The new name behind the names, and the rename's row.
fn put_rename(
    names: &mut [u8],
    rows: &mut [u32],
    row: u32,
    room: u32,
    m: ModuleNumber,
    w: WireNumber,
    new: &[u8],
)
    requires { (room + length new.now ≤ length names.old) × (8 * row + 8 ≤ length rows.old) × (length new.now ≤ longest_name) }
    ensures names_after { names.new ≡ store names.old room new.now }
    ensures rows_after { rows.new ≡ store rows.old (8 * row) (rename_row room (record { module_number = m.0; wire_number = w.0; new_name = new.now })) }
{
    store(names, room as usize, new);
    put_row(
        rows,
        ROW_WORDS * row as usize,
        Row {
            kind: RENAME_KIND,
            a: room,
            b: new.len() as u32,
            c: m.0,
            d: w.0,
            e: 0,
            f: 0,
            g: 0,
        },
    );
}

fn rename_open(
    names: &mut [u8],
    strings: &[u8],
    bits: &[u32],
    wires: &[u32],
    rows: &mut [u32],
    place: Place,
    renames: u32,
    room: u32,
    m: ModuleNumber,
    w: WireNumber,
    new: &[u8],
) -> CallResult
    requires { Holding (lent names.old strings.now bits.now wires.now rows.old renames room) place }
    ensures { CalledAs (lent names.old strings.now bits.now wires.now rows.old renames room) (Call.rename (record { module_number = m.0; wire_number = w.0; new_name = new.now })) (outcome result.number result.place (lent names.new strings.now bits.now wires.now rows.new result.renames result.room)) }
{
    let design = Design {
        names,
        strings,
        bits,
        wires,
        rows,
        renames,
        room,
    };
    if let Err(number) = judge_rename(&design, place, renames, room, m, w, new) {
        return CallResult {
            number,
            place: 0,
            renames,
            room,
        };
    }
    put_rename(names, rows, place.rows + renames, room, m, w, new);
    CallResult {
        number: 0,
        place: 0,
        renames: renames + 1,
        room: room + new.len() as u32,
    }
}

pub fn rename(
    names: &mut [u8],
    strings: &[u8],
    bits: &[u32],
    wires: &[u32],
    rows: &mut [u32],
    renames: u32,
    room: u32,
    m: ModuleNumber,
    w: WireNumber,
    new: &[u8],
) -> CallResult
    ensures { CalledAs (lent names.old strings.now bits.now wires.now rows.old renames room) (Call.rename (record { module_number = m.0; wire_number = w.0; new_name = new.now })) (outcome result.number result.place (lent names.new strings.now bits.now wires.now rows.new result.renames result.room)) }
{
    let design = Design {
        names,
        strings,
        bits,
        wires,
        rows,
        renames,
        room,
    };
    match open_memory(&design) {
        Ok(place) => rename_open(
            names, strings, bits, wires, rows, place, renames, room, m, w, new,
        ),
        Err(number) => CallResult {
            number,
            place: 0,
            renames,
            room,
        },
    }
}

// Zeros over a rename's row and over its name, the last one; where the name started.
fn take_rename(names: &mut [u8], rows: &mut [u32], row: u32, room: u32) -> u32
    requires { (column rows.old row 1 ≤ room) × (room ≤ length names.old) × (8 * row + 8 ≤ length rows.old) }
    ensures r_value { result ≡ column rows.old row 1 }
    ensures names_after { names.new ≡ store names.old (column rows.old row 1) (replicate (room - column rows.old row 1) 0) }
    ensures rows_after { rows.new ≡ store rows.old (8 * row) (replicate 8 0) }
{
    let at = ROW_WORDS * row as usize;
    let start = word(rows, at + RENAME_NAME);
    let from = start as usize;
    let to = room as usize;
    zero_bytes(names, from, to);
    put_row(
        rows,
        at,
        Row {
            kind: 0,
            a: 0,
            b: 0,
            c: 0,
            d: 0,
            e: 0,
            f: 0,
            g: 0,
        },
    );
    start
}

fn undo_open(
    names: &mut [u8],
    strings: &[u8],
    bits: &[u32],
    wires: &[u32],
    rows: &mut [u32],
    place: Place,
    renames: u32,
    room: u32,
) -> CallResult
    requires { Holding (lent names.old strings.now bits.now wires.now rows.old renames room) place }
    ensures { CalledAs (lent names.old strings.now bits.now wires.now rows.old renames room) Call.undo (outcome result.number result.place (lent names.new strings.now bits.now wires.now rows.new result.renames result.room)) }
{
    if renames == 0 {
        return CallResult {
            number: NOTHING_TO_UNDO,
            place: 0,
            renames,
            room,
        };
    }
    let left = renames - 1;
    let start = take_rename(names, rows, place.rows + left, room);
    CallResult {
        number: 0,
        place: 0,
        renames: left,
        room: start,
    }
}

pub fn undo(
    names: &mut [u8],
    strings: &[u8],
    bits: &[u32],
    wires: &[u32],
    rows: &mut [u32],
    renames: u32,
    room: u32,
) -> CallResult
    ensures { CalledAs (lent names.old strings.now bits.now wires.now rows.old renames room) Call.undo (outcome result.number result.place (lent names.new strings.now bits.now wires.now rows.new result.renames result.room)) }
{
    let design = Design {
        names,
        strings,
        bits,
        wires,
        rows,
        renames,
        room,
    };
    match open_memory(&design) {
        Ok(place) => { undo_open(names, strings, bits, wires, rows, place, renames, room) }
        Err(number) => CallResult {
            number,
            place: 0,
            renames,
            room,
        },
    }
}
