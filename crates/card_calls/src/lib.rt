// The calls for other languages that change a design: the session card is lent and changed in place.
#![tactic(auto)]

ghost use Rattle.rules.specs.Session.{Call};
ghost use Rattle.netlist.specs.Results.{result as outcome, lent};
ghost use Rattle.session.specs.Called.{CalledAs};
ghost use Rattle.card.specs.Lent.{lent_with, answered};

use card::{Answer, Card};
use netlist::results::CallResult;
use numbers::kinds::{ModuleNumber, WireNumber};
use session::{rename, undo};

// `session::rename` of plain numbers.
fn rename_by_number(
    names: &mut [u8],
    strings: &[u8],
    bits: &[u32],
    wires: &[u32],
    rows: &mut [u32],
    renames: u32,
    room: u32,
    m: u32,
    w: u32,
    new: &[u8],
) -> CallResult
    ensures { CalledAs (lent names.old strings.now bits.now wires.now rows.old renames room) (Call.rename (record { module_number = m; wire_number = w; new_name = new.now })) (outcome result.number result.place (lent names.new strings.now bits.now wires.now rows.new result.renames result.room)) }
{
    let wire = WireNumber(w);
    rename(
        names,
        strings,
        bits,
        wires,
        rows,
        renames,
        room,
        ModuleNumber(m),
        wire,
        new,
    )
}

#[unsafe(no_mangle)]
pub extern "C" fn skytassel_rename(
    names: &mut [u8],
    strings: &[u8],
    bits: &[u32],
    wires: &[u32],
    rows: &mut [u32],
    card: &mut Card,
    m: u32,
    w: u32,
    new: &[u8],
) -> Answer
    ensures { CalledAs (lent_with card.old names.old strings.now bits.now wires.now rows.old) (Call.rename (record { module_number = m; wire_number = w; new_name = new.now })) (answered result (lent_with card.new names.new strings.now bits.now wires.now rows.new)) }
{
    let renamed = rename_by_number(
        names,
        strings,
        bits,
        wires,
        rows,
        card.renames,
        card.room,
        m,
        w,
        new,
    );
    card.renames = renamed.renames;
    card.room = renamed.room;
    Answer {
        number: renamed.number,
        place: renamed.place,
    }
}

#[unsafe(no_mangle)]
pub extern "C" fn skytassel_undo(
    names: &mut [u8],
    strings: &[u8],
    bits: &[u32],
    wires: &[u32],
    rows: &mut [u32],
    card: &mut Card,
) -> Answer
    ensures { CalledAs (lent_with card.old names.old strings.now bits.now wires.now rows.old) Call.undo (answered result (lent_with card.new names.new strings.now bits.now wires.now rows.new)) }
{
    let undone = undo(names, strings, bits, wires, rows, card.renames, card.room);
    card.renames = undone.renames;
    card.room = undone.room;
    Answer {
        number: undone.number,
        place: undone.place,
    }
}
