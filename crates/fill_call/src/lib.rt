// The call for other languages that fills the design memory from a file: the session card is lent and changed in place.
#![tactic(auto)]

ghost use Rattle.std.specs.Prelude.{◌≡◌};
ghost use Rattle.card.specs.Lent.{lent_with, answered};
ghost use Rattle.reader.specs.Fill.{fill_into};

use card::{Answer, Card};
use reader::fill;

#[unsafe(no_mangle)]
pub extern "C" fn skytassel_fill(
    f: &[u8],
    names: &mut [u8],
    strings: &mut [u8],
    bits: &mut [u32],
    wires: &mut [u32],
    rows: &mut [u32],
    card: &mut Card,
) -> Answer
    ensures { answered result (lent_with card.new names.new strings.new bits.new wires.new rows.new) ≡ fill_into f.now (lent_with card.old names.old strings.old bits.old wires.old rows.old) }
{
    let left = fill(
        f,
        names,
        strings,
        bits,
        wires,
        rows,
        card.renames,
        card.room,
    );
    card.renames = left.renames;
    card.room = left.room;
    Answer {
        number: left.number,
        place: left.place,
    }
}
