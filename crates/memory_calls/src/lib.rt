// The calls for other languages that only ask of a design's memory: a struct is laid out as C's. Number 0 is none.
#![tactic(auto)]

ghost use Rattle.std.specs.Prelude.{◌≡◌};
ghost use Rattle.netlist.specs.Results.{lent};
ghost use Rattle.listing.specs.Listed.{ListedAs};
ghost use Rattle.look_up.specs.Asked.{LookedUp, IndexGiven};
ghost use Rattle.writer.specs.Write.{MeasuredAs, WrittenAs};
ghost use Rattle.memory_calls.specs.Given.{found_by, indexed_by, written_by, listed_by, part_of, Ordered, PartGiven};

use card::LengthAnswer;
use listing::listing;
use look_up::{index, look_up};
use netlist::design::Design;
use numbers::kinds::{ModuleNumber, WireNumber};
use show::{Shown, find_shown};
use writer::{measure, write};

#[repr(C)]
#[derive(Clone, Copy)]
pub struct WireAnswer {
    pub number: u32,
    pub wire: u32,
}

#[repr(C)]
#[derive(Clone, Copy)]
pub struct IndexAnswer {
    pub number: u32,
    pub index: i64,
}

// A part of table 1, the names, or of table 2, the strings; a refusal has table 0.
#[repr(C)]
#[derive(Clone, Copy)]
pub struct PartAnswer {
    pub number: u32,
    pub table: u32,
    pub start: usize,
    pub length: usize,
}

#[unsafe(no_mangle)]
pub extern "C" fn skytassel_look_up(
    names: &[u8],
    strings: &[u8],
    bits: &[u32],
    wires: &[u32],
    rows: &[u32],
    renames: u32,
    room: u32,
    m: u32,
    name: &[u8],
) -> WireAnswer
    ensures { LookedUp (lent names.now strings.now bits.now wires.now rows.now renames room) m name.now (found_by result) }
{
    let design = Design {
        names,
        strings,
        bits,
        wires,
        rows,
        renames,
        room,
    };
    let found = look_up(&design, ModuleNumber(m), name);
    WireAnswer {
        number: found.number,
        wire: found.wire.0,
    }
}

#[unsafe(no_mangle)]
pub extern "C" fn skytassel_index(
    names: &[u8],
    strings: &[u8],
    bits: &[u32],
    wires: &[u32],
    rows: &[u32],
    renames: u32,
    room: u32,
    m: u32,
    w: u32,
    bit: u32,
) -> IndexAnswer
    ensures { IndexGiven (lent names.now strings.now bits.now wires.now rows.now renames room) m w bit (indexed_by result) }
{
    let design = Design {
        names,
        strings,
        bits,
        wires,
        rows,
        renames,
        room,
    };
    let given = index(&design, ModuleNumber(m), WireNumber(w), bit);
    IndexAnswer {
        number: given.number,
        index: given.index,
    }
}

#[unsafe(no_mangle)]
pub extern "C" fn skytassel_measure(
    names: &[u8],
    strings: &[u8],
    bits: &[u32],
    wires: &[u32],
    rows: &[u32],
    renames: u32,
    room: u32,
) -> LengthAnswer
    ensures { MeasuredAs (lent names.now strings.now bits.now wires.now rows.now renames room) (written_by result) }
{
    let design = Design {
        names,
        strings,
        bits,
        wires,
        rows,
        renames,
        room,
    };
    let measured = measure(&design);
    LengthAnswer {
        number: measured.number,
        length: measured.length,
    }
}

#[unsafe(no_mangle)]
pub extern "C" fn skytassel_write(
    names: &[u8],
    strings: &[u8],
    bits: &[u32],
    wires: &[u32],
    rows: &[u32],
    renames: u32,
    room: u32,
    out: &mut [u8],
) -> LengthAnswer
    ensures { WrittenAs (lent names.now strings.now bits.now wires.now rows.now renames room) out.old out.new (written_by result) }
{
    let design = Design {
        names,
        strings,
        bits,
        wires,
        rows,
        renames,
        room,
    };
    let written = write(&design, out);
    LengthAnswer {
        number: written.number,
        length: written.length,
    }
}

#[unsafe(no_mangle)]
pub extern "C" fn skytassel_listing(
    names: &[u8],
    strings: &[u8],
    bits: &[u32],
    wires: &[u32],
    rows: &[u32],
    renames: u32,
    room: u32,
    m: u32,
    out: &mut [u8],
) -> LengthAnswer
    ensures { ListedAs (lent names.now strings.now bits.now wires.now rows.now renames room) m out.old out.new (listed_by result) }
{
    let design = Design {
        names,
        strings,
        bits,
        wires,
        rows,
        renames,
        room,
    };
    let listed = listing(&design, ModuleNumber(m), out);
    LengthAnswer {
        number: listed.number,
        length: listed.length,
    }
}

// The table, the start and the length of what is shown.
fn part_of(shown: Result<Shown, u32>) -> PartAnswer
    requires { Ordered shown }
    ensures { result ≡ part_of shown }
{
    match shown {
        Ok(Shown::Name(name)) => PartAnswer {
            number: 0,
            table: 1,
            start: name.start,
            length: name.end - name.start,
        },
        Ok(Shown::Text(text)) => PartAnswer {
            number: 0,
            table: 2,
            start: text.start,
            length: text.end - text.start,
        },
        Err(number) => PartAnswer {
            number,
            table: 0,
            start: 0,
            length: 0,
        },
    }
}

#[unsafe(no_mangle)]
pub extern "C" fn skytassel_show(
    names: &[u8],
    strings: &[u8],
    bits: &[u32],
    wires: &[u32],
    rows: &[u32],
    renames: u32,
    room: u32,
    m: u32,
    w: u32,
) -> PartAnswer
    ensures { PartGiven (lent names.now strings.now bits.now wires.now rows.now renames room) m w result }
{
    let design = Design {
        names,
        strings,
        bits,
        wires,
        rows,
        renames,
        room,
    };
    let shown = find_shown(&design, ModuleNumber(m), WireNumber(w));
    part_of(shown)
}
