// Writing a design as its one text, from lent design memory in any state, and measuring that text.
#![tactic(auto)]

ghost use Rattle.std.specs.Prelude.{◌≡◌, ◌≤◌, length};
ghost use Rattle.rules.specs.Limits.{bits_length};
ghost use Rattle.netlist.specs.Designs.{lent_in, tabled_in};
ghost use Rattle.netlist.specs.Results.{lent};
ghost use Rattle.session.specs.Called.{answer};
ghost use Rattle.text.specs.Written.{moved};
ghost use Rattle.design_text.specs.Rows.{text_rows};
ghost use Rattle.rules.specs.Text.{measure_text, write_text};
ghost use Rattle.writer.specs.Write.{wrote, MeasuredAs, WrittenAs};

use context::place::Place;
use design_text::{Counts, put_text};
use netlist::design::Design;
use netlist::results::TEXT_TOO_LONG;
use session::open_memory;
use tables::store;
use text::TEXT_LENGTH;

// Number 0 is none; a refusal's length is 0.
#[derive(Clone, Copy)]
pub struct Written {
    pub number: u32,
    pub length: u32,
}

// Where the text of these rows ends, at most 32,769: it is written into a room of one byte that is dropped.
fn text_end(design: &Design, counts: Counts) -> usize
    requires { length design.now.bits.now ≤ bits_length }
    ensures { result ≡ moved 0 (length (text_rows (tabled_in design.now) counts)) }
{
    let mut none = [0u8; 1];
    put_text(design, counts, &mut none)
}

fn measure_rows(design: &Design, counts: Counts) -> Written
    requires { length design.now.bits.now ≤ bits_length }
    ensures { (result.number, result.length) ≡ answer 0 (measure_text (text_rows (tabled_in design.now) counts)) }
{
    let end = text_end(design, counts);
    if end <= TEXT_LENGTH {
        return Written {
            number: 0,
            length: end as u32,
        };
    }
    Written {
        number: TEXT_TOO_LONG,
        length: 0,
    }
}

// The text is made in a room of its own, so that a refusal leaves the room lent as it was.
fn write_rows(design: &Design, counts: Counts, out: &mut [u8]) -> Written
    requires { length design.now.bits.now ≤ bits_length }
    ensures { (result.number, result.length, out.new) ≡ wrote out.old (write_text (length out.old) (text_rows (tabled_in design.now) counts)) }
{
    let mut text = [0u8; TEXT_LENGTH];
    let end = put_text(design, counts, &mut text);
    if TEXT_LENGTH < end {
        return Written {
            number: TEXT_TOO_LONG,
            length: 0,
        };
    }
    if out.len() < end {
        return Written {
            number: TEXT_TOO_LONG,
            length: 0,
        };
    }
    store(out, 0, &text[0..end]);
    Written {
        number: 0,
        length: end as u32,
    }
}

fn counts_at(place: Place, renames: u32) -> Counts
    ensures { result ≡ record { statements = place.rows; wires = place.wires; renames = renames } }
{
    Counts {
        statements: place.rows,
        wires: place.wires,
        renames: renames,
    }
}

// The length of the text.
pub fn measure(design: &Design) -> Written
    ensures { MeasuredAs (lent_in design.now) result }
{
    match open_memory(design) {
        Ok(place) => measure_rows(design, counts_at(place, design.renames)),
        Err(number) => Written { number, length: 0 },
    }
}

// The text at the start of the room lent; a refusal leaves the room as it was.
pub fn write(design: &Design, out: &mut [u8]) -> Written
    ensures { WrittenAs (lent_in design.now) out.old out.new result }
{
    match open_memory(design) {
        Ok(place) => write_rows(design, counts_at(place, design.renames), out),
        Err(number) => Written { number, length: 0 },
    }
}
