// The listing of a module's wires, one line each: the plain form of the name now, a space, the name to show. It has no bound but the room lent.
#![tactic(auto)]

ghost use Rattle.std.specs.Prelude.{◌≡◌, ◌+◌, ◌≤◌, length};
ghost use mathlib.Core.List.{flat_map};
ghost use Rattle.rules.specs.Limits.{names_length, strings_length, most_statements};
ghost use Rattle.rules.specs.Plain.{low};
ghost use Rattle.netlist.specs.Designs.{lent_in};
ghost use Rattle.netlist.specs.Results.{lent};
ghost use Rattle.plain.specs.Put.{PutAt, wrote};
ghost use Rattle.listing.specs.Lines.{place_at, shown_at, line_at, lines_at, fitted};
ghost use Rattle.listing.specs.Listed.{ListedAs};

use netlist::design::Design;
use netlist::results::NOT_THERE;
use numbers::kinds::{ModuleNumber, WireNumber};
use plain::{ROOM_TOO_SHORT, form_size, put_form, put_shown, shown_size};
use rename_rules::module_of;
use session::open_memory;
use show::{Shown, shown_wire};
use wire_names::{Module, name_now};

// Number 0 is none; a refusal's length is 0.
#[derive(Clone, Copy)]
pub struct Listed {
    pub number: u32,
    pub length: u32,
}

// The place of the name to show of a module's wire.
fn shown_place(design: &Design, m: Module, w: u32) -> Shown
    requires { m.first + w ≤ most_statements }
    ensures { result ≡ place_at design.now.names.now design.now.strings.now design.now.wires.now design.now.rows.now m w }
{
    shown_wire(
        design,
        m.from,
        m.renames,
        m.number,
        WireNumber(w),
        m.first + w,
    )
}

fn shown_part_size(design: &Design, m: Module, w: u32) -> usize
    requires w_bound { m.first + w ≤ most_statements }
    requires names_len { (length design.now.names.now ≡ names_length) × (length design.now.strings.now ≡ strings_length) }
    ensures { result ≡ length (flat_map low (shown_at design.now.names.now design.now.strings.now design.now.wires.now design.now.rows.now m w)) }
{
    match shown_place(design, m, w) {
        Shown::Name(name) => shown_size(&design.names[name.start..name.end]),
        Shown::Text(text) => shown_size(&design.strings[text.start..text.end]),
    }
}

fn put_shown_part(design: &Design, m: Module, w: u32, out: &mut [u8], at: usize) -> usize
    requires w_bound { m.first + w ≤ most_statements }
    requires w_in_bounds { at + length (flat_map low (shown_at design.now.names.now design.now.strings.now design.now.wires.now design.now.rows.now m w)) ≤ length out.old }
    ensures { PutAt at (flat_map low (shown_at design.now.names.now design.now.strings.now design.now.wires.now design.now.rows.now m w)) out.old out.new result }
{
    match shown_place(design, m, w) {
        Shown::Name(name) => put_shown(out, at, &design.names[name.start..name.end]),
        Shown::Text(text) => put_shown(out, at, &design.strings[text.start..text.end]),
    }
}

fn line_size(design: &Design, m: Module, w: u32) -> usize
    requires w_bound { m.first + w ≤ most_statements }
    requires names_len { (length design.now.names.now ≡ names_length) × (length design.now.strings.now ≡ strings_length) }
    ensures { result ≡ length (line_at design.now.names.now design.now.strings.now design.now.wires.now design.now.rows.now m w) }
{
    let row = (m.first + w) as usize;
    let name = form_size(name_now(design, m, WireNumber(w), row));
    let shown = shown_part_size(design, m, w);
    name + 1 + shown + 1
}

// A wire's line from a place on, and the place behind it.
fn put_line(design: &Design, m: Module, w: u32, out: &mut [u8], at: usize) -> usize
    requires w_bound { m.first + w ≤ most_statements }
    requires w_in_bounds { at + length (line_at design.now.names.now design.now.strings.now design.now.wires.now design.now.rows.now m w) ≤ length out.old }
    ensures { PutAt at (line_at design.now.names.now design.now.strings.now design.now.wires.now design.now.rows.now m w) out.old out.new result }
{
    let row = (m.first + w) as usize;
    let space = put_form(out, at, name_now(design, m, WireNumber(w), row));
    out[space] = b' ';
    let end = put_shown_part(design, m, w, out, space + 1);
    out[end] = b'\n';
    end + 1
}

fn lines_size(design: &Design, m: Module) -> usize
    requires wires_bound { m.first + m.wires ≤ most_statements }
    requires names_len { (length design.now.names.now ≡ names_length) × (length design.now.strings.now ≡ strings_length) }
    ensures { result ≡ length (lines_at design.now.names.now design.now.strings.now design.now.wires.now design.now.rows.now m m.wires) }
{
    let mut size = 0;
    for w in 0..m.wires {
        size += line_size(design, m, w);
    }
    size
}

fn put_lines(design: &Design, m: Module, out: &mut [u8]) -> usize
    requires wires_bound { m.first + m.wires ≤ most_statements }
    requires wires_in_bounds { length (lines_at design.now.names.now design.now.strings.now design.now.wires.now design.now.rows.now m m.wires) ≤ length out.old }
    ensures { PutAt 0 (lines_at design.now.names.now design.now.strings.now design.now.wires.now design.now.rows.now m m.wires) out.old out.new result }
{
    let mut end = 0;
    for w in 0..m.wires {
        end = put_line(design, m, w, out, end);
    }
    end
}

// The size first, so that a refusal leaves the room as it was.
fn list_module(design: &Design, m: Module, out: &mut [u8]) -> Listed
    requires wires_bound { m.first + m.wires ≤ most_statements }
    requires names_len { (length design.now.names.now ≡ names_length) × (length design.now.strings.now ≡ strings_length) }
    ensures { (result.number, result.length, out.new) ≡ wrote out.old (fitted (length out.old) (lines_at design.now.names.now design.now.strings.now design.now.wires.now design.now.rows.now m m.wires)) }
{
    let size = lines_size(design, m);
    if out.len() < size {
        return Listed {
            number: ROOM_TOO_SHORT,
            length: 0,
        };
    }
    put_lines(design, m, out);
    Listed {
        number: 0,
        length: size as u32,
    }
}

// The listing at the start of the room lent; a refusal leaves the room as it was.
pub fn listing(design: &Design, m: ModuleNumber, out: &mut [u8]) -> Listed
    ensures { ListedAs (lent_in design.now) m.0 out.old out.new result }
{
    let place = match open_memory(design) {
        Ok(place) => place,
        Err(number) => return Listed { number, length: 0 },
    };
    if place.modules <= m.0 {
        return Listed {
            number: NOT_THERE,
            length: 0,
        };
    }
    list_module(
        design,
        module_of(design.wires, place, design.renames, m),
        out,
    )
}
