// The name to show of a wire: its attribute `\hdlname` if that is a string that isn't empty, else its name now, without the `\` if public. It is a part of
// the strings or of the names, not a copy.
#![tactic(auto)]

ghost use Rattle.std.specs.Prelude.{◌≡◌, ◌≤◌, ◌<◌, length};
ghost use Rattle.rules.specs.Limits.{many_rows};
ghost use Rattle.netlist.specs.Designs.{lent_in};
ghost use Rattle.show.specs.Rows.{declares, wire_line, is_hdlname, hdlname_row};
ghost use Rattle.show.specs.Parts.{cut_of, span_part, text_part, name_part, plain_part, shown_part, number_of, bytes_in, InRange, ShownAs, ShownAt, LiesAt};

use context::kinds::{ATTRIBUTE_KIND, WIRE_KIND};
use modules::module_wires;
use names::same_bytes;
use netlist::design::Design;
use netlist::results::NOT_THERE;
use netlist::rows::{row_kind, row_name};
use numbers::kinds::{ModuleNumber, WireNumber};
use scanner::parts::Span;
use session::open_memory;
use wire_names::last_rename;
use wires::{WIRE_NAME, column};

// The columns of a statement's row: a wire's row in the table of wires; the kind of an attribute's constant, and its string's start.
const ROW_WIRE: usize = 3;

const ROW_CONSTANT: usize = 3;

const ROW_STRING: usize = 4;

// The column of a rename's row where its new name's start stands.
const RENAME_NAME: usize = 1;

// The kind of a constant that is a string.
const CONSTANT_STRING: u32 = 3;

// Where a shown name lies: a part of the names or a part of the strings.
#[derive(Clone, Copy)]
pub enum Shown {
    Name(Span),
    Text(Span),
}

// The bytes from start up to end, cut to those that are there.
fn cut(s: &[u8], start: usize, end: usize) -> Span
    ensures { result ≡ cut_of s.now start end }
{
    let stop = if end < s.len() { end } else { s.len() };
    if stop <= start {
        return Span { start: 0, end: 0 };
    }
    Span { start, end: stop }
}

// The bytes whose start stands in column c, and their number behind it.
fn span(s: &[u8], t: &[u32], row: usize, c: usize) -> Span
    requires { (row < many_rows) × (c < 7) }
    ensures { result ≡ span_part s.now t.now row c }
{
    let start = column(t, row, c) as usize;
    let size = column(t, row, c + 1) as usize;
    cut(s, start, start + size)
}

// Whether a row is the statement of the wire in this row of the table of wires.
fn declares(rows: &[u32], row: u32, wire: u32) -> bool
    ensures { result ≡ declares rows.now row wire }
{
    if row_kind(rows, row) != WIRE_KIND {
        return false;
    }
    column(rows, row as usize, ROW_WIRE) == wire
}

// The row of the wire's statement among the first `total`: the last that declares it, or 0.
fn wire_line(rows: &[u32], total: u32, wire: u32) -> u32
    ensures { result ≡ wire_line rows.now total wire }
{
    for k in (0..total).rev() {
        if declares(rows, k, wire) {
            return k;
        }
    }
    0
}

fn is_hdlname(design: &Design, row: u32) -> bool
    ensures { result ≡ is_hdlname design.now.names.now design.now.rows.now row }
{
    same_bytes(row_name(design.names, design.rows, row), b"\\hdlname")
}

// The row behind the first `\hdlname` of the attributes right before a row; 0 if there is none.
fn hdlname_row(design: &Design, line: u32) -> u32
    ensures { result ≡ hdlname_row design.now.names.now design.now.rows.now line 0 }
{
    let mut found = 0;
    for k in (0..line).rev() {
        if row_kind(design.rows, k) != ATTRIBUTE_KIND {
            return found;
        }
        if is_hdlname(design, k) {
            found = k + 1;
        }
    }
    found
}

// The string of the attribute in the row before this one; none if it has no string, or if this is row 0.
fn text_part(design: &Design, behind: u32) -> Span
    ensures { result ≡ text_part design.now.strings.now design.now.rows.now behind }
{
    if behind == 0 {
        return Span { start: 0, end: 0 };
    }
    let row = (behind - 1) as usize;
    if column(design.rows, row, ROW_CONSTANT) != CONSTANT_STRING {
        return Span { start: 0, end: 0 };
    }
    span(design.strings, design.rows, row, ROW_STRING)
}

// The name now of the wire in row k of the table of wires.
fn name_part(design: &Design, from: u32, count: u32, m: ModuleNumber, w: WireNumber, k: u32) -> Span
    ensures { result ≡ name_part design.now.names.now design.now.wires.now design.now.rows.now from count m.0 w.0 k }
{
    let last = last_rename(design.rows, from, count, m, w);
    if last == 0 {
        return span(design.names, design.wires, k as usize, WIRE_NAME);
    }
    span(
        design.names,
        design.rows,
        from as usize + (last - 1) as usize,
        RENAME_NAME,
    )
}

// Without the `\` of a public name.
fn plain_part(names: &[u8], p: Span) -> Span
    requires { p.end ≤ length names.now }
    ensures { result ≡ plain_part names.now p }
{
    let start = p.start;
    if start < p.end {
        if names[start] == b'\\' {
            return Span {
                start: start + 1,
                end: p.end,
            };
        }
    }
    p
}

// The name to show of the wire in row k of the table of wires, in memory that is judged already.
pub fn shown_wire(
    design: &Design,
    from: u32,
    count: u32,
    m: ModuleNumber,
    w: WireNumber,
    k: u32,
) -> Shown
    ensures { result ≡ shown_part design.now.names.now design.now.strings.now design.now.wires.now design.now.rows.now from count m.0 w.0 k }
{
    let line = wire_line(design.rows, from, k);
    let text = text_part(design, hdlname_row(design, line));
    if text.start < text.end {
        return Shown::Text(text);
    }
    let now = name_part(design, from, count, m, w, k);
    Shown::Name(plain_part(design.names, now))
}

pub fn find_shown(design: &Design, m: ModuleNumber, w: WireNumber) -> Result<Shown, u32>
    ensures shown_at { ShownAt (lent_in design.now) m.0 w.0 result }
    ensures in_range { InRange design.now.names.now design.now.strings.now result }
    ensures shown_as { ShownAs (lent_in design.now) m.0 w.0 (number_of result) (bytes_in design.now.names.now design.now.strings.now result) }
{
    let place = open_memory(design)?;
    let own = module_wires(design.wires, place.wires, m);
    let number = w.0;
    if own.count <= number {
        return Err(NOT_THERE);
    }
    let row = own.first + number;
    Ok(shown_wire(design, place.rows, design.renames, m, w, row))
}

// Number 0 is none; a refusal answers the empty part.
pub fn show<'a>(
    design: &Design<'a, 'a, '_>,
    m: ModuleNumber,
    w: WireNumber,
    number: &mut u32,
) -> &'a [u8]
    ensures shown_as { ShownAs (lent_in design.now) m.0 w.0 number.new result.now }
    ensures lies_at { LiesAt (lent_in design.now) m.0 w.0 design.now.names.ref_ptr design.now.strings.ref_ptr result.ref_ptr }
{
    match find_shown(design, m, w) {
        Ok(Shown::Name(name)) => {
            *number = 0;
            &design.names[name.start..name.end]
        }
        Ok(Shown::Text(text)) => {
            *number = 0;
            &design.strings[text.start..text.end]
        }
        Err(refusal) => {
            *number = refusal;
            &design.names[0..0]
        }
    }
}
