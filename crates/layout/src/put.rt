// The parts of a statement in design memory: names, string, bits and a wire's row behind what is used of their tables, and the statement's row of columns.
ghost use Rattle.std.specs.Prelude.{◌≡◌, true, None, [], ◌∷◌, map, ◌+◌, ◌*◌, ◌≤◌, length, drop};
ghost use Rattle.rules.specs.Limits.{most_width};
ghost use Rattle.rules.specs.Statements.{digits_of, bytes_of, cell-stmt, cell-conn-stmt, conn-stmt};
ghost use Rattle.rules.specs.Numbers.{int32, good_literal};
ghost use Rattle.rules.specs.Signals.{twos_complement, literal_bits};
ghost use Rattle.rules.specs.Layout.{row, digit_code, constant_columns};
ghost use Rattle.tables.specs.Store.{store};
ghost use Rattle.strings.specs.Decoded.{decoded, closes};
ghost use Rattle.tokens.specs.Rows.{integer_in, literal_in};
ghost use Rattle.line_forms.specs.Forms.{name_in};
ghost use Rattle.syntax.specs.Statements.{signal_in};
ghost use Rattle.netlist.specs.Used.{used_of};
ghost use Rattle.layout.specs.Put.{names_put, bits_put_at, rows_put, Fits, constant_in, optional_in, optional_columns, optional_bytes, optional_digits, valued_row, ConstantFits, OptionalFits, WirePut};
ghost use Rattle.layout.specs.Stored.{ValuedIs, PlainStorable, PlainPut};
ghost use Rattle.layout.specs.declared.put.Valued.TheVariants as valued;

use context::kinds::{
    ATTRIBUTE_KIND, AUTOIDX_KIND, CELL_CONNECTION_KIND, CELL_KIND, CELL_PARAMETER_KIND,
    CONNECTION_KIND, END_KIND, MEMORY_KIND, MODULE_KIND, PARAMETER_KIND, PROCESS_KIND, WIRE_KIND,
};
use literal_rules::literal_width;
use literals::put_literal;
use netlist::rows::{INTEGER_CONSTANT, STRING_CONSTANT, VALUE_CONSTANT};
use netlist::used::{Used, last_module};
use numbers::signed::word_of;
use scanner::decimals::decimal;
use scanner::parts::{Span, part};
use strings::put_string;
use syntax::{RIGHT_SIGNAL, Statement};
use tables::{ROW_WORDS, Row, put_row, reverse_words, store};
use tokens::{ConstantSpan, Integer};

// The columns of a constant: its kind, where it starts and its length; or its kind and the integer.
#[derive(Clone, Copy)]
pub struct Columns {
    pub kind: u32,
    pub a: u32,
    pub b: u32,
}

// A statement of a name and, if it has one, a constant: its kind, these, and a cell parameter's sort. A step: its code, the width of its signals
// and how many they are.
#[derive(Clone, Copy)]
pub enum Valued {
    Named {
        kind: u32,
        name: Span,
        value: Option<ConstantSpan>,
        sort: u32,
    },
    Step {
        step: u32,
        width: usize,
        count: usize,
    },
    Nothing,
}

// A statement of a name only.
fn only_named(kind: u32, name: Span) -> Valued
    ensures { result ≡ valued.Named kind name None 0 }
{
    Valued::Named {
        kind,
        name,
        value: None,
        sort: 0,
    }
}

pub fn as_valued(statement: Statement) -> Valued
    ensures { ValuedIs statement result }
{
    match statement {
        Statement::Attribute { name, value } => Valued::Named {
            kind: ATTRIBUTE_KIND,
            name,
            value: Some(value),
            sort: 0,
        },
        Statement::Parameter { name, value } => Valued::Named {
            kind: PARAMETER_KIND,
            name,
            value,
            sort: 0,
        },
        Statement::CellParameter { sort, name, value } => Valued::Named {
            kind: CELL_PARAMETER_KIND,
            name,
            value: Some(value),
            sort,
        },
        Statement::Module(name) => only_named(MODULE_KIND, name),
        Statement::Process(name) => only_named(PROCESS_KIND, name),
        Statement::Step {
            step,
            width,
            count,
            ..
        } => Valued::Step { step, width, count },
        _ => Valued::Nothing,
    }
}

// Row k of a table; its eighth column is 0.
pub fn put_columns(
    table: &mut [u32],
    k: u32,
    kind: u32,
    a: u32,
    b: u32,
    c: u32,
    d: u32,
    e: u32,
    g: u32,
)
    requires { 8 * k + 8 ≤ length table.old }
    ensures { table.new ≡ store table.old (8 * k) (row (kind ∷ a ∷ b ∷ c ∷ d ∷ e ∷ g ∷ [])) }
{
    let r = Row {
        kind,
        a,
        b,
        c,
        d,
        e,
        f: g,
        g: 0,
    };
    put_row(table, ROW_WORDS * (k as usize), r);
}

// Stores a name, and answers its length.
fn put_name(f: &[u8], name: Span, names: &mut [u8], at: u32) -> u32
    requires { Fits at (length (name_in f.now name)) names.old }
    ensures value { result ≡ length (name_in f.now name) }
    ensures names_after { names.new ≡ store names.old at (name_in f.now name) }
{
    let bytes = part(f, name.start, name.end);
    store(names, at as usize, bytes);
    bytes.len() as u32
}

// A statement of one name, with the columns behind it; answers the name's length.
fn put_named(
    f: &[u8],
    name: Span,
    u: Used,
    names: &mut [u8],
    rows: &mut [u32],
    kind: u32,
    c: u32,
    d: u32,
    e: u32,
    g: u32,
) -> u32
    requires fits { Fits u.names (length (name_in f.now name)) names.old }
    requires rows_in_bounds { 8 * u.rows + 8 ≤ length rows.old }
    ensures value { result ≡ length (name_in f.now name) }
    ensures names_after { names.new ≡ store names.old u.names (name_in f.now name) }
    ensures rows_after { rows.new ≡ store rows.old (8 * u.rows) (row (kind ∷ u.names ∷ length (name_in f.now name) ∷ c ∷ d ∷ e ∷ g ∷ [])) }
{
    let size = put_name(f, name, names, u.names);
    put_columns(rows, u.rows, kind, u.names, size, c, d, e, g);
    size
}

// An integer's word in two's complement.
fn integer_word(f: &[u8], z: Integer) -> u32
    requires { int32 (integer_in f.now z) ≡ true }
    ensures { result ≡ twos_complement (integer_in f.now z) }
{
    let size = decimal(part(f, z.start, z.end));
    word_of(z.negative, size)
}

// Stores the digits of a value, lowest first, and answers its width. A value's digits come highest first.
fn put_value(
    f: &[u8],
    start: usize,
    quote: usize,
    end: usize,
    scratch: &mut [u32],
    bits: &mut [u32],
    at: u32,
) -> u32
    requires end_value { good_literal (literal_in f.now (ConstantSpan.Value start quote end)) ≡ true }
    requires most_width_in_bounds { most_width ≤ length scratch.old }
    requires fits { Fits at (length (literal_bits (literal_in f.now (ConstantSpan.Value start quote end)))) bits.old }
    ensures value { result ≡ length (literal_bits (literal_in f.now (ConstantSpan.Value start quote end))) }
    ensures bits_after { bits.new ≡ store bits.old at (map digit_code (literal_bits (literal_in f.now (ConstantSpan.Value start quote end)))) }
{
    let c = ConstantSpan::Value { start, quote, end };
    put_literal(f, c, scratch, 0);
    let width = literal_width(f, c);
    reverse_words(scratch, 0, width, bits, at as usize);
    width as u32
}

// Stores the bytes of a string, and answers how many there are.
fn put_text(f: &[u8], start: usize, strings: &mut [u8], at: u32) -> u32
    requires f_value { closes (drop start f.now) ≡ true }
    requires fits { Fits at (length (decoded (drop start f.now))) strings.old }
    ensures value { result ≡ length (decoded (drop start f.now)) }
    ensures strings_after { strings.new ≡ store strings.old at (decoded (drop start f.now)) }
{
    let stop = put_string(f, start, strings, at as usize);
    stop as u32 - at
}

// Stores a constant of an attribute or a parameter, and answers its columns.
fn put_constant(
    f: &[u8],
    c: ConstantSpan,
    u: Used,
    scratch: &mut [u32],
    strings: &mut [u8],
    bits: &mut [u32],
) -> Columns
    requires constant_fits { ConstantFits f.now c u strings.old bits.old }
    requires most_width_in_bounds { most_width ≤ length scratch.old }
    ensures c_value { constant_columns (used_of u) (constant_in f.now c) ≡ result.kind ∷ result.a ∷ result.b ∷ [] }
    ensures strings_after { strings.new ≡ store strings.old u.strings (bytes_of (constant_in f.now c)) }
    ensures bits_after { bits.new ≡ store bits.old u.bits (map digit_code (digits_of (constant_in f.now c))) }
{
    match c {
        ConstantSpan::Integer(z) => Columns {
            kind: INTEGER_CONSTANT,
            a: integer_word(f, z),
            b: 0,
        },
        ConstantSpan::Value { start, quote, end } => Columns {
            kind: VALUE_CONSTANT,
            a: u.bits,
            b: put_value(f, start, quote, end, scratch, bits, u.bits),
        },
        ConstantSpan::Text(start) => Columns {
            kind: STRING_CONSTANT,
            a: u.strings,
            b: put_text(f, start, strings, u.strings),
        },
    }
}

// The constant, if there is one.
fn put_optional(
    f: &[u8],
    c: Option<ConstantSpan>,
    u: Used,
    scratch: &mut [u32],
    strings: &mut [u8],
    bits: &mut [u32],
) -> Columns
    requires optional_fits { OptionalFits f.now c u strings.old bits.old }
    requires most_width_in_bounds { most_width ≤ length scratch.old }
    ensures c_value { optional_columns (used_of u) (optional_in f.now c) ≡ result.kind ∷ result.a ∷ result.b ∷ [] }
    ensures strings_after { strings.new ≡ store strings.old u.strings (optional_bytes (optional_in f.now c)) }
    ensures bits_after { bits.new ≡ store bits.old u.bits (map digit_code (optional_digits (optional_in f.now c))) }
{
    match c {
        Some(k) => put_constant(f, k, u, scratch, strings, bits),
        None => Columns {
            kind: 0,
            a: 0,
            b: 0,
        },
    }
}

// A statement of a name and, if it has one, a constant, with the column behind them.
pub fn put_valued(
    f: &[u8],
    kind: u32,
    name: Span,
    c: Option<ConstantSpan>,
    sort: u32,
    u: Used,
    scratch: &mut [u32],
    names: &mut [u8],
    strings: &mut [u8],
    bits: &mut [u32],
    rows: &mut [u32],
)
    requires fits { Fits u.names (length (name_in f.now name)) names.old }
    requires optional_fits { OptionalFits f.now c u strings.old bits.old }
    requires most_width_in_bounds { most_width ≤ length scratch.old }
    requires rows_in_bounds { 8 * u.rows + 8 ≤ length rows.old }
    ensures names_after { names.new ≡ store names.old u.names (name_in f.now name) }
    ensures strings_after { strings.new ≡ store strings.old u.strings (optional_bytes (optional_in f.now c)) }
    ensures bits_after { bits.new ≡ store bits.old u.bits (map digit_code (optional_digits (optional_in f.now c))) }
    ensures rows_after { rows.new ≡ store rows.old (8 * u.rows) (valued_row (used_of u) kind (name_in f.now name) (optional_in f.now c) sort) }
{
    let k = put_optional(f, c, u, scratch, strings, bits);
    let _ = put_named(f, name, u, names, rows, kind, k.kind, k.a, k.b, sort);
}

// The offset's word is in two's complement; the flags are those of a wire's row.
fn put_wire(
    f: &[u8],
    name: Span,
    width: u32,
    offset: u32,
    flags: u32,
    port: u32,
    u: Used,
    names: &mut [u8],
    wires: &mut [u32],
    rows: &mut [u32],
)
    requires fits { Fits u.names (length (name_in f.now name)) names.old }
    requires wires_in_bounds { 8 * u.wires + 8 ≤ length wires.old }
    requires rows_in_bounds { 8 * u.rows + 8 ≤ length rows.old }
    ensures { WirePut u (name_in f.now name) width offset flags port names.old names.new wires.old wires.new rows.old rows.new }
{
    let size = put_named(f, name, u, names, rows, WIRE_KIND, u.wires, 0, 0, 0);
    let module = last_module(u);
    put_columns(
        wires, u.wires, module, u.names, size, width, offset, flags, port,
    );
}

// The offset's word is in two's complement.
fn put_memory(
    f: &[u8],
    name: Span,
    width: u32,
    size: u32,
    offset: u32,
    u: Used,
    names: &mut [u8],
    rows: &mut [u32],
)
    requires fits { Fits u.names (length (name_in f.now name)) names.old }
    requires rows_in_bounds { 8 * u.rows + 8 ≤ length rows.old }
    ensures names_after { names.new ≡ store names.old u.names (name_in f.now name) }
    ensures rows_after { rows.new ≡ store rows.old (8 * u.rows) (row (6 ∷ u.names ∷ length (name_in f.now name) ∷ width ∷ size ∷ offset ∷ 0 ∷ [])) }
{
    let _ = put_named(f, name, u, names, rows, MEMORY_KIND, width, size, offset, 0);
}

// A cell's type stands before its name.
fn put_cell(f: &[u8], kind: Span, name: Span, u: Used, names: &mut [u8], rows: &mut [u32])
    requires fits { Fits u.names (length (name_in f.now kind) + length (name_in f.now name)) names.old }
    requires rows_in_bounds { 8 * u.rows + 8 ≤ length rows.old }
    ensures names_after { names.new ≡ names_put (used_of u) (cell-stmt (name_in f.now kind) (name_in f.now name)) names.old }
    ensures rows_after { rows.new ≡ rows_put (used_of u) (cell-stmt (name_in f.now kind) (name_in f.now name)) rows.old }
{
    let first = put_name(f, kind, names, u.names);
    let size = put_name(f, name, names, u.names + first);
    put_columns(
        rows,
        u.rows,
        CELL_KIND,
        u.names,
        first,
        u.names + first,
        size,
        0,
        0,
    );
}

// The signal's codes stand in scratch, highest first.
fn put_cell_connection(
    f: &[u8],
    name: Span,
    width: usize,
    u: Used,
    scratch: &[u32],
    names: &mut [u8],
    bits: &mut [u32],
    rows: &mut [u32],
)
    requires fits { Fits u.names (length (name_in f.now name)) names.old }
    requires width_in_bounds { width ≤ length scratch.now }
    requires fits_2 { Fits u.bits width bits.old }
    requires rows_in_bounds { 8 * u.rows + 8 ≤ length rows.old }
    ensures names_after { names.new ≡ names_put (used_of u) (cell-conn-stmt (name_in f.now name) (signal_in scratch.now 0 width)) names.old }
    ensures bits_after { bits.new ≡ bits_put_at (used_of u) (cell-conn-stmt (name_in f.now name) (signal_in scratch.now 0 width)) bits.old }
    ensures rows_after { rows.new ≡ rows_put (used_of u) (cell-conn-stmt (name_in f.now name) (signal_in scratch.now 0 width)) rows.old }
{
    reverse_words(scratch, 0, width, bits, u.bits as usize);
    let _ = put_named(
        f,
        name,
        u,
        names,
        rows,
        CELL_CONNECTION_KIND,
        u.bits,
        width as u32,
        0,
        0,
    );
}

// The codes of the left signal stand in scratch from 0 on and those of the right one from 2048 on, highest first.
fn put_connection(
    left: usize,
    right: usize,
    u: Used,
    scratch: &[u32],
    bits: &mut [u32],
    rows: &mut [u32],
)
    requires left_le_most_width { (left ≤ most_width) × (most_width + right ≤ length scratch.now) }
    requires fits { Fits u.bits (left + right) bits.old }
    requires rows_in_bounds { 8 * u.rows + 8 ≤ length rows.old }
    ensures bits_after { bits.new ≡ bits_put_at (used_of u) (conn-stmt (signal_in scratch.now 0 left) (signal_in scratch.now most_width right)) bits.old }
    ensures rows_after { rows.new ≡ rows_put (used_of u) (conn-stmt (signal_in scratch.now 0 left) (signal_in scratch.now most_width right)) rows.old }
{
    let at = u.bits as usize;
    reverse_words(scratch, 0, left, bits, at);
    reverse_words(scratch, RIGHT_SIGNAL, RIGHT_SIGNAL + right, bits, at + left);
    put_columns(
        rows,
        u.rows,
        CONNECTION_KIND,
        u.bits,
        left as u32,
        u.bits + left as u32,
        right as u32,
        0,
        0,
    );
}

// A statement of any other kind: none of those that `as_valued` takes.
pub fn put_plain(
    f: &[u8],
    statement: Statement,
    u: Used,
    scratch: &[u32],
    names: &mut [u8],
    bits: &mut [u32],
    wires: &mut [u32],
    rows: &mut [u32],
)
    requires { PlainStorable f.now scratch.now statement u names.old bits.old wires.old rows.old }
    ensures { PlainPut f.now scratch.now statement u names.old names.new bits.old bits.new wires.old wires.new rows.old rows.new }
{
    match statement {
        Statement::Autoidx(word) => put_columns(rows, u.rows, AUTOIDX_KIND, word, 0, 0, 0, 0, 0),
        Statement::Wire {
            name,
            width,
            offset,
            flags,
            port,
        } => put_wire(f, name, width, offset, flags, port, u, names, wires, rows),
        Statement::Memory {
            name,
            width,
            size,
            offset,
        } => put_memory(f, name, width, size, offset, u, names, rows),
        Statement::Cell { kind, name } => put_cell(f, kind, name, u, names, rows),
        Statement::CellConnection { name, width, .. } => {
            put_cell_connection(f, name, width, u, scratch, names, bits, rows)
        }
        Statement::Connection { left, right, .. } => {
            put_connection(left, right, u, scratch, bits, rows)
        }
        Statement::End => put_columns(rows, u.rows, END_KIND, 0, 0, 0, 0, 0, 0),
        _ => {}
    }
}
