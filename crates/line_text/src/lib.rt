// The written line of the statement in a row, with the wires' names as they are now.
// All of it is total: a word past a table's end counts as 0, and a span past its end is cut.
#![tactic(auto)]

ghost use Rattle.std.specs.Prelude.{◌≡◌, not, [], ◌∷◌, ◌≤◌, ◌<◌, eqb, pos, length};
ghost use Rattle.std.proofs.Math.Option.{none, some, map};
ghost use Rattle.rules.specs.Limits.{bits_length, past_text, many_rows};
ghost use Rattle.rules.specs.Tokens.{name, word, literal};
ghost use Rattle.rules.specs.Statements.{autoidx-stmt, attr-stmt, param-stmt, wire-stmt, memory-stmt, cell-stmt, cell-param-stmt, cell-conn-stmt, conn-stmt};
ghost use Rattle.rules.specs.Text.{sig, literal_of, setting, unless, port_options, wire_options, memory_options, option_tokens, sort_tokens, shape_tokens, decimal_text, integer_text, spaced};
ghost use Rattle.rules.specs.Numbers.{in_range};
ghost use Rattle.numbers.specs.Signed.{signed_of};
ghost use Rattle.wires.specs.Rows.{column, span_at, port_of, wire_of};
ghost use Rattle.netlist.specs.Rows.{name_from};
ghost use Rattle.netlist.specs.Statements.{constant_at, optional_at, signal_at, memory_at, sort_at};
ghost use Rattle.wire_names.specs.Now.{wires_in, own_now};
ghost use Rattle.text.specs.Written.{Written};
ghost use Rattle.signal_text.specs.Pieces.{spread};
ghost use Rattle.line_text.specs.Lines.{most_level, statement_now, body_text, line_of, PlainIs};

use constant_text::{put_string, put_value};
use context::kinds::{
    ATTRIBUTE_KIND, AUTOIDX_KIND, CELL_CONNECTION_KIND, CELL_KIND, CELL_PARAMETER_KIND,
    CONNECTION_KIND, END_KIND, MEMORY_KIND, MODULE_KIND, PARAMETER_KIND, PROCESS_KIND, STEP_KIND,
    WIRE_KIND,
};
use netlist::design::Design;
use numbers::kinds::WireNumber;
use scanner::parts::part;
use signal_text::put_signal;
use step_text::put_step;
use text::{put_byte, put_bytes, put_decimal, put_integer, put_spaces, put_token};
use wire_names::{Module, name_now};
use wires::{WIRE_FLAGS, WIRE_OFFSET, WIRE_PORT, WIRE_WIDTH, bytes_at, column};

// The columns of a statement's row. A name, a string, a value or a signal has its start in a column and its length behind it.
const ROW_KIND: usize = 0;

const ROW_NAME: usize = 1;

const AUTOIDX_NUMBER: usize = 1;

// Of attributes and parameters: the kind of the constant, then where it is.
const ROW_CONSTANT: usize = 3;

const ROW_SORT: usize = 6;

const MEMORY_WIDTH: usize = 3;

const MEMORY_SIZE: usize = 4;

const MEMORY_OFFSET: usize = 5;

// A cell's type stands before its name.
const CELL_TYPE: usize = 1;

const CELL_NAME: usize = 3;

// The wire's row in the table of wires.
const ROW_WIRE: usize = 3;

// What a connection connects: a cell's has a name for the first.
const FIRST_SIGNAL: usize = 1;

const LAST_SIGNAL: usize = 3;

// The kinds of constants, but for strings.
const CONSTANT_VALUE: u32 = 1;

const CONSTANT_INTEGER: u32 = 2;

// The sort of a cell's parameter: 0 is none, the last is `real`.
const SORT_SIGNED: u32 = 1;

// The directions of ports.
const PORT_INPUT: u32 = 1;

const PORT_OUTPUT: u32 = 2;

const PORT_INOUT: u32 = 3;

// What a direction counts in the flags of a wire, above `upto` and `signed`.
const DIRECTION_FLAG: u32 = 4;

// Spaces a level.
const LEVEL_SPACES: usize = 2;

fn words_at<'a>(t: &'a [u32], rows: &[u32], row: usize, c: usize) -> &'a [u32]
    requires { (row < many_rows) × (c < 7) }
    ensures { result.now ≡ span_at t.now rows.now row c }
{
    let start = column(rows, row, c) as usize;
    let size = column(rows, row, c + 1) as usize;
    part(t, start, start + size)
}

fn put_number(out: &mut [u8], at: usize, n: u32) -> usize
    requires { at ≤ past_text }
    ensures { Written at (32 ∷ decimal_text n) out.old out.new result }
{
    let space = put_byte(out, at, b' ');
    put_decimal(out, space, n)
}

fn put_signed(out: &mut [u8], at: usize, word: u32) -> usize
    requires { at ≤ past_text }
    ensures { Written at (32 ∷ integer_text (signed_of word)) out.old out.new result }
{
    let space = put_byte(out, at, b' ');
    put_integer(out, space, word)
}

fn put_constant(design: &Design, row: usize, c: usize, out: &mut [u8], at: usize) -> usize
    requires { (at ≤ past_text) × (row < many_rows) × (c < 6) × (length design.now.bits.now ≤ bits_length) }
    ensures { Written at (spread (literal (literal_of (constant_at design.now.strings.now design.now.bits.now design.now.rows.now row c)) ∷ [])) out.old out.new result }
{
    let space = put_byte(out, at, b' ');
    let kind = column(design.rows, row, c);
    if kind == CONSTANT_VALUE {
        return put_value(out, space, words_at(design.bits, design.rows, row, c + 1));
    }
    if kind == CONSTANT_INTEGER {
        return put_integer(out, space, column(design.rows, row, c + 1));
    }
    put_string(
        out,
        space,
        bytes_at(design.strings, design.rows, row, c + 1),
    )
}

// An option with its number, left out where it is the default.
fn put_setting(out: &mut [u8], at: usize, w: &[u8], n: u32, usual: u32) -> usize
    requires { at ≤ past_text }
    ensures { Written at (spread (option_tokens (unless (eqb n usual) (w.now, some (pos n))))) out.old out.new result }
{
    if n == usual {
        return at;
    }
    let end = put_token(out, at, w);
    put_number(out, end, n)
}

fn put_offset(out: &mut [u8], at: usize, word: u32) -> usize
    requires { at ≤ past_text }
    ensures { Written at (spread (option_tokens (unless (in_range 0 0 (signed_of word)) (setting "offset" (signed_of word))))) out.old out.new result }
{
    if word == 0 {
        return at;
    }
    let end = put_bytes(out, at, b" offset");
    put_signed(out, end, word)
}

fn put_flag(out: &mut [u8], at: usize, set: bool, w: &[u8]) -> usize
    requires { at ≤ past_text }
    ensures { Written at (spread (option_tokens (unless (not set) (w.now, none)))) out.old out.new result }
{
    if set {
        return put_token(out, at, w);
    }
    at
}

// The port of a direction's code, 1 to 3; any other is none.
fn put_port(out: &mut [u8], at: usize, direction: u32, n: u32) -> usize
    requires { at ≤ past_text }
    ensures { Written at (spread (option_tokens (port_options (port_of direction n)))) out.old out.new result }
{
    if direction == PORT_INPUT {
        let end = put_bytes(out, at, b" input");
        return put_number(out, end, n);
    }
    if direction == PORT_OUTPUT {
        let end = put_bytes(out, at, b" output");
        return put_number(out, end, n);
    }
    if direction == PORT_INOUT {
        let end = put_bytes(out, at, b" inout");
        return put_number(out, end, n);
    }
    at
}

fn put_wire_options(wires: &[u32], row: usize, out: &mut [u8], at: usize) -> usize
    requires { (at ≤ past_text) × (row < many_rows) }
    ensures { Written at (spread (option_tokens (wire_options (wire_of wires.now row)))) out.old out.new result }
{
    let flags = column(wires, row, WIRE_FLAGS);
    let width = put_setting(out, at, b"width", column(wires, row, WIRE_WIDTH), 1);
    let offset = put_offset(out, width, column(wires, row, WIRE_OFFSET));
    let upto = put_flag(out, offset, flags % 2 == 1, b"upto");
    let port = put_port(
        out,
        upto,
        flags / DIRECTION_FLAG,
        column(wires, row, WIRE_PORT),
    );
    put_flag(out, port, flags / 2 % 2 == 1, b"signed")
}

fn put_memory_options(rows: &[u32], row: usize, out: &mut [u8], at: usize) -> usize
    requires { (at ≤ past_text) × (row < many_rows) }
    ensures { Written at (spread (option_tokens (memory_options (memory_at rows.now row)))) out.old out.new result }
{
    let width = put_setting(out, at, b"width", column(rows, row, MEMORY_WIDTH), 1);
    let size = put_setting(out, width, b"size", column(rows, row, MEMORY_SIZE), 0);
    put_offset(out, size, column(rows, row, MEMORY_OFFSET))
}

fn put_sort(rows: &[u32], row: usize, c: usize, out: &mut [u8], at: usize) -> usize
    requires { (at ≤ past_text) × (row < many_rows) × (c < 8) }
    ensures { Written at (spread (sort_tokens (sort_at rows.now row c))) out.old out.new result }
{
    let sort = column(rows, row, c);
    if sort == 0 {
        return at;
    }
    if sort == SORT_SIGNED {
        return put_bytes(out, at, b" signed");
    }
    put_bytes(out, at, b" real")
}

fn put_autoidx(rows: &[u32], row: usize, out: &mut [u8], at: usize) -> usize
    requires { (at ≤ past_text) × (row < many_rows) }
    ensures { Written at (spaced (shape_tokens (autoidx-stmt (signed_of (column rows.now row 1))))) out.old out.new result }
{
    let end = put_bytes(out, at, b"autoidx");
    put_signed(out, end, column(rows, row, AUTOIDX_NUMBER))
}

fn put_attribute(design: &Design, row: usize, out: &mut [u8], at: usize) -> usize
    requires { (at ≤ past_text) × (row < many_rows) × (length design.now.bits.now ≤ bits_length) }
    ensures { Written at (spaced (shape_tokens (attr-stmt (name_from design.now.names.now design.now.rows.now row 1) (literal_of (constant_at design.now.strings.now design.now.bits.now design.now.rows.now row 3))))) out.old out.new result }
{
    let first = put_bytes(out, at, b"attribute");
    let end = put_token(
        out,
        first,
        bytes_at(design.names, design.rows, row, ROW_NAME),
    );
    put_constant(design, row, ROW_CONSTANT, out, end)
}

// A statement of a word and a name.
fn put_named(design: &Design, row: usize, first: &[u8], out: &mut [u8], at: usize) -> usize
    requires { (at ≤ past_text) × (row < many_rows) }
    ensures { Written at (spaced (word first.now ∷ name (name_from design.now.names.now design.now.rows.now row 1) ∷ [])) out.old out.new result }
{
    let end = put_bytes(out, at, first);
    put_token(out, end, bytes_at(design.names, design.rows, row, ROW_NAME))
}

fn put_parameter(design: &Design, row: usize, out: &mut [u8], at: usize) -> usize
    requires { (at ≤ past_text) × (row < many_rows) × (length design.now.bits.now ≤ bits_length) }
    ensures { Written at (spaced (shape_tokens (param-stmt (name_from design.now.names.now design.now.rows.now row 1) (map literal_of (optional_at design.now.strings.now design.now.bits.now design.now.rows.now row 3))))) out.old out.new result }
{
    let first = put_bytes(out, at, b"parameter");
    let end = put_token(
        out,
        first,
        bytes_at(design.names, design.rows, row, ROW_NAME),
    );
    if column(design.rows, row, ROW_CONSTANT) == 0 {
        return end;
    }
    put_constant(design, row, ROW_CONSTANT, out, end)
}

fn put_memory(design: &Design, row: usize, out: &mut [u8], at: usize) -> usize
    requires { (at ≤ past_text) × (row < many_rows) }
    ensures { Written at (spaced (shape_tokens (memory-stmt (memory_options (memory_at design.now.rows.now row)) (name_from design.now.names.now design.now.rows.now row 1)))) out.old out.new result }
{
    let first = put_bytes(out, at, b"memory");
    let end = put_memory_options(design.rows, row, out, first);
    put_token(out, end, bytes_at(design.names, design.rows, row, ROW_NAME))
}

fn put_cell(design: &Design, row: usize, out: &mut [u8], at: usize) -> usize
    requires { (at ≤ past_text) × (row < many_rows) }
    ensures { Written at (spaced (shape_tokens (cell-stmt (name_from design.now.names.now design.now.rows.now row 1) (name_from design.now.names.now design.now.rows.now row 3)))) out.old out.new result }
{
    let first = put_bytes(out, at, b"cell");
    let end = put_token(
        out,
        first,
        bytes_at(design.names, design.rows, row, CELL_TYPE),
    );
    put_token(
        out,
        end,
        bytes_at(design.names, design.rows, row, CELL_NAME),
    )
}

fn put_cell_parameter(design: &Design, row: usize, out: &mut [u8], at: usize) -> usize
    requires { (at ≤ past_text) × (row < many_rows) × (length design.now.bits.now ≤ bits_length) }
    ensures { Written at (spaced (shape_tokens (cell-param-stmt (sort_at design.now.rows.now row 6) (name_from design.now.names.now design.now.rows.now row 1) (literal_of (constant_at design.now.strings.now design.now.bits.now design.now.rows.now row 3))))) out.old out.new result }
{
    let first = put_bytes(out, at, b"parameter");
    let sort = put_sort(design.rows, row, ROW_SORT, out, first);
    let end = put_token(
        out,
        sort,
        bytes_at(design.names, design.rows, row, ROW_NAME),
    );
    put_constant(design, row, ROW_CONSTANT, out, end)
}

// Where the wire's own row is gives its number in the module.
fn put_wire(design: &Design, m: Module, row: usize, out: &mut [u8], at: usize) -> usize
    requires { (at ≤ past_text) × (row < many_rows) }
    ensures { Written at (spaced (shape_tokens (wire-stmt (wire_options (wire_of design.now.wires.now (column design.now.rows.now row 3))) (own_now design.now.names.now design.now.wires.now design.now.rows.now m (column design.now.rows.now row 3))))) out.old out.new result }
{
    let k = column(design.rows, row, ROW_WIRE);
    let n = if m.first < k { k - m.first } else { 0 };
    let first = put_bytes(out, at, b"wire");
    let end = put_wire_options(design.wires, k as usize, out, first);
    put_token(out, end, name_now(design, m, WireNumber(n), k as usize))
}

fn put_cell_connection(design: &Design, m: Module, row: usize, out: &mut [u8], at: usize) -> usize
    requires { (at ≤ past_text) × (row < many_rows) × (length design.now.bits.now ≤ bits_length) }
    ensures { Written at (spaced (shape_tokens (cell-conn-stmt (name_from design.now.names.now design.now.rows.now row 1) (sig (wires_in design.now.names.now design.now.wires.now design.now.rows.now m) (signal_at design.now.bits.now design.now.rows.now row 3))))) out.old out.new result }
{
    let first = put_bytes(out, at, b"connect");
    let end = put_token(
        out,
        first,
        bytes_at(design.names, design.rows, row, ROW_NAME),
    );
    put_signal(
        design,
        m,
        words_at(design.bits, design.rows, row, LAST_SIGNAL),
        out,
        end,
    )
}

fn put_connection(design: &Design, m: Module, row: usize, out: &mut [u8], at: usize) -> usize
    requires { (at ≤ past_text) × (row < many_rows) × (length design.now.bits.now ≤ bits_length) }
    ensures { Written at (spaced (shape_tokens (conn-stmt (sig (wires_in design.now.names.now design.now.wires.now design.now.rows.now m) (signal_at design.now.bits.now design.now.rows.now row 1)) (sig (wires_in design.now.names.now design.now.wires.now design.now.rows.now m) (signal_at design.now.bits.now design.now.rows.now row 3))))) out.old out.new result }
{
    let first = put_bytes(out, at, b"connect");
    let end = put_signal(
        design,
        m,
        words_at(design.bits, design.rows, row, FIRST_SIGNAL),
        out,
        first,
    );
    put_signal(
        design,
        m,
        words_at(design.bits, design.rows, row, LAST_SIGNAL),
        out,
        end,
    )
}

// A statement that names no wire of the module, by its kind.
fn put_plain(design: &Design, row: usize, kind: u32, out: &mut [u8], at: usize) -> usize
    requires { (at ≤ past_text) × (row < many_rows) × (length design.now.bits.now ≤ bits_length) }
    ensures { PlainIs design.now.names.now design.now.strings.now design.now.bits.now design.now.rows.now row kind at out.old out.new result }
{
    if kind == AUTOIDX_KIND {
        return put_autoidx(design.rows, row, out, at);
    }
    if kind == ATTRIBUTE_KIND {
        return put_attribute(design, row, out, at);
    }
    if kind == MODULE_KIND {
        return put_named(design, row, b"module", out, at);
    }
    if kind == PARAMETER_KIND {
        return put_parameter(design, row, out, at);
    }
    if kind == MEMORY_KIND {
        return put_memory(design, row, out, at);
    }
    if kind == CELL_KIND {
        return put_cell(design, row, out, at);
    }
    if kind == CELL_PARAMETER_KIND {
        return put_cell_parameter(design, row, out, at);
    }
    if kind == PROCESS_KIND {
        return put_named(design, row, b"process", out, at);
    }
    if kind == END_KIND {
        return put_bytes(out, at, b"end");
    }
    at
}

fn put_statement(design: &Design, m: Module, row: usize, out: &mut [u8], at: usize) -> usize
    requires { (at ≤ past_text) × (row < many_rows) × (length design.now.bits.now ≤ bits_length) }
    ensures { Written at (body_text (wires_in design.now.names.now design.now.wires.now design.now.rows.now m) (statement_now design.now.names.now design.now.strings.now design.now.bits.now design.now.wires.now design.now.rows.now m row)) out.old out.new result }
{
    let kind = column(design.rows, row, ROW_KIND);
    if kind == WIRE_KIND {
        return put_wire(design, m, row, out, at);
    }
    if kind == CELL_CONNECTION_KIND {
        return put_cell_connection(design, m, row, out, at);
    }
    if kind == CONNECTION_KIND {
        return put_connection(design, m, row, out, at);
    }
    if kind == STEP_KIND {
        return put_step(design, m, row, out, at);
    }
    put_plain(design, row, kind, out, at)
}

// The line of the statement in row k, two spaces a level before it and a line end behind it.
pub fn put_line(
    design: &Design,
    m: Module,
    k: u32,
    level: usize,
    out: &mut [u8],
    at: usize,
) -> usize
    requires { (at ≤ past_text) × (level ≤ most_level) × (length design.now.bits.now ≤ bits_length) }
    ensures { Written at (line_of level (wires_in design.now.names.now design.now.wires.now design.now.rows.now m) (statement_now design.now.names.now design.now.strings.now design.now.bits.now design.now.wires.now design.now.rows.now m k)) out.old out.new result }
{
    let body = put_spaces(out, at, LEVEL_SPACES * level);
    let end = put_statement(design, m, k as usize, out, body);
    put_byte(out, end, b'\n')
}
