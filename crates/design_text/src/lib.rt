// The written text of design memory: passes over the rows of its statements, one for each kind of line.
// All of it is total: a word past a table's end counts as 0, and a row that holds no statement is not written.
#![tactic(auto)]

ghost use Rattle.std.specs.Prelude.{◌≡◌, ◌+◌, ◌-◌, ◌≤◌, ◌<◌, length};
ghost use Rattle.rules.specs.Limits.{bits_length, past_text};
ghost use Rattle.text.specs.Written.{Written};
ghost use Rattle.netlist.specs.Designs.{tabled_in};
ghost use Rattle.design_text.specs.Rows.{next_row, line_if, kind_rows, cell_rows, object_if, object_rows, body_rows, module_at, module_if, module_rows, text_rows};

use context::kinds::{
    ATTRIBUTE_KIND, AUTOIDX_KIND, CELL_CONNECTION_KIND, CELL_KIND, CELL_PARAMETER_KIND,
    CONNECTION_KIND, END_KIND, MEMORY_KIND, MODULE_KIND, PARAMETER_KIND, PROCESS_KIND, WIRE_KIND,
};
use line_text::put_line;
use modules::module_wires;
use netlist::design::Design;
use netlist::rows::row_kind;
use numbers::kinds::ModuleNumber;
use process_text::{put_process, waiting_from};
use text::put_bytes;
use wire_names::Module;

// How many rows of each: statements, wires, standing renames.
#[derive(Clone, Copy)]
pub struct Counts {
    pub statements: u32,
    pub wires: u32,
    pub renames: u32,
}

// The rows from one up to another.
#[derive(Clone, Copy)]
struct Span {
    from: u32,
    to: u32,
}

// A row of an object: its attributes' first row, its own, and where the module's rows end.
#[derive(Clone, Copy)]
struct Object {
    first: u32,
    row: u32,
    to: u32,
}

// The first row of a kind among some, or their end.
fn next_row(rows: &[u32], kind: u32, from: u32, to: u32) -> u32
    ensures { result ≡ next_row rows.now kind from (to - from) }
{
    for k in from..to {
        if row_kind(rows, k) == kind {
            return k;
        }
    }
    from.max(to)
}

// The line of row k, if it is of this kind.
fn put_row(
    design: &Design,
    m: Module,
    kind: u32,
    level: usize,
    k: u32,
    out: &mut [u8],
    at: usize,
) -> usize
    requires { (at ≤ past_text) × (length design.now.bits.now ≤ bits_length) × (level ≤ 2) }
    ensures { Written at (line_if (tabled_in design.now) m kind level k) out.old out.new result }
{
    if row_kind(design.rows, k) != kind {
        return at;
    }
    put_line(design, m, k, level, out, at)
}

// The lines of a kind, in their order.
fn put_kind(
    design: &Design,
    m: Module,
    kind: u32,
    level: usize,
    span: Span,
    out: &mut [u8],
    at: usize,
) -> usize
    requires { (at ≤ past_text) × (length design.now.bits.now ≤ bits_length) × (level ≤ 2) }
    ensures { Written at (kind_rows (tabled_in design.now) m kind level span.from (span.to - span.from)) out.old out.new result }
{
    let mut end = at;
    for k in span.from..span.to {
        end = put_row(design, m, kind, level, k, out, end);
    }
    end
}

// A cell's line, its parameters, its connections and its end: they stand before the next `end`.
fn put_cell(design: &Design, m: Module, k: u32, to: u32, out: &mut [u8], at: usize) -> usize
    requires { (at ≤ past_text) × (length design.now.bits.now ≤ bits_length) × (k < to) }
    ensures { Written at (cell_rows (tabled_in design.now) m k (to - (k + 1))) out.old out.new result }
{
    let from = k + 1;
    let end = next_row(design.rows, END_KIND, from, to);
    let span = Span { from, to: end };
    let line = put_line(design, m, k, 1, out, at);
    let set = put_kind(design, m, CELL_PARAMETER_KIND, 2, span, out, line);
    let tied = put_kind(design, m, CELL_CONNECTION_KIND, 2, span, out, set);
    put_bytes(out, tied, b"  end\n")
}

// An object of this kind, if the row is of it, with its attributes before it.
fn put_object(
    design: &Design,
    m: Module,
    kind: u32,
    object: Object,
    out: &mut [u8],
    at: usize,
) -> usize
    requires { (at ≤ past_text) × (length design.now.bits.now ≤ bits_length) × (object.row < object.to) }
    ensures { Written at (object_if (tabled_in design.now) m kind object.first object.row (object.to - (object.row + 1))) out.old out.new result }
{
    let k = object.row;
    if row_kind(design.rows, k) != kind {
        return at;
    }
    let span = Span {
        from: object.first,
        to: k,
    };
    let line = put_kind(design, m, ATTRIBUTE_KIND, 1, span, out, at);
    if kind == CELL_KIND {
        let to = object.to;
        return put_cell(design, m, k, to, out, line);
    }
    if kind == PROCESS_KIND {
        let to = object.to;
        return put_process(design, m, k, to, out, line);
    }
    put_line(design, m, k, 1, out, line)
}

// The objects of a kind, in their order.
fn put_objects(
    design: &Design,
    m: Module,
    kind: u32,
    span: Span,
    out: &mut [u8],
    at: usize,
) -> usize
    requires { (at ≤ past_text) × (length design.now.bits.now ≤ bits_length) }
    ensures { Written at (object_rows (tabled_in design.now) m kind span.from span.from (span.to - span.from)) out.old out.new result }
{
    let mut end = at;
    let mut first = span.from;
    for k in span.from..span.to {
        end = put_object(
            design,
            m,
            kind,
            Object {
                first,
                row: k,
                to: span.to,
            },
            out,
            end,
        );
        first = waiting_from(row_kind(design.rows, k), first, k);
    }
    end
}

// What stands in a module, by the kinds' order: parameters, wires, memories, cells, processes, connections.
fn put_body(design: &Design, m: Module, span: Span, out: &mut [u8], at: usize) -> usize
    requires { (at ≤ past_text) × (length design.now.bits.now ≤ bits_length) }
    ensures { Written at (body_rows (tabled_in design.now) m span.from (span.to - span.from)) out.old out.new result }
{
    let set = put_kind(design, m, PARAMETER_KIND, 1, span, out, at);
    let declared = put_objects(design, m, WIRE_KIND, span, out, set);
    let memories = put_objects(design, m, MEMORY_KIND, span, out, declared);
    let cells = put_objects(design, m, CELL_KIND, span, out, memories);
    let processes = put_objects(design, m, PROCESS_KIND, span, out, cells);
    put_kind(design, m, CONNECTION_KIND, 1, span, out, processes)
}

// A module by its number: its wires' rows, and where the renames' rows begin.
fn module_of(wires: &[u32], counts: Counts, number: ModuleNumber) -> Module
    ensures { result ≡ module_at wires.now counts number.0 }
{
    let range = module_wires(wires, counts.wires, number);
    Module {
        number,
        first: range.first,
        wires: range.count,
        from: counts.statements,
        renames: counts.renames,
    }
}

// A module, if the row is a module line: its attributes, its line, what stands in it up to the next module line, its end.
fn put_module(
    design: &Design,
    counts: Counts,
    number: ModuleNumber,
    first: u32,
    k: u32,
    out: &mut [u8],
    at: usize,
) -> usize
    requires { (at ≤ past_text) × (length design.now.bits.now ≤ bits_length) × (k < counts.statements) }
    ensures { Written at (module_if (tabled_in design.now) counts number.0 first k (counts.statements - (k + 1))) out.old out.new result }
{
    if row_kind(design.rows, k) != MODULE_KIND {
        return at;
    }
    let m = module_of(design.wires, counts, number);
    let from = k + 1;
    let to = next_row(design.rows, MODULE_KIND, from, counts.statements);
    let before = Span { from: first, to: k };
    let inside = Span { from, to };
    let set = put_kind(design, m, ATTRIBUTE_KIND, 0, before, out, at);
    let line = put_line(design, m, k, 0, out, set);
    let body = put_body(design, m, inside, out, line);
    put_bytes(out, body, b"end\n")
}

// The modules, in their order; a module's number is how many module lines stand before its own.
fn put_modules(design: &Design, counts: Counts, out: &mut [u8], at: usize) -> usize
    requires { (at ≤ past_text) × (length design.now.bits.now ≤ bits_length) }
    ensures { Written at (module_rows (tabled_in design.now) counts 0 0 0 counts.statements) out.old out.new result }
{
    let mut end = at;
    let mut number = 0;
    let mut first = 0;
    for k in 0..counts.statements {
        let kind = row_kind(design.rows, k);
        end = put_module(design, counts, ModuleNumber(number), first, k, out, end);
        number += u32::from(kind == MODULE_KIND);
        first = waiting_from(kind, first, k);
    }
    end
}

// The `autoidx` line, if the first statement is one, then each module.
pub fn put_text(design: &Design, counts: Counts, out: &mut [u8]) -> usize
    requires { length design.now.bits.now ≤ bits_length }
    ensures { Written 0 (text_rows (tabled_in design.now) counts) out.old out.new result }
{
    let m = module_of(design.wires, counts, ModuleNumber(0));
    let span = Span {
        from: 0,
        to: counts.statements.min(1),
    };
    let end = put_kind(design, m, AUTOIDX_KIND, 0, span, out, 0);
    put_modules(design, counts, out, end)
}
