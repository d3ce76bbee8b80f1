// The verdict on one line after the statements so far: its statement with the sums of each size, or the lowest number that it is refused with.
#![tactic(auto)]

ghost use Rattle.std.specs.Prelude.{◌≡◌, ◌-◌, ◌≤◌, length};
ghost use Rattle.rules.specs.Limits.{longest_file, most_signal_bits};
ghost use Rattle.line_forms.specs.Forms.{name_in};
ghost use Rattle.syntax.specs.Statements.{fault_of, Sound, GoodOptional, Ready};
ghost use Rattle.name_index.specs.Index.{key_at, Indexed, LinesIndexed};
ghost use Rattle.context.specs.Place.{Bounds};
ghost use Rattle.context.specs.Sizes.{Within, AtMost};
ghost use Rattle.judgement.specs.Parts.{named_parts, connection_parts, step_parts, parts_of, bits_in, digits_in, bytes_in, SizesAre, taken_in, Coded, UnevenIs};
ghost use Rattle.judgement.specs.Judged.{JudgedAs, JudgesAs, Storable};

use context::kinds::{
    ATTRIBUTE_KIND, AUTOIDX_KIND, CELL_CONNECTION_KIND, CELL_KIND, CELL_PARAMETER_KIND,
    CONNECTION_KIND, END_KIND, MEMORY_KIND, MODULE_KIND, PARAMETER_KIND, PROCESS_KIND, STEP_KIND,
    WIRE_KIND,
};
use context::place::Place;
use context::sizes::{Sizes, kind_sizes, plus, within};
use context::steps::NO_STEP;
use faults::merge;
use literal_rules::literal_width;
use name_search::indexed_found;
use netlist::results::{BAD_WIDTH, TAKEN_NAME, TOO_MANY};
use scanner::parts::{Span, part};
use signals::ModuleWires;
use steps::asked_width;
use strings::string_size;
use syntax::{Statement, line_statement};
use tokens::ConstantSpan;

// What the tests of a statement go by: its kind by its code; a cell's type, and the own name, empty where there is
// none; its constant; its step by its code; how many signals it has, the widths of the first two (those of a step are all as wide as its first), and
// the number that they leave, or 0.
#[derive(Clone, Copy)]
struct Parts {
    kind: u32,
    first: Span,
    name: Span,
    value: Option<ConstantSpan>,
    step: u32,
    count: usize,
    left: usize,
    right: usize,
    fault: u32,
}

// A line's statement, with the sums over it and all before it.
#[derive(Clone, Copy)]
pub struct Stated {
    pub statement: Statement,
    pub sums: Sizes,
}

fn no_name() -> Span
    ensures { result ≡ record { start = 0; end = 0 } }
{
    Span { start: 0, end: 0 }
}

// A statement without signals.
#[tactic(auto, unfolding(crate::specs::Parts::named_parts))]
fn named(kind: u32, first: Span, name: Span, value: Option<ConstantSpan>) -> Parts
    ensures { result ≡ named_parts kind first name value }
{
    Parts {
        kind,
        first,
        name,
        value,
        step: NO_STEP,
        count: 0,
        left: 0,
        right: 0,
        fault: 0,
    }
}

// A connection of a cell or of a module.
#[tactic(auto, unfolding(crate::specs::Parts::connection_parts))]
fn connecting(kind: u32, name: Span, count: usize, left: usize, right: usize, fault: u32) -> Parts
    ensures { result ≡ connection_parts kind name count left right fault }
{
    Parts {
        kind,
        first: no_name(),
        name,
        value: None,
        step: NO_STEP,
        count,
        left,
        right,
        fault,
    }
}

// A line inside a process.
#[tactic(auto, unfolding(crate::specs::Parts::step_parts))]
fn stepping(step: u32, width: usize, count: usize, fault: u32) -> Parts
    ensures { result ≡ step_parts step width count fault }
{
    let name = no_name();
    Parts {
        kind: STEP_KIND,
        first: name,
        name,
        value: None,
        step,
        count,
        left: width,
        right: 0,
        fault,
    }
}

#[tactic(auto, unfolding(crate::specs::Parts::parts_of))]
fn parts_of(statement: Statement) -> Parts
    ensures { result ≡ parts_of statement }
{
    let empty = no_name();
    match statement {
        Statement::Autoidx(_) => named(AUTOIDX_KIND, empty, empty, None),
        Statement::Attribute { name, value } => named(ATTRIBUTE_KIND, empty, name, Some(value)),
        Statement::Module(name) => named(MODULE_KIND, empty, name, None),
        Statement::Parameter { name, value } => named(PARAMETER_KIND, empty, name, value),
        Statement::Wire { name, .. } => named(WIRE_KIND, empty, name, None),
        Statement::Memory { name, .. } => named(MEMORY_KIND, empty, name, None),
        Statement::Cell { kind, name } => named(CELL_KIND, kind, name, None),
        Statement::CellParameter { name, value, .. } => named(
            CELL_PARAMETER_KIND,
            empty,
            name,
            Some(value),
        ),
        Statement::CellConnection { name, width, fault } => connecting(
            CELL_CONNECTION_KIND,
            name,
            1,
            width,
            0,
            fault,
        ),
        Statement::Connection { left, right, fault } => connecting(
            CONNECTION_KIND,
            empty,
            2,
            left,
            right,
            fault,
        ),
        Statement::Step {
            step,
            width,
            count,
            fault,
        } => stepping(step, width, count, fault),
        Statement::End => named(END_KIND, empty, empty, None),
        Statement::Process(name) => named(PROCESS_KIND, empty, name, None),
    }
}

fn span_size(f: &[u8], span: Span) -> u32
    requires { length f.now ≤ longest_file }
    ensures { result ≡ length (name_in f.now span) }
{
    part(f, span.start, span.end).len() as u32
}

// The bits of a value; an integer and a string have none.
fn value_bits(f: &[u8], value: Option<ConstantSpan>) -> u32
    requires { GoodOptional f.now value }
    ensures { result ≡ digits_in f.now value }
{
    let Some(c) = value else {
        return 0;
    };
    match c {
        ConstantSpan::Integer(_) => 0,
        ConstantSpan::Value { .. } => literal_width(f, c) as u32,
        ConstantSpan::Text(_) => 0,
    }
}

// The bytes of a string; an integer and a value have none.
fn string_bytes(f: &[u8], value: Option<ConstantSpan>) -> u32
    requires { length f.now ≤ longest_file }
    ensures { result ≡ bytes_in f.now value }
{
    let Some(c) = value else {
        return 0;
    };
    match c {
        ConstantSpan::Integer(_) => 0,
        ConstantSpan::Value { .. } => 0,
        ConstantSpan::Text(start) => string_size(f, start) as u32,
    }
}

// The bits of a statement's signals.
fn signal_bits(parts: Parts) -> u32
    requires { bits_in parts ≤ most_signal_bits }
    ensures { result ≡ bits_in parts }
{
    if parts.kind == STEP_KIND {
        return (parts.count * parts.left) as u32;
    }
    (parts.left + parts.right) as u32
}

// The sizes of one statement whose signals leave no number.
fn statement_sizes(f: &[u8], statement: Statement) -> Sizes
    requires f_len_bound { length f.now ≤ longest_file }
    requires statement_value { fault_of statement ≡ 0 }
    requires sound { Sound f.now statement }
    ensures sizes_are { SizesAre f.now statement result }
    ensures at_most { AtMost 2147483647 result }
{
    let parts = parts_of(statement);
    let value = parts.value;
    let names = span_size(f, parts.first) + span_size(f, parts.name);
    kind_sizes(
        parts.kind,
        parts.count as u32,
        signal_bits(parts),
        value_bits(f, value),
        string_bytes(f, value),
        names,
    )
}

// Whether the statement's own name is taken in its name space.
#[tactic(auto, unfolding(crate::specs::Parts::taken_in, line_forms::specs::Forms::name_in))]
fn name_is_taken(
    f: &[u8],
    names: &[u8],
    rows: &[u32],
    place: Place,
    statement: Statement,
    heads: &[u32],
    chain: &[u32],
) -> bool
    requires bounds { Bounds place }
    requires indexed { Indexed heads.now chain.now (key_at names.now rows.now) place.rows }
    ensures { result ≡ taken_in f.now names.now rows.now place statement }
{
    let parts = parts_of(statement);
    let name = parts.name;
    indexed_found(
        names,
        rows,
        heads,
        chain,
        place,
        parts.kind,
        part(f, name.start, name.end),
    )
}

// 10 where the signals of a step are not as wide as it asks, or 0; without signals there is nothing to compare.
fn uneven(rows: &[u32], place: Place, step: u32, width: usize, count: usize) -> u32
    requires { Coded step }
    ensures { UnevenIs rows.now place step width count result }
{
    if (step == NO_STEP) | (count == 0) {
        return 0;
    }
    let Some(asked) = asked_width(rows, place, step) else {
        return 0;
    };
    if asked as usize == width {
        0
    } else {
        BAD_WIDTH
    }
}

// The verdict on a statement: a taken name, then what its signals leave or 10 for what is asked of them, then the sums.
fn judge_statement(
    f: &[u8],
    names: &[u8],
    rows: &[u32],
    place: Place,
    sums: Sizes,
    statement: Statement,
    heads: &[u32],
    chain: &[u32],
) -> Result<Stated, u32>
    requires f_len_bound { length f.now ≤ longest_file }
    requires sound { Sound f.now statement }
    requires within { Within sums }
    requires bounds { Bounds place }
    requires indexed { Indexed heads.now chain.now (key_at names.now rows.now) place.rows }
    ensures storable { Storable f.now result }
    ensures judges_as { JudgesAs f.now names.now rows.now place sums statement result }
{
    let parts = parts_of(statement);
    if name_is_taken(f, names, rows, place, statement, heads, chain) {
        return Err(TAKEN_NAME);
    }
    let fault = merge(
        parts.fault,
        uneven(rows, place, parts.step, parts.left, parts.count),
    );
    if fault != 0 {
        return Err(fault);
    }
    let sums = plus(sums, statement_sizes(f, statement));
    if within(sums) {
        return Ok(Stated { statement, sums });
    }
    Err(TOO_MANY)
}

// The verdict on a line that has a token: what its reading refuses, and then what its statement is refused with.
pub fn judge_line(
    f: &[u8],
    tokens: &[u32],
    place: Place,
    sums: Sizes,
    names: &[u8],
    wires: &[u32],
    rows: &[u32],
    scratch: &mut [u32],
    heads: &[u32],
    chain: &[u32],
) -> Result<Stated, u32>
    requires ready { Ready f.now tokens.now scratch.old (place.wires - place.wires_from) }
    requires within { Within sums }
    requires bounds { Bounds place }
    requires lines_indexed { LinesIndexed heads.now chain.now names.now wires.now rows.now place.rows place.wires }
    ensures storable { Storable f.now result }
    ensures judged_as { JudgedAs f.now tokens.now place sums names.now wires.now rows.now scratch.new result }
{
    let scope = ModuleWires {
        first: place.wires_from,
        count: place.wires - place.wires_from,
    };
    let statement = line_statement(f, tokens, place, names, wires, scope, scratch, heads, chain)?;
    judge_statement(f, names, rows, place, sums, statement, heads, chain)
}
