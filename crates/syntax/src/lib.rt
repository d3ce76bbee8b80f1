// The statement of a line in its context, from the rows of its tokens, and the first refusal of its shape, its numbers and its wires. What comes
// behind a taken name, the widths, is told with the statement.
#![tactic(auto)]

ghost use Rattle.std.specs.Prelude.{◌≡◌, ◌+◌};
ghost use Rattle.wires.specs.Rows.{wires_from};
ghost use Rattle.name_index.specs.Index.{WiresIndexed};
ghost use Rattle.line_forms.specs.Forms.{kind_of, cell_kind_of};
ghost use Rattle.line_forms.specs.Processes.{Inside, process_kind_of, StepFrom};
ghost use Rattle.line_forms.specs.declared.CellKind.TheVariants as cell_kind;
ghost use Rattle.line_forms.specs.declared.Form.TheVariants as form;
ghost use Rattle.line_forms.specs.declared.Kind.TheVariants as kind;
ghost use Rattle.line_forms.specs.declared.ProcessKind.TheVariants as process_kind;
ghost use Rattle.syntax.specs.Statements.{number_of, GoodIs, FormIs, PlainIs, WireIs, faulted, ConnectedIs, Says, ModuleIs, CellIs, StatementIs, Ready};

use context::place::{IN_CELL, IN_MODULE, Place, TOP};
use context::steps::CASE_STEP;
use faults::merge;
use line_forms::{
    CellKind, Form, Kind, ProcessKind, cell_line_kind, module_line_kind, process_line_kind,
    top_line,
};
use literal_rules::{good_literal, integer_of};
use netlist::results::{BAD_NUMBER, BAD_WIDTH, NO_SHAPE, NOT_THERE};
use option_rules::{memory_rules, wire_rules};
use options::{memory_line, wire_line};
use scanner::parts::Span;
use signal_list::signals_from;
use signals::{Bits, ModuleWires, signal};
use steps::arity_fits;
use tokens::{ConstantSpan, id_at};
use wires::port_taken;

// The words of a token's row.
const TOKEN_SIZE: usize = 4;

// The most that the flags of a wire are that is no port.
const MOST_PLAIN_FLAGS: u32 = 3;

// How deep bundles stand in bundles at most.
const SIGNAL_DEPTH: usize = 16;

// Where the right signal of a connection starts in the scratch table.
pub const RIGHT_SIGNAL: usize = 2048;

// What a line is refused with before its name is looked up: it has no shape, a number breaks its rule, or a wire is not there.
#[derive(Clone, Copy, PartialEq, Eq)]
pub enum LineFault {
    NoShape,
    BadNumber,
    MissingWire,
}

// The number of a refusal.
impl From<LineFault> for u32 {
    ghost from_gives = { λ fault n. n ≡ number_of fault };

    fn from(fault: LineFault) -> u32 {
        match fault {
            LineFault::NoShape => NO_SHAPE,
            LineFault::BadNumber => BAD_NUMBER,
            LineFault::MissingWire => NOT_THERE,
        }
    }
}

// A line's statement. Offsets and the number of `autoidx` are words in two's complement.
#[derive(Clone, Copy)]
pub enum Statement {
    Autoidx(u32),
    Attribute {
        name: Span,
        value: ConstantSpan,
    },
    Module(Span),
    Parameter {
        name: Span,
        value: Option<ConstantSpan>,
    },
    Wire {
        name: Span,
        width: u32,
        offset: u32,
        flags: u32,
        port: u32,
    },
    Memory {
        name: Span,
        width: u32,
        size: u32,
        offset: u32,
    },
    Cell {
        kind: Span,
        name: Span,
    },
    CellParameter {
        sort: u32,
        name: Span,
        value: ConstantSpan,
    },
    CellConnection {
        name: Span,
        width: usize,
        fault: u32,
    },
    Connection {
        left: usize,
        right: usize,
        fault: u32,
    },
    // A line inside a process: its step by its code, how wide its first signal is, and how many signals it has.
    Step {
        step: u32,
        width: usize,
        count: usize,
        fault: u32,
    },
    End,
    Process(Span),
}

// A constant that keeps the number rules.
fn good_constant(f: &[u8], c: ConstantSpan) -> Result<(), LineFault>
    ensures { GoodIs f.now c result }
{
    if good_literal(f, c) {
        return Ok(());
    }
    Err(LineFault::BadNumber)
}

fn parameter_statement(
    f: &[u8],
    name: Span,
    value: Option<ConstantSpan>,
) -> Result<Statement, LineFault>
    ensures { FormIs f.now (form.Parameter name value) result }
{
    if let Some(c) = value {
        good_constant(f, c)?;
    }
    Ok(Statement::Parameter { name, value })
}

// The statement of a line of fixed shape.
fn form_statement(f: &[u8], form: Form) -> Result<Statement, LineFault>
    ensures { FormIs f.now form result }
{
    match form {
        Form::Autoidx(z) => {
            let word = integer_of(f, z).ok_or(LineFault::BadNumber)?;
            Ok(Statement::Autoidx(word))
        }
        Form::Attribute { name, value } => {
            good_constant(f, value)?;
            Ok(Statement::Attribute { name, value })
        }
        Form::Module(name) => Ok(Statement::Module(name)),
        Form::Parameter { name, value } => parameter_statement(f, name, value),
        Form::Cell { kind, name } => Ok(Statement::Cell { kind, name }),
        Form::CellParameter { sort, name, value } => {
            good_constant(f, value)?;
            Ok(Statement::CellParameter { sort, name, value })
        }
        Form::Process(name) => Ok(Statement::Process(name)),
        Form::End => Ok(Statement::End),
    }
}

fn memory_statement(f: &[u8], tokens: &[u32]) -> Result<Statement, LineFault>
    ensures { PlainIs f.now (kind_of f.now tokens.now kind.Memory) result }
{
    let line = memory_line(tokens, 1).ok_or(LineFault::NoShape)?;
    let rules = memory_rules(f, line.options).ok_or(LineFault::BadNumber)?;
    Ok(Statement::Memory {
        name: line.name,
        width: rules.width,
        size: rules.size,
        offset: rules.offset,
    })
}

// Without a port the flags are below 4.
fn wire_statement(
    f: &[u8],
    tokens: &[u32],
    wires: &[u32],
    first: u32,
    count: u32,
) -> Result<Statement, LineFault>
    ensures { WireIs f.now tokens.now wires.now first count result }
{
    let line = wire_line(tokens, 1).ok_or(LineFault::NoShape)?;
    let rules = wire_rules(f, line.options).ok_or(LineFault::BadNumber)?;
    if MOST_PLAIN_FLAGS < rules.flags && port_taken(wires, first, count, rules.port) {
        return Err(LineFault::BadNumber);
    }
    Ok(Statement::Wire {
        name: line.name,
        width: rules.width,
        offset: rules.offset,
        flags: rules.flags,
        port: rules.port,
    })
}

// A signal's fault of 7 or 8 refuses its statement.
fn refused(fault: u32, statement: Statement) -> Result<Statement, LineFault>
    ensures { result ≡ faulted fault statement }
{
    if fault == BAD_NUMBER {
        return Err(LineFault::BadNumber);
    }
    if fault == NOT_THERE {
        return Err(LineFault::MissingWire);
    }
    Ok(statement)
}

// A module's connection of two signals; unequal widths leave 10.
fn connected(left: Bits, right: Bits) -> Result<Statement, LineFault>
    ensures { ConnectedIs left right result }
{
    let signals = merge(left.fault, right.fault);
    let uneven = if left.width == right.width {
        0
    } else {
        BAD_WIDTH
    };
    let fault = merge(uneven, signals);
    refused(
        signals,
        Statement::Connection {
            left: left.width,
            right: right.width,
            fault,
        },
    )
}

// The left signal's bits go to the scratch table from 0 on, the right one's from 2048 on.
fn connection_statement(
    f: &[u8],
    tokens: &[u32],
    names: &[u8],
    wires: &[u32],
    scope: ModuleWires,
    scratch: &mut [u32],
    heads: &[u32],
    chain: &[u32],
) -> Result<Statement, LineFault>
    requires ready { Ready f.now tokens.now scratch.old scope.count }
    requires wires_indexed { WiresIndexed heads.now chain.now names.now wires.now (scope.first + scope.count) }
    ensures { Says (wires_from names.now wires.now scope.first scope.count) f.now scratch.new (kind_of f.now tokens.now kind.Connect) result }
{
    let left = signal(
        f,
        tokens,
        1,
        SIGNAL_DEPTH,
        names,
        wires,
        scope,
        scratch,
        0,
        heads,
        chain,
    )
    .ok_or(LineFault::NoShape)?;
    let right = signal(
        f,
        tokens,
        left.next,
        SIGNAL_DEPTH,
        names,
        wires,
        scope,
        scratch,
        RIGHT_SIGNAL,
        heads,
        chain,
    )
    .ok_or(LineFault::NoShape)?;
    if right.next < tokens.len() / TOKEN_SIZE {
        return Err(LineFault::NoShape);
    }
    connected(left.bits, right.bits)
}

fn cell_connection_statement(
    f: &[u8],
    tokens: &[u32],
    names: &[u8],
    wires: &[u32],
    scope: ModuleWires,
    scratch: &mut [u32],
    heads: &[u32],
    chain: &[u32],
) -> Result<Statement, LineFault>
    requires ready { Ready f.now tokens.now scratch.old scope.count }
    requires wires_indexed { WiresIndexed heads.now chain.now names.now wires.now (scope.first + scope.count) }
    ensures { Says (wires_from names.now wires.now scope.first scope.count) f.now scratch.new (cell_kind_of f.now tokens.now cell_kind.Connect) result }
{
    let name = id_at(tokens, 1).ok_or(LineFault::NoShape)?;
    let read = signal(
        f,
        tokens,
        2,
        SIGNAL_DEPTH,
        names,
        wires,
        scope,
        scratch,
        0,
        heads,
        chain,
    )
    .ok_or(LineFault::NoShape)?;
    if read.next < tokens.len() / TOKEN_SIZE {
        return Err(LineFault::NoShape);
    }
    let bits = read.bits;
    refused(
        bits.fault,
        Statement::CellConnection {
            name,
            width: bits.width,
            fault: bits.fault,
        },
    )
}

fn module_statement(
    f: &[u8],
    tokens: &[u32],
    attributed: bool,
    names: &[u8],
    wires: &[u32],
    scope: ModuleWires,
    scratch: &mut [u32],
    heads: &[u32],
    chain: &[u32],
) -> Result<Statement, LineFault>
    requires ready { Ready f.now tokens.now scratch.old scope.count }
    requires wires_indexed { WiresIndexed heads.now chain.now names.now wires.now (scope.first + scope.count) }
    ensures { ModuleIs attributed f.now tokens.now (wires_from names.now wires.now scope.first scope.count) scratch.new result }
{
    let kind = module_line_kind(tokens, attributed).ok_or(LineFault::NoShape)?;
    match kind {
        Kind::Form(form) => form_statement(f, form),
        Kind::Wire => wire_statement(f, tokens, wires, scope.first, scope.count),
        Kind::Memory => memory_statement(f, tokens),
        Kind::Connect => connection_statement(
            f, tokens, names, wires, scope, scratch, heads, chain,
        ),
    }
}

fn cell_statement(
    f: &[u8],
    tokens: &[u32],
    names: &[u8],
    wires: &[u32],
    scope: ModuleWires,
    scratch: &mut [u32],
    heads: &[u32],
    chain: &[u32],
) -> Result<Statement, LineFault>
    requires ready { Ready f.now tokens.now scratch.old scope.count }
    requires wires_indexed { WiresIndexed heads.now chain.now names.now wires.now (scope.first + scope.count) }
    ensures { CellIs f.now tokens.now (wires_from names.now wires.now scope.first scope.count) scratch.new result }
{
    let kind = cell_line_kind(tokens).ok_or(LineFault::NoShape)?;
    match kind {
        CellKind::Form(form) => form_statement(f, form),
        CellKind::Connect => cell_connection_statement(
            f, tokens, names, wires, scope, scratch, heads, chain,
        ),
    }
}

// A line inside a process with a step, whose signals stand from row `from` on; only the values of a case have commas between.
fn step_statement(
    f: &[u8],
    tokens: &[u32],
    step: u32,
    from: usize,
    names: &[u8],
    wires: &[u32],
    scope: ModuleWires,
    scratch: &mut [u32],
    heads: &[u32],
    chain: &[u32],
) -> Result<Statement, LineFault>
    requires ready { Ready f.now tokens.now scratch.old scope.count }
    requires wires_indexed { WiresIndexed heads.now chain.now names.now wires.now (scope.first + scope.count) }
    requires step_from { StepFrom tokens.now step from }
    ensures { Says (wires_from names.now wires.now scope.first scope.count) f.now scratch.new (process_kind_of f.now tokens.now (process_kind.Step step from)) result }
{
    let comma = step == CASE_STEP;
    let list = signals_from(
        f, tokens, from, comma, names, wires, scope, scratch, heads, chain,
    )
    .ok_or(LineFault::NoShape)?;
    if !arity_fits(step, list.count as u32) {
        return Err(LineFault::NoShape);
    }
    refused(
        list.fault,
        Statement::Step {
            step,
            width: list.width,
            count: list.count,
            fault: list.fault,
        },
    )
}

// A line inside a process.
fn process_statement(
    f: &[u8],
    tokens: &[u32],
    place: Place,
    names: &[u8],
    wires: &[u32],
    scope: ModuleWires,
    scratch: &mut [u32],
    heads: &[u32],
    chain: &[u32],
) -> Result<Statement, LineFault>
    requires ready { Ready f.now tokens.now scratch.old scope.count }
    requires wires_indexed { WiresIndexed heads.now chain.now names.now wires.now (scope.first + scope.count) }
    requires inside { Inside place.scope }
    ensures { StatementIs place f.now tokens.now (wires_from names.now wires.now scope.first scope.count) scratch.new result }
{
    let kind = process_line_kind(tokens, place.scope, place.depth, place.attributed).ok_or(
        LineFault::NoShape,
    )?;
    match kind {
        ProcessKind::Form(form) => form_statement(f, form),
        ProcessKind::Step { step, from } => step_statement(
            f, tokens, step, from, names, wires, scope, scratch, heads, chain,
        ),
    }
}

// The statement of a line that has a token. The scope is that of the module in which it stands.
pub fn line_statement(
    f: &[u8],
    tokens: &[u32],
    place: Place,
    names: &[u8],
    wires: &[u32],
    scope: ModuleWires,
    scratch: &mut [u32],
    heads: &[u32],
    chain: &[u32],
) -> Result<Statement, LineFault>
    requires ready { Ready f.now tokens.now scratch.old scope.count }
    requires wires_indexed { WiresIndexed heads.now chain.now names.now wires.now (scope.first + scope.count) }
    ensures { StatementIs place f.now tokens.now (wires_from names.now wires.now scope.first scope.count) scratch.new result }
{
    if place.scope == TOP {
        let form = top_line(tokens, place.first).ok_or(LineFault::NoShape)?;
        return form_statement(f, form);
    }
    if place.scope == IN_MODULE {
        return module_statement(
            f,
            tokens,
            place.attributed,
            names,
            wires,
            scope,
            scratch,
            heads,
            chain,
        );
    }
    if place.scope == IN_CELL {
        return cell_statement(f, tokens, names, wires, scope, scratch, heads, chain);
    }
    process_statement(f, tokens, place, names, wires, scope, scratch, heads, chain)
}
