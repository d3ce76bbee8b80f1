// Lines of fixed shape, and which shape a line's first word announces, from the rows of the line's tokens.
#![tactic(auto)]

ghost use Rattle.std.specs.Prelude.{◌≡◌, Bool, true, cond, eqb};
ghost use Rattle.rules.specs.Bytes.{any};
ghost use Rattle.rules.specs.Statements.{autoidx-stmt, attr-stmt, module-stmt, param-stmt, cell-stmt, cell-param-stmt, proc-stmt};
ghost use Rattle.rules.specs.Shapes.{of₁, of₂, of₃, id, int, const, or_end, sort, object_forms, forms, in_process, in_switch, in_case};
ghost use Rattle.line_forms.specs.Words.{WordIs, begins};
ghost use Rattle.numbers.specs.Kinds.{sort_of};
ghost use Rattle.line_forms.specs.Forms.{FinishedIs, LineIs, SortedIs, TopIs, AnnouncedIs, ModuleIs, CellIs};
ghost use Rattle.context.specs.Place.{scope_of};
ghost use Rattle.line_forms.specs.Processes.{root_words, Inside, process_forms, SyncIs, BegunIs, ProcessIs};

use context::place::{IN_PROCESS, IN_SWITCH, IN_SYNC, IN_TAIL};
use scanner::parts::Span;
use scanner::words::{
    ASSIGN, ATTRIBUTE, AUTOIDX, CASE, CELL, CONNECT, EDGE, END, GLOBAL, MEMORY, MODULE, NO_KEYWORD,
    PARAMETER, PROCESS, REAL, SIGNED, SWITCH, SYNC, UPDATE, WIRE,
};
use tokens::{ConstantSpan, Integer, ROW_WORDS, Token, id_at, integer_at, literal_at, token_at};

// The sorts of a cell parameter; an attribute is plain.
const PLAIN_SORT: u32 = 0;

const SIGNED_SORT: u32 = 1;

const REAL_SORT: u32 = 2;

// The most switches around one inside which another may stand.
const MOST_AROUND: u32 = 15;

// A line of fixed shape. A module parameter may have no constant. Sort: 0 plain, 1 signed, 2 real.
#[derive(Clone, Copy)]
pub enum Form {
    Autoidx(Integer),
    Attribute {
        name: Span,
        value: ConstantSpan,
    },
    Module(Span),
    Parameter {
        name: Span,
        value: Option<ConstantSpan>,
    },
    Cell {
        kind: Span,
        name: Span,
    },
    CellParameter {
        sort: u32,
        name: Span,
        value: ConstantSpan,
    },
    Process(Span),
    End,
}

// A line in a module: of fixed shape, or one of the others by its first word.
#[derive(Clone, Copy)]
pub enum Kind {
    Form(Form),
    Wire,
    Memory,
    Connect,
}

// A line in a cell.
#[derive(Clone, Copy)]
pub enum CellKind {
    Form(Form),
    Connect,
}

// A line in a process: of fixed shape, or a step by the number of its word (of a sync the word behind it) whose signals stand from a row on.
#[derive(Clone, Copy)]
pub enum ProcessKind {
    Form(Form),
    Step { step: u32, from: usize },
}

// The form, where no row from i on is left.
fn finished(tokens: &[u32], i: usize, form: Form) -> Option<Form>
    ensures { FinishedIs tokens.now i form result }
{
    if i < tokens.len() / ROW_WORDS {
        return None;
    }
    Some(form)
}

fn autoidx_line(tokens: &[u32], i: usize) -> Option<Form>
    ensures { LineIs (of₁ autoidx-stmt int) tokens.now i result }
{
    let z = integer_at(tokens, i)?;
    finished(tokens, i + 1, Form::Autoidx(z))
}

// An attribute's line, or a cell parameter's behind its sort: a name and a constant.
fn valued_line(tokens: &[u32], i: usize, attribute: bool, sort: u32) -> Option<Form>
    ensures { SortedIs sort (of₂ (cond attribute attr-stmt (cell-param-stmt (sort_of sort))) id const) tokens.now i result }
{
    let name = id_at(tokens, i)?;
    let j = i + 1;
    let value = literal_at(tokens, j)?;
    let form = if attribute {
        Form::Attribute { name, value }
    } else {
        Form::CellParameter { sort, name, value }
    };
    finished(tokens, j + 1, form)
}

// A module's line, or a process's: one name.
fn named_line(tokens: &[u32], i: usize, process: bool) -> Option<Form>
    ensures { LineIs (of₁ (cond process proc-stmt module-stmt) id) tokens.now i result }
{
    let name = id_at(tokens, i)?;
    let form = if process {
        Form::Process(name)
    } else {
        Form::Module(name)
    };
    finished(tokens, i + 1, form)
}

fn parameter_line(tokens: &[u32], i: usize) -> Option<Form>
    ensures { LineIs (of₂ param-stmt id (or_end const)) tokens.now i result }
{
    let name = id_at(tokens, i)?;
    let j = i + 1;
    if tokens.len() / ROW_WORDS <= j {
        return Some(Form::Parameter { name, value: None });
    }
    let value = Some(literal_at(tokens, j)?);
    finished(tokens, j + 1, Form::Parameter { name, value })
}

fn cell_line(tokens: &[u32], i: usize) -> Option<Form>
    ensures { LineIs (of₂ cell-stmt id id) tokens.now i result }
{
    let kind = id_at(tokens, i)?;
    let j = i + 1;
    let name = id_at(tokens, j)?;
    finished(tokens, j + 1, Form::Cell { kind, name })
}

// The number of the keyword in row i; 32 where none stands there.
fn word_at(tokens: &[u32], i: usize) -> usize
    ensures { WordIs tokens.now i result }
{
    match token_at(tokens, i) {
        Token::Word(c) => c,
        _ => NO_KEYWORD,
    }
}

fn cell_parameter_line(tokens: &[u32], i: usize) -> Option<Form>
    ensures { LineIs (of₃ cell-param-stmt sort id const) tokens.now i result }
{
    match word_at(tokens, i) {
        SIGNED => valued_line(tokens, i + 1, false, SIGNED_SORT),
        REAL => valued_line(tokens, i + 1, false, REAL_SORT),
        _ => valued_line(tokens, i, false, PLAIN_SORT),
    }
}

// A line outside of modules; first: no statement stands before it.
pub fn top_line(tokens: &[u32], first: bool) -> Option<Form>
    ensures { TopIs tokens.now first result }
{
    match word_at(tokens, 0) {
        AUTOIDX if first => autoidx_line(tokens, 1),
        ATTRIBUTE => valued_line(tokens, 1, true, PLAIN_SORT),
        MODULE => named_line(tokens, 1, false),
        _ => None,
    }
}

// What the keyword c announces among the lines that may follow attributes.
#[tactic(auto, unfolding(crate::proofs::LineLaws::words_open, crate::specs::Forms::kind_of, rules::specs::Shapes::whole))]
fn object_line(tokens: &[u32], c: usize) -> Option<Kind>
    ensures { AnnouncedIs object_forms tokens.now c result }
{
    match c {
        ATTRIBUTE => valued_line(tokens, 1, true, PLAIN_SORT).map(Kind::Form),
        WIRE => Some(Kind::Wire),
        MEMORY => Some(Kind::Memory),
        CELL => cell_line(tokens, 1).map(Kind::Form),
        PROCESS => named_line(tokens, 1, true).map(Kind::Form),
        _ => None,
    }
}

// A line in a module; attributed: it follows attributes.
pub fn module_line_kind(tokens: &[u32], attributed: bool) -> Option<Kind>
    ensures { ModuleIs tokens.now attributed result }
{
    let c = word_at(tokens, 0);
    if attributed {
        return object_line(tokens, c);
    }
    match c {
        PARAMETER => parameter_line(tokens, 1).map(Kind::Form),
        CONNECT => Some(Kind::Connect),
        END => finished(tokens, 1, Form::End).map(Kind::Form),
        _ => object_line(tokens, c),
    }
}

// A line in a cell.
pub fn cell_line_kind(tokens: &[u32]) -> Option<CellKind>
    ensures { CellIs tokens.now result }
{
    match word_at(tokens, 0) {
        PARAMETER => cell_parameter_line(tokens, 1).map(CellKind::Form),
        CONNECT => Some(CellKind::Connect),
        END => finished(tokens, 1, Form::End).map(CellKind::Form),
        _ => None,
    }
}

// Whether the keyword c begins a line outside of switches: the word w, `sync` or `end`.
#[tactic(auto, unfolding(crate::specs::Processes::root_words, rules::specs::Bytes::any, crate::proofs::ProcessLaws::process_open))]
fn begins_root(c: usize, w: usize) -> bool
    ensures { result ≡ any (eqb c) (root_words w) }
{
    c == w || c == SYNC || c == END
}

// The same before the switch of a process.
#[tactic(auto, using(crate::proofs::ProcessLaws::body_begins))]
fn begins_body(c: usize, attributed: bool) -> bool
    ensures { (first : Bool) → result ≡ begins (forms in_process first attributed) c }
{
    match c {
        ATTRIBUTE | SWITCH => true,
        _ => !attributed && begins_root(c, ASSIGN),
    }
}

// The same in a switch before its first case.
#[tactic(auto, using(crate::proofs::ProcessLaws::switch_begins))]
fn begins_switch(c: usize, depth: u32, attributed: bool) -> bool
    ensures { (first : Bool) → result ≡ begins (forms (in_switch depth) first attributed) c }
{
    match c {
        ATTRIBUTE | CASE => true,
        END => !attributed,
        _ => false,
    }
}

// The same in a case; a switch only where few enough are open.
#[tactic(auto, using(crate::proofs::ProcessLaws::case_begins))]
fn begins_case(c: usize, depth: u32, attributed: bool) -> bool
    ensures { (first : Bool) → result ≡ begins (forms (in_case depth) first attributed) c }
{
    match c {
        ATTRIBUTE | CASE => true,
        SWITCH => depth < MOST_AROUND,
        ASSIGN | END => !attributed,
        _ => false,
    }
}

// The same in any scope of a process; depth: how many switches are open around the innermost one.
#[tactic(auto, unfolding(context::specs::Place::scope_of))]
fn begins_line(c: usize, scope: u32, depth: u32, attributed: bool) -> bool
    requires { Inside scope }
    ensures { (first : Bool) → result ≡ begins (forms (scope_of scope depth) first attributed) c }
{
    match scope {
        IN_PROCESS => begins_body(c, attributed),
        IN_TAIL => begins_root(c, ASSIGN),
        IN_SYNC => begins_root(c, UPDATE),
        IN_SWITCH => begins_switch(c, depth, attributed),
        _ => begins_case(c, depth, attributed),
    }
}

// What stands behind `sync`: one of the eight words from `global` to `edge`.
fn sync_line(tokens: &[u32]) -> Option<ProcessKind>
    ensures { SyncIs tokens.now result }
{
    let c = word_at(tokens, 1);
    if c < GLOBAL || EDGE < c {
        return None;
    }
    Some(ProcessKind::Step {
        step: c as u32,
        from: 2,
    })
}

// What the keyword c announces, which begins a line of a process.
fn begun_line(tokens: &[u32], c: usize) -> Option<ProcessKind>
    requires word_is { WordIs tokens.now 0 c }
    requires c_value { begins process_forms c ≡ true }
    ensures { BegunIs tokens.now c result }
{
    match c {
        ATTRIBUTE => valued_line(tokens, 1, true, PLAIN_SORT).map(ProcessKind::Form),
        END => finished(tokens, 1, Form::End).map(ProcessKind::Form),
        SYNC => sync_line(tokens),
        _ => Some(ProcessKind::Step {
            step: c as u32,
            from: 1,
        }),
    }
}

// A line in a scope of a process; depth: how many switches are open around the innermost one; attributed: it follows attributes.
pub fn process_line_kind(
    tokens: &[u32],
    scope: u32,
    depth: u32,
    attributed: bool,
) -> Option<ProcessKind>
    requires { Inside scope }
    ensures { ProcessIs tokens.now scope depth attributed result }
{
    let c = word_at(tokens, 0);
    if !begins_line(c, scope, depth, attributed) {
        return None;
    }
    begun_line(tokens, c)
}
