// Where a line stands: in what scope, behind what, and which rows of the table of statements its name spaces are.
ghost use Rattle.std.specs.Prelude.{◌≡◌, cond, [], ◌<◌};
ghost use Rattle.context.specs.Place.{place_of, closes_at, is_sync, end_scope, step_scope, scope_after, depth_after, place_after, Bounds};

use crate::kinds::{ATTRIBUTE_KIND, CELL_KIND, END_KIND, MODULE_KIND, PROCESS_KIND, WIRE_KIND};
use crate::steps::{CASE_STEP, EDGE_STEP, GLOBAL_STEP, SWITCH_STEP};

// The scope of a line: outside of modules, in a module, in a cell; in a process before its switch, behind it, in a sync; in a switch
// before its first case, in a case.
pub const TOP: u32 = 0;

pub const IN_MODULE: u32 = 1;

pub const IN_CELL: u32 = 2;

pub const IN_PROCESS: u32 = 3;

pub const IN_TAIL: u32 = 4;

pub const IN_SYNC: u32 = 5;

pub const IN_SWITCH: u32 = 6;

pub const IN_CASE: u32 = 7;

#[derive(Clone, Copy)]
pub struct Place {
    pub scope: u32,
    // Switches that are open around the innermost one.
    pub depth: u32,
    pub first: bool,
    pub attributed: bool,
    // Statements so far.
    pub rows: u32,
    // The row behind the last module line or cell line; 0 if there is none.
    pub module_from: u32,
    pub cell_from: u32,
    // The row where the attributes of the next object begin.
    pub object_from: u32,
    // Wires so far, and those before the last module line.
    pub wires: u32,
    pub wires_from: u32,
    pub modules: u32,
}

pub fn start() -> Place
    ensures { result ≡ place_of [] }
{
    Place {
        scope: TOP,
        depth: 0,
        first: true,
        attributed: false,
        rows: 0,
        module_from: 0,
        cell_from: 0,
        object_from: 0,
        wires: 0,
        wires_from: 0,
        modules: 0,
    }
}

// A file may end here.
pub fn is_closed(p: Place) -> bool
    ensures { result ≡ closes_at p }
{
    p.scope == TOP && !p.attributed
}

pub(crate) fn pick(test: bool, a: u32, b: u32) -> u32
    ensures { result ≡ cond test a b }
{
    if test { a } else { b }
}

// Whether a step is a sync: their codes stand in one row.
fn is_sync(step: u32) -> bool
    ensures { result ≡ is_sync step }
{
    GLOBAL_STEP <= step && step <= EDGE_STEP
}

// `end` closes what was opened last.
fn end_scope(scope: u32, depth: u32) -> u32
    ensures { result ≡ end_scope scope depth }
{
    if scope <= IN_MODULE {
        return TOP;
    }
    if scope <= IN_SYNC {
        return IN_MODULE;
    }
    if depth == 0 {
        return IN_TAIL;
    }
    IN_CASE
}

// A switch line opens a switch, a case line a case of it, a sync line a sync.
fn step_scope(scope: u32, step: u32) -> u32
    ensures { result ≡ step_scope scope step }
{
    if step == SWITCH_STEP {
        return IN_SWITCH;
    }
    if step == CASE_STEP {
        return IN_CASE;
    }
    if is_sync(step) {
        return IN_SYNC;
    }
    scope
}

// A module line opens a module, a cell line a cell and a process line a process.
fn scope_after(scope: u32, depth: u32, kind: u32, step: u32) -> u32
    ensures { result ≡ scope_after scope depth kind step }
{
    if kind == MODULE_KIND {
        return IN_MODULE;
    }
    if kind == CELL_KIND {
        return IN_CELL;
    }
    if kind == PROCESS_KIND {
        return IN_PROCESS;
    }
    if kind == END_KIND {
        return end_scope(scope, depth);
    }
    step_scope(scope, step)
}

// A switch in a case stands one deeper than that case's; an `end` closes it.
fn depth_after(scope: u32, depth: u32, kind: u32, step: u32) -> u32
    requires { depth < 4294967295 }
    ensures { result ≡ depth_after scope depth kind step }
{
    if kind == MODULE_KIND || kind == CELL_KIND || kind == PROCESS_KIND {
        return 0;
    }
    if kind == END_KIND {
        return depth.saturating_sub(1);
    }
    if step == SWITCH_STEP {
        return depth + u32::from(scope == IN_CASE);
    }
    if is_sync(step) {
        return 0;
    }
    depth
}

// The place behind a statement of a kind that stands at this place; of a line inside a process also its step.
pub fn after(p: Place, kind: u32, step: u32) -> Place
    requires rows_bound { p.rows < 4294967295 }
    requires bounds { Bounds p }
    ensures { result ≡ place_after p kind step }
{
    let rows = p.rows + 1;
    let wires = p.wires + u32::from(kind == WIRE_KIND);
    Place {
        scope: scope_after(p.scope, p.depth, kind, step),
        depth: depth_after(p.scope, p.depth, kind, step),
        first: false,
        attributed: kind == ATTRIBUTE_KIND,
        rows,
        module_from: pick(kind == MODULE_KIND, rows, p.module_from),
        cell_from: pick(kind == CELL_KIND, rows, p.cell_from),
        object_from: pick(kind == ATTRIBUTE_KIND, p.object_from, rows),
        wires,
        wires_from: pick(kind == MODULE_KIND, wires, p.wires_from),
        modules: p.modules + u32::from(kind == MODULE_KIND),
    }
}
