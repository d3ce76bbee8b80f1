// One statement more behind those that stand.
ghost use Rattle.std.specs.Prelude.{◌≡◌, false, cond, ◌<◌, eqb};
ghost use Rattle.rules.specs.Shapes.{top, in_module, in_cell};
ghost use Rattle.context.specs.Place.{scope_of};
ghost use Rattle.admitted.specs.Admitted.{kinds};
ghost use Rattle.netlist.specs.Kinds.{of_kinds};
ghost use Rattle.name_index.specs.Index.{key_at, Indexed};
ghost use Rattle.row_statements.specs.Reads.{part_tables};
ghost use Rattle.replay.specs.Turns.{stands_at, AskedFits, LineStands, Ready, Told, TurnIs, Counted, small_parts};
ghost use Rattle.replay.specs.Objects.{object_kinds};

use context::kinds::{
    ATTRIBUTE_KIND, AUTOIDX_KIND, CELL_CONNECTION_KIND, CELL_KIND, CELL_PARAMETER_KIND,
    CONNECTION_KIND, END_KIND, MEMORY_KIND, MODULE_KIND, PARAMETER_KIND, PROCESS_KIND, STEP_KIND,
    WIRE_KIND,
};
use context::place::{IN_CELL, IN_MODULE, IN_SYNC, IN_TAIL, Place, TOP, after};
use context::sizes::{
    MOST_SIGNAL_BITS, MOST_STRING_BYTES, MOST_VALUE_BITS, NAME_ROOM, Standing, kind_sizes, plus,
    within,
};
use context::steps::NO_STEP;
use name_search::indexed_found;
use netlist::design::Design;
use netlist::rows::row_name;
use netlist::used::used_from;
use row_statements::statements::{Found, statement_at};
use steps::{asked_width, step_stands};
use tables::{ROW_WORDS, Row, get_row};

// Kinds that attributes may stand before, in a module.
fn is_object(kind: u32) -> bool
    ensures { result ≡ of_kinds object_kinds kind }
{
    (kind == ATTRIBUTE_KIND)
        | (kind == WIRE_KIND)
        | (kind == MEMORY_KIND)
        | (kind == CELL_KIND)
        | (kind == PROCESS_KIND)
}

fn is_module_kind(first: bool, attributed: bool, kind: u32) -> bool
    ensures { result ≡ of_kinds (kinds in_module first attributed) kind }
{
    if attributed {
        return is_object(kind);
    }
    if kind == PARAMETER_KIND {
        return true;
    }
    if kind == CONNECTION_KIND {
        return true;
    }
    if kind == END_KIND {
        return true;
    }
    is_object(kind)
}

fn is_top_kind(first: bool, attributed: bool, kind: u32) -> bool
    ensures { result ≡ of_kinds (kinds top first attributed) kind }
{
    if kind == ATTRIBUTE_KIND {
        return true;
    }
    if kind == MODULE_KIND {
        return true;
    }
    if kind == AUTOIDX_KIND {
        return first;
    }
    false
}

fn is_cell_kind(kind: u32) -> bool
    ensures { result ≡ of_kinds (kinds in_cell false false) kind }
{
    (kind == CELL_PARAMETER_KIND) | (kind == CELL_CONNECTION_KIND) | (kind == END_KIND)
}

// In a process, which has no attributes behind its root switch.
fn is_process_kind(scope: u32, depth: u32, first: bool, attributed: bool, kind: u32) -> bool
    requires { 2 < scope }
    ensures { result ≡ of_kinds (kinds (scope_of scope depth) first attributed) kind }
{
    if kind == STEP_KIND {
        return true;
    }
    if (scope == IN_TAIL) | (scope == IN_SYNC) {
        return kind == END_KIND;
    }
    if kind == ATTRIBUTE_KIND {
        return true;
    }
    (kind == END_KIND) & !attributed
}

// Whether a line of this kind has a form at this place.
fn stands_at(p: Place, kind: u32) -> bool
    ensures { result ≡ stands_at p kind }
{
    if p.scope == TOP {
        return is_top_kind(p.first, p.attributed, kind);
    }
    if p.scope == IN_MODULE {
        return is_module_kind(p.first, p.attributed, kind);
    }
    if p.scope == IN_CELL {
        return is_cell_kind(kind);
    }
    is_process_kind(p.scope, p.depth, p.first, p.attributed, kind)
}

// Whether the signals of a step have the width that it asks for.
fn asked_fits(rows: &[u32], p: Place, step: u32, width: u32, count: u32) -> bool
    ensures { AskedFits rows.now p step width count result }
{
    match asked_width(rows, p, step) {
        None => true,
        Some(w) => (count == 0) | (w == width),
    }
}

// Whether the line of a row has a form at this place; of a line inside a process also its step, and its signals the width asked for.
fn line_stands(rows: &[u32], p: Place, r: Row) -> bool
    ensures { LineStands rows.now p r result }
{
    if !stands_at(p, r.kind) {
        return false;
    }
    if r.kind != STEP_KIND {
        return true;
    }
    if !step_stands(p.scope, p.depth, p.attributed, r.a) {
        return false;
    }
    asked_fits(rows, p, r.a, r.c, r.d)
}

// The step of a row, by its kind.
fn step_of(kind: u32, a: u32) -> u32
    ensures { result ≡ cond (eqb kind 13) a 0 }
{
    if kind == STEP_KIND {
        return a;
    }
    NO_STEP
}

// No part of a statement alone exceeds its size.
fn small_parts(found: Found) -> bool
    ensures { result ≡ small_parts found.signals found.values found.strings found.names }
{
    found.signals <= MOST_SIGNAL_BITS
        && found.values <= MOST_VALUE_BITS
        && found.strings <= MOST_STRING_BYTES
        && found.names <= NAME_ROOM
}

// The place and the sums behind a statement whose row stands there, with what it holds: its name is new, and no size is exceeded.
fn counted(
    design: &Design,
    heads: &[u32],
    chain: &[u32],
    behind: Standing,
    kind: u32,
    step: u32,
    found: Found,
) -> Option<Standing>
    requires ready { Ready behind.place behind.sums }
    requires told { Told kind found.count found.signals found.values found.strings found.names }
    requires indexed { Indexed heads.now chain.now (key_at design.now.names.now design.now.rows.now) behind.place.rows }
    ensures { Counted design.now.names.now design.now.rows.now behind.place behind.sums kind step found.count found.signals found.values found.strings found.names result }
{
    let p = behind.place;
    if indexed_found(
        design.names,
        design.rows,
        heads,
        chain,
        p,
        kind,
        row_name(design.names, design.rows, p.rows),
    ) {
        return None;
    }
    if !small_parts(found) {
        return None;
    }
    let more = kind_sizes(
        kind,
        found.count,
        found.signals,
        found.values,
        found.strings,
        found.names,
    );
    let sums = plus(behind.sums, more);
    if !within(sums) {
        return None;
    }
    Some(Standing {
        place: after(p, kind, step),
        sums,
    })
}

// The place and the sums behind the statement of the row at this place.
pub fn one_more(design: &Design, heads: &[u32], chain: &[u32], behind: Standing) -> Option<Standing>
    requires ready { Ready behind.place behind.sums }
    requires indexed { Indexed heads.now chain.now (key_at design.now.names.now design.now.rows.now) behind.place.rows }
    ensures { TurnIs (part_tables design.now.names.now design.now.strings.now design.now.bits.now design.now.wires.now) design.now.rows.now behind.place behind.sums result }
{
    let p = behind.place;
    let at = ROW_WORDS * (p.rows as usize);
    if design.rows.len() < at + ROW_WORDS {
        return None;
    }
    let r = get_row(design.rows, at);
    if !line_stands(design.rows, p, r) {
        return None;
    }
    let used = used_from(p, behind.sums);
    let found = statement_at(design, used, p.wires_from, r)?;
    counted(
        design,
        heads,
        chain,
        behind,
        r.kind,
        step_of(r.kind, r.a),
        found,
    )
}
