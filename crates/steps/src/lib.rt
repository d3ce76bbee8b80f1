// The lines inside a process: how many signals a step has, where it may stand, and how wide its signals have to be.
#![tactic(auto)]

ghost use Rattle.std.specs.Prelude.{◌≡◌, cond, ◌+◌, ◌-◌, ◌<◌};
ghost use Rattle.rules.specs.Limits.{many_rows};
ghost use Rattle.rules.specs.Bytes.{within};
ghost use Rattle.rules.specs.Shapes.{in_process, in_case};
ghost use Rattle.admitted.specs.Admitted.{steps_in};
ghost use Rattle.context.specs.Place.{is_sync};
ghost use Rattle.steps.specs.Steps.{of_steps, step_stands, ArityIs, end_row, switch_row, open_width, widths, AskedIs};

use context::kinds::{END_KIND, STEP_KIND};
use context::place::{IN_CELL, IN_PROCESS, IN_SWITCH, IN_SYNC, IN_TAIL, Place};
use context::steps::{
    ALWAYS_STEP, ASSIGN_STEP, CASE_STEP, EDGE_STEP, GLOBAL_STEP, LOW_STEP, SWITCH_STEP, UPDATE_STEP,
};
use wires::column;

// The columns of a row that a step has: its kind, its step, and the width of each of its signals.
const KIND: usize = 0;

const STEP: usize = 1;

const EACH_WIDTH: usize = 3;

// At most so many switches are open at a place.
const MOST_SWITCHES: u32 = 16;

// ---- how many signals

fn within(from: u32, step: u32, to: u32) -> bool
    ensures { result ≡ within from to step }
{
    (from <= step) & (step <= to)
}

// Whether a step of this code has so many signals; a code that no step has fits none.
pub fn arity_fits(step: u32, count: u32) -> bool
    ensures { ArityIs step count result }
{
    if step == CASE_STEP {
        return true;
    }
    if (step == ASSIGN_STEP) | (step == UPDATE_STEP) {
        return count == 2;
    }
    if (step == SWITCH_STEP) | within(LOW_STEP, step, EDGE_STEP) {
        return count == 1;
    }
    within(GLOBAL_STEP, step, ALWAYS_STEP) & (count == 0)
}

// ---- where it may stand

fn is_sync(step: u32) -> bool
    ensures { result ≡ is_sync step }
{
    (GLOBAL_STEP <= step) & (step <= EDGE_STEP)
}

// Before the root switch.
fn process_step(attributed: bool, step: u32) -> bool
    ensures { result ≡ of_steps step (steps_in in_process attributed) }
{
    if step == SWITCH_STEP {
        return true;
    }
    if attributed {
        return false;
    }
    (step == ASSIGN_STEP) | is_sync(step)
}

// In a case, around whose switch so many are open.
fn case_step(depth: u32, attributed: bool, step: u32) -> bool
    ensures { result ≡ of_steps step (steps_in (in_case depth) attributed) }
{
    if step == CASE_STEP {
        return true;
    }
    if step == SWITCH_STEP {
        return depth < MOST_SWITCHES - 1;
    }
    if attributed {
        return false;
    }
    step == ASSIGN_STEP
}

// Whether a step may stand at a place.
pub fn step_stands(scope: u32, depth: u32, attributed: bool, step: u32) -> bool
    ensures { result ≡ step_stands scope depth attributed step }
{
    if scope <= IN_CELL {
        return false;
    }
    if scope == IN_PROCESS {
        return process_step(attributed, step);
    }
    if scope == IN_TAIL {
        return (step == ASSIGN_STEP) | is_sync(step);
    }
    if scope == IN_SYNC {
        return (step == UPDATE_STEP) | is_sync(step);
    }
    if scope == IN_SWITCH {
        return step == CASE_STEP;
    }
    case_step(depth, attributed, step)
}

// ---- how wide its signals

fn is_end(rows: &[u32], row: usize) -> bool
    requires { row < many_rows }
    ensures { result ≡ end_row rows.now row }
{
    column(rows, row, KIND) == END_KIND
}

fn is_switch(rows: &[u32], row: usize) -> bool
    requires { row < many_rows }
    ensures { result ≡ switch_row rows.now row }
{
    if column(rows, row, KIND) != STEP_KIND {
        return false;
    }
    column(rows, row, STEP) == SWITCH_STEP
}

// An `end` closes one more, a switch line opened one of them.
fn closed_before(closed: u32, end: bool, switch: bool) -> u32
    requires { closed < 4294967295 }
    ensures { result ≡ cond end (closed + 1) (cond switch (closed - 1) closed) }
{
    if end {
        return closed + 1;
    }
    if switch & (0 < closed) {
        return closed - 1;
    }
    closed
}

// The width of the innermost switch that is open behind so many rows: going back, as many switch lines are passed as `end`s.
fn open_switch(rows: &[u32], count: u32) -> Option<u32>
    ensures { widths result ≡ open_width rows.now count 0 }
{
    let mut closed = 0;
    for row in (0..count as usize).rev() {
        let switch = is_switch(rows, row);
        if switch & (closed == 0) {
            return Some(column(rows, row, EACH_WIDTH));
        }
        closed = closed_before(closed, is_end(rows, row), switch);
    }
    None
}

// The width that a step at a place asks of its signals, if any: a compare value is as wide as its switch, a sync's signal is one bit.
pub fn asked_width(rows: &[u32], place: Place, step: u32) -> Option<u32>
    ensures { AskedIs rows.now place step result }
{
    if step == CASE_STEP {
        return open_switch(rows, place.rows);
    }
    if within(LOW_STEP, step, EDGE_STEP) {
        return Some(1);
    }
    None
}
