// A statement that stands in the tables behind what is used of them: its row, and the parts that the row tells of.
ghost use Rattle.std.specs.Prelude.{◌≡◌, ◌||◌, eqb, leb, ◌-◌, ◌≤◌};
ghost use Rattle.wires.specs.Rows.{wires_from};
ghost use Rattle.netlist.specs.Used.{used_of};
ghost use Rattle.row_statements.specs.Reads.{part_tables, constant_of, statement_of, TellsConstant, Tells, TellsNamed, TellsValued, TellsAutoidx, TellsEnd, TellsMemory, TellsCell, TellsParameter, TellsCellParameter, TellsWire, TellsCellConnection, TellsConnection, WireRowStands, Small};

use crate::parts::{MOST_WIDTH, digits_stand, name_stands, text_stands};
use crate::settled::{same_row, settle};
use crate::step_rows::step_at;
use crate::wiring::{signal_stands, wire_fits};
use context::kinds::{
    ATTRIBUTE_KIND, AUTOIDX_KIND, CELL_CONNECTION_KIND, CELL_KIND, CELL_PARAMETER_KIND,
    CONNECTION_KIND, END_KIND, MEMORY_KIND, MODULE_KIND, PARAMETER_KIND, PROCESS_KIND, STEP_KIND,
    WIRE_KIND,
};
use netlist::design::Design;
use netlist::rows::{INTEGER_CONSTANT, STRING_CONSTANT, VALUE_CONSTANT};
use netlist::used::{Used, last_module};
use tables::{ROW_WORDS, Row, get_row};

// The highest size of a memory.
const MOST_MEMORY_SIZE: u32 = 2147483647;

// The last of the sorts of a cell's parameter.
const LAST_SORT: u32 = 2;

// The flags of a port are this or more, and the flags of any wire at most those.
const PORT_FLAG: u32 = 4;

const MOST_FLAGS: u32 = 15;

// What a statement holds: signals, bits of them and of values, bytes of strings and of names.
#[derive(Clone, Copy)]
pub struct Found {
    pub count: u32,
    pub signals: u32,
    pub values: u32,
    pub strings: u32,
    pub names: u32,
}

// What a constant holds: bits of a value, bytes of a string.
#[derive(Clone, Copy)]
pub struct HeldConstant {
    pub values: u32,
    pub strings: u32,
}

fn value_at(design: &Design, u: Used, a: u32, b: u32) -> Option<HeldConstant>
    ensures { TellsConstant design.now.strings.now design.now.bits.now (used_of u) 1 a b (constant_of design.now.strings.now design.now.bits.now (used_of u) 1 a b) result }
{
    if a != u.bits {
        return None;
    }
    if !digits_stand(design.bits, u.bits, b) {
        return None;
    }
    Some(HeldConstant {
        values: b,
        strings: 0,
    })
}

fn text_at(design: &Design, u: Used, a: u32, b: u32) -> Option<HeldConstant>
    ensures { TellsConstant design.now.strings.now design.now.bits.now (used_of u) 3 a b (constant_of design.now.strings.now design.now.bits.now (used_of u) 3 a b) result }
{
    if a != u.strings {
        return None;
    }
    if !text_stands(design.strings, u.strings, b) {
        return None;
    }
    Some(HeldConstant {
        values: 0,
        strings: b,
    })
}

// A constant by its three columns.
fn constant_at(design: &Design, u: Used, kind: u32, a: u32, b: u32) -> Option<HeldConstant>
    ensures { TellsConstant design.now.strings.now design.now.bits.now (used_of u) kind a b (constant_of design.now.strings.now design.now.bits.now (used_of u) kind a b) result }
{
    if kind == VALUE_CONSTANT {
        return value_at(design, u, a, b);
    }
    if kind == STRING_CONSTANT {
        return text_at(design, u, a, b);
    }
    if kind != INTEGER_CONSTANT {
        return None;
    }
    if b != 0 {
        return None;
    }
    Some(HeldConstant {
        values: 0,
        strings: 0,
    })
}

// A name and nothing else.
fn named(names: &[u8], u: Used, r: Row, kind: u32) -> Option<Found>
    ensures { TellsNamed names.now (used_of u) r kind result }
{
    if !name_stands(names, u.names, r.b) {
        return None;
    }
    let x = Row {
        kind,
        a: u.names,
        b: r.b,
        c: 0,
        d: 0,
        e: 0,
        f: 0,
        g: 0,
    };
    settle(
        r,
        x,
        Found {
            count: 0,
            signals: 0,
            values: 0,
            strings: 0,
            names: r.b,
        },
    )
}

// A name and a constant.
fn valued(design: &Design, u: Used, r: Row, kind: u32, sort: u32) -> Option<Found>
    ensures { TellsValued design.now.names.now design.now.strings.now design.now.bits.now (used_of u) r kind sort result }
{
    if !name_stands(design.names, u.names, r.b) {
        return None;
    }
    let held = constant_at(design, u, r.c, r.d, r.e)?;
    let x = Row {
        kind,
        a: u.names,
        b: r.b,
        c: r.c,
        d: r.d,
        e: r.e,
        f: sort,
        g: 0,
    };
    settle(
        r,
        x,
        Found {
            count: 0,
            signals: 0,
            values: held.values,
            strings: held.strings,
            names: r.b,
        },
    )
}

// A parameter of a module has a constant or none.
fn parameter_at(design: &Design, u: Used, r: Row) -> Option<Found>
    ensures { TellsParameter design.now.names.now design.now.strings.now design.now.bits.now (used_of u) r result }
{
    if r.c == 0 {
        return named(design.names, u, r, PARAMETER_KIND);
    }
    valued(design, u, r, PARAMETER_KIND, 0)
}

fn autoidx_at(u: Used, r: Row) -> Option<Found>
    ensures { TellsAutoidx (used_of u) r result }
{
    let x = Row {
        kind: AUTOIDX_KIND,
        a: r.a,
        b: 0,
        c: 0,
        d: 0,
        e: 0,
        f: 0,
        g: 0,
    };
    settle(
        r,
        x,
        Found {
            count: 0,
            signals: 0,
            values: 0,
            strings: 0,
            names: 0,
        },
    )
}

fn end_at(u: Used, r: Row) -> Option<Found>
    ensures { TellsEnd (used_of u) r result }
{
    let x = Row {
        kind: END_KIND,
        a: 0,
        b: 0,
        c: 0,
        d: 0,
        e: 0,
        f: 0,
        g: 0,
    };
    settle(
        r,
        x,
        Found {
            count: 0,
            signals: 0,
            values: 0,
            strings: 0,
            names: 0,
        },
    )
}

fn memory_at(names: &[u8], u: Used, r: Row) -> Option<Found>
    ensures { TellsMemory names.now (used_of u) r result }
{
    if !name_stands(names, u.names, r.b) {
        return None;
    }
    if r.c == 0 {
        return None;
    }
    if MOST_WIDTH < r.c {
        return None;
    }
    if MOST_MEMORY_SIZE < r.d {
        return None;
    }
    let x = Row {
        kind: MEMORY_KIND,
        a: u.names,
        b: r.b,
        c: r.c,
        d: r.d,
        e: r.e,
        f: 0,
        g: 0,
    };
    settle(
        r,
        x,
        Found {
            count: 0,
            signals: 0,
            values: 0,
            strings: 0,
            names: r.b,
        },
    )
}

// A cell's type stands before its name.
fn cell_at(names: &[u8], u: Used, r: Row) -> Option<Found>
    requires { Small (used_of u) }
    ensures { TellsCell names.now (used_of u) r result }
{
    if !name_stands(names, u.names, r.b) {
        return None;
    }
    let second = u.names + r.b;
    if !name_stands(names, second, r.d) {
        return None;
    }
    let x = Row {
        kind: CELL_KIND,
        a: u.names,
        b: r.b,
        c: second,
        d: r.d,
        e: 0,
        f: 0,
        g: 0,
    };
    settle(
        r,
        x,
        Found {
            count: 0,
            signals: 0,
            values: 0,
            strings: 0,
            names: r.b + r.d,
        },
    )
}

fn cell_parameter_at(design: &Design, u: Used, r: Row) -> Option<Found>
    ensures { TellsCellParameter design.now.names.now design.now.strings.now design.now.bits.now (used_of u) r result }
{
    if LAST_SORT < r.f {
        return None;
    }
    valued(design, u, r, CELL_PARAMETER_KIND, r.f)
}

// The module's wires before this one are those from row first on.
fn cell_connection_at(design: &Design, u: Used, first: u32, r: Row) -> Option<Found>
    requires { first ≤ u.wires }
    ensures { TellsCellConnection design.now.names.now design.now.bits.now design.now.wires.now (used_of u) first r result }
{
    if !name_stands(design.names, u.names, r.b) {
        return None;
    }
    if !signal_stands(design, first, u.wires - first, u.bits, r.d) {
        return None;
    }
    let x = Row {
        kind: CELL_CONNECTION_KIND,
        a: u.names,
        b: r.b,
        c: u.bits,
        d: r.d,
        e: 0,
        f: 0,
        g: 0,
    };
    settle(
        r,
        x,
        Found {
            count: 1,
            signals: r.d,
            values: 0,
            strings: 0,
            names: r.b,
        },
    )
}

fn connection_at(design: &Design, u: Used, first: u32, r: Row) -> Option<Found>
    requires small { Small (used_of u) }
    requires first_le_wires { first ≤ u.wires }
    ensures { TellsConnection design.now.bits.now design.now.wires.now (used_of u) first r result }
{
    let count = u.wires - first;
    if !signal_stands(design, first, count, u.bits, r.b) {
        return None;
    }
    let second = u.bits + r.b;
    if !signal_stands(design, first, count, second, r.d) {
        return None;
    }
    if r.b != r.d {
        return None;
    }
    let x = Row {
        kind: CONNECTION_KIND,
        a: u.bits,
        b: r.b,
        c: second,
        d: r.d,
        e: 0,
        f: 0,
        g: 0,
    };
    settle(
        r,
        x,
        Found {
            count: 2,
            signals: r.b + r.d,
            values: 0,
            strings: 0,
            names: 0,
        },
    )
}

// A wire that is no port has no port number.
fn port_number_stands(flags: u32, number: u32) -> bool
    ensures { result ≡ (leb 4 flags || eqb number 0) }
{
    if PORT_FLAG <= flags {
        return true;
    }
    number == 0
}

fn wire_row_stands(wires: &[u32], u: Used, size: u32) -> bool
    ensures { WireRowStands wires.now (used_of u) size result }
{
    let at = ROW_WORDS * (u.wires as usize);
    if wires.len() < at + ROW_WORDS {
        return false;
    }
    let q = get_row(wires, at);
    if MOST_FLAGS < q.e {
        return false;
    }
    if !port_number_stands(q.e, q.f) {
        return false;
    }
    let x = Row {
        kind: last_module(u),
        a: u.names,
        b: size,
        c: q.c,
        d: q.d,
        e: q.e,
        f: q.f,
        g: 0,
    };
    same_row(q, x)
}

fn wire_at(design: &Design, u: Used, first: u32, r: Row) -> Option<Found>
    requires { first ≤ u.wires }
    ensures { TellsWire design.now.names.now design.now.wires.now (used_of u) first r result }
{
    if !name_stands(design.names, u.names, r.b) {
        return None;
    }
    if !wire_row_stands(design.wires, u, r.b) {
        return None;
    }
    if !wire_fits(design.wires, first, u.wires) {
        return None;
    }
    let x = Row {
        kind: WIRE_KIND,
        a: u.names,
        b: r.b,
        c: u.wires,
        d: 0,
        e: 0,
        f: 0,
        g: 0,
    };
    settle(
        r,
        x,
        Found {
            count: 0,
            signals: 0,
            values: 0,
            strings: 0,
            names: r.b,
        },
    )
}

// The statement of a row, by the row's kind.
pub fn statement_at(design: &Design, u: Used, first: u32, r: Row) -> Option<Found>
    requires small { Small (used_of u) }
    requires first_le_wires { first ≤ u.wires }
    ensures { Tells (part_tables design.now.names.now design.now.strings.now design.now.bits.now design.now.wires.now) (used_of u) (wires_from design.now.names.now design.now.wires.now first (u.wires - first)) r (statement_of (part_tables design.now.names.now design.now.strings.now design.now.bits.now design.now.wires.now) (used_of u) r) result }
{
    let kind = r.kind;
    match kind {
        AUTOIDX_KIND => autoidx_at(u, r),
        ATTRIBUTE_KIND => valued(design, u, r, ATTRIBUTE_KIND, 0),
        MODULE_KIND => named(design.names, u, r, MODULE_KIND),
        PARAMETER_KIND => parameter_at(design, u, r),
        WIRE_KIND => wire_at(design, u, first, r),
        MEMORY_KIND => memory_at(design.names, u, r),
        CELL_KIND => cell_at(design.names, u, r),
        CELL_PARAMETER_KIND => cell_parameter_at(design, u, r),
        CELL_CONNECTION_KIND => cell_connection_at(design, u, first, r),
        CONNECTION_KIND => connection_at(design, u, first, r),
        PROCESS_KIND => named(design.names, u, r, PROCESS_KIND),
        STEP_KIND => step_at(design, u, first, r),
        _ => end_at(u, r),
    }
}
