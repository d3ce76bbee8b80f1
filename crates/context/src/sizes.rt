// The sums of each size over the statements so far, and the limits of a design.
ghost use Rattle.std.specs.Prelude.{◌≡◌, not, []};
ghost use Rattle.context.specs.Sizes.{sums_of, plus_of, exceeds, AtMost, kind_sizes};

use crate::kinds::{
    ATTRIBUTE_KIND, CELL_CONNECTION_KIND, CELL_KIND, CELL_PARAMETER_KIND, CONNECTION_KIND,
    MEMORY_KIND, MODULE_KIND, PARAMETER_KIND, PROCESS_KIND, STEP_KIND, WIRE_KIND,
};
use crate::place::{Place, pick};

// The most of each that a design has (document 01, "Sizes").
pub const MOST_MODULES: u32 = 32;

pub const MOST_WIRES: u32 = 512;

pub const MOST_MEMORIES: u32 = 32;

pub const MOST_CELLS: u32 = 256;

pub const MOST_PARAMETERS: u32 = 1024;

pub const MOST_ATTRIBUTES: u32 = 1024;

pub const MOST_CELL_CONNECTIONS: u32 = 1024;

pub const MOST_CONNECTIONS: u32 = 512;

pub const MOST_PROCESSES: u32 = 64;

pub const MOST_STEPS: u32 = 1024;

pub const MOST_STEP_SIGNALS: u32 = 4096;

pub const MOST_SIGNAL_BITS: u32 = 8192;

pub const MOST_VALUE_BITS: u32 = 8192;

pub const MOST_STRING_BYTES: u32 = 8192;

pub const NAME_ROOM: u32 = 16384;

pub const MOST_RENAMES: u32 = 64;

// Statements of each kind, and what they hold: bits of signals and of values, bytes of strings and of names.
#[derive(Clone, Copy)]
pub struct Sizes {
    pub modules: u32,
    pub wires: u32,
    pub memories: u32,
    pub cells: u32,
    // Of modules and of cells.
    pub parameters: u32,
    pub attributes: u32,
    // Connections of cells.
    pub ports: u32,
    // Connections of modules.
    pub connections: u32,
    pub processes: u32,
    // Lines inside processes, `end` and attributes apart, and the signals in them.
    pub steps: u32,
    pub step_signals: u32,
    pub signal_bits: u32,
    pub value_bits: u32,
    pub string_bytes: u32,
    pub name_bytes: u32,
}

// What the statements so far leave: where the next line stands, and the sums of each size.
#[derive(Clone, Copy)]
pub struct Standing {
    pub place: Place,
    pub sums: Sizes,
}

pub fn none() -> Sizes
    ensures { result ≡ sums_of [] }
{
    Sizes {
        modules: 0,
        wires: 0,
        memories: 0,
        cells: 0,
        parameters: 0,
        attributes: 0,
        ports: 0,
        connections: 0,
        processes: 0,
        steps: 0,
        step_signals: 0,
        signal_bits: 0,
        value_bits: 0,
        string_bytes: 0,
        name_bytes: 0,
    }
}

// Whether every size is at most its limit.
pub fn within(u: Sizes) -> bool
    ensures { result ≡ not (exceeds u) }
{
    !((MOST_MODULES < u.modules)
        | (MOST_WIRES < u.wires)
        | (MOST_MEMORIES < u.memories)
        | (MOST_CELLS < u.cells)
        | (MOST_PARAMETERS < u.parameters)
        | (MOST_ATTRIBUTES < u.attributes)
        | (MOST_CELL_CONNECTIONS < u.ports)
        | (MOST_CONNECTIONS < u.connections)
        | (MOST_PROCESSES < u.processes)
        | (MOST_STEPS < u.steps)
        | (MOST_STEP_SIGNALS < u.step_signals)
        | (MOST_SIGNAL_BITS < u.signal_bits)
        | (MOST_VALUE_BITS < u.value_bits)
        | (MOST_STRING_BYTES < u.string_bytes)
        | (NAME_ROOM < u.name_bytes))
}

// The sums so far, and what a statement adds to them.
pub fn plus(u: Sizes, d: Sizes) -> Sizes
    requires at_most { AtMost 2147483647 u }
    requires at_most_2 { AtMost 2147483647 d }
    ensures { result ≡ plus_of u d }
{
    Sizes {
        modules: d.modules + u.modules,
        wires: d.wires + u.wires,
        memories: d.memories + u.memories,
        cells: d.cells + u.cells,
        parameters: d.parameters + u.parameters,
        attributes: d.attributes + u.attributes,
        ports: d.ports + u.ports,
        connections: d.connections + u.connections,
        processes: d.processes + u.processes,
        steps: d.steps + u.steps,
        step_signals: d.step_signals + u.step_signals,
        signal_bits: d.signal_bits + u.signal_bits,
        value_bits: d.value_bits + u.value_bits,
        string_bytes: d.string_bytes + u.string_bytes,
        name_bytes: d.name_bytes + u.name_bytes,
    }
}

// The sizes of one statement of a kind that holds so many signals, bits and bytes.
pub fn kind_sizes(
    kind: u32,
    signals: u32,
    signal_bits: u32,
    value_bits: u32,
    string_bytes: u32,
    name_bytes: u32,
) -> Sizes
    ensures { result ≡ kind_sizes kind signals signal_bits value_bits string_bytes name_bytes }
{
    Sizes {
        modules: u32::from(kind == MODULE_KIND),
        wires: u32::from(kind == WIRE_KIND),
        memories: u32::from(kind == MEMORY_KIND),
        cells: u32::from(kind == CELL_KIND),
        parameters: u32::from(kind == PARAMETER_KIND || kind == CELL_PARAMETER_KIND),
        attributes: u32::from(kind == ATTRIBUTE_KIND),
        ports: u32::from(kind == CELL_CONNECTION_KIND),
        connections: u32::from(kind == CONNECTION_KIND),
        processes: u32::from(kind == PROCESS_KIND),
        steps: u32::from(kind == STEP_KIND),
        step_signals: pick(kind == STEP_KIND, signals, 0),
        signal_bits,
        value_bits,
        string_bytes,
        name_bytes,
    }
}
