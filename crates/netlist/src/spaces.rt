// The name space of a statement's own name: which rows it is, behind the statements so far.
ghost use Rattle.std.specs.Prelude.{◌≡◌};
ghost use Rattle.netlist.specs.Found.{space_from, kinds_from};

use crate::rows::Kinds;
use context::kinds::{
    ATTRIBUTE_KIND, CELL_KIND, CELL_PARAMETER_KIND, CONNECTION_KIND, MEMORY_KIND, MODULE_KIND,
    PARAMETER_KIND, PROCESS_KIND, WIRE_KIND,
};
use context::place::Place;

// Its first row; of a kind without a name the rows are none.
pub fn space_from(place: Place, kind: u32) -> u32
    ensures { result ≡ space_from place kind }
{
    if kind == ATTRIBUTE_KIND {
        return place.object_from;
    }
    if kind == MODULE_KIND {
        return 0;
    }
    if kind < PARAMETER_KIND {
        return place.rows;
    }
    if kind < CELL_PARAMETER_KIND {
        return place.module_from;
    }
    if kind < CONNECTION_KIND {
        return place.cell_from;
    }
    if kind == PROCESS_KIND {
        return place.module_from;
    }
    place.rows
}

// Wires, memories, cells and processes share one.
pub fn space_kinds(kind: u32) -> Kinds
    ensures { result ≡ kinds_from kind }
{
    let shared = Kinds {
        a: WIRE_KIND,
        b: MEMORY_KIND,
        c: CELL_KIND,
        d: PROCESS_KIND,
    };
    let own = Kinds {
        a: kind,
        b: kind,
        c: kind,
        d: kind,
    };
    if kind < WIRE_KIND {
        return own;
    }
    if kind < CELL_PARAMETER_KIND {
        return shared;
    }
    if kind == PROCESS_KIND { shared } else { own }
}
