// A wire that reading may end at, by its module's number and its name: whether the statements so far settle it.
#![tactic(auto)]

ghost use Rattle.std.specs.Prelude.{◌≡◌};
ghost use Rattle.goal.specs.Settled.{SettledAs};

use context::kinds::{END_KIND, WIRE_KIND};
use context::place::{Place, TOP};
use names::same_bytes;
use netlist::rows::{row_kind, row_name};
use numbers::kinds::ModuleNumber;

// Whether the last of the statements that lie in the tables declares the wire, or ends its module. Without a module no wire is sought.
pub fn is_settled(
    names: &[u8],
    rows: &[u32],
    place: Place,
    goal: Option<ModuleNumber>,
    name: &[u8],
) -> bool
    ensures { SettledAs names.now rows.now place goal name.now result }
{
    let Some(module) = goal else {
        return false;
    };
    if place.rows == 0 {
        return false;
    }
    if place.modules == 0 {
        return false;
    }
    if place.modules - 1 != module.0 {
        return false;
    }
    let last = place.rows - 1;
    let kind = row_kind(rows, last);
    if kind == END_KIND {
        return place.scope == TOP;
    }
    if kind != WIRE_KIND {
        return false;
    }
    same_bytes(name, row_name(names, rows, last))
}
