// The sorted indexes of a design's modules, one behind the other: built, and told. Module m's stands from the row of its first wire on.
#![tactic(auto)]

ghost use Rattle.std.specs.Prelude.{◌≡◌, ◌≤◌, length, take};
ghost use Rattle.rules.specs.Bytes.{same};
ghost use Rattle.tables.specs.Store.{store};
ghost use Rattle.design_order.specs.Indexes.{module_at, indexes_in, NamesApart};

use context::place::Place;
use modules::module_wires;
use name_order::{is_sorted, order_module};
use netlist::design::Design;
use numbers::kinds::ModuleNumber;
use wire_names::Module;

// The module of this number, with the renames that stand.
fn module_at(wires: &[u32], place: Place, renames: u32, m: u32) -> Module
    ensures { result ≡ module_at wires.now place renames m }
{
    let number = ModuleNumber(m);
    let own = module_wires(wires, place.wires, number);
    Module {
        number,
        first: own.first,
        wires: own.count,
        from: place.rows,
        renames,
    }
}

// The indexes of all modules, from the first word on.
pub fn build_orders(design: &Design, place: Place, renames: u32, index: &mut [u32])
    requires { place.wires ≤ length index.old }
    ensures { index.new ≡ store index.old 0 (indexes_in design.now.names.now design.now.wires.now design.now.rows.now place renames place.modules) }
{
    for m in 0..place.modules {
        let module = module_at(design.wires, place, renames, m);
        order_module(design, module, index, module.first as usize);
    }
}

// Whether a table begins with the indexes of all modules.
pub fn are_sorted(design: &Design, place: Place, renames: u32, index: &[u32]) -> bool
    requires wires_in_bounds { place.wires ≤ length index.now }
    requires names_apart { NamesApart design.now.names.now design.now.wires.now design.now.rows.now place renames }
    ensures { result ≡ same (take (length (indexes_in design.now.names.now design.now.wires.now design.now.rows.now place renames place.modules)) index.now) (indexes_in design.now.names.now design.now.wires.now design.now.rows.now place renames place.modules) }
{
    for m in 0..place.modules {
        let module = module_at(design.wires, place, renames, m);
        let first = module.first as usize;
        let end = first + module.wires as usize;
        if !is_sorted(design, module, &index[first..end]) {
            return false;
        }
    }
    true
}
