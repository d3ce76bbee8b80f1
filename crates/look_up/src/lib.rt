// The calls that ask of design memory: look-up and the index of a bit. They take the lent tables, and the counts of the session card by value, in any
// state.
#![tactic(auto)]

ghost use Rattle.std.specs.Prelude.{◌≡◌, pos};
ghost use Rattle.rules.specs.Session.{index_in};
ghost use Rattle.wires.specs.Rows.{wire_of};
ghost use Rattle.netlist.specs.Designs.{lent_in};
ghost use Rattle.netlist.specs.Results.{lent};
ghost use Rattle.rename_rules.specs.Search.{search_now};
ghost use Rattle.session.specs.Called.{answer};
ghost use Rattle.look_up.specs.Asked.{LookedUp, IndexGiven};

use modules::module_wires;
use netlist::design::Design;
use netlist::results::{BAD_WIDTH, NOT_THERE};
use numbers::kinds::{ModuleNumber, WireNumber};
use rename_rules::{find_named, module_of};
use session::open_memory;
use wire_names::Module;
use wires::wire_index;

// Number 0 is none.
#[derive(Clone, Copy)]
pub struct Found {
    pub number: u32,
    pub wire: WireNumber,
}

#[derive(Clone, Copy)]
pub struct Indexed {
    pub number: u32,
    pub index: i64,
}

// The first wire of a module that has this name now.
#[tactic(auto, unfolding(session::specs::Called::answer, rename_rules::specs::Search::named))]
fn find(design: &Design, m: Module, name: &[u8]) -> Found
    ensures { (result.number, result.wire.0) ≡ answer 0 (search_now design.now.names.now design.now.wires.now design.now.rows.now m name.now m.wires 0) }
{
    match find_named(design, m, name) {
        Some(wire) => Found { number: 0, wire },
        None => Found {
            number: NOT_THERE,
            wire: WireNumber(0),
        },
    }
}

pub fn look_up(design: &Design, m: ModuleNumber, name: &[u8]) -> Found
    ensures { LookedUp (lent_in design.now) m.0 name.now result }
{
    match open_memory(design) {
        Ok(place) => find(
            design,
            module_of(design.wires, place, design.renames, m),
            name,
        ),
        Err(number) => Found {
            number,
            wire: WireNumber(0),
        },
    }
}

// The index of a bit of the wire in a row.
#[tactic(auto, unfolding(session::specs::Called::answer, numbers::specs::Signed::verdict_of))]
fn row_index(wires: &[u32], row: u32, bit: u32) -> Indexed
    ensures { (result.number, result.index) ≡ answer (pos 0) (index_in (wire_of wires.now row) bit) }
{
    match wire_index(wires, row, bit) {
        Some(index) => Indexed { number: 0, index },
        None => Indexed {
            number: BAD_WIDTH,
            index: 0,
        },
    }
}

pub fn index(design: &Design, m: ModuleNumber, w: WireNumber, bit: u32) -> Indexed
    ensures { IndexGiven (lent_in design.now) m.0 w.0 bit result }
{
    match open_memory(design) {
        Ok(place) => {
            let own = module_wires(design.wires, place.wires, m);
            let number = w.0;
            if own.count <= number {
                return Indexed {
                    number: NOT_THERE,
                    index: 0,
                };
            }
            row_index(design.wires, own.first + number, bit)
        }
        Err(number) => Indexed { number, index: 0 },
    }
}
