// Statements in design memory: each is stored behind those before it.
#![tactic(auto)]

mod put;
mod step;

ghost use Rattle.netlist.specs.Tables.{tabled};
ghost use Rattle.layout.specs.Stored.{Storable, PutIs};

use netlist::used::Used;
use put::{Valued, as_valued, put_plain, put_valued};
use step::put_step;
use syntax::Statement;

// Stores a statement behind what is used.
pub fn put_statement(
    f: &[u8],
    statement: Statement,
    u: Used,
    scratch: &mut [u32],
    names: &mut [u8],
    strings: &mut [u8],
    bits: &mut [u32],
    wires: &mut [u32],
    rows: &mut [u32],
)
    requires { Storable f.now scratch.old statement u (tabled names.old strings.old bits.old wires.old rows.old) }
    ensures { PutIs f.now scratch.old statement u (tabled names.old strings.old bits.old wires.old rows.old) (tabled names.new strings.new bits.new wires.new rows.new) }
{
    match as_valued(statement) {
        Valued::Named {
            kind,
            name,
            value,
            sort,
        } => put_valued(
            f, kind, name, value, sort, u, scratch, names, strings, bits, rows,
        ),
        Valued::Step { step, width, count } => {
            put_step(step, width, count, u, scratch, bits, rows)
        }
        Valued::Nothing => put_plain(f, statement, u, scratch, names, bits, wires, rows),
    }
}
