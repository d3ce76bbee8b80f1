// A line inside a process: its step, and its signals, which are equally wide and stand one behind another.
ghost use Rattle.std.specs.Prelude.{◌≡◌, ◌≤◌};
ghost use Rattle.netlist.specs.Used.{used_of};
ghost use Rattle.row_statements.specs.Reads.{TellsStep, even_fits};

use crate::parts::MOST_WIDTH;
use crate::settled::settle;
use crate::statements::Found;
use crate::wiring::bits_stand;
use context::kinds::STEP_KIND;
use context::sizes::MOST_STEP_SIGNALS;
use netlist::design::Design;
use netlist::used::Used;
use steps::arity_fits;
use tables::Row;

// Where there is no signal none has a width.
fn even_fits(width: u32, count: u32) -> bool
    ensures { result ≡ even_fits width count }
{
    if count == 0 {
        return width == 0;
    }
    (width <= MOST_WIDTH) & (count <= MOST_STEP_SIGNALS)
}

// All bits of the row are looked at at once, since no signal of it is narrower than another.
pub fn step_at(design: &Design, u: Used, first: u32, r: Row) -> Option<Found>
    requires { first ≤ u.wires }
    ensures { TellsStep design.now.bits.now design.now.wires.now (used_of u) first r result }
{
    if !arity_fits(r.a, r.d) {
        return None;
    }
    if !even_fits(r.c, r.d) {
        return None;
    }
    let size = r.c * r.d;
    if !bits_stand(design, first, u.wires - first, u.bits, size) {
        return None;
    }
    let x = Row {
        kind: STEP_KIND,
        a: r.a,
        b: u.bits,
        c: r.c,
        d: r.d,
        e: 0,
        f: 0,
        g: 0,
    };
    settle(
        r,
        x,
        Found {
            count: r.d,
            signals: size,
            values: 0,
            strings: 0,
            names: 0,
        },
    )
}
