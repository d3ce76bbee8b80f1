// A step in design memory: the bits of its signals behind those that are used, and its row.
ghost use Rattle.std.specs.Prelude.{◌≡◌, cond, ◌+◌, ◌*◌, ◌≤◌, eqb, length};
ghost use mathlib.Core.List.{flat_map, reverse};
ghost use Rattle.rules.specs.Limits.{most_width};
ghost use Rattle.tables.specs.Store.{store};
ghost use Rattle.netlist.specs.Steps.{pieces};
ghost use Rattle.layout.specs.Put.{StepFits, StepPut};

use crate::put::put_columns;
use context::kinds::STEP_KIND;
use netlist::used::Used;
use tables::reverse_words;

// The codes of so many signals of one width. They stand in scratch one behind another, each highest first, and are stored each lowest first.
fn put_signals(width: usize, count: usize, scratch: &[u32], bits: &mut [u32], at: usize)
    requires { (count * width ≤ length scratch.now) × (at + count * width ≤ length bits.old) }
    ensures { bits.new ≡ store bits.old at (flat_map reverse (pieces width count scratch.now)) }
{
    for k in 0..count {
        let from = k * width;
        reverse_words(scratch, from, from + width, bits, at + from);
    }
}

// The column of the signals' width: 0 where there are none.
fn each_width(width: usize, count: usize) -> u32
    requires { width ≤ most_width }
    ensures { result ≡ cond (eqb count 0) 0 width }
{
    if count == 0 {
        return 0;
    }
    width as u32
}

// A step by its code, its signals and their number.
pub fn put_step(
    step: u32,
    width: usize,
    count: usize,
    u: Used,
    scratch: &[u32],
    bits: &mut [u32],
    rows: &mut [u32],
)
    requires { StepFits width count u scratch.now bits.old rows.old }
    ensures { StepPut step width count u scratch.now bits.old bits.new rows.old rows.new }
{
    put_signals(width, count, scratch, bits, u.bits as usize);
    let each = each_width(width, count);
    put_columns(
        rows,
        u.rows,
        STEP_KIND,
        step,
        u.bits,
        each,
        count as u32,
        0,
        0,
    );
}
