// How much of each table the statements so far use.
ghost use Rattle.std.specs.Prelude.{◌≡◌, ◌-◌};
ghost use Rattle.context.specs.Sizes.{Within};
ghost use Rattle.netlist.specs.Used.{used_of, used_by};

use context::place::Place;
use context::sizes::Sizes;

// Bytes, bytes, bits, rows, rows; and how many modules the rows open.
#[derive(Clone, Copy)]
pub struct Used {
    pub names: u32,
    pub strings: u32,
    pub bits: u32,
    pub wires: u32,
    pub rows: u32,
    pub modules: u32,
}

// By the place behind the statements and their sizes.
pub fn used_from(place: Place, sums: Sizes) -> Used
    requires { Within sums }
    ensures { used_of result ≡ used_by place sums }
{
    Used {
        names: sums.name_bytes,
        strings: sums.string_bytes,
        bits: sums.value_bits + sums.signal_bits,
        wires: place.wires,
        rows: place.rows,
        modules: place.modules,
    }
}

// The number of the last module; 0 if there is none.
pub fn last_module(u: Used) -> u32
    ensures { result ≡ u.modules - 1 }
{
    u.modules.saturating_sub(1)
}
