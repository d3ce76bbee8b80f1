// The lengths of the five tables that are lent.
ghost use Rattle.std.specs.Prelude.{◌≡◌};
ghost use Rattle.netlist.specs.Lengths.{right_sizes};

pub const NAMES_LENGTH: usize = 16384;

pub const STRINGS_LENGTH: usize = 8192;

pub const BITS_LENGTH: usize = 16384;

pub const WIRES_LENGTH: usize = 4096;

pub const ROWS_LENGTH: usize = 55560;

pub fn right_lengths(names: usize, strings: usize, bits: usize, wires: usize, rows: usize) -> bool
    ensures { result ≡ right_sizes names strings bits wires rows }
{
    names == NAMES_LENGTH
        && strings == STRINGS_LENGTH
        && bits == BITS_LENGTH
        && wires == WIRES_LENGTH
        && rows == ROWS_LENGTH
}
