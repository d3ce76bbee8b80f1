// The parts of a statement that stand in the tables behind what is used of them: names, digits and strings.
// All of it is total: a span past a table's end stands nowhere.
ghost use Rattle.std.specs.Prelude.{◌≡◌};
ghost use Rattle.rules.specs.Bytes.{all, within};
ghost use Rattle.row_statements.specs.Parts.{WholeIs, name_stands, is_digit, digits_stand, text_stands};

use names::legal;
use scanner::parts::part;

// The digits of a value have the codes below this.
const DIGITS: u32 = 6;

// The most bits of a value, a signal, a wire and a word of a memory.
pub const MOST_WIDTH: u32 = 2048;

// Whether size values from a place on are inside a table of this length.
pub fn is_whole(long: usize, at: u32, size: u32) -> bool
    ensures { WholeIs long at size result }
{
    if size == 0 {
        return true;
    }
    at as usize + size as usize <= long
}

pub fn name_stands(names: &[u8], at: u32, size: u32) -> bool
    ensures { result ≡ name_stands names.now at size }
{
    if !is_whole(names.len(), at, size) {
        return false;
    }
    let start = at as usize;
    legal(part(names, start, start + size as usize))
}

// Each is looked at, also behind one that is none: so the compiler tests several in one step.
fn all_digits(codes: &[u32]) -> bool
    ensures { result ≡ all is_digit codes.now }
{
    let mut good = true;
    for &code in codes {
        good &= code < DIGITS;
    }
    good
}

// The digits of a value, by their codes.
pub fn digits_stand(bits: &[u32], at: u32, size: u32) -> bool
    ensures { result ≡ digits_stand bits.now at size }
{
    if !is_whole(bits.len(), at, size) {
        return false;
    }
    if MOST_WIDTH < size {
        return false;
    }
    if size == 0 {
        return true;
    }
    let from = at as usize;
    all_digits(&bits[from..from + size as usize])
}

fn all_given(bytes: &[u8]) -> bool
    ensures { result ≡ all (within 1 255) bytes.now }
{
    let mut good = true;
    for &byte in bytes {
        good &= 1 <= byte;
    }
    good
}

// The bytes of a string, none of which is 0.
pub fn text_stands(strings: &[u8], at: u32, size: u32) -> bool
    ensures { result ≡ text_stands strings.now at size }
{
    if !is_whole(strings.len(), at, size) {
        return false;
    }
    if size == 0 {
        return true;
    }
    let from = at as usize;
    all_given(&strings[from..from + size as usize])
}
