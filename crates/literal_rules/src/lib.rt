// The number rules of the constants of a line: whether they keep them, how wide they are, and the words of integers.
#![tactic(auto)]

ghost use Rattle.std.specs.Prelude.{◌≡◌, ◌+◌, ◌*◌, ◌≤◌, length, drop};
ghost use Rattle.std.proofs.Math.Seq.{slice};
ghost use Rattle.rules.specs.Numbers.{good_literal};
ghost use Rattle.rules.specs.Signals.{literal_width};
ghost use Rattle.scanner.specs.Numbers.{capped};
ghost use Rattle.strings.specs.Decoded.{decoded};
ghost use Rattle.tokens.specs.Rows.{integer_in, literal_in};
ghost use Rattle.literal_rules.specs.Words.{NumberIs};

use numbers::signed::{fits, word_of};
use scanner::decimals::{CAP, decimal};
use scanner::parts::part;
use strings::string_size;
use tokens::{ConstantSpan, Integer};

// The most bits of a value.
const MOST_WIDTH: u32 = 2048;

// The bits of an integer, and of a byte of a string.
pub const INTEGER_BITS: usize = 32;

pub const BYTE_BITS: usize = 8;

// The most bytes whose bits are fewer than the cap of a decimal.
const MOST_BYTES: usize = 268435456;

// An integer's word of 32 bits in two's complement; none if it lies outside of them.
pub fn integer_of(f: &[u8], z: Integer) -> Option<u32>
    ensures { NumberIs (integer_in f.now z) result }
{
    let size = decimal(part(f, z.start, z.end));
    if fits(z.negative, size) {
        return Some(word_of(z.negative, size));
    }
    None
}

// The digits of a value, from behind its quote mark on.
pub fn value_digits<'a>(f: &'a [u8], quote: usize, end: usize) -> &'a [u8]
    ensures { result.now ≡ slice (quote + 1) end f.now }
{
    if f.len() <= quote {
        return &f[0..0];
    }
    part(f, quote + 1, end)
}

// A value is at most 2,048 bits wide, and has no more digits than bits.
fn good_value(f: &[u8], start: usize, quote: usize, end: usize) -> bool
    ensures { result ≡ good_literal (literal_in f.now (ConstantSpan.Value start quote end)) }
{
    let width = decimal(part(f, start, quote));
    width <= MOST_WIDTH && value_digits(f, quote, end).len() <= width as usize
}

// Whether a constant keeps the number rules.
pub fn good_literal(f: &[u8], c: ConstantSpan) -> bool
    ensures { result ≡ good_literal (literal_in f.now c) }
{
    match c {
        ConstantSpan::Integer(z) => fits(z.negative, decimal(part(f, z.start, z.end))),
        ConstantSpan::Value { start, quote, end } => good_value(f, start, quote, end),
        ConstantSpan::Text(_) => true,
    }
}

// How many bits a string has, 8 a byte; the same cap as a decimal's.
fn text_width(f: &[u8], start: usize) -> usize
    ensures { result ≡ capped (8 * length (decoded (drop start f.now))) }
{
    let size = string_size(f, start);
    if MOST_BYTES < size {
        return CAP as usize;
    }
    BYTE_BITS * size
}

// How many bits a constant has; 2147483649 where there are more, so that the widths of a line add up.
pub fn literal_width(f: &[u8], c: ConstantSpan) -> usize
    ensures { (result ≡ capped (literal_width (literal_in f.now c))) × (result ≤ 2147483649) }
{
    match c {
        ConstantSpan::Integer(_) => INTEGER_BITS,
        ConstantSpan::Value {
            start,
            quote,
            end: _,
        } => decimal(part(f, start, quote)) as usize,
        ConstantSpan::Text(start) => text_width(f, start),
    }
}
