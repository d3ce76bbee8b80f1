// The leaves of the writer. Each writes a piece of text into lent room from a place on and answers the place behind it: a byte is stored
// only where the room has a place for it, and the place moves on all the same, so that writing into any room measures. Past 32,768 bytes
// nothing is stored and the place stays at 32,769: such a text is refused, so where it would end does not matter.
#![tactic(auto)]

ghost use Rattle.std.specs.Prelude.{◌≡◌, [], ◌∷◌, ◌≤◌, replicate};
ghost use Rattle.rules.specs.Limits.{past_text};
ghost use Rattle.rules.specs.Text.{decimal_text, integer_text, refusal};
ghost use Rattle.numbers.specs.Signed.{signed_of};
ghost use Rattle.text.specs.Written.{Written};

use numbers::signed::{FIRST_NEGATIVE, LAST_WORD};

// The most bytes that a text has.
pub const TEXT_LENGTH: usize = 32768;

// Where a longer text counts as ending.
const PAST_TEXT: usize = 32769;

pub fn put_byte(out: &mut [u8], at: usize, b: u8) -> usize
    requires { at ≤ past_text }
    ensures { Written at (b ∷ []) out.old out.new result }
{
    if at >= TEXT_LENGTH {
        return PAST_TEXT;
    }
    if at < out.len() {
        out[at] = b;
    }
    at + 1
}

// Byte by byte, for a text that the room ends in or that ends past 32,768.
fn put_each(out: &mut [u8], at: usize, s: &[u8]) -> usize
    requires { at ≤ past_text }
    ensures { Written at s.now out.old out.new result }
{
    let mut end = at;
    for b in s {
        end = put_byte(out, end, *b);
    }
    end
}

// Where all of it has a place it is stored by one copy, and where none has, it is only counted.
pub fn put_bytes(out: &mut [u8], at: usize, s: &[u8]) -> usize
    requires { at ≤ past_text }
    ensures { Written at s.now out.old out.new result }
{
    let end = at + s.len();
    if TEXT_LENGTH < end {
        return put_each(out, at, s);
    }
    if end <= out.len() {
        tables::store(out, at, s);
        return end;
    }
    if out.len() <= at {
        return end;
    }
    put_each(out, at, s)
}

pub fn put_spaces(out: &mut [u8], at: usize, n: usize) -> usize
    requires { at ≤ past_text }
    ensures { Written at (replicate n 32) out.old out.new result }
{
    let mut end = at;
    for _ in 0..n {
        end = put_byte(out, end, b' ');
    }
    end
}

// The digits in front of the last, then the last. There are at most ten, so the calls are at most ten deep.
pub fn put_decimal(out: &mut [u8], at: usize, n: u32) -> usize
    requires { at ≤ past_text }
    ensures { Written at (decimal_text n) out.old out.new result }
{
    let last = b'0' + (n % 10) as u8;
    if n < 10 {
        return put_byte(out, at, last);
    }
    let end = put_decimal(out, at, n / 10);
    put_byte(out, end, last)
}

// The integer that a word of 32 bits stands for, in two's complement.
pub fn put_integer(out: &mut [u8], at: usize, word: u32) -> usize
    requires { at ≤ past_text }
    ensures { Written at (integer_text (signed_of word)) out.old out.new result }
{
    if word < FIRST_NEGATIVE {
        return put_decimal(out, at, word);
    }
    let end = put_byte(out, at, b'-');
    put_decimal(out, end, LAST_WORD - word + 1)
}

// A token behind a space.
pub fn put_token(out: &mut [u8], at: usize, s: &[u8]) -> usize
    requires { at ≤ past_text }
    ensures { Written at (32 ∷ s.now) out.old out.new result }
{
    let space = put_byte(out, at, b' ');
    put_bytes(out, space, s)
}

// The program's answer to a file that it refuses.
pub fn put_refusal(out: &mut [u8], at: usize, number: u32, place: u32) -> usize
    requires { at ≤ past_text }
    ensures { Written at (refusal number place) out.old out.new result }
{
    let first = put_decimal(out, at, number);
    let space = put_byte(out, first, b' ');
    let second = put_decimal(out, space, place);
    put_byte(out, second, b'\n')
}
