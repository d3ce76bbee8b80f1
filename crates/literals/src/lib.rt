// The codes of the bits of a line's constants, highest first.
#![tactic(auto)]

ghost use Rattle.std.specs.Prelude.{◌≡◌, true, map, reverse, ◌+◌, ◌*◌, ◌≤◌, length, drop};
ghost use Rattle.rules.specs.Limits.{most_width};
ghost use Rattle.rules.specs.Tokens.{digit, value, integer, string};
ghost use Rattle.rules.specs.Numbers.{int32, good_literal};
ghost use Rattle.rules.specs.Signals.{literal_bits, literal_width};
ghost use Rattle.rules.specs.Layout.{digit_code};
ghost use Rattle.tables.specs.Store.{store};
ghost use Rattle.strings.specs.Decoded.{decoded, closes};
ghost use Rattle.tokens.specs.Rows.{integer_in, literal_in};
ghost use Rattle.literals.specs.Codes.{Whole, codes, word_codes, filler_code};

use literal_rules::{BYTE_BITS, INTEGER_BITS, value_digits};
use numbers::signed::{bit_of, word_of};
use scanner::decimals::decimal;
use scanner::parts::part;
use strings::put_string;
use tokens::{ConstantSpan, Integer};

// The codes of the digits x, z, m and `-`; those of 0 and 1 are these numbers.
const X_CODE: u32 = 2;

const Z_CODE: u32 = 3;

const M_CODE: u32 = 4;

const MINUS_CODE: u32 = 5;

// The code of the digit that a byte writes.
fn digit_code(b: u8) -> u32
    ensures { result ≡ digit_code (digit b) }
{
    match b {
        b'0' => 0,
        b'1' => 1,
        b'x' => X_CODE,
        b'z' => Z_CODE,
        b'm' => M_CODE,
        _ => MINUS_CODE,
    }
}

// The lowest k bits of a word, highest first.
fn put_bits(w: u32, k: usize, out: &mut [u32], at: usize)
    requires { (k ≤ 32) × (at + k ≤ length out.old) }
    ensures { out.new ≡ store out.old at (word_codes k w) }
{
    for j in 0..k {
        out[at + j] = bit_of(w, (k - 1 - j) as u32) as u32;
    }
}

// The 32 bits of an integer.
fn put_integer(f: &[u8], z: Integer, out: &mut [u32], at: usize)
    requires z_value { int32 (integer_in f.now z) ≡ true }
    requires at_in_bounds { at + 32 ≤ length out.old }
    ensures { out.new ≡ store out.old at (codes (integer (integer_in f.now z))) }
{
    let size = decimal(part(f, z.start, z.end));
    put_bits(word_of(z.negative, size), INTEGER_BITS, out, at);
}

// The code that fills a value with these digits up to its width: 0 and 1 fill with 0, any other with itself; without digits x.
fn filler_code(ds: &[u8]) -> u32
    ensures { result ≡ filler_code ds.now }
{
    if ds.len() == 0 {
        return digit_code(b'x');
    }
    let top = digit_code(ds[0]);
    if top == digit_code(b'1') {
        return digit_code(b'0');
    }
    top
}

// The digits of a value, highest first, filled up to its width.
fn put_digits(width: usize, ds: &[u8], out: &mut [u32], at: usize)
    requires { (length ds.now ≤ width) × (at + width ≤ length out.old) }
    ensures { out.new ≡ store out.old at (codes (value width (map digit ds.now))) }
{
    let digits = at + (width - ds.len());
    out[at..digits].fill(filler_code(ds));
    for (j, d) in ds.iter().enumerate() {
        out[digits + j] = digit_code(*d);
    }
}

// The bits of a value.
fn put_value(f: &[u8], start: usize, quote: usize, end: usize, out: &mut [u32], at: usize)
    requires end_value { good_literal (literal_in f.now (ConstantSpan.Value start quote end)) ≡ true }
    requires end_in_bounds { at + literal_width (literal_in f.now (ConstantSpan.Value start quote end)) ≤ length out.old }
    ensures { out.new ≡ store out.old at (codes (literal_in f.now (ConstantSpan.Value start quote end))) }
{
    let width = decimal(part(f, start, quote)) as usize;
    put_digits(width, value_digits(f, quote, end), out, at);
}

// The bits of bytes, 8 a byte, highest first.
fn put_bytes_bits(bytes: &[u8], out: &mut [u32], at: usize)
    requires { at + 8 * length bytes.now ≤ length out.old }
    ensures { out.new ≡ store out.old at (codes (string bytes.now)) }
{
    for (j, b) in bytes.iter().enumerate() {
        put_bits(*b as u32, BYTE_BITS, out, at + BYTE_BITS * j);
    }
}

// The bits of a string of at most 256 bytes.
fn put_text(f: &[u8], start: usize, out: &mut [u32], at: usize)
    requires f_value { closes (drop start f.now) ≡ true }
    requires f_len_bound { length (decoded (drop start f.now)) ≤ 256 }
    requires f_in_bounds { at + 8 * length (decoded (drop start f.now)) ≤ length out.old }
    ensures { out.new ≡ store out.old at (codes (string (decoded (drop start f.now)))) }
{
    let mut bytes: [u8; 256] = [0; 256];
    let n = put_string(f, start, &mut bytes, 0);
    put_bytes_bits(part(&bytes, 0, n), out, at);
}

// The codes of a constant's bits, highest first, from `at` on. A string of 2,048 bits is 256 bytes.
pub fn put_literal(f: &[u8], c: ConstantSpan, out: &mut [u32], at: usize)
    requires c_value { good_literal (literal_in f.now c) ≡ true }
    requires c_bound { literal_width (literal_in f.now c) ≤ most_width }
    requires c_in_bounds { at + literal_width (literal_in f.now c) ≤ length out.old }
    requires whole { Whole f.now c }
    ensures { out.new ≡ store out.old at (reverse (map digit_code (literal_bits (literal_in f.now c)))) }
{
    match c {
        ConstantSpan::Integer(z) => put_integer(f, z, out, at),
        ConstantSpan::Value { start, quote, end } => put_value(f, start, quote, end, out, at),
        ConstantSpan::Text(start) => put_text(f, start, out, at),
    }
}
