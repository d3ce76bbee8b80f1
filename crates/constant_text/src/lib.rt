// Constants written as text: a string and a value. Each is written like the pieces of `text`, of which it is made.
#![tactic(auto)]

ghost use Rattle.std.specs.Prelude.{◌≡◌, ◌≤◌, length};
ghost use mathlib.Core.List.{map, flat_map, reverse};
ghost use Rattle.rules.specs.Limits.{bits_length, past_text};
ghost use Rattle.rules.specs.Bytes.{all};
ghost use Rattle.rules.specs.Tokens.{value, string};
ghost use Rattle.rules.specs.Text.{digit_byte, escaped, literal_text};
ghost use Rattle.numbers.specs.Kinds.{digit_of};
ghost use Rattle.text.specs.Written.{Written};
ghost use Rattle.constant_text.specs.Plain.{plain};

use text::{put_byte, put_bytes, put_decimal};

// The codes of the digits behind 0 and 1, but for the last, `-`.
const DIGIT_X: u32 = 2;

const DIGIT_Z: u32 = 3;

const DIGIT_M: u32 = 4;

// A byte as it stands in a string.
fn put_escaped(out: &mut [u8], at: usize, b: u8) -> usize
    requires { at ≤ past_text }
    ensures { Written at (escaped b) out.old out.new result }
{
    if b == b'"' {
        return put_bytes(out, at, b"\\\"");
    }
    if b == b'\\' {
        return put_bytes(out, at, b"\\\\");
    }
    if b == b'\n' {
        return put_bytes(out, at, b"\\n");
    }
    if b == b'\t' {
        return put_bytes(out, at, b"\\t");
    }
    if b < b' ' {
        return put_bytes(out, at, &[b'\\', b'0', b'0' + b / 8, b'0' + b % 8]);
    }
    put_byte(out, at, b)
}

// A byte that stands in a string as it is.
fn is_plain(b: u8) -> bool
    ensures { result ≡ plain b }
{
    (b' ' <= b) & (b != b'"') & (b != b'\\')
}

// Each is looked at, also behind one that is not plain: so the compiler tests many bytes in one step.
fn all_plain(s: &[u8]) -> bool
    ensures { result ≡ all plain s.now }
{
    let mut good = true;
    for b in s {
        good = good & is_plain(*b);
    }
    good
}

// The bytes of a string byte by byte.
fn put_mixed(out: &mut [u8], at: usize, s: &[u8]) -> usize
    requires { at ≤ past_text }
    ensures { Written at (flat_map escaped s.now) out.old out.new result }
{
    let mut end = at;
    for b in s {
        end = put_escaped(out, end, *b);
    }
    end
}

// The bytes of a string, without the quotes.
fn put_inside(out: &mut [u8], at: usize, s: &[u8]) -> usize
    requires { at ≤ past_text }
    ensures { Written at (flat_map escaped s.now) out.old out.new result }
{
    if all_plain(s) {
        return put_bytes(out, at, s);
    }
    put_mixed(out, at, s)
}

pub fn put_string(out: &mut [u8], at: usize, s: &[u8]) -> usize
    requires { at ≤ past_text }
    ensures { Written at (literal_text (string s.now)) out.old out.new result }
{
    let open = put_byte(out, at, b'"');
    let end = put_inside(out, open, s);
    put_byte(out, end, b'"')
}

fn digit_byte(code: u32) -> u8
    ensures { result ≡ digit_byte (digit_of code) }
{
    if code == 0 {
        return b'0';
    }
    if code == 1 {
        return b'1';
    }
    if code == DIGIT_X {
        return b'x';
    }
    if code == DIGIT_Z {
        return b'z';
    }
    if code == DIGIT_M {
        return b'm';
    }
    b'-'
}

// The digits of a value, the highest bit first.
fn put_digits(out: &mut [u8], at: usize, bits: &[u32]) -> usize
    requires { at ≤ past_text }
    ensures { Written at (map digit_byte (reverse (map digit_of bits.now))) out.old out.new result }
{
    let mut end = at;
    for i in (0..bits.len()).rev() {
        end = put_byte(out, end, digit_byte(bits[i]));
    }
    end
}

// A value of these digit codes, the lowest bit first.
pub fn put_value(out: &mut [u8], at: usize, bits: &[u32]) -> usize
    requires at_le_past_text { at ≤ past_text }
    requires bits_len_bound { length bits.now ≤ bits_length }
    ensures { Written at (literal_text (value (length bits.now) (reverse (map digit_of bits.now)))) out.old out.new result }
{
    let width = put_decimal(out, at, bits.len() as u32);
    let quote = put_byte(out, width, b'\'');
    put_digits(out, quote, bits)
}
