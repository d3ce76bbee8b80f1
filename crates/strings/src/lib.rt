// The strings of RTLIL: between double quotes, with escapes. The machine that reads them, byte by byte, where a string ends, how many
// bytes it stands for, and those bytes.
#![tactic(auto)]

ghost use Rattle.std.specs.Prelude.{◌≡◌, true, [], ◌+◌, ◌≤◌, length, drop};
ghost use Rattle.rules.specs.Bytes.{is_octal, is_string_byte};
ghost use Rattle.rules.specs.Tokens.{plain_turn, escape_turn, octal_byte, octal_turn, goes, plain, turn};
ghost use Rattle.strings.specs.Machine.{inside_of, given_of, turn_of};
ghost use Rattle.strings.specs.Decoded.{decoded, closes, is_plain, CloseIs};
ghost use Rattle.scanner.specs.Runs.{end_of};
ghost use Rattle.tables.specs.Store.{store};

use scanner::parts::part;
use tables::store;

// Where the reader stands: in plain text, behind `\`, or behind `\` and one or two octal digits, with their number.
#[derive(Clone, Copy)]
pub enum Inside {
    Plain,
    Escape,
    OneDigit(u8),
    TwoDigits(u16),
}

// The bytes that a turn gives.
#[derive(Clone, Copy)]
pub enum Given {
    Nothing,
    One(u8),
    Two(u8, u8),
}

// What a byte does: it gives bytes and the string goes on, or gives bytes and ends the string, or may not stand there.
#[derive(Clone, Copy)]
pub enum Turn {
    Goes(Given, Inside),
    Ends(Given),
    Breaks,
}

fn is_octal(b: u8) -> bool
    ensures { result ≡ is_octal b }
{
    b'0' <= b && b <= b'7'
}

// A byte that may stand in a string raw.
fn is_string_byte(b: u8) -> bool
    ensures { result ≡ is_string_byte b }
{
    if b == 0 {
        return false;
    }
    if b == b'\n' {
        return false;
    }
    b != b'\r'
}

fn plain_turn(b: u8) -> Turn
    ensures { turn_of result ≡ plain_turn b }
{
    match b {
        b'"' => Turn::Ends(Given::Nothing),
        b'\\' => Turn::Goes(Given::Nothing, Inside::Escape),
        _ if is_string_byte(b) => Turn::Goes(Given::One(b), Inside::Plain),
        _ => Turn::Breaks,
    }
}

fn escape_turn(b: u8) -> Turn
    ensures { turn_of result ≡ escape_turn b }
{
    match b {
        b'0'..=b'7' => Turn::Goes(Given::Nothing, Inside::OneDigit(b - b'0')),
        b'n' => Turn::Goes(Given::One(b'\n'), Inside::Plain),
        b't' => Turn::Goes(Given::One(b'\t'), Inside::Plain),
        _ if is_string_byte(b) => Turn::Goes(Given::One(b), Inside::Plain),
        _ => Turn::Breaks,
    }
}

// The byte of a whole octal, and plain text behind it.
fn octal_whole(n: u32) -> Turn
    ensures { turn_of result ≡ octal_byte n (goes [] plain) }
{
    match n {
        1..=255 => Turn::Goes(Given::One(n as u8), Inside::Plain),
        _ => Turn::Breaks,
    }
}

// The byte of an octal that `b` is no digit of, and what `b` does in plain text.
fn octal_before(n: u16, b: u8) -> Turn
    ensures { turn_of result ≡ octal_byte n (plain_turn b) }
{
    if n == 0 {
        return Turn::Breaks;
    }
    if 255 < n {
        return Turn::Breaks;
    }
    if b == b'"' {
        return Turn::Ends(Given::One(n as u8));
    }
    if b == b'\\' {
        return Turn::Goes(Given::One(n as u8), Inside::Escape);
    }
    if is_string_byte(b) {
        return Turn::Goes(Given::Two(n as u8, b), Inside::Plain);
    }
    Turn::Breaks
}

fn second_turn(n: u8, b: u8) -> Turn
    ensures { turn_of result ≡ octal_turn 1 n b }
{
    if is_octal(b) {
        let m = n as u16 * 8 + (b - b'0') as u16;
        return Turn::Goes(Given::Nothing, Inside::TwoDigits(m));
    }
    octal_before(n as u16, b)
}

fn third_turn(n: u16, b: u8) -> Turn
    ensures { turn_of result ≡ octal_turn 2 n b }
{
    if is_octal(b) {
        let m = n as u32 * 8 + (b - b'0') as u32;
        return octal_whole(m);
    }
    octal_before(n, b)
}

fn turn_on(inside: Inside, b: u8) -> Turn
    ensures { turn_of result ≡ turn (inside_of inside) b }
{
    match inside {
        Inside::Plain => plain_turn(b),
        Inside::Escape => escape_turn(b),
        Inside::OneDigit(n) => second_turn(n, b),
        Inside::TwoDigits(n) => third_turn(n, b),
    }
}

// A byte that stands for itself: most are above both the quote and the blanks.
fn is_plain(b: u8) -> bool
    ensures { result ≡ is_plain b }
{
    if b'"' < b {
        return b != b'\\';
    }
    if b == b'"' {
        return false;
    }
    is_string_byte(b)
}

// The first byte at or after `at` that does not stand for itself, or the end. Most strings are plain up to their closing quote: the machine then reads but that.
fn plain_end(s: &[u8], at: usize) -> usize
    ensures { result ≡ end_of is_plain s.now at }
{
    for i in at..s.len() {
        if !is_plain(s[i]) {
            return i;
        }
    }
    at.max(s.len())
}

// The place behind the closing quote of the string whose first byte stands at `at`, behind the opening one; none if the string is broken.
pub fn string_end(s: &[u8], at: usize) -> Option<usize>
    ensures { CloseIs s.now at result }
{
    let mut inside = Inside::Plain;
    for i in plain_end(s, at)..s.len() {
        match turn_on(inside, s[i]) {
            Turn::Goes(_, next) => inside = next,
            Turn::Ends(_) => return Some(i + 1),
            Turn::Breaks => return None,
        }
    }
    None
}

fn count(g: Given) -> usize
    ensures { result ≡ length (given_of g) }
{
    match g {
        Given::Nothing => 0,
        Given::One(_) => 1,
        Given::Two(_, _) => 2,
    }
}

// How many bytes the string at `at` stands for; 0 if it is broken.
pub fn string_size(s: &[u8], at: usize) -> usize
    ensures { result ≡ length (decoded (drop at s.now)) }
{
    let first = plain_end(s, at);
    let mut inside = Inside::Plain;
    let mut size = first - at;
    for i in first..s.len() {
        match turn_on(inside, s[i]) {
            Turn::Goes(g, next) => {
                size += count(g);
                inside = next;
            }
            Turn::Ends(g) => return size + count(g),
            Turn::Breaks => return 0,
        }
    }
    0
}

// Stores the bytes of a turn, and answers the place behind them.
fn put_given(out: &mut [u8], to: usize, g: Given) -> usize
    requires { to + length (given_of g) ≤ length out.old }
    ensures value { result ≡ to + length (given_of g) }
    ensures out_after { out.new ≡ store out.old to (given_of g) }
{
    match g {
        Given::Nothing => to,
        Given::One(a) => {
            out[to] = a;
            to + 1
        }
        Given::Two(a, b) => {
            out[to] = a;
            out[to + 1] = b;
            to + 2
        }
    }
}

// Stores the bytes that the string at `at` stands for, from `to` on, and answers the place behind them.
pub fn put_string(s: &[u8], at: usize, out: &mut [u8], to: usize) -> usize
    requires s_value { closes (drop at s.now) ≡ true }
    requires s_in_bounds { to + length (decoded (drop at s.now)) ≤ length out.old }
    ensures value { result ≡ to + length (decoded (drop at s.now)) }
    ensures out_after { out.new ≡ store out.old to (decoded (drop at s.now)) }
{
    let first = plain_end(s, at);
    store(out, to, part(s, at, first));
    let mut inside = Inside::Plain;
    let mut end = to + (first - at);
    for i in first..s.len() {
        match turn_on(inside, s[i]) {
            Turn::Goes(g, next) => {
                end = put_given(out, end, g);
                inside = next;
            }
            Turn::Ends(g) => return put_given(out, end, g),
            Turn::Breaks => return end,
        }
    }
    end
}
