// Names in plain letters, and back, for a device that prints only letters, digits and underline. The functions that write one line of a
// listing know the room only: a listing has no longest text.
#![tactic(auto)]

ghost use Rattle.std.specs.Prelude.{◌≡◌, ◌&&◌, ◌+◌, ◌≤◌, ◌<◌, length};
ghost use mathlib.Core.List.{flat_map};
ghost use Rattle.rules.specs.Limits.{names_length};
ghost use Rattle.rules.specs.Bytes.{legal, same};
ghost use Rattle.rules.specs.Plain.{is_plain, hex_digit, plain_byte, plain_form, hex_value, form_bytes, name_of, turned, turned_back, low};
ghost use Rattle.plain.specs.Put.{PutAt, wrote};
ghost use Rattle.plain.specs.Taken.{TakenIs};

use names::{legal, same_bytes};
use tables::store;

// The refusals: an illegal name, room too short, bytes that are no legal name's plain form.
const ILLEGAL_NAME: u32 = 4;

pub const ROOM_TOO_SHORT: u32 = 12;

const NO_FORM: u32 = 14;

// The most bytes of a legal name's form: one for its first byte, three for each of the others.
pub const LONGEST_FORM: usize = 763;

// How many bytes stand for one that is not kept: in a form `_` and two digits; in a shown name `\` and a letter, or `\` and three digits.
const HEX_ESCAPE: usize = 3;

const LETTER_ESCAPE: usize = 2;

const OCTAL_ESCAPE: usize = 4;

// What no hex digit counts as, one more than the highest.
const NO_DIGIT: u32 = 16;

// Number 0 is none; a refusal's length is 0.
#[derive(Clone, Copy)]
pub struct Turned {
    pub number: u32,
    pub length: u32,
}

// The byte that the bytes of a form from a place on stand for first, and where those behind it start.
#[derive(Clone, Copy)]
struct Taken {
    value: u8,
    next: usize,
}

// A-Z, a-z or 0-9: the bytes that are kept.
fn is_plain(b: u8) -> bool
    ensures { result ≡ is_plain b }
{
    ((b'A' <= b) & (b <= b'Z')) | ((b'a' <= b) & (b <= b'z')) | ((b'0' <= b) & (b <= b'9'))
}

fn hex_digit(n: u8) -> u8
    requires { n < 16 }
    ensures { result ≡ hex_digit n }
{
    if n < 10 {
        return b'0' + n;
    }
    b'a' + (n - 10)
}

fn plain_size(b: u8) -> usize
    ensures { result ≡ length (plain_byte b) }
{
    if is_plain(b) {
        return 1;
    }
    HEX_ESCAPE
}

// A byte of a name behind its first, in plain letters.
fn put_plain(out: &mut [u8], at: usize, b: u8) -> usize
    requires { at + length (plain_byte b) ≤ length out.old }
    ensures { PutAt at (plain_byte b) out.old out.new result }
{
    if is_plain(b) {
        store(out, at, &[b]);
        return at + 1;
    }
    store(out, at, &[b'_', hex_digit(b / 16), hex_digit(b % 16)]);
    at + HEX_ESCAPE
}

fn later_size(s: &[u8]) -> usize
    requires { length s.now ≤ names_length }
    ensures { result ≡ length (flat_map plain_byte s.now) }
{
    let mut size = 0;
    for b in s {
        size += plain_size(*b);
    }
    size
}

fn put_later(out: &mut [u8], at: usize, s: &[u8]) -> usize
    requires { at + length (flat_map plain_byte s.now) ≤ length out.old }
    ensures { PutAt at (flat_map plain_byte s.now) out.old out.new result }
{
    let mut end = at;
    for b in s {
        end = put_plain(out, end, *b);
    }
    end
}

// How long the form of any bytes is.
pub fn form_size(name: &[u8]) -> usize
    requires { length name.now ≤ names_length }
    ensures { result ≡ length (plain_form name.now) }
{
    if name.len() == 0 {
        return 0;
    }
    1 + later_size(&name[1..])
}

// The form of any bytes from a place on, and the place behind it.
pub fn put_form(out: &mut [u8], at: usize, name: &[u8]) -> usize
    requires { at + length (plain_form name.now) ≤ length out.old }
    ensures { PutAt at (plain_form name.now) out.old out.new result }
{
    if name.len() == 0 {
        return at;
    }
    let first = if name[0] == b'\\' { b'p' } else { b'a' };
    out[at] = first;
    put_later(out, at + 1, &name[1..])
}

// The plain form of a legal name, at the start of the room.
pub fn plain_form(name: &[u8], out: &mut [u8]) -> Turned
    ensures { (result.number, result.length, out.new) ≡ wrote out.old (turned (length out.old) name.now) }
{
    if !legal(name) {
        return Turned {
            number: ILLEGAL_NAME,
            length: 0,
        };
    }
    let size = form_size(name);
    if out.len() < size {
        return Turned {
            number: ROOM_TOO_SHORT,
            length: 0,
        };
    }
    put_form(out, 0, name);
    Turned {
        number: 0,
        length: size as u32,
    }
}

fn hex_value(b: u8) -> u32
    ensures { result ≡ hex_value b }
{
    if (b'0' <= b) & (b <= b'9') {
        return (b - b'0') as u32;
    }
    if (b'a' <= b) & (b <= b'f') {
        return (b - b'a') as u32 + 10;
    }
    NO_DIGIT
}

// The byte at a place, or that of the two digits behind an underline; fewer than two stand for nothing.
fn take_byte(form: &[u8], i: usize) -> Option<Taken>
    requires { i < length form.now }
    ensures { TakenIs form.now i result }
{
    let b = form[i];
    if b != b'_' {
        return Some(Taken {
            value: b,
            next: i + 1,
        });
    }
    if form.len() - i < HEX_ESCAPE {
        return None;
    }
    let value = (16 * hex_value(form[i + 1]) + hex_value(form[i + 2])) % 256;
    Some(Taken {
        value: value as u8,
        next: i + HEX_ESCAPE,
    })
}

// What the bytes of a form behind its first stand for.
fn put_taken(out: &mut [u8], at: usize, form: &[u8]) -> usize
    requires { at + length form.now ≤ length out.old }
    ensures { PutAt at (form_bytes form.now) out.old out.new result }
{
    let mut end = at;
    let mut i = 0;
    // What is taken tells where the next byte is written.
    while i < form.len() {
        let Some(taken) = take_byte(form, i) else {
            return end;
        };
        out[end] = taken.value;
        end += 1;
        i = taken.next;
    }
    end
}

// What any bytes stand for as a form, at the start of the room.
fn put_name(out: &mut [u8], form: &[u8]) -> usize
    requires { length form.now ≤ length out.old }
    ensures { PutAt 0 (name_of form.now) out.old out.new result }
{
    if form.len() == 0 {
        return 0;
    }
    let first = if form[0] == b'p' { b'\\' } else { b'$' };
    out[0] = first;
    put_taken(out, 1, &form[1..])
}

// Whether the bytes are a legal name and the form is its own.
fn is_form_of(form: &[u8], name: &[u8]) -> bool
    ensures { result ≡ legal name.now && same (plain_form name.now) form.now }
{
    if !legal(name) {
        return false;
    }
    let mut own = [0u8; LONGEST_FORM];
    let end = put_form(&mut own, 0, name);
    same_bytes(&own[0..end], form)
}

// The name of a plain form, at the start of the room. It is made in a room of its own, so that a refusal leaves the room lent as it was.
pub fn name_of(form: &[u8], out: &mut [u8]) -> Turned
    ensures { (result.number, result.length, out.new) ≡ wrote out.old (turned_back (length out.old) form.now) }
{
    if LONGEST_FORM < form.len() {
        return Turned {
            number: NO_FORM,
            length: 0,
        };
    }
    let mut name = [0u8; LONGEST_FORM];
    let end = put_name(&mut name, form);
    if !is_form_of(form, &name[0..end]) {
        return Turned {
            number: NO_FORM,
            length: 0,
        };
    }
    if out.len() < end {
        return Turned {
            number: ROOM_TOO_SHORT,
            length: 0,
        };
    }
    store(out, 0, &name[0..end]);
    Turned {
        number: 0,
        length: end as u32,
    }
}

fn low_size(b: u8) -> usize
    ensures { result ≡ length (low b) }
{
    if b == b'\n' {
        return LETTER_ESCAPE;
    }
    if b == b'\t' {
        return LETTER_ESCAPE;
    }
    if b < b' ' {
        return OCTAL_ESCAPE;
    }
    1
}

// A byte of a shown name: below 32 as it stands in a written string.
fn put_low(out: &mut [u8], at: usize, b: u8) -> usize
    requires { at + length (low b) ≤ length out.old }
    ensures { PutAt at (low b) out.old out.new result }
{
    if b' ' <= b {
        store(out, at, &[b]);
        return at + 1;
    }
    if b == b'\n' {
        store(out, at, b"\\n");
        return at + LETTER_ESCAPE;
    }
    if b == b'\t' {
        store(out, at, b"\\t");
        return at + LETTER_ESCAPE;
    }
    store(out, at, &[b'\\', b'0', b'0' + b / 8, b'0' + b % 8]);
    at + OCTAL_ESCAPE
}

// How long a shown name is in a listing.
pub fn shown_size(s: &[u8]) -> usize
    requires { length s.now ≤ names_length }
    ensures { result ≡ length (flat_map low s.now) }
{
    let mut size = 0;
    for b in s {
        size += low_size(*b);
    }
    size
}

// A shown name from a place on, and the place behind it.
pub fn put_shown(out: &mut [u8], at: usize, s: &[u8]) -> usize
    requires { at + length (flat_map low s.now) ≤ length out.old }
    ensures { PutAt at (flat_map low s.now) out.old out.new result }
{
    let mut end = at;
    for b in s {
        end = put_low(out, end, *b);
    }
    end
}
