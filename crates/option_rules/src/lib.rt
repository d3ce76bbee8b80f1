// What the options of a wire and of a memory mean, where the number and option rules allow them.
#![tactic(auto)]

ghost use Rattle.std.specs.Prelude.{◌≡◌};
ghost use Rattle.option_rules.specs.Numbers.{WordIs, slot_fits, options_good};
ghost use Rattle.option_rules.specs.Limits.{ports_in, JoinedIs, PortIs, flag_bits, WireIs, MemoryIs};

use literal_rules::integer_of;
use numbers::signed::offset_fits;
use options::Options;
use tokens::Integer;

// The most bits of a wire or a memory's word, the highest number of a port, the most words of a memory.
const MOST_WIDTH: u32 = 2048;

const MOST_PORT: u32 = 1023;

const MOST_SIZE: u32 = 2147483647;

// A port's direction in the column of flags; 0 is no port.
const INPUT_CODE: u32 = 4;

const OUTPUT_CODE: u32 = 8;

const INOUT_CODE: u32 = 12;

// The flags in the same column; 0 is none.
const UPTO_FLAG: u32 = 1;

const SIGNED_FLAG: u32 = 2;

const BOTH_FLAGS: u32 = 3;

// A wire's columns in the table of wires.
#[derive(Clone, Copy)]
pub struct WireRules {
    pub width: u32,
    pub offset: u32,
    pub flags: u32,
    pub port: u32,
}

// A memory's columns.
#[derive(Clone, Copy)]
pub struct MemoryRules {
    pub width: u32,
    pub size: u32,
    pub offset: u32,
}

// The code of a port's direction and its number, both 0 for no port.
#[derive(Clone, Copy)]
struct Port {
    code: u32,
    number: u32,
}

#[tactic(auto, unfolding(crate::specs::Numbers::slot_fits))]
fn slot_fits(f: &[u8], s: Option<Integer>) -> bool
    ensures { result ≡ slot_fits f.now s }
{
    s.is_none_or(|z| integer_of(f, z).is_some())
}

// An option stands once, and every number is within 32 bits.
#[tactic(auto, unfolding(crate::specs::Numbers::options_good))]
fn options_good(f: &[u8], o: Options) -> bool
    ensures { result ≡ options_good f.now o }
{
    !o.twice
        && slot_fits(f, o.width)
        && slot_fits(f, o.offset)
        && slot_fits(f, o.size)
        && slot_fits(f, o.input)
        && slot_fits(f, o.output)
        && slot_fits(f, o.inout)
}

// The word of an option's number, or else d.
#[tactic(auto, unfolding(crate::specs::Numbers::value_or, crate::specs::Numbers::slot_fits, rules::specs::Signals::twos_complement))]
fn word_or(f: &[u8], s: Option<Integer>, d: u32) -> u32
    ensures { WordIs f.now s d result }
{
    s.and_then(|z| integer_of(f, z)).unwrap_or(d)
}

// The port of an option, or else of those behind it: at most one is given.
fn joined(f: &[u8], s: Option<Integer>, code: u32, behind: Option<Port>) -> Option<Port>
    ensures { JoinedIs f.now s code behind result }
{
    let Some(z) = s else {
        return behind;
    };
    if behind?.code != 0 {
        return None;
    }
    let number = integer_of(f, z)?;
    if !(1..=MOST_PORT).contains(&number) {
        return None;
    }
    Some(Port { code, number })
}

fn port_of(f: &[u8], o: Options) -> Option<Port>
    ensures { PortIs (ports_in f.now o) result }
{
    let none = Some(Port { code: 0, number: 0 });
    let last = joined(f, o.inout, INOUT_CODE, none);
    let behind = joined(f, o.output, OUTPUT_CODE, last);
    joined(f, o.input, INPUT_CODE, behind)
}

#[tactic(auto, unfolding(crate::specs::Limits::flag_bits))]
fn flag_bits(upto: bool, signed: bool) -> u32
    ensures { result ≡ flag_bits upto signed }
{
    match (upto, signed) {
        (true, true) => BOTH_FLAGS,
        (true, false) => UPTO_FLAG,
        (false, true) => SIGNED_FLAG,
        (false, false) => 0,
    }
}

pub fn wire_rules(f: &[u8], o: Options) -> Option<WireRules>
    ensures { WireIs f.now o result }
{
    if !options_good(f, o) {
        return None;
    }
    let width = word_or(f, o.width, 1);
    if MOST_WIDTH < width {
        return None;
    }
    let port = port_of(f, o)?;
    let offset = word_or(f, o.offset, 0);
    if !offset_fits(offset, width) {
        return None;
    }
    Some(WireRules {
        width,
        offset,
        flags: flag_bits(o.upto, o.signed) + port.code,
        port: port.number,
    })
}

pub fn memory_rules(f: &[u8], o: Options) -> Option<MemoryRules>
    ensures { MemoryIs f.now o result }
{
    if !options_good(f, o) {
        return None;
    }
    let width = word_or(f, o.width, 1);
    if !(1..=MOST_WIDTH).contains(&width) {
        return None;
    }
    let size = word_or(f, o.size, 0);
    if MOST_SIZE < size {
        return None;
    }
    Some(MemoryRules {
        width,
        size,
        offset: word_or(f, o.offset, 0),
    })
}
