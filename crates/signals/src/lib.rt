// Signals: the signal reader and the bundle reader call each other, the unread part of the line and the depth falling. Bits are put
// into a scratch table from the top, the members of a bundle as they come; the part that slices leave is moved down to where the signal began.
#![tactic(auto)]

ghost use Rattle.std.specs.Prelude.{◌≡◌, ◌+◌, ◌*◌, ◌/◌, ◌≤◌, ◌<◌, length};
ghost use Rattle.rules.specs.Limits.{most_wires, longest_file, most_width, tokens_length};
ghost use Rattle.rules.specs.Statements as rules;
ghost use Rattle.rules.specs.Signals.{wire_bits};
ghost use Rattle.tables.specs.Store.{store};
ghost use Rattle.tokens.specs.Rows.{integer_in, literal_in};
ghost use Rattle.literals.specs.Codes.{Whole};
ghost use Rattle.wires.specs.Rows.{wires_from};
ghost use Rattle.name_index.specs.Index.{WiresIndexed};
ghost use Rattle.faults.specs.Faults.{too_wide};
ghost use Rattle.signals.specs.Held.{codes, Put, PutAny, InWord, CutIs, MovedIs};
ghost use Rattle.signals.specs.Reads.{mark_at, slot_in, BoundsIs, SliceIs, SlicesIs, AtomIs, SignalIs, BundleIs, Readable};

use faults::merge;
use name_search::indexed_wire;
use netlist::results::{BAD_NUMBER, BAD_WIDTH, NOT_THERE, TOO_MANY};
use numbers::kinds::{SignalBit, WireNumber};
use tokens::{ConstantSpan, Integer, Token};

// The most bits of a part of a signal.
const MOST_BITS: usize = 2048;

// A bound from here on is the word of a negative one.
const FIRST_NEGATIVE: usize = 2147483648;

// The marks of a slice, `[`, `:` and `]`, and of a bundle, `{` and `}`, as a token has them.
const SLICE_OPENS: usize = 91;

const COLON: usize = 58;

const SLICE_CLOSES: usize = 93;

const BUNDLE_OPENS: usize = 123;

const BUNDLE_CLOSES: usize = 125;

// The wires of a module: their first row, and how many there are.
#[derive(Clone, Copy)]
pub struct ModuleWires {
    pub first: u32,
    pub count: u32,
}

// A signal's width, and the lowest number that it is refused with, or 0.
#[derive(Clone, Copy)]
pub struct Bits {
    pub width: usize,
    pub fault: u32,
}

// A slice of slices of a signal: its bits, and the bit of the signal that is its lowest.
#[derive(Clone, Copy)]
struct Part {
    bits: Bits,
    low: usize,
}

// A signal with the row behind it.
#[derive(Clone, Copy)]
pub struct Answer {
    pub next: usize,
    pub bits: Bits,
}

// The bounds of a slice with the row behind them; a low bound that is not given is the high one.
#[derive(Clone, Copy)]
struct Bounds {
    high: Integer,
    low: Option<Integer>,
    next: usize,
}

// A part is at most 2,048 bits wide.
fn too_wide(width: usize) -> u32
    ensures { result ≡ too_wide width }
{
    if MOST_BITS < width { TOO_MANY } else { 0 }
}

// The bits of a wire, from the top.
fn put_wire(scratch: &mut [u32], o: usize, number: WireNumber, width: usize)
    requires { (o + width ≤ length scratch.old) × (number.0 < most_wires) × (width ≤ most_width) }
    ensures { scratch.new ≡ store scratch.old o (codes (wire_bits number.0 0 width)) }
{
    for k in 0..width {
        let i = (width - 1 - k) as u32;
        scratch[o + k] = numbers::kinds::encode(SignalBit::Wire(number, i));
    }
}

fn wire_bits(
    names: &[u8],
    wires: &[u32],
    scope: ModuleWires,
    name: &[u8],
    scratch: &mut [u32],
    o: usize,
    heads: &[u32],
    chain: &[u32],
) -> Bits
    requires { (o + most_width ≤ length scratch.old) × (scope.count ≤ most_wires) × WiresIndexed heads.now chain.now names.now wires.now (scope.first + scope.count) }
    ensures { Put (wires_from names.now wires.now scope.first scope.count) (rules.wire name.now) o scratch.old scratch.new result }
{
    match indexed_wire(names, wires, heads, chain, scope.first, scope.count, name) {
        Some(found) => {
            let width = found.width as usize;
            if MOST_BITS < width {
                return Bits {
                    width,
                    fault: TOO_MANY,
                };
            }
            put_wire(scratch, o, found.number, width);
            Bits { width, fault: 0 }
        }
        None => Bits {
            width: 0,
            fault: NOT_THERE,
        },
    }
}

// Whether row i holds this mark.
pub fn is_mark(tokens: &[u32], i: usize, b: usize) -> bool
    ensures { result ≡ mark_at tokens.now i b }
{
    match tokens::token_at(tokens, i) {
        Token::Mark(m) => m == b,
        _ => false,
    }
}

// Behind `[`: the high bound, the low one if it is given, and `]`.
fn bounds_at(tokens: &[u32], i: usize) -> Option<Bounds>
    requires { (length tokens.now ≤ tokens_length) × (i ≤ length tokens.now / 4) }
    ensures { BoundsIs tokens.now i result }
{
    let high = tokens::integer_at(tokens, i)?;
    if is_mark(tokens, i + 1, SLICE_CLOSES) {
        return Some(Bounds {
            high,
            low: None,
            next: i + 2,
        });
    }
    if !is_mark(tokens, i + 1, COLON) {
        return None;
    }
    let low = tokens::integer_at(tokens, i + 2)?;
    if !is_mark(tokens, i + 3, SLICE_CLOSES) {
        return None;
    }
    Some(Bounds {
        high,
        low: Some(low),
        next: i + 4,
    })
}

// A slice of this part by bounds that keep the number rules: a bound from 2 ^ 31 on is negative.
fn cut(part: Part, high: u32, low: u32) -> Part
    requires { InWord part }
    ensures { CutIs part high low result }
{
    let width = part.bits.width;
    let fault = part.bits.fault;
    let h = high as usize;
    let l = low as usize;
    let outside = Part {
        bits: Bits {
            width,
            fault: merge(BAD_WIDTH, fault),
        },
        low: part.low,
    };
    if FIRST_NEGATIVE <= h {
        return outside;
    }
    if width <= h {
        return outside;
    }
    if h < l {
        return outside;
    }
    let count = h + 1 - l;
    Part {
        bits: Bits {
            width: count,
            fault: merge(too_wide(count), fault),
        },
        low: part.low + l,
    }
}

fn literal_bits(f: &[u8], c: ConstantSpan, scratch: &mut [u32], o: usize) -> Bits
    requires { (length f.now ≤ longest_file) × (o + most_width ≤ length scratch.old) × Whole f.now c }
    ensures { PutAny (rules.constant (literal_in f.now c)) o scratch.old scratch.new result }
{
    if !literal_rules::good_literal(f, c) {
        return Bits {
            width: 0,
            fault: BAD_NUMBER,
        };
    }
    let width = literal_rules::literal_width(f, c);
    if MOST_BITS < width {
        return Bits {
            width,
            fault: TOO_MANY,
        };
    }
    literals::put_literal(f, c, scratch, o);
    Bits { width, fault: 0 }
}

// A constant or a wire.
fn atom(
    f: &[u8],
    tokens: &[u32],
    i: usize,
    names: &[u8],
    wires: &[u32],
    scope: ModuleWires,
    scratch: &mut [u32],
    o: usize,
    heads: &[u32],
    chain: &[u32],
) -> Option<Answer>
    requires readable { Readable f.now tokens.now i }
    requires most_width_in_bounds { (o + most_width ≤ length scratch.old) × (scope.count ≤ most_wires) × WiresIndexed heads.now chain.now names.now wires.now (scope.first + scope.count) }
    ensures { AtomIs f.now tokens.now (wires_from names.now wires.now scope.first scope.count) i o scratch.old scratch.new result }
{
    match tokens::token_at(tokens, i) {
        Token::Name { start, end } => {
            let bits = wire_bits(
                names,
                wires,
                scope,
                scanner::parts::part(f, start, end),
                scratch,
                o,
                heads,
                chain,
            );
            Some(Answer { next: i + 1, bits })
        }
        Token::Constant(c) => {
            let bits = literal_bits(f, c, scratch, o);
            Some(Answer { next: i + 1, bits })
        }
        _ => None,
    }
}

// One slice of a part, by its bounds in the file.
fn slice(f: &[u8], part: Part, high: Integer, low: Option<Integer>) -> Part
    requires { InWord part }
    ensures { SliceIs part (integer_in f.now high) (slot_in f.now low) result }
{
    let broken = Part {
        bits: Bits {
            width: part.bits.width,
            fault: merge(BAD_NUMBER, part.bits.fault),
        },
        low: part.low,
    };
    let Some(h) = literal_rules::integer_of(f, high) else {
        return broken;
    };
    match low {
        None => cut(part, h, h),
        Some(z) => {
            let Some(l) = literal_rules::integer_of(f, z) else {
                return broken;
            };
            cut(part, h, l)
        }
    }
}

// The bits of a part of a signal of this width, which stands from o on, are moved down to o, if they don't stand there.
fn move_part(scratch: &mut [u32], o: usize, width: usize, part: Part)
    requires { (part.low + part.bits.width ≤ width) × (part.bits.fault ≡ 0 → o + width ≤ length scratch.old) }
    ensures { MovedIs o width part scratch.old scratch.new }
{
    if part.bits.fault != 0 {
        return;
    }
    let above = width - (part.low + part.bits.width);
    if above != 0 {
        let from = o + above;
        scratch.copy_within(from..from + part.bits.width, o);
    }
}

// Slices may follow any signal, also a slice. Each is judged by what it slices; their low bounds add up, and the bits are moved once.
fn slices(
    f: &[u8],
    tokens: &[u32],
    i: usize,
    bits: Bits,
    scratch: &mut [u32],
    o: usize,
) -> Option<Answer>
    requires tokens_len_bound { (length tokens.now ≤ tokens_length) × (i ≤ length tokens.now / 4) }
    requires most_width_in_bounds { (o + most_width ≤ length scratch.old) × (bits.fault ≡ 0 → bits.width ≤ most_width) }
    ensures { SlicesIs f.now tokens.now i o scratch.old bits scratch.new result }
{
    let width = bits.width;
    let mut at = i;
    let mut part = Part { bits, low: 0 };
    // Reading a slice tells where the next one stands.
    while is_mark(tokens, at, SLICE_OPENS) {
        let bounds = bounds_at(tokens, at + 1)?;
        part = slice(f, part, bounds.high, bounds.low);
        at = bounds.next;
    }
    move_part(scratch, o, width, part);
    let left = part.bits;
    Some(Answer {
        next: at,
        bits: left,
    })
}

// A signal whose bundles are at most depth deep, from row i on; its bits go to the scratch table from o on.
#[cycle(bundle_signal)]
pub fn signal(
    f: &[u8],
    tokens: &[u32],
    i: usize,
    depth: usize,
    names: &[u8],
    wires: &[u32],
    scope: ModuleWires,
    scratch: &mut [u32],
    o: usize,
    heads: &[u32],
    chain: &[u32],
) -> Option<Answer>
    requires readable { Readable f.now tokens.now i }
    requires depth_in_bounds { (o + most_width * (depth + 1) ≤ length scratch.old) × (scope.count ≤ most_wires) × WiresIndexed heads.now chain.now names.now wires.now (scope.first + scope.count) }
    ensures { SignalIs f.now tokens.now (wires_from names.now wires.now scope.first scope.count) i depth o scratch.old scratch.new result }
{
    if is_mark(tokens, i, BUNDLE_OPENS) {
        if depth == 0 {
            return None;
        }
        let b = bundle(
            f,
            tokens,
            i + 1,
            depth - 1,
            names,
            wires,
            scope,
            scratch,
            o,
            heads,
            chain,
        )?;
        return slices(f, tokens, b.next, b.bits, scratch, o);
    }
    let a = atom(f, tokens, i, names, wires, scope, scratch, o, heads, chain)?;
    slices(f, tokens, a.next, a.bits, scratch, o)
}

// The members of a bundle, behind its first mark, with its closing mark. Once the bundle is too wide its bits no longer matter, and the
// members behind go where its 2,048 bits would end.
#[cycle(bundle_signal)]
fn bundle(
    f: &[u8],
    tokens: &[u32],
    i: usize,
    depth: usize,
    names: &[u8],
    wires: &[u32],
    scope: ModuleWires,
    scratch: &mut [u32],
    o: usize,
    heads: &[u32],
    chain: &[u32],
) -> Option<Answer>
    requires readable { Readable f.now tokens.now i }
    requires depth_in_bounds { (o + most_width * (depth + 2) ≤ length scratch.old) × (scope.count ≤ most_wires) × WiresIndexed heads.now chain.now names.now wires.now (scope.first + scope.count) }
    ensures { BundleIs f.now tokens.now (wires_from names.now wires.now scope.first scope.count) i depth o scratch.old scratch.new result }
{
    let mut at = i;
    let mut width: usize = 0;
    let mut fault: u32 = 0;
    // Reading a member tells where the next one stands.
    while !is_mark(tokens, at, BUNDLE_CLOSES) {
        let put = if width < MOST_BITS {
            o + width
        } else {
            o + MOST_BITS
        };
        let m = signal(
            f, tokens, at, depth, names, wires, scope, scratch, put, heads, chain,
        )?;
        width += m.bits.width;
        fault = merge(m.bits.fault, fault);
        at = m.next;
    }
    Some(Answer {
        next: at + 1,
        bits: Bits {
            width,
            fault: merge(too_wide(width), fault),
        },
    })
}
