// The signals of a line up to its end, one behind another or with a comma between. Their bits go to a scratch table, each signal's behind
// those before it.
#![tactic(auto)]

ghost use Rattle.std.specs.Prelude.{◌≡◌, ◌+◌, ◌/◌, ◌≤◌, ◌<◌, length};
ghost use Rattle.rules.specs.Limits.{most_wires, scratch_length};
ghost use Rattle.wires.specs.Rows.{wires_from};
ghost use Rattle.name_index.specs.Index.{WiresIndexed};
ghost use Rattle.signals.specs.Reads.{Readable};
ghost use Rattle.signal_list.specs.Sums.{place_of, added_to, listed_of};
ghost use Rattle.signal_list.specs.Reads.{NextIs, ListedIs};

use faults::merge;
use netlist::results::{BAD_WIDTH, TOO_MANY};
use signals::{Answer, Bits, ModuleWires, is_mark, signal};

// The words of a token's row.
const TOKEN_SIZE: usize = 4;

// How deep bundles stand in bundles at most.
const SIGNAL_DEPTH: usize = 16;

// The mark `,` as a token has it.
const COMMA: usize = 44;

// The most bits of all signals of a design, and so of a line.
const MOST_SIGNAL_BITS: usize = 8192;

// Signals that were read: the width of the first, how many they are, their bits in all, whether they are equally wide, and the lowest number
// that one of them is refused with, or 0.
#[derive(Clone, Copy)]
struct Sum {
    width: usize,
    count: usize,
    total: usize,
    even: bool,
    fault: u32,
}

// The signals of a line: the width of the first, 0 if there is none, how many they are, and the lowest number that they are refused with, or 0.
#[derive(Clone, Copy)]
pub struct Listed {
    pub width: usize,
    pub count: usize,
    pub fault: u32,
}

// Where the next signal's bits go: behind those before it. Once these are too many their bits no longer matter, and it goes where the most
// would end.
fn place(total: usize) -> usize
    ensures { result ≡ place_of total }
{
    if total < MOST_SIGNAL_BITS {
        total
    } else {
        MOST_SIGNAL_BITS
    }
}

// The signal from row i on, with a comma before it if it is to have one.
fn next_signal(
    f: &[u8],
    tokens: &[u32],
    i: usize,
    comma: bool,
    names: &[u8],
    wires: &[u32],
    scope: ModuleWires,
    scratch: &mut [u32],
    total: usize,
    heads: &[u32],
    chain: &[u32],
) -> Option<Answer>
    requires readable { Readable f.now tokens.now i }
    requires scratch_length_in_bounds { (scratch_length ≤ length scratch.old) × (scope.count ≤ most_wires) × WiresIndexed heads.now chain.now names.now wires.now (scope.first + scope.count) }
    ensures { NextIs f.now tokens.now (wires_from names.now wires.now scope.first scope.count) i comma total scratch.old scratch.new result }
{
    let mut at = i;
    if comma {
        if !is_mark(tokens, i, COMMA) {
            return None;
        }
        at = i + 1;
    }
    signal(
        f,
        tokens,
        at,
        SIGNAL_DEPTH,
        names,
        wires,
        scope,
        scratch,
        place(total),
        heads,
        chain,
    )
}

// The signals with one more; each is compared with the first.
fn added(sum: Sum, bits: Bits) -> Sum
    requires { (sum.count + 1 < 18446744073709551616) × (sum.total + bits.width < 18446744073709551616) }
    ensures { result ≡ added_to sum bits }
{
    let count = sum.count + 1;
    let total = sum.total + bits.width;
    let fault = merge(sum.fault, bits.fault);
    if sum.count == 0 {
        return Sum {
            width: bits.width,
            count,
            total,
            even: true,
            fault,
        };
    }
    let first = sum.width;
    Sum {
        width: first,
        count,
        total,
        even: sum.even && sum.width == bits.width,
        fault,
    }
}

// Unequal widths count as 10, and too many bits as 11.
fn told(sum: Sum) -> Listed
    ensures { result ≡ listed_of sum }
{
    let uneven = if sum.even { 0 } else { BAD_WIDTH };
    let over = if MOST_SIGNAL_BITS < sum.total {
        TOO_MANY
    } else {
        0
    };
    Listed {
        width: sum.width,
        count: sum.count,
        fault: merge(over, merge(uneven, sum.fault)),
    }
}

// The signals from row `from` on.
pub fn signals_from(
    f: &[u8],
    tokens: &[u32],
    from: usize,
    comma: bool,
    names: &[u8],
    wires: &[u32],
    scope: ModuleWires,
    scratch: &mut [u32],
    heads: &[u32],
    chain: &[u32],
) -> Option<Listed>
    requires readable { Readable f.now tokens.now from }
    requires scratch_length_in_bounds { (scratch_length ≤ length scratch.old) × (scope.count ≤ most_wires) × WiresIndexed heads.now chain.now names.now wires.now (scope.first + scope.count) }
    ensures { ListedIs f.now tokens.now (wires_from names.now wires.now scope.first scope.count) from comma scratch.old scratch.new result }
{
    let end = tokens.len() / TOKEN_SIZE;
    let mut at = from;
    let mut sum = Sum {
        width: 0,
        count: 0,
        total: 0,
        even: true,
        fault: 0,
    };
    // Reading a signal tells where the next one stands.
    while at < end {
        let signal = next_signal(
            f,
            tokens,
            at,
            comma && 0 < sum.count,
            names,
            wires,
            scope,
            scratch,
            sum.total,
            heads,
            chain,
        )?;
        sum = added(sum, signal.bits);
        at = signal.next;
    }
    Some(told(sum))
}
