// Offsets and integer constants stand in tables as words of 32 bits in two's complement. Their sums are made in 64 bits, where none overflows.
ghost use Rattle.std.specs.Prelude.{◌≡◌, ◌||◌, ◌-◌, ◌/◌, ◌%◌, ◌^◌, ◌<◌, eqb, pos, ◌+ℤ◌};
ghost use Rattle.rules.specs.Numbers.{int32};
ghost use Rattle.rules.specs.Signals.{twos_complement};
ghost use Rattle.numbers.specs.Signed.{signed_of, integer_of, IndexIs};

// The first word that stands for a negative integer.
pub const FIRST_NEGATIVE: u32 = 2147483648;

// The last word: it stands for -1.
pub const LAST_WORD: u32 = 4294967295;

// How many words there are.
const ALL_WORDS: i64 = 4294967296;

// The first integer past those that have a word.
const PAST_WORDS: i64 = 2147483648;

// The integer that a word stands for.
fn signed_of(w: u32) -> i64
    ensures { result ≡ signed_of w }
{
    if w < FIRST_NEGATIVE {
        w as i64
    } else {
        (w as i64) - ALL_WORDS
    }
}

// Whether an integer of this sign and size has a word.
pub fn fits(negative: bool, size: u32) -> bool
    ensures { result ≡ int32 (integer_of negative size) }
{
    if negative {
        size <= FIRST_NEGATIVE
    } else {
        size < FIRST_NEGATIVE
    }
}

// The word of such an integer, in two's complement.
pub fn word_of(negative: bool, size: u32) -> u32
    ensures { result ≡ twos_complement (integer_of negative size) }
{
    if size == 0 {
        return 0;
    }
    if negative {
        LAST_WORD - (size - 1)
    } else {
        size
    }
}

// Whether the index of the last bit, offset + width - 1, has a word. A wire with no bit has no such index.
pub fn offset_fits(offset: u32, width: u32) -> bool
    ensures { result ≡ (eqb width 0 || int32 (signed_of offset +ℤ pos (width - 1))) }
{
    if width == 0 {
        return true;
    }
    let last = signed_of(offset) + ((width - 1) as i64);
    last < PAST_WORDS
}

// The index that the author of a wire gave its bit: offset + bit, or with `upto` offset + width - 1 - bit; it may be negative. None if the bit is
// past the wire.
pub fn author_index(offset: u32, width: u32, upto: bool, bit: u32) -> Option<i64>
    ensures { IndexIs offset width upto bit result }
{
    if width <= bit {
        return None;
    }
    let above = if upto { width - 1 - bit } else { bit };
    Some(signed_of(offset) + (above as i64))
}

// Bit k of a word, from the lowest.
pub fn bit_of(w: u32, k: u32) -> u8
    requires { k < 32 }
    ensures { result ≡ w / 2 ^ k % 2 }
{
    ((w >> k) % 2) as u8
}
