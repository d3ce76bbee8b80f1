// Decimal numbers, capped above every number that RTLIL text may hold.
ghost use Rattle.std.specs.Prelude.{◌≡◌, ◌+◌, ◌-◌, ◌*◌};
ghost use Rattle.rules.specs.Tokens.{decimal};
ghost use Rattle.scanner.specs.Numbers.{capped};

// What every number from it on is read as.
pub const CAP: u32 = 2147483649;

// The highest number that may get one more digit: a higher one would pass the cap.
const MOST_BEFORE: u32 = 214748364;

// The number n with one more digit.
fn more_digit(n: u32, b: u8) -> u32
    ensures { result ≡ capped (n * 10 + (b - 48)) }
{
    if MOST_BEFORE < n {
        return CAP;
    }
    let digit = b.saturating_sub(b'0');
    (n * 10 + digit as u32).min(CAP)
}

pub fn decimal(ds: &[u8]) -> u32
    ensures { result ≡ capped (decimal ds.now) }
{
    let mut n: u32 = 0;
    for b in ds {
        n = more_digit(n, *b);
    }
    n
}
