// Byte order of names.
#![tactic(auto)]

ghost use Rattle.std.specs.Prelude.{◌≡◌};
ghost use Rattle.rules.specs.Sorted.{before};

// Whether a name comes before another: the first byte that differs decides, and a name comes before those that it begins.
// By cmp, which looks at many bytes in one step where both begin alike; `<` looks at each.
pub fn comes_before(a: &[u8], b: &[u8]) -> bool
    ensures { result ≡ before a.now b.now }
{
    a.cmp(&b).is_lt()
}
