// Two comparisons of names with one contract, for tests/bench to time side by side: the product's, and one from the front.
#![tactic(auto)]

ghost use Rattle.std.specs.Prelude.{◌≡◌};
ghost use Rattle.rules.specs.Bytes.{same};

use names::same_bytes;

#[unsafe(no_mangle)]
pub extern "C" fn compare_as_product(a: &[u8], b: &[u8]) -> bool
    ensures { result ≡ same a.now b.now }
{
    same_bytes(a, b)
}

#[unsafe(no_mangle)]
pub extern "C" fn compare_from_front(a: &[u8], b: &[u8]) -> bool
    ensures { result ≡ same a.now b.now }
{
    if a.len() != b.len() {
        return false;
    }
    for i in 0..a.len() {
        if a[i] != b[i] {
            return false;
        }
    }
    true
}
