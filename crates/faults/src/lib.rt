// The refusal numbers of the parts of signals: the lowest counts.
#![tactic(auto)]

ghost use Rattle.std.specs.Prelude.{◌≡◌};
ghost use Rattle.faults.specs.Faults.{merge};

// The lower of two refusal numbers, of which 0 is none.
#[tactic(auto, unfolding(crate::specs::Faults::merge))]
pub fn merge(a: u32, b: u32) -> u32
    ensures { result ≡ merge a b }
{
    match (a, b) {
        (0, _) => b,
        (_, 0) => a,
        _ => a.min(b),
    }
}
