// Names: whether bytes are one, and whether two are the same.
#![tactic(auto)]

ghost use Rattle.std.specs.Prelude.{◌≡◌};
ghost use Rattle.rules.specs.Bytes.{legal, same, is_name_start};

// The fewest and the most bytes of a name.
pub const SHORTEST_NAME: usize = 2;

pub const LONGEST_NAME: usize = 255;

#[tactic(auto, unfolding(rules::specs::Bytes::bytes_open))]
fn starts_name(b: u8) -> bool
    ensures { result ≡ is_name_start b }
{
    b == b'\\' || b == b'$'
}

// `\` or `$`, then bytes above 32; 2 to 255 bytes in all.
pub fn legal(n: &[u8]) -> bool
    ensures { result ≡ legal n.now }
{
    if n.len() < SHORTEST_NAME {
        return false;
    }
    if LONGEST_NAME < n.len() {
        return false;
    }
    starts_name(n[0]) && n[1..].iter().all(|b| b' ' < *b)
}

// The one comparison of names in the product. Lengths first, then the last byte, where numbered names differ, then all,
// many bytes in one step.
pub fn same_bytes(a: &[u8], b: &[u8]) -> bool
    ensures { result ≡ same a.now b.now }
{
    if a.len() != b.len() {
        return false;
    }
    a.last() == b.last() && a == b
}
