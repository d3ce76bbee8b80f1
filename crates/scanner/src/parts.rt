// A part of a file or a table, for any span.
ghost use Rattle.std.specs.Prelude.{◌≡◌};
ghost use Rattle.std.proofs.Math.Seq.{slice};

// Where something lies: from a place up to one behind its last.
#[derive(Clone, Copy)]
pub struct Span {
    pub start: usize,
    pub end: usize,
}

// The values from start up to end, cut to those that are there.
pub fn part<T>(s: &[T], start: usize, end: usize) -> &[T]
    ensures { result.now ≡ slice start end s.now }
{
    let stop = end.min(s.len());
    if stop <= start {
        return &s[0..0];
    }
    &s[start..stop]
}
