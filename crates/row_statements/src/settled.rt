// A statement found: its row is the one that its parts make.
ghost use Rattle.std.specs.Prelude.{◌≡◌, cond, Some, None};
ghost use Rattle.rules.specs.Bytes.{same};
ghost use Rattle.tables.specs.Row.{words};

use crate::statements::Found;
use tables::Row;

pub fn same_row(x: Row, y: Row) -> bool
    ensures { result ≡ same (words x) (words y) }
{
    (x.kind == y.kind)
        & (x.a == y.a)
        & (x.b == y.b)
        & (x.c == y.c)
        & (x.d == y.d)
        & (x.e == y.e)
        & (x.f == y.f)
        & (x.g == y.g)
}

// A statement whose row has to be this one.
pub fn settle(r: Row, x: Row, found: Found) -> Option<Found>
    ensures { result ≡ cond (same (words r) (words x)) (Some found) None }
{
    same_row(r, x).then_some(found)
}
