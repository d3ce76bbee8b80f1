// The leaves over one lent table of design memory that put zeros or look for them.
#![tactic(auto)]

ghost use Rattle.std.specs.Prelude.{◌≡◌, ◌-◌, ◌≤◌, eqb, length, drop, replicate};
ghost use Rattle.rules.specs.Bytes.{all};
ghost use Rattle.tables.specs.Store.{store};

// The values that the test for zeros looks at before it may stop.
const BLOCK: usize = 64;

#[tactic(auto, using(tables::specs::Store::put_store))]
pub fn zero_bytes(room: &mut [u8], from: usize, to: usize)
    requires { (from ≤ to) × (to ≤ length room.old) }
    ensures { room.new ≡ store room.old from (replicate (to - from) 0) }
{
    room[from..to].fill(0);
}

pub fn clear_bytes(room: &mut [u8])
    ensures { room.new ≡ replicate (length room.old) 0 }
{
    room.fill(0);
}

pub fn clear_words(table: &mut [u32])
    ensures { table.new ≡ replicate (length table.old) 0 }
{
    table.fill(0);
}

// Each is looked at, also behind one that differs: so the compiler tests many in one step.
fn all_same<T: Copy + PartialEq>(part: &[T], wanted: T) -> bool
    ensures { result ≡ all (T.eq wanted) part.now }
{
    let mut same = true;
    for value in part {
        same = same & (wanted == *value);
    }
    same
}

// 64 at a time, so that one block that differs ends the search, then those that are left. In place of this loop
// chunks(64) took 1.6 times as many instructions: the compiler does not see that each chunk has 64.
fn all_from<T: Copy + PartialEq>(table: &[T], at: usize, wanted: T) -> bool
    ensures { result ≡ all (T.eq wanted) (drop at table.now) }
{
    let n = table.len();
    if n < at {
        return true;
    }
    let mut i = at;
    while BLOCK <= n - i {
        if !all_same(&table[i..i + BLOCK], wanted) {
            return false;
        }
        i += BLOCK;
    }
    all_same(&table[i..], wanted)
}

pub fn zero_bytes_from(room: &[u8], at: usize) -> bool
    ensures { result ≡ all (eqb 0) (drop at room.now) }
{
    all_from(room, at, 0)
}

pub fn zero_from(table: &[u32], at: usize) -> bool
    ensures { result ≡ all (eqb 0) (drop at table.now) }
{
    all_from(table, at, 0)
}
