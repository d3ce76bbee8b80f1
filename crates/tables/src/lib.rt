// The leaves over one lent table of design memory: values stored from a place on, a row put or got.
#![tactic(auto)]

ghost use Rattle.std.specs.Prelude.{◌≡◌, reverse, ◌+◌, ◌-◌, ◌≤◌, length, get_or};
ghost use Rattle.std.proofs.Math.Seq.{slice};
ghost use Rattle.tables.specs.Store.{store};
ghost use Rattle.tables.specs.Row.{words, row_at};

// The words of a row.
pub const ROW_WORDS: usize = 8;

// A row of eight columns; what the seven behind the kind hold depends on it.
#[derive(Clone, Copy)]
pub struct Row {
    pub kind: u32,
    pub a: u32,
    pub b: u32,
    pub c: u32,
    pub d: u32,
    pub e: u32,
    pub f: u32,
    pub g: u32,
}

// Values one behind another, from a place on. By a loop: copy_from_slice needs `memmove` from outside the library.
pub fn store<T: Copy>(table: &mut [T], at: usize, values: &[T])
    requires { at + length values.now ≤ length table.old }
    ensures { table.new ≡ store table.old at values.now }
{
    for j in 0..values.len() {
        table[at + j] = values[j];
    }
}

// The words of src from `from` to `to`, last first.
pub fn reverse_words(src: &[u32], from: usize, to: usize, out: &mut [u32], at: usize)
    requires { (from ≤ to) × (to ≤ length src.now) × (at + (to - from) ≤ length out.old) }
    ensures { out.new ≡ store out.old at (reverse (slice from to src.now)) }
{
    for j in (from..to).rev() {
        out[at + (to - 1 - j)] = src[j];
    }
}

pub fn put_row(rows: &mut [u32], at: usize, r: Row)
    requires { at + 8 ≤ length rows.old }
    ensures { rows.new ≡ store rows.old at (words r) }
{
    let columns = [r.kind, r.a, r.b, r.c, r.d, r.e, r.f, r.g];
    store(rows, at, &columns);
}

pub fn get_row(rows: &[u32], at: usize) -> Row
    requires { at + 8 ≤ length rows.now }
    ensures { result ≡ row_at rows.now at }
{
    Row {
        kind: rows[at],
        a: rows[at + 1],
        b: rows[at + 2],
        c: rows[at + 3],
        d: rows[at + 4],
        e: rows[at + 5],
        f: rows[at + 6],
        g: rows[at + 7],
    }
}

// The word at a place, 0 past the end.
pub fn word(t: &[u32], i: usize) -> u32
    ensures { result ≡ get_or t.now i 0 }
{
    t.get(i).copied().unwrap_or(0)
}
