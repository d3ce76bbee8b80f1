// Runs of bytes of one range of classes.
ghost use Rattle.std.specs.Prelude.{◌≡◌};
ghost use Rattle.scanner.specs.Class.{in_class, class_table, blank_byte};
ghost use Rattle.scanner.specs.Runs.{end_of};

use crate::class::{BLANK, class_in, classes};

// The first position at or after `at` whose byte's class is not lo to hi, or the end.
pub fn run_end(table: &[u8; 256], s: &[u8], at: usize, lo: u8, hi: u8) -> usize
    requires { table.now ≡ class_table }
    ensures { result ≡ end_of (in_class lo hi) s.now at }
{
    for i in at..s.len() {
        let c = class_in(table, s[i]);
        if c < lo || hi < c {
            return i;
        }
    }
    at.max(s.len())
}

// The first position at or after `at` with neither space nor tab, or the end: for a caller that asks but once.
pub fn blanks_end(s: &[u8], at: usize) -> usize
    ensures { result ≡ end_of (in_class blank_byte blank_byte) s.now at }
{
    let table = classes();
    run_end(&table, s, at, BLANK, BLANK)
}
