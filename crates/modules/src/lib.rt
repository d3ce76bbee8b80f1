// A module of the design by its number: its wires in the table of wires, and its statements in the table of rows.
// All of it is total: a word past a table's end counts as 0.
#![tactic(auto)]

ghost use Rattle.std.specs.Prelude.{◌≡◌};
ghost use Rattle.wires.specs.Rows.{column};
ghost use Rattle.modules.specs.Ranges.{wire_range, line_of, row_range};

use context::kinds::MODULE_KIND;
use numbers::kinds::ModuleNumber;
use wires::column;

// Consecutive rows of a table.
#[derive(Clone, Copy)]
pub struct Range {
    pub first: u32,
    pub count: u32,
}

// A row's first column: a wire's module, or a statement's kind.
fn first_column(table: &[u32], k: u32) -> u32
    ensures { result ≡ column table.now k 0 }
{
    column(table, k as usize, 0)
}

// The rows of a module's wires, of `total` in all.
pub fn module_wires(wires: &[u32], total: u32, m: ModuleNumber) -> Range
    ensures { result ≡ wire_range wires.now total m.0 }
{
    let number = m.0;
    let mut first = 0;
    let mut count = 0;
    for k in 0..total {
        let module = first_column(wires, k);
        first += u32::from(module < number);
        count += u32::from(module == number);
    }
    Range { first, count }
}

// How many rows stand before the module line of this number.
fn module_line(rows: &[u32], total: u32, number: usize) -> u32
    ensures { result ≡ line_of rows.now total number }
{
    let mut lines = 0;
    for k in 0..total {
        lines += u32::from(first_column(rows, k) == MODULE_KIND);
        if number < lines as usize {
            return k;
        }
    }
    total
}

// The rows behind a module's line up to the next one, of `total` in all.
pub fn module_rows(rows: &[u32], total: u32, m: ModuleNumber) -> Range
    ensures { result ≡ row_range rows.now total m.0 }
{
    let number = m.0 as usize;
    let line = module_line(rows, total, number);
    if line == total {
        return Range {
            first: total,
            count: 0,
        };
    }
    let end = module_line(rows, total, number + 1);
    let first = line + 1;
    Range {
        first,
        count: end - first,
    }
}
