// Reading a file into zero tables, with tables of tokens that its lines ask for: all of it, or up to the line that settles a goal.
#![tactic(auto)]

ghost use Rattle.std.specs.Prelude.{◌≡◌, ◌≤◌, length};
ghost use Rattle.rules.specs.Limits.{longest_file};
ghost use Rattle.rules.specs.Reading.{read_any};
ghost use Rattle.rules.specs.Layout.{empty, memory};
ghost use Rattle.name_index.specs.Index.{LinesIndexed};
ghost use Rattle.layout.specs.Put.{tables_of};
ghost use Rattle.netlist.specs.Tables.{tabled};
ghost use Rattle.goal.specs.Settled.{stop_of};
ghost use Rattle.file_lines.specs.Lines.{read_to, Landed, Before};

use context::place::start;
use context::sizes::{Standing, none};
use file_lines::{Reach, read_lines};
use line_reader::line_at;
use name_index::{ALL_CHAIN, ALL_HEADS};
use netlist::results::Refused;
use numbers::kinds::ModuleNumber;
use scanner::lines::Line;

// The most bytes of a file that is read.
pub const MOST_FILE_BYTES: usize = 32768;

// The words of a table of tokens, four for each byte of a line: of lines up to 2,048 bytes, up to 6,144, and of any line.
const SHORT_TOKENS: usize = 8192;

const LONGER_LINE: usize = 6144;

const LONGER_TOKENS: usize = 24576;

const ALL_TOKENS: usize = 131072;

// The words of the table in which a line's signals are read.
const SCRATCH: usize = 43008;

// With a table for any line.
fn read_longest(
    f: &[u8],
    line: Line,
    standing: Standing,
    scratch: &mut [u32],
    names: &mut [u8],
    strings: &mut [u8],
    bits: &mut [u32],
    wires: &mut [u32],
    rows: &mut [u32],
    heads: &mut [u32],
    chain: &mut [u32],
    goal: Option<ModuleNumber>,
    name: &[u8],
) -> Result<Standing, Refused>
    requires before { Before (stop_of goal name.now) f.now scratch.old standing.place standing.sums (tabled names.old strings.old bits.old wires.old rows.old) line }
    requires lines_indexed { LinesIndexed heads.old chain.old names.old wires.old rows.old standing.place.rows standing.place.wires }
    ensures { Landed (read_to (stop_of goal name.now) f.now) (tabled names.new strings.new bits.new wires.new rows.new) result }
{
    let mut tokens = [0u32; ALL_TOKENS];
    match read_lines(
        f,
        line,
        standing,
        &mut tokens,
        scratch,
        names,
        strings,
        bits,
        wires,
        rows,
        heads,
        chain,
        goal,
        name,
    ) {
        Reach::Ended(answer) => answer,
        Reach::Longer { line: _, standing } => Ok(standing),
    }
}

// With a table for lines up to 6,144 bytes.
fn read_longer(
    f: &[u8],
    line: Line,
    standing: Standing,
    scratch: &mut [u32],
    names: &mut [u8],
    strings: &mut [u8],
    bits: &mut [u32],
    wires: &mut [u32],
    rows: &mut [u32],
    heads: &mut [u32],
    chain: &mut [u32],
    goal: Option<ModuleNumber>,
    name: &[u8],
) -> Result<Standing, Refused>
    requires before { Before (stop_of goal name.now) f.now scratch.old standing.place standing.sums (tabled names.old strings.old bits.old wires.old rows.old) line }
    requires lines_indexed { LinesIndexed heads.old chain.old names.old wires.old rows.old standing.place.rows standing.place.wires }
    ensures { Landed (read_to (stop_of goal name.now) f.now) (tabled names.new strings.new bits.new wires.new rows.new) result }
{
    let mut tokens = [0u32; LONGER_TOKENS];
    match read_lines(
        f,
        line,
        standing,
        &mut tokens,
        scratch,
        names,
        strings,
        bits,
        wires,
        rows,
        heads,
        chain,
        goal,
        name,
    ) {
        Reach::Ended(answer) => answer,
        Reach::Longer {
            line: l,
            standing: behind,
        } => read_longest(
            f, l, behind, scratch, names, strings, bits, wires, rows, heads, chain, goal, name,
        ),
    }
}

// A file of at most 32,768 bytes into zero tables, up to the line that settles the goal. A table is cleared whole, so a larger one is made only
// where a line asks for it.
pub fn read_until(
    f: &[u8],
    names: &mut [u8],
    strings: &mut [u8],
    bits: &mut [u32],
    wires: &mut [u32],
    rows: &mut [u32],
    goal: Option<ModuleNumber>,
    name: &[u8],
) -> Result<Standing, Refused>
    requires f_len_bound { length f.now ≤ longest_file }
    requires rows_value { tabled names.old strings.old bits.old wires.old rows.old ≡ tables_of (memory empty 0) }
    ensures { Landed (read_to (stop_of goal name.now) f.now) (tabled names.new strings.new bits.new wires.new rows.new) result }
{
    let mut tokens = [0u32; SHORT_TOKENS];
    let mut scratch = [0u32; SCRATCH];
    let mut heads = [0u32; ALL_HEADS];
    let mut chain = [0u32; ALL_CHAIN];
    match read_lines(
        f,
        line_at(f, 0),
        Standing {
            place: start(),
            sums: none(),
        },
        &mut tokens,
        &mut scratch,
        names,
        strings,
        bits,
        wires,
        rows,
        &mut heads,
        &mut chain,
        goal,
        name,
    ) {
        Reach::Ended(answer) => answer,
        Reach::Longer { line, standing } => {
            if LONGER_LINE < line.end - line.start {
                return read_longest(
                    f,
                    line,
                    standing,
                    &mut scratch,
                    names,
                    strings,
                    bits,
                    wires,
                    rows,
                    &mut heads,
                    &mut chain,
                    goal,
                    name,
                );
            }
            read_longer(
                f,
                line,
                standing,
                &mut scratch,
                names,
                strings,
                bits,
                wires,
                rows,
                &mut heads,
                &mut chain,
                goal,
                name,
            )
        }
    }
}

// All of a file of at most 32,768 bytes.
pub fn read_file(
    f: &[u8],
    names: &mut [u8],
    strings: &mut [u8],
    bits: &mut [u32],
    wires: &mut [u32],
    rows: &mut [u32],
) -> Result<Standing, Refused>
    requires f_len_bound { length f.now ≤ longest_file }
    requires rows_value { tabled names.old strings.old bits.old wires.old rows.old ≡ tables_of (memory empty 0) }
    ensures { Landed (read_any f.now) (tabled names.new strings.new bits.new wires.new rows.new) result }
{
    read_until(f, names, strings, bits, wires, rows, None, f)
}
