// The loop over a file's lines: each is judged after the statements so far and stored behind them.
#![tactic(auto)]

ghost use Rattle.std.specs.Prelude.{◌≡◌, ◌-◌, ◌*◌, ◌≤◌, length};
ghost use Rattle.rules.specs.Limits.{longest_file};
ghost use Rattle.name_index.specs.Index.{LinesIndexed};
ghost use Rattle.netlist.specs.Tables.{tabled};
ghost use Rattle.goal.specs.Settled.{stop_of};
ghost use Rattle.file_lines.specs.Lines.{finish_of, Before, ReachAs};

use context::place::is_closed;
use context::sizes::Standing;
use goal::is_settled;
use line_reader::line_at;
use netlist::results::{NO_SHAPE, Refused};
use numbers::kinds::ModuleNumber;
use reading_step::take_line;
use scanner::lines::Line;

// The words of a token's row.
const TOKEN_SIZE: usize = 4;

// How far a table of tokens reaches: to the file's end or a refusal; or to a line that is too long for it.
#[derive(Clone, Copy)]
pub enum Reach {
    Ended(Result<Standing, Refused>),
    Longer { line: Line, standing: Standing },
}

// The file ends inside a module or after attributes: its length is the place.
#[tactic(auto, unfolding(crate::specs::Lines::finish_of))]
fn finish(size: usize, standing: Standing) -> Result<Standing, Refused>
    requires { size ≤ longest_file }
    ensures { result ≡ finish_of size standing }
{
    if is_closed(standing.place) {
        return Ok(standing);
    }
    Err(Refused {
        number: NO_SHAPE,
        place: size as u32,
    })
}

// The lines from this one on, up to the one that settles the goal or to one whose bytes are more than a quarter of the tokens' words.
pub fn read_lines(
    f: &[u8],
    first: Line,
    before: Standing,
    tokens: &mut [u32],
    scratch: &mut [u32],
    names: &mut [u8],
    strings: &mut [u8],
    bits: &mut [u32],
    wires: &mut [u32],
    rows: &mut [u32],
    heads: &mut [u32],
    chain: &mut [u32],
    goal: Option<ModuleNumber>,
    name: &[u8],
) -> Reach
    requires before { Before (stop_of goal name.now) f.now scratch.old before.place before.sums (tabled names.old strings.old bits.old wires.old rows.old) first }
    requires lines_indexed { LinesIndexed heads.old chain.old names.old wires.old rows.old before.place.rows before.place.wires }
    ensures { ReachAs (stop_of goal name.now) f.now tokens.old scratch.new heads.new chain.new (tabled names.new strings.new bits.new wires.new rows.new) result }
{
    let mut line = first;
    let mut standing = before;
    // The next line starts where this one is found to end, so that no count goes over them.
    while line.start < f.len() {
        if tokens.len() / TOKEN_SIZE < line.end - line.start {
            return Reach::Longer { line, standing };
        }
        let next = match take_line(
            f, line, standing, tokens, scratch, names, strings, bits, wires, rows, heads, chain,
        ) {
            Ok(next) => next,
            Err(refused) => return Reach::Ended(Err(refused)),
        };
        if is_settled(names, rows, next.place, goal, name) {
            return Reach::Ended(Ok(next));
        }
        standing = next;
        line = line_at(f, line.next);
    }
    Reach::Ended(finish(f.len(), standing))
}
