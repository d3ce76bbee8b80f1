// Whether tables hold statements that may stand one after another. The statements are replayed from the first row on, whatever the tables hold:
// each row says where its parts are, and has to be the row of the statement that they make.
#![tactic(auto)]

use context::kinds::STEP_KIND;
use context::place::{is_closed, start};
use context::sizes::{Standing, none};
use name_index::index_row;
use netlist::design::Design;
use tables::{ROW_WORDS, word};

mod turns;

ghost use Rattle.std.specs.Prelude.{◌≡◌, ◌≤◌, length};
ghost use Rattle.name_index.specs.Index.{key_at, row_room, Indexed};
ghost use Rattle.row_statements.specs.Reads.{part_tables};
ghost use Rattle.replay.specs.Begins.{is_statement, Replays, IndexLeft};

use turns::one_more;

fn is_statement(kind: u32) -> bool
    ensures { result ≡ is_statement kind }
{
    kind != 0 && kind <= STEP_KIND
}

// The place and the sums behind the statements that the tables hold. It fills an index of their rows by their names, which stays with the caller.
pub fn replay(design: &Design, heads: &mut [u32], chain: &mut [u32]) -> Option<Standing>
    requires indexed { Indexed heads.old chain.old (key_at design.now.names.now design.now.rows.now) 0 }
    requires row_room_in_bounds { row_room ≤ length chain.old }
    ensures replays { Replays (part_tables design.now.names.now design.now.strings.now design.now.bits.now design.now.wires.now) design.now.rows.now result }
    ensures index_left { IndexLeft heads.new chain.new design.now.names.now design.now.rows.now result }
{
    let mut behind = Standing {
        place: start(),
        sums: none(),
    };
    // The rows tell how many of them are statements.
    while is_statement(word(design.rows, ROW_WORDS * behind.place.rows as usize)) {
        let row = behind.place.rows;
        behind = one_more(design, heads, chain, behind)?;
        index_row(design.names, design.rows, heads, chain, row);
    }
    is_closed(behind.place).then_some(behind)
}
