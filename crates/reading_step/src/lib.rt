// One step of reading: a line's tokens, its verdict after the statements so far, and its statement stored behind them.
#![tactic(auto)]

ghost use Rattle.std.specs.Prelude.{◌≡◌, ◌-◌, ◌*◌, ◌≤◌, length};
ghost use Rattle.rules.specs.Limits.{longest_file};
ghost use Rattle.rules.specs.Statements.{code};
ghost use Rattle.syntax.specs.Statements.{kind_in};
ghost use Rattle.name_index.specs.Index.{LinesIndexed};
ghost use Rattle.netlist.specs.Tables.{tabled};
ghost use Rattle.reading_step.specs.Steps.{LineFits, PlaceFits, step_in, refused_as, AnswerAs, Storable, SomeDone, StepAs, StepIndexed};

use context::kinds::{
    ATTRIBUTE_KIND, AUTOIDX_KIND, CELL_CONNECTION_KIND, CELL_KIND, CELL_PARAMETER_KIND,
    CONNECTION_KIND, END_KIND, MEMORY_KIND, MODULE_KIND, PARAMETER_KIND, PROCESS_KIND, STEP_KIND,
    WIRE_KIND,
};
use context::place::after;
use context::sizes::Standing;
use context::steps::NO_STEP;
use judgement::{Stated, judge_line};
use layout::put_statement;
use lexer::lex_line;
use name_index::index_line;
use netlist::results::{BAD_TOKEN, NO_SHAPE, Refused};
use netlist::used::used_from;
use scanner::lines::Line;
use scanner::runs::blanks_end;
use syntax::Statement;

// The words of a token's row.
const TOKEN_SIZE: usize = 4;

// A refused verdict's place is the line's first byte that is neither space nor tab.
fn refused_at(f: &[u8], line: Line, number: u32) -> Refused
    requires { (line.start ≤ line.end) × (line.end ≤ length f.now) × (length f.now ≤ longest_file) }
    ensures { result ≡ refused_as f.now line number }
{
    let end = line.end;
    Refused {
        number,
        place: blanks_end(&f[0..end], line.start) as u32,
    }
}

// What a line gives: its statement, or none where it has no token; or a refusal. A bad token is 4 on any line, at the token; a line without its line
// end is 5.
fn line_answer(
    f: &[u8],
    line: Line,
    standing: Standing,
    names: &[u8],
    wires: &[u32],
    rows: &[u32],
    tokens: &mut [u32],
    scratch: &mut [u32],
    heads: &[u32],
    chain: &[u32],
) -> Result<Option<Stated>, Refused>
    requires line_fits { LineFits f.now line scratch.old × (4 * (line.end - line.start) ≤ length tokens.old) }
    requires place_fits { PlaceFits standing.place standing.sums }
    requires lines_indexed { LinesIndexed heads.now chain.now names.now wires.now rows.now standing.place.rows standing.place.wires }
    ensures storable { Storable f.now result }
    ensures answer_as { AnswerAs f.now scratch.new line standing.place standing.sums names.now wires.now rows.now result }
{
    let n = lex_line(f, line.start, line.end, tokens).map_err(|bad| Refused {
        number: BAD_TOKEN,
        place: bad.at as u32,
    })?;
    if n == 0 {
        return Ok(None);
    }
    if !line.ended {
        return Err(refused_at(f, line, NO_SHAPE));
    }
    let stop = TOKEN_SIZE * n;
    judge_line(
        f,
        &tokens[0..stop],
        standing.place,
        standing.sums,
        names,
        wires,
        rows,
        scratch,
        heads,
        chain,
    )
    .map(Some)
    .map_err(|number| refused_at(f, line, number))
}

// Where the next line stands; or a refusal.
pub fn take_line(
    f: &[u8],
    line: Line,
    standing: Standing,
    tokens: &mut [u32],
    scratch: &mut [u32],
    names: &mut [u8],
    strings: &mut [u8],
    bits: &mut [u32],
    wires: &mut [u32],
    rows: &mut [u32],
    heads: &mut [u32],
    chain: &mut [u32],
) -> Result<Standing, Refused>
    requires line_fits { LineFits f.now line scratch.old × (4 * (line.end - line.start) ≤ length tokens.old) }
    requires some_done { SomeDone standing.place standing.sums (tabled names.old strings.old bits.old wires.old rows.old) }
    requires lines_indexed { LinesIndexed heads.old chain.old names.old wires.old rows.old standing.place.rows standing.place.wires }
    ensures step_as { StepAs f.now line standing.place standing.sums (tabled names.old strings.old bits.old wires.old rows.old) (tabled names.new strings.new bits.new wires.new rows.new) result }
    ensures step_indexed { StepIndexed heads.new chain.new names.new wires.new rows.new result }
{
    let answer = line_answer(
        f, line, standing, names, wires, rows, tokens, scratch, heads, chain,
    );
    // A refused line's answer has number and place; a line without tokens is skipped.
    let Ok(found) = answer else {
        return answer.map(|_| standing);
    };
    let Some(stated) = found else {
        return Ok(standing);
    };
    let statement = stated.statement;
    let place = standing.place;
    let u = used_from(place, standing.sums);
    put_statement(f, statement, u, scratch, names, strings, bits, wires, rows);
    let kind = kind_code(statement);
    index_line(
        names,
        wires,
        rows,
        heads,
        chain,
        place.rows,
        place.wires,
        kind,
    );
    Ok(Standing {
        place: after(place, kind, step_code(statement)),
        sums: stated.sums,
    })
}

// The code of a statement's kind.
#[tactic(auto, unfolding(rules::specs::Statements::code, syntax::specs::Statements::kind_in))]
fn kind_code(statement: Statement) -> u32
    ensures { result ≡ code (kind_in statement) }
{
    match statement {
        Statement::Autoidx(_) => AUTOIDX_KIND,
        Statement::Attribute { .. } => ATTRIBUTE_KIND,
        Statement::Module(_) => MODULE_KIND,
        Statement::Parameter { .. } => PARAMETER_KIND,
        Statement::Wire { .. } => WIRE_KIND,
        Statement::Memory { .. } => MEMORY_KIND,
        Statement::Cell { .. } => CELL_KIND,
        Statement::CellParameter { .. } => CELL_PARAMETER_KIND,
        Statement::CellConnection { .. } => CELL_CONNECTION_KIND,
        Statement::Connection { .. } => CONNECTION_KIND,
        Statement::Step { .. } => STEP_KIND,
        Statement::End => END_KIND,
        Statement::Process(_) => PROCESS_KIND,
    }
}

// The code of a line's step, if it is one.
#[tactic(auto, unfolding(crate::specs::Steps::step_in))]
fn step_code(statement: Statement) -> u32
    ensures { result ≡ step_in statement }
{
    let Statement::Step { step, .. } = statement else {
        return NO_STEP;
    };
    step
}
