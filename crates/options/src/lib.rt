// The options of a `wire` line and of a `memory` line, as they were written.
#![tactic(auto)]

ghost use Rattle.std.specs.Prelude.{◌≡◌, true, false, ◌||◌};
ghost use Rattle.rules.specs.Statements.{wire-stmt, memory-stmt};
ghost use Rattle.rules.specs.Shapes.{wire_option_forms, memory_option_forms};
ghost use Rattle.options.specs.Forms.{forms, statement, accepted, is_flag};
ghost use Rattle.options.specs.Holds.{slot_at, given, no_options, TookNumber, TookFlag};
ghost use Rattle.options.specs.Lines.{TurnIs, LineIs};

use scanner::parts::Span;
use scanner::words::{INOUT, INPUT, MEMORY, OFFSET, OUTPUT, SIGNED, SIZE, UPTO, WIDTH};
use tokens::{Integer, ROW_WORDS, Token, integer_at, token_at};

// The last number given of each option that takes one, the flags, and whether an option stands twice.
#[derive(Clone, Copy)]
pub struct Options {
    pub width: Option<Integer>,
    pub offset: Option<Integer>,
    pub size: Option<Integer>,
    pub input: Option<Integer>,
    pub output: Option<Integer>,
    pub inout: Option<Integer>,
    pub upto: bool,
    pub signed: bool,
    pub twice: bool,
}

// The options of a line and the place of its name.
#[derive(Clone, Copy)]
pub struct Line {
    pub options: Options,
    pub name: Span,
}

// An option by its keyword's number, with its integer if it takes one; or the place of the name, which ends the line.
#[derive(Clone, Copy)]
enum Turn {
    Flag(usize),
    Number(usize, Integer),
    Done(Span),
}

fn no_options() -> Options
    ensures { result ≡ no_options }
{
    Options {
        width: None,
        offset: None,
        size: None,
        input: None,
        output: None,
        inout: None,
        upto: false,
        signed: false,
        twice: false,
    }
}

// The number of the option with keyword number c.
#[tactic(auto, unfolding(crate::specs::Holds::slot_at))]
fn slot_at(o: Options, c: usize) -> Option<Integer>
    ensures { result ≡ slot_at o c }
{
    match c {
        WIDTH => o.width,
        OFFSET => o.offset,
        INPUT => o.input,
        OUTPUT => o.output,
        INOUT => o.inout,
        SIZE => o.size,
        _ => None,
    }
}

// Whether the option with keyword number c is given.
#[tactic(auto, unfolding(crate::specs::Holds::given))]
fn given(o: Options, c: usize) -> bool
    ensures { result ≡ given o c }
{
    match c {
        UPTO => o.upto,
        SIGNED => o.signed,
        _ => slot_at(o, c).is_some(),
    }
}

// Whether an option stands twice where option c stands behind o.
fn twice(o: Options, c: usize) -> bool
    ensures { result ≡ (o.twice || given o c) }
{
    o.twice || given(o, c)
}

// With the number z for option c.
fn with_number(o: Options, c: usize, z: Integer) -> Options
    requires { is_flag c ≡ false }
    ensures { TookNumber o c z result }
{
    let mut r = o;
    r.twice = twice(o, c);
    match c {
        WIDTH => r.width = Some(z),
        OFFSET => r.offset = Some(z),
        SIZE => r.size = Some(z),
        INPUT => r.input = Some(z),
        OUTPUT => r.output = Some(z),
        INOUT => r.inout = Some(z),
        _ => {}
    }
    r
}

// With the flag c.
fn with_flag(o: Options, c: usize) -> Options
    requires { is_flag c ≡ true }
    ensures { TookFlag o c result }
{
    let mut r = o;
    r.twice = twice(o, c);
    if c == UPTO {
        r.upto = true;
    } else {
        r.signed = true;
    }
    r
}

// Whether the keyword c is an option of a memory, or of a wire.
#[tactic(auto, unfolding(crate::specs::Forms::accepted, crate::specs::Forms::codes, rules::specs::Bytes::any))]
fn offered(memory: bool, c: usize) -> bool
    ensures { result ≡ accepted memory c }
{
    if memory {
        return c == WIDTH || c == SIZE || c == OFFSET;
    }
    WIDTH <= c && c < MEMORY
}

#[tactic(auto, unfolding(crate::specs::Forms::is_flag))]
fn flag(c: usize) -> bool
    ensures { result ≡ is_flag c }
{
    c == UPTO || c == SIGNED
}

// The option that starts at row i, or the name at the end.
fn option(tokens: &[u32], memory: bool, i: usize) -> Option<Turn>
    ensures { TurnIs memory tokens.now i result }
{
    match token_at(tokens, i) {
        Token::Name { start, end } => {
            if i + 1 < tokens.len() / ROW_WORDS {
                return None;
            }
            Some(Turn::Done(Span { start, end }))
        }
        Token::Word(c) => {
            if !offered(memory, c) {
                return None;
            }
            if flag(c) {
                return Some(Turn::Flag(c));
            }
            Some(Turn::Number(c, integer_at(tokens, i + 1)?))
        }
        _ => None,
    }
}

// The options and the name from row at on.
fn line_of(tokens: &[u32], memory: bool, at: usize) -> Option<Line>
    ensures { LineIs (forms memory) (statement memory) tokens.now at result }
{
    let mut i = at;
    let mut options = no_options();
    // What is read tells where the next option stands: one takes a token or two.
    loop {
        match option(tokens, memory, i)? {
            Turn::Flag(c) => {
                options = with_flag(options, c);
                i += 1;
            }
            Turn::Number(c, z) => {
                options = with_number(options, c, z);
                i += 2;
            }
            Turn::Done(name) => return Some(Line { options, name }),
        }
    }
}

// A line behind its word `wire`, which stands before row i.
#[tactic(auto, unfolding(crate::specs::Forms::forms, crate::specs::Forms::statement))]
pub fn wire_line(tokens: &[u32], i: usize) -> Option<Line>
    ensures { LineIs wire_option_forms wire-stmt tokens.now i result }
{
    line_of(tokens, false, i)
}

// A line behind its word `memory`, which stands before row i.
#[tactic(auto, unfolding(crate::specs::Forms::forms, crate::specs::Forms::statement))]
pub fn memory_line(tokens: &[u32], i: usize) -> Option<Line>
    ensures { LineIs memory_option_forms memory-stmt tokens.now i result }
{
    line_of(tokens, true, i)
}
