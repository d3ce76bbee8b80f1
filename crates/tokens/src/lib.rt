// The tokens of a line, in a table of words that the caller lends: a row of four words for each, with its places in the file.
#![tactic(auto)]

ghost use Rattle.std.specs.Prelude.{◌≡◌, [], ◌∷◌, ◌+◌, ◌*◌, ◌≤◌, ◌<◌, length};
ghost use Rattle.tables.specs.Store.{store};
ghost use Rattle.tokens.specs.Rows.{token_at, row_words, constant_words, Small, SmallConstant};
ghost use Rattle.tokens.specs.Parts.{IdIs, IntegerIs, LiteralIs};

use scanner::parts::Span;
use tables::store;

// The words of a row.
pub const ROW_WORDS: usize = 4;

// The kind of a row's token, its first word, as it is put.
const NAME_KIND: u32 = 0;

const WORD_KIND: u32 = 1;

const INTEGER_KIND: u32 = 2;

const VALUE_KIND: u32 = 3;

const TEXT_KIND: u32 = 4;

const MARK_KIND: u32 = 5;

// The kinds as they are read; any other is a mark's.
const NAME_READ: usize = 0;

const WORD_READ: usize = 1;

const INTEGER_READ: usize = 2;

const VALUE_READ: usize = 3;

const TEXT_READ: usize = 4;

// The sign word of an integer below zero.
const NEGATIVE: usize = 1;

// An integer's sign and the span of its digits.
#[derive(Clone, Copy)]
pub struct Integer {
    pub negative: bool,
    pub start: usize,
    pub end: usize,
}

// A constant: an integer; a value, by the span of its width, its quote mark and the end of its digits; a string, by the place behind its
// opening quote.
#[derive(Clone, Copy)]
pub enum ConstantSpan {
    Integer(Integer),
    Value {
        start: usize,
        quote: usize,
        end: usize,
    },
    Text(usize),
}

// The token of a row: a name by its span, a word by its keyword's number, a constant, a mark by its byte; or no row is left.
#[derive(Clone, Copy)]
pub enum Token {
    Name { start: usize, end: usize },
    Word(usize),
    Constant(ConstantSpan),
    Mark(usize),
    End,
}

// The token of row i.
pub fn token_at(tokens: &[u32], i: usize) -> Token
    ensures { result ≡ token_at tokens.now i }
{
    if tokens.len() / ROW_WORDS <= i {
        return Token::End;
    }
    let k = tokens[ROW_WORDS * i] as usize;
    let a = tokens[ROW_WORDS * i + 1] as usize;
    let b = tokens[ROW_WORDS * i + 2] as usize;
    let c = tokens[ROW_WORDS * i + 3] as usize;
    if k == NAME_READ {
        return Token::Name { start: a, end: b };
    }
    if k == WORD_READ {
        return Token::Word(a);
    }
    if k == INTEGER_READ {
        let z = Integer {
            negative: c == NEGATIVE,
            start: a,
            end: b,
        };
        return Token::Constant(ConstantSpan::Integer(z));
    }
    if k == VALUE_READ {
        return Token::Constant(ConstantSpan::Value {
            start: a,
            quote: b,
            end: c,
        });
    }
    if k == TEXT_READ {
        return Token::Constant(ConstantSpan::Text(a));
    }
    Token::Mark(a)
}

// One row's words.
fn put_row(table: &mut [u32], at: usize, kind: u32, a: usize, b: usize, c: usize)
    requires { (at + 4 ≤ length table.old) × (a < 4294967296) × (b < 4294967296) × (c < 4294967296) }
    ensures { table.new ≡ store table.old at (kind ∷ a ∷ b ∷ c ∷ []) }
{
    let columns = [kind, a as u32, b as u32, c as u32];
    store(table, at, &columns);
}

fn put_constant(table: &mut [u32], at: usize, c: ConstantSpan)
    requires { (at + 4 ≤ length table.old) × SmallConstant c }
    ensures { table.new ≡ store table.old at (constant_words c) }
{
    match c {
        ConstantSpan::Integer(z) => {
            let sign: usize = if z.negative { NEGATIVE } else { 0 };
            put_row(table, at, INTEGER_KIND, z.start, z.end, sign);
        }
        ConstantSpan::Value { start, quote, end } => {
            put_row(table, at, VALUE_KIND, start, quote, end);
        }
        ConstantSpan::Text(start) => {
            put_row(table, at, TEXT_KIND, start, 0, 0);
        }
    }
}

// Token t into row i.
pub fn put_token(table: &mut [u32], i: usize, t: Token)
    requires { (4 * i + 4 ≤ length table.old) × Small t }
    ensures { table.new ≡ store table.old (4 * i) (row_words t) }
{
    match t {
        Token::Name { start, end } => {
            put_row(table, ROW_WORDS * i, NAME_KIND, start, end, 0);
        }
        Token::Word(c) => {
            put_row(table, ROW_WORDS * i, WORD_KIND, c, 0, 0);
        }
        Token::Constant(c) => {
            put_constant(table, ROW_WORDS * i, c);
        }
        Token::Mark(b) => {
            put_row(table, ROW_WORDS * i, MARK_KIND, b, 0, 0);
        }
        Token::End => {
            put_row(table, ROW_WORDS * i, MARK_KIND, 0, 0, 0);
        }
    }
}

// The span of the name in row i.
pub fn id_at(tokens: &[u32], i: usize) -> Option<Span>
    ensures { IdIs tokens.now i result }
{
    match token_at(tokens, i) {
        Token::Name { start, end } => Some(Span { start, end }),
        _ => None,
    }
}

// The constant in row i.
pub fn literal_at(tokens: &[u32], i: usize) -> Option<ConstantSpan>
    ensures { LiteralIs tokens.now i result }
{
    match token_at(tokens, i) {
        Token::Constant(c) => Some(c),
        _ => None,
    }
}

// The integer in row i.
pub fn integer_at(tokens: &[u32], i: usize) -> Option<Integer>
    ensures { IntegerIs tokens.now i result }
{
    match literal_at(tokens, i)? {
        ConstantSpan::Integer(z) => Some(z),
        _ => None,
    }
}
