// The lexer: what stands where a token could start, and the tokens of a line, put into a table. Positions are the file's.
#![tactic(auto)]

ghost use Rattle.std.specs.Prelude.{◌≡◌, ◌+◌, ◌-◌, ◌*◌, ◌≤◌, ◌<◌, length, drop};
ghost use Rattle.std.proofs.Math.Seq.{slice};
ghost use Rattle.rules.specs.Limits.{longest_file};
ghost use Rattle.rules.specs.Tokens.{parted, separate, decimal, value_step};
ghost use Rattle.scanner.specs.Class.{in_class, class_table, mark_byte, letter};
ghost use Rattle.scanner.specs.Runs.{end_of};
ghost use Rattle.tokens.specs.Rows.{token_in};
ghost use Rattle.lexer.specs.Lexemes.{Held, Starts, found, Steps, StepIs};
ghost use Rattle.lexer.specs.Lines.{LexedIs};

use names::{LONGEST_NAME, SHORTEST_NAME};
use scanner::class::{
    BLANK, COMMENT, HIGH_DIGIT, LETTER, MARK, MINUS, NAME_START, QUOTE, VALUE_DIGIT, VALUE_LETTER,
    class_in, classes,
};
use scanner::runs::run_end;
use scanner::words::{NO_KEYWORD, keyword};
use strings::string_end;
use tokens::{ConstantSpan, Integer, Token, put_token};

// A token and the place behind it.
#[derive(Clone, Copy)]
pub struct Lexeme {
    pub token: Token,
    pub next: usize,
}

// A bad token, by its place.
#[derive(Clone, Copy)]
pub struct BadToken {
    pub at: usize,
}

// A blank, a mark, `#` or the end stands there.
fn parted(class: &[u8; 256], s: &[u8], at: usize) -> bool
    requires { class.now ≡ class_table }
    ensures { result ≡ parted (drop at s.now) }
{
    if s.len() <= at {
        return true;
    }
    let k = class_in(class, s[at]);
    if k < BLANK {
        return false;
    }
    k <= COMMENT
}

// The token t from p to e, if what follows parts it from the next.
fn separate(class: &[u8; 256], s: &[u8], p: usize, t: Token, e: usize) -> Result<Lexeme, BadToken>
    requires class_value { class.now ≡ class_table }
    requires p_lt_e { (p < e) × (e ≤ length s.now) × Held s.now t }
    ensures { Steps s.now p (separate (drop p s.now) (token_in s.now t) (drop e s.now)) (found result) }
{
    if parted(class, s, e) {
        return Ok(Lexeme { token: t, next: e });
    }
    Err(BadToken { at: p })
}

// Where a name's bytes end, those above 32: a comparison costs less than the class.
fn name_end(s: &[u8], p: usize) -> usize
    ensures { result ≡ end_of (in_class mark_byte letter) s.now p }
{
    for i in p..s.len() {
        if s[i] <= b' ' {
            return i;
        }
    }
    p.max(s.len())
}

// A name: `\` or `$` at p, and the bytes up to the next of 32 or less. It is legal by its length.
fn name_step(s: &[u8], p: usize) -> Result<Lexeme, BadToken>
    requires { Starts s.now p 7 7 }
    ensures { StepIs s.now p (found result) }
{
    let e = name_end(s, p);
    let size = e - p;
    if size < SHORTEST_NAME || LONGEST_NAME < size {
        return Err(BadToken { at: p });
    }
    Ok(Lexeme {
        token: Token::Name { start: p, end: e },
        next: e,
    })
}

// A word: lowercase letters from p on that are a keyword.
fn word_step(class: &[u8; 256], s: &[u8], p: usize) -> Result<Lexeme, BadToken>
    requires class_value { class.now ≡ class_table }
    requires starts { Starts s.now p 13 14 }
    ensures { StepIs s.now p (found result) }
{
    let e = run_end(class, s, p, VALUE_LETTER, LETTER);
    let k = keyword(&s[p..e]);
    if NO_KEYWORD <= k {
        return Err(BadToken { at: p });
    }
    separate(class, s, p, Token::Word(k), e)
}

// A value whose width's digits are p to q, where its quote mark stands.
fn value_step(class: &[u8; 256], s: &[u8], p: usize, q: usize) -> Result<Lexeme, BadToken>
    requires class_value { class.now ≡ class_table }
    requires p_le_q { (p ≤ q) × (q < length s.now) }
    ensures { Steps s.now p (value_step (drop p s.now) (decimal (slice p q s.now)) (drop (q + 1) s.now)) (found result) }
{
    let e = run_end(class, s, q + 1, VALUE_DIGIT, VALUE_LETTER);
    let c = ConstantSpan::Value {
        start: p,
        quote: q,
        end: e,
    };
    separate(class, s, p, Token::Constant(c), e)
}

// A number that starts with a digit at p: an integer, or a value if a quote mark follows its digits.
fn number_step(class: &[u8; 256], s: &[u8], p: usize) -> Result<Lexeme, BadToken>
    requires class_value { class.now ≡ class_table }
    requires starts { Starts s.now p 9 11 }
    ensures { StepIs s.now p (found result) }
{
    let e = run_end(class, s, p, HIGH_DIGIT, VALUE_DIGIT);
    let z = Integer {
        negative: false,
        start: p,
        end: e,
    };
    let t = Token::Constant(ConstantSpan::Integer(z));
    if s.len() <= e {
        return separate(class, s, p, t, e);
    }
    if s[e] == b'\'' {
        return value_step(class, s, p, e);
    }
    separate(class, s, p, t, e)
}

// A number below zero: `-` at p, and its digits.
fn minus_step(class: &[u8; 256], s: &[u8], p: usize) -> Result<Lexeme, BadToken>
    requires class_value { class.now ≡ class_table }
    requires starts { Starts s.now p 12 12 }
    ensures { StepIs s.now p (found result) }
{
    let d = p + 1;
    let e = run_end(class, s, d, HIGH_DIGIT, VALUE_DIGIT);
    if e <= d {
        return Err(BadToken { at: p });
    }
    let z = Integer {
        negative: true,
        start: d,
        end: e,
    };
    separate(class, s, p, Token::Constant(ConstantSpan::Integer(z)), e)
}

// A string: its opening quote at p. The token has the place behind it.
fn string_step(class: &[u8; 256], s: &[u8], p: usize) -> Result<Lexeme, BadToken>
    requires class_value { class.now ≡ class_table }
    requires starts { Starts s.now p 8 8 }
    ensures { StepIs s.now p (found result) }
{
    let d = p + 1;
    let e = string_end(s, d).ok_or(BadToken { at: p })?;
    separate(class, s, p, Token::Constant(ConstantSpan::Text(d)), e)
}

// The token at `at`, blanks left out; none where the line ends, or a comment starts.
fn step(class: &[u8; 256], s: &[u8], at: usize) -> Result<Option<Lexeme>, BadToken>
    requires { class.now ≡ class_table }
    ensures { StepIs s.now at result }
{
    let p = run_end(class, s, at, BLANK, BLANK);
    if s.len() <= p {
        return Ok(None);
    }
    let b = s[p];
    let lexeme = match class_in(class, b) {
        COMMENT => return Ok(None),
        MARK => Lexeme {
            token: Token::Mark(b as usize),
            next: p + 1,
        },
        NAME_START => name_step(s, p)?,
        QUOTE => string_step(class, s, p)?,
        HIGH_DIGIT..=VALUE_DIGIT => number_step(class, s, p)?,
        MINUS => minus_step(class, s, p)?,
        VALUE_LETTER..=LETTER => word_step(class, s, p)?,
        _ => return Err(BadToken { at: p }),
    };
    Ok(Some(lexeme))
}

// The number of tokens of the line from start to end of the file f, each in a row of the table. The table of classes is made here, once for the line.
pub fn lex_line(f: &[u8], start: usize, end: usize, table: &mut [u32]) -> Result<usize, BadToken>
    requires { (start ≤ end) × (end ≤ length f.now) × (length f.now ≤ longest_file) × (4 * (end - start) ≤ length table.old) }
    ensures { LexedIs f.now start end table.old table.new result }
{
    let class = classes();
    let mut i = start;
    let mut n: usize = 0;
    while let Some(lexeme) = step(&class, &f[0..end], i)? {
        put_token(table, n, lexeme.token);
        n += 1;
        i = lexeme.next;
    }
    Ok(n)
}
