// Keywords.
ghost use Rattle.std.specs.Prelude.{◌≡◌, ◌<◌, length};
ghost use Rattle.scanner.specs.Words.{keyword_number, word_code, code_number};

use names::same_bytes;

// The keywords by their numbers, as a token has them (rules, Tokens.keywords).
pub const AUTOIDX: usize = 0;

pub const MODULE: usize = 1;

pub const END: usize = 2;

pub const PARAMETER: usize = 3;

pub const ATTRIBUTE: usize = 4;

pub const CONNECT: usize = 5;

pub const WIRE: usize = 6;

pub const WIDTH: usize = 7;

pub const OFFSET: usize = 8;

pub const INPUT: usize = 9;

pub const OUTPUT: usize = 10;

pub const INOUT: usize = 11;

pub const UPTO: usize = 12;

pub const SIGNED: usize = 13;

pub const MEMORY: usize = 14;

pub const SIZE: usize = 15;

pub const CELL: usize = 16;

pub const REAL: usize = 17;

pub const PROCESS: usize = 18;

pub const ASSIGN: usize = 19;

pub const SWITCH: usize = 20;

pub const CASE: usize = 21;

pub const SYNC: usize = 22;

pub const GLOBAL: usize = 23;

pub const INIT: usize = 24;

pub const ALWAYS: usize = 25;

pub const LOW: usize = 26;

pub const HIGH: usize = 27;

pub const POSEDGE: usize = 28;

pub const NEGEDGE: usize = 29;

pub const EDGE: usize = 30;

pub const UPDATE: usize = 31;

// No keyword.
pub const NO_KEYWORD: usize = 32;

// The bytes of a short word as the digits of one number, the first byte lowest, and 1 as the highest digit: no other word has it.
fn word_code(w: &[u8]) -> u64
    requires { length w.now < 8 }
    ensures { result ≡ word_code w.now }
{
    let mut n: u64 = 1;
    for i in (0..w.len()).rev() {
        n = n * 256 + w[i] as u64;
    }
    n
}

// The number of the keyword with a code, 32 if it is none of the short ones: one number is compared, where a list of words is compared byte by byte.
fn code_number(n: u64) -> usize
    ensures { result ≡ code_number n }
{
    match n {
        105944995247453537 => AUTOIDX,
        392991477100397 => MODULE,
        23359077 => END,
        104817978631941987 => CONNECT,
        5996964215 => WIRE,
        1548140964215 => WIDTH,
        409454053320303 => OFFSET,
        1599698136681 => INPUT,
        409522723386735 => OUTPUT,
        1599698071145 => INOUT,
        6164869237 => UPTO,
        391861783456115 => SIGNED,
        415007379383661 => MEMORY,
        5997488499 => SIZE,
        6114010467 => CELL,
        6113289586 => REAL,
        104554095656792688 => PROCESS,
        402865406571361 => ASSIGN,
        396251340830579 => SWITCH,
        5997027683 => CASE,
        5963151731 => SYNC,
        400640495807591 => GLOBAL,
        6248033897 => INIT,
        408440140164193 => ALWAYS,
        24604524 => LOW,
        6046574952 => HIGH,
        100600247582158704 => POSEDGE,
        100600247581369710 => NEGEDGE,
        5996242021 => EDGE,
        393025501294709 => UPDATE,
        _ => NO_KEYWORD,
    }
}

// The number of the keyword w, 32 if it is none.
pub fn keyword(w: &[u8]) -> usize
    ensures { result ≡ keyword_number w.now }
{
    if w.len() < 8 {
        return code_number(word_code(w));
    }
    if same_bytes(w, b"parameter") {
        return PARAMETER;
    }
    if same_bytes(w, b"attribute") {
        return ATTRIBUTE;
    }
    NO_KEYWORD
}
