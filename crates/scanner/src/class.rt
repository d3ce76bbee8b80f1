// The class of each of the 256 byte values (specs/Class.antt says which number means what).
ghost use Rattle.std.specs.Prelude.{◌≡◌};
ghost use Rattle.scanner.specs.Class.{class_of, class_table};

pub const LINE_END: u8 = 0;

pub const NO_BYTE: u8 = 1;

pub const CONTROL: u8 = 2;

pub const BLANK: u8 = 3;

pub const MARK: u8 = 4;

// `#`
pub const COMMENT: u8 = 5;

// Above 32 and of no other class.
pub const OTHER: u8 = 6;

pub const NAME_START: u8 = 7;

// `"`
pub const QUOTE: u8 = 8;

// 8 and 9, 2 to 7, 0 and 1
pub const HIGH_DIGIT: u8 = 9;

pub const OCTAL_DIGIT: u8 = 10;

pub const VALUE_DIGIT: u8 = 11;

pub const MINUS: u8 = 12;

// x, z and m; then all other lowercase letters
pub const VALUE_LETTER: u8 = 13;

pub const LETTER: u8 = 14;

const CLASS: [u8; 256] = [
    1, 2, 2, 2, 2, 2, 2, 2, 2, 3, 0, 2, 2, 0, 2, 2, 2, 2, 2, 2, 2, 2, 2, 2, 2, 2, 2, 2, 2, 2, 2, 2,
    3, 6, 8, 5, 7, 6, 6, 6, 6, 6, 6, 6, 4, 12, 6, 6, 11, 11, 10, 10, 10, 10, 10, 10, 9, 9, 4, 6, 6,
    6, 6, 6, 6, 6, 6, 6, 6, 6, 6, 6, 6, 6, 6, 6, 6, 6, 6, 6, 6, 6, 6, 6, 6, 6, 6, 6, 6, 6, 6, 4, 7,
    4, 6, 6, 6, 14, 14, 14, 14, 14, 14, 14, 14, 14, 14, 14, 14, 13, 14, 14, 14, 14, 14, 14, 14, 14,
    14, 14, 13, 14, 13, 4, 6, 4, 6, 6, 6, 6, 6, 6, 6, 6, 6, 6, 6, 6, 6, 6, 6, 6, 6, 6, 6, 6, 6, 6,
    6, 6, 6, 6, 6, 6, 6, 6, 6, 6, 6, 6, 6, 6, 6, 6, 6, 6, 6, 6, 6, 6, 6, 6, 6, 6, 6, 6, 6, 6, 6, 6,
    6, 6, 6, 6, 6, 6, 6, 6, 6, 6, 6, 6, 6, 6, 6, 6, 6, 6, 6, 6, 6, 6, 6, 6, 6, 6, 6, 6, 6, 6, 6, 6,
    6, 6, 6, 6, 6, 6, 6, 6, 6, 6, 6, 6, 6, 6, 6, 6, 6, 6, 6, 6, 6, 6, 6, 6, 6, 6, 6, 6, 6, 6, 6, 6,
    6, 6, 6, 6, 6, 6, 6, 6, 6, 6, 6, 6,
];

// The table of classes. Wherever a `const` array is named it is built on the stack anew, all 256 bytes: so the table is made once a line, here, and lent.
pub fn classes() -> [u8; 256]
    ensures { result ≡ class_table }
{
    CLASS
}

// The class of a byte, by the table lent.
pub fn class_in(table: &[u8; 256], b: u8) -> u8
    requires { table.now ≡ class_table }
    ensures { result ≡ class_of b }
{
    table[b as usize]
}
