// What a call that may change design memory gives back. Number 0 is none; the counts of the session card go in and out by value.
#[derive(Clone, Copy)]
pub struct CallResult {
    pub number: u32,
    pub place: u32,
    pub renames: u32,
    pub room: u32,
}

// A refusal: its number, and its place in the file or 0.
#[derive(Clone, Copy)]
pub struct Refused {
    pub number: u32,
    pub place: u32,
}

// The numbers of refusals (document 01, "Numbers given back").
pub const WRONG_LENGTH: u32 = 1;

pub const FILE_TOO_LONG: u32 = 2;

pub const DAMAGED: u32 = 3;

pub const BAD_TOKEN: u32 = 4;

pub const NO_SHAPE: u32 = 5;

pub const PORT_RENAME: u32 = 6;

pub const BAD_NUMBER: u32 = 7;

pub const NOT_THERE: u32 = 8;

pub const TAKEN_NAME: u32 = 9;

pub const BAD_WIDTH: u32 = 10;

pub const TOO_MANY: u32 = 11;

pub const TEXT_TOO_LONG: u32 = 12;

pub const NOTHING_TO_UNDO: u32 = 13;
