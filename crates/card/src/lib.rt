// The session card and what several calls answer, laid out as C's.
#![tactic(auto)]

// The session card: renames standing, name room used.
#[repr(C)]
#[derive(Clone, Copy)]
pub struct Card {
    pub renames: u32,
    pub room: u32,
}

// Number 0 is none.
#[repr(C)]
#[derive(Clone, Copy)]
pub struct Answer {
    pub number: u32,
    pub place: u32,
}

// A refusal's length is 0.
#[repr(C)]
#[derive(Clone, Copy)]
pub struct LengthAnswer {
    pub number: u32,
    pub length: u32,
}
