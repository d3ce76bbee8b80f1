// Scanning of RTLIL text: the class of a byte, runs and parts of bytes, lines, keywords and decimal numbers.
#![tactic(auto)]

pub mod class;
pub mod decimals;
pub mod lines;
pub mod parts;
pub mod runs;
pub mod words;
