// Numbers of each kind, bits of signals by their codes, and signed numbers in words of 32 bits.
#![tactic(auto)]

pub mod kinds;
pub mod signed;
