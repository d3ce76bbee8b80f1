// What a line sees of the statements before it: where it stands, and the sums of each size. Both are carried on by one statement at a time.
#![tactic(auto)]

pub mod kinds;
pub mod place;
pub mod sizes;
pub mod steps;
