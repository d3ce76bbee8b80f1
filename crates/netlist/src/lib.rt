// The statements of a design in the table of rows.
#![tactic(auto)]

pub mod design;
pub mod lengths;
pub mod results;
pub mod rows;
pub mod spaces;
pub mod used;
