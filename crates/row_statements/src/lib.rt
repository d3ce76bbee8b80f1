// The statement in a row, whatever the tables hold: each row says where its parts are, and has to be the row of the statement that they make.
#![tactic(auto)]

mod parts;
mod settled;
pub mod statements;
mod step_rows;
mod wiring;
