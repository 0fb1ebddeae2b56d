//! The diagram of an operator on two diagrams, made in the room where both and the result fit there: no arc is
//! written, no list is sorted but the rows of a level.
#![tactic(auto)]

mod answers;
mod checks;
mod goals;
mod join;
mod level;
mod levels;
mod operands;
mod slots;
mod sources;
mod tables;

pub use join::{Joined, join_in_room};
