//! How far a step has come: its last gated checkpoint is loaded and made sure, with all that it may rest on, before a
//! sweep goes on from it; and what a stopped life took behind it is given up.
//!
//! `specs/Standing` says when a step can go on in each image that a stop may leave, whatever its sweep.
#![tactic(auto)]

mod finding;
mod lost;

pub use finding::find_going;
pub use lost::give_up_lost;
