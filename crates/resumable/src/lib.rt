//! When a run may go on in the middle of a step: which images of a folder have only such checkpoints as a sweep goes on
//! from to its job's end.
//!
//! The crate has no code of its own. `laws` holds what a reader needs of the words.
#![tactic(auto)]

pub mod laws;
