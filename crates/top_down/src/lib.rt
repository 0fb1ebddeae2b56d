//! What a sweep from the root to the leaves has made: arcs, asks that are open, and the tuples that identifiers answer.
#![tactic(auto)]

pub mod laws;
mod tuple;

pub use tuple::{Goal, Tuple};
