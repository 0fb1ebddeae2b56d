//! What a reduction holds: the arcs that come next, and the rows and the names of the level at hand.
#![tactic(auto)]

mod held;

pub use held::{Ahead, Lists};
