//! The words that diagrams are stored as: pointers, nodes, and the records that can be spilled.
#![tactic(auto)]

pub mod laws;
mod node;
mod ptr;
mod rec;
mod spill;

pub use node::{NODE_SIZE, Node};
pub use ptr::{DEEPEST_LEVEL, LEVEL_NUMBERS, MOST_VARIABLES, Ptr, Uid};
pub use rec::Rec;
pub use spill::Spill;
