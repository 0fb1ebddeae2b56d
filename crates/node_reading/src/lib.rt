//! The reading of a node file, node by node, in the turns of a sweep.
#![tactic(auto)]

mod reading;
mod resuming;
mod whole;

pub use reading::next_node;
pub use resuming::{Unread, resume_at};
pub use whole::read_whole;
