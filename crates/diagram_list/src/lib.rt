//! The list of a folder's diagrams: a line for each that has a name and wasn't dropped.
#![tactic(auto)]

mod dropped;
mod fault;
mod line;
mod list;

pub use fault::ListFault;
pub use list::{MOST_STEPS, list_diagrams};
