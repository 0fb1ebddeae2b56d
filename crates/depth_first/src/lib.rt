//! Walks in graphs, without recursion on the machine's stack: depth first from some nodes, and the search
//! for the first node that lies on a cycle. A graph is, for each node, the nodes that it leads to.
#![tactic(auto)]

mod components;
mod jumps;
mod orders;
mod search;
mod state;
mod table;
mod walk;
mod walker;

pub use jumps::jump;
pub use orders::{first_cycle, visit_order};
pub use table::make_blank;
pub use walker::Walker;
