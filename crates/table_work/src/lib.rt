//! The sweep that makes a diagram of a step's table, whatever the operation, and the law of what it takes: no more than
//! half of the step's work.
#![tactic(auto)]

pub mod laws;
mod operation;
mod starts;
mod sweep;

pub use operation::TableOperation;
pub use sweep::TableSweep;
