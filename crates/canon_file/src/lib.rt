//! The canonical form of a diagram: the one node file that stands for a table.
#![tactic(auto)]

pub mod laws;
mod level;
mod plain;
mod row;

pub use plain::plain_canon;
pub use row::Row;
