//! What a set of arcs stands for, why reducing it level by level gives the canonical diagram, and what a
//! reduction keeps.
#![tactic(auto)]

mod final_arc;
pub mod laws;
mod name;
mod source_row;

pub use final_arc::FinalArc;
pub use name::Name;
pub use source_row::SourceRow;
