//! The copy of a file as a sweep, of which each turn puts one piece behind those that stand.
#![tactic(auto)]

mod copy;
mod resume;
mod saved;

pub use copy::{CopySweep, CopyTask};
