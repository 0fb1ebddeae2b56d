//! Reads a script: the plan that it asks for, or its first faulty line and what is wrong with it.
#![tactic(auto)]

mod fault;
mod keyword;
pub mod laws;
mod line;
mod net_line;
mod netlists;
mod places;
mod plan;
mod planning;
mod script;
mod step;

pub use fault::{ScriptFault, ScriptKind};
pub use plan::{LineEnd, Plan};
pub use script::{MOST_BYTES, read_script, read_script_with};
