//! The steps that sweep: an operation on the files of diagrams, from the root down and reduced, and the answers that
//! are found by reading diagrams.
#![tactic(auto)]

mod answers;
mod arcs;
mod at_once;
mod confirming;
mod copy;
mod diagram;
mod ended;
mod foreign;
mod implication;
mod in_room;
mod joining;
mod reduction;
mod swept;
mod task;
mod unswept;

pub use answers::{Answered, compare, evaluate};
pub use at_once::{AtMost, make_at_once};
pub use diagram::{MadeDiagram, make_diagram};
pub use implication::imply;
pub use task::Making;
pub use top_down_sweep::StepOperation;
