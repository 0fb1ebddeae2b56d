//! Sweeps over one or two diagrams: whether two are the same, the value of one at an assignment, and one in which a
//! variable has a value.
#![tactic(auto)]

mod comparing;
mod eval;
mod eval_resume;
mod following;
mod restrict;
mod resuming;
mod same;
mod same_resume;
mod saved;
mod saved_eval;

pub use eval::EvalSweep;
pub use restrict::RestrictSweep;
pub use same::SameSweep;
