//! Runs a script on a station: stores its job, makes and commits the steps that are not committed yet, and says
//! their lines. Lists what a folder holds.
#![tactic(auto)]

mod anew;
mod at_once;
mod banner;
mod begin;
mod ending;
mod fetch;
mod finish;
mod given_job;
mod job;
pub mod laws;
mod line;
mod listed;
mod netlist;
mod program;
mod read_netlist;
mod refusal;
mod run;
mod run_source;
mod say;
mod step;
mod tidy_last;
mod together;

pub use example_script::gen_script;
pub use finish::Finish;
pub use program::adiar;
pub use run::run_steps;
