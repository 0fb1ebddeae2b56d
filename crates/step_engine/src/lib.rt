//! The steps of a plan, one at a time: a step is run, its caller commits its entry, and what it leaves behind is tidied
//! up.
#![tactic(auto)]

mod at_once;
mod diagrams;
mod drops;
mod entries;
mod going;
mod kinds;
mod last_runs;
mod simple;
mod step;
mod sweeping;

pub use at_once::run_at_once;
pub use drops::{tidy, tidy_gone_on};
pub use entries::drop_entry;
pub use kinds::{entry_of_kind, kind_of};
pub use step::run_step;
