//! Sweeps over diagrams, which work in small turns, and their driver.
#![tactic(auto)]

mod checkpoint;
mod driver;
mod fill;
mod place;
mod sweep;
mod turn;

pub use checkpoint::Checkpoint;
pub use driver::{Made, drive, run_some, run_to_end};
pub use fill::{fill_with_runs, fill_without_runs};
pub use place::{checkpoint_place, is_made_part, is_read_part};
pub use sweep::Sweep;
pub use turn::Turn;
