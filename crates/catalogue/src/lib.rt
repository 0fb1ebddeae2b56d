//! The job that a folder stores, the entries of its committed steps, and the gates that count them.
//!
//! A gate is a file that counts by its length alone. It grows by one byte, which is made sure,
//! after all that it covers was made sure: so in each image that a stop may leave, what a gate
//! counts is there whole.
#![tactic(auto)]

mod compare;
mod fault;
mod job;
mod layout;
mod looking;
mod standing;
mod steps;

pub use fault::AttachFault;
pub use file_numbers::{CATALOGUE, JOB, JOB_GATE, STEP_GATE};
pub use job::attach;
pub use layout::{ENTRY_SIZE, Entry};
pub use looking::{MOST_STEPS, look};
pub use standing::Standing;
pub use steps::{MOST_WAITING, commit, commit_waiting, entry, put_entry};
