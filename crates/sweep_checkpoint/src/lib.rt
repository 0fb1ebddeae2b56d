//! The checkpoints of a step: their bytes, and how they are saved, loaded and given up.
//!
//! The checkpoints of a step stand in one file, one behind the other, and a gate counts them by its length. The gate
//! grows by one byte, which is made sure, after the checkpoint was made sure: so in each image that a stop may leave,
//! what the gate counts is there whole.
#![tactic(auto)]

mod blank;
mod due;
mod going;
mod layout;
mod loading;
mod point;
mod retiring;
mod rules;
mod running;
mod saving;

pub use going::Going;
pub use layout::{POINT_SIZE, bytes_of};
pub use loading::load;
pub use point::point_of;
pub use retiring::retire;
pub use running::run_saved;
pub use saving::save;
