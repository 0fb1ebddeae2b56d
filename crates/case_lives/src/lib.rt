//! Lives of sweeps, for the cases of other crates: a sweep begins or is rebuilt, makes turns, and may be saved.
#![tactic(auto)]

mod answering;
mod arcs;
mod driven;
mod life;

pub use answering::{TEXT_AT, compare, copy, evaluate};
pub use arcs::{imply, operate, reduce};
pub use life::{EMPTY, ENDS, INNER, Lived, MADE, OUT, STEP, Way, going_from, room_len};
