//! The reduction of a diagram whose sources all stand in the room, and the complement of one whose nodes do: no list is
//! sorted but the rows of a level, and no run is written.
#![tactic(auto)]

mod complement;
mod filling;
mod index;
pub mod laws;
mod level;
mod levels;
mod nodes;
mod numbers;
mod reading;
mod reduce;
mod rows;
mod sources;
mod writing;

pub use complement::complement_file;
pub use index::{Index, begin_of};
pub use levels::reduce_sources;
pub use reading::read_nodes;
pub use reduce::reduce_in_room;
pub use sources::{HIGH, LOW, UID, find, source_word};
