//! Arc files: the arcs of a diagram that isn't reduced yet, those to nodes in one file, and those to truth
//! values in another.
#![tactic(auto)]

mod arc;
mod kind;
mod reader;
mod stream;
mod unreduced;
mod writer;

pub use arc::{ARC_SIZE, Arc};
pub use kind::Kind;
pub use reader::ArcReader;
pub use unreduced::Unreduced;
pub use writer::ArcWriter;
