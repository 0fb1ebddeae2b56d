//! What the images of a folder hold of a job, and which of them are sound: the words of the program's
//! main promise.
//!
//! The crate has no code of its own. `laws` holds what a reader needs of the words.
#![tactic(auto)]

pub mod laws;
