//! The outside of the program: a folder of numbered files, texts that can be fetched, and what is said.
//!
//! `Shelf` and `Station` are the two traits. Their contracts say what each call leaves, at every
//! moment, and what a stop at that moment may leave of the files.
#![tactic(auto)]

mod fault;
mod file_no;
mod shelf;
mod sort_fault;
mod station;

pub use fault::{Failed, StreamFault};
pub use file_no::FileNo;
pub use shelf::{LONGEST, PIECE, Shelf};
pub use sort_fault::SortFault;
pub use station::Station;
