//! Reads the words of the command line: what they ask for, in which folder, and with which options.
#![tactic(auto)]

mod command;
mod fault;
mod given;
mod number;
mod words;

pub use fault::WordsFault;
pub use words::{Words, read_words};
