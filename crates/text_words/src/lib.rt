//! The lines of a text and the words of a line, with their places.
#![tactic(auto)]

pub mod laws;
mod lines;
mod search;
mod words;

pub use lines::{Line, Lines};
pub use search::{code, is_blank_byte};
pub use words::{Word, Words};

#[cfg(test)]
mod tests;
