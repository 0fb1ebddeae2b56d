//! Values that stand in the words of a checkpoint, one behind the other.
#![tactic(auto)]

mod carried;
mod front;
mod item;
mod joined;
pub mod laws;
mod single;
mod words;

pub use carried::Carried;
pub use front::{value_of, words_of};
pub use item::Item;
pub use words::{MOST_WORDS, Words};
