//! Records of four words, four of them in the place of one: each word stands there as a number of 32 bits.
#![tactic(auto)]

mod halves;
mod numbers;
mod records;
mod words;

pub use numbers::{number_at, put_number};
pub use records::{put_record, put_word, record_of, word_at};
pub use words::{narrow, widen};
