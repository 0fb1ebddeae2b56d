//! Writing to a file behind what is kept of it, and letting a gate grow by one byte.
#![tactic(auto)]

mod writes;

pub use writes::{append_all, lengthen, replace_from};
