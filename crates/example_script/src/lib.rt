//! The example script of a size: whether two words of so many bits are equal, asked twice.
//!
//! It makes a large input from a number, and what a run of it says is the same each time.
#![tactic(auto)]

mod lines;
mod script;
#[cfg(test)]
mod tests;

pub use script::gen_script;
