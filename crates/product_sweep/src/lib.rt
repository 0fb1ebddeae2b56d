//! The sweeps that make a diagram of an operator on two, and that answer whether one function implies another.
#![tactic(auto)]

mod leq;
mod product;
mod resume;

pub use leq::LeqSweep;
pub use product::ProductSweep;
