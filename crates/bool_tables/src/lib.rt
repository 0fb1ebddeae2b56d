//! The steps of a plan, and what each of them means: the truth table that it makes.
#![tactic(auto)]

mod eval;
mod items;
pub mod laws;
mod steps;
mod values;

pub use eval::{Table, TableFault, eval_steps};
pub use items::Items;
pub use steps::{Bin, Planned, Quant, Step};
