//! Sweeps over diagrams from the root down: one machine for all operations.
#![tactic(auto)]

mod answering;
mod asks;
mod beginning;
mod checkpoint;
mod freezing;
pub mod laws;
mod machine;
mod rebuilding;
mod resume;
mod rules;
mod saving;
mod start;
mod sweep;
mod turning;
mod writing;

pub use beginning::OperandFiles;
pub use resume::Named;
pub use sweep::TopDownSweep;
pub use sweep_operations::{Choice, Operation, Product, Quantified, Restricted, StepOperation};
pub use tuple_asks::Files;
