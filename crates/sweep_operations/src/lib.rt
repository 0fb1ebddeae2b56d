//! What each operation makes of the tuples that a sweep from the root down meets, and its words in a checkpoint.
#![tactic(auto)]

mod choice;
mod goals;
mod operation;
mod operation_words;
mod product;
mod quantified;
mod restricted;
mod steps;

pub use choice::Choice;
pub use operation::Operation;
pub use product::Product;
pub use quantified::Quantified;
pub use restricted::Restricted;
pub use steps::StepOperation;
