//! A station in memory: one folder of files, the texts that it is given, and what is said.
//!
//! `Bench` keeps a record of all calls, so that its past is known. Calls can be made to fail.
#![tactic(auto)]

mod bench;
mod change;
mod choice;
mod counts;
mod disk;
mod event;
mod failures;
mod files;
mod piece;
mod reads;
mod shelf;
mod station;
mod stop;
mod texts;

pub use bench::Bench;
pub use choice::Choice;
