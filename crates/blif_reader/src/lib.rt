//! Reads netlists in the Berkeley logic interchange format: which texts are accepted, what they mean, and
//! the line and the kind of the first fault of each other one.
#![tactic(auto)]

mod blocks;
mod cover;
mod fault;
mod grammar;
mod index;
mod jumps;
mod line;
mod lines;
mod names;
mod netlist;
mod parts;
mod read;
mod soundness;
mod statement;
mod statements;
mod tables;

pub use fault::{BlifFault, BlifKind};
pub use netlist::Netlist;
pub use read::{MOST_BYTES, read_netlist};
