//! How many tuples the sweeps from the root to the leaves meet, where their operands are canonical diagrams: no more
//! than their steps join.
#![tactic(auto)]

pub mod laws;
