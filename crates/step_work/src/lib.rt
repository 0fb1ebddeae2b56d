//! The work of a step: which tuples of pieces of its operands' tables it joins, level by level, and how many turns
//! these may take.
//!
//! The crate has no code.
#![tactic(auto)]
