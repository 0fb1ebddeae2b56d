//! Facts on lists and answers that several crates state and std doesn't have: members, ascending lists,
//! lists with the same members, and what follows from two facts of one answer.
//!
//! The crate has no code.
#![tactic(auto)]
