//! What remains of a sweep from the root to the leaves, and what each kind of turn does to it.
#![tactic(auto)]

pub mod laws;
