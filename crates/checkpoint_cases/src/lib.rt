//! Cases of checkpoints over a folder in memory.
#![tactic(auto)]

#[cfg(test)]
mod tests;
