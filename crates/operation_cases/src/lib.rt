//! Cases of the operations on diagrams over a folder in memory.
#![tactic(auto)]

#[cfg(test)]
mod operations;
#[cfg(test)]
mod reducing;
#[cfg(test)]
mod sweeps;
#[cfg(test)]
mod turns;
