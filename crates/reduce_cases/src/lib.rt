//! Cases of the reduction over a folder in memory.
#![tactic(auto)]

#[cfg(test)]
mod diagrams;
#[cfg(test)]
mod reducing;
#[cfg(test)]
mod refusals;
#[cfg(test)]
mod rows;
#[cfg(test)]
mod tables;
#[cfg(test)]
mod wide;
