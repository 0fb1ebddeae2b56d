//! Cases of the catalogue over a folder in memory.
#![tactic(auto)]

#[cfg(test)]
mod lists;
#[cfg(test)]
mod looks;
#[cfg(test)]
mod tests;
#[cfg(test)]
mod together;
