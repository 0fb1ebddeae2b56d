//! Cases of the steps that sweep, over a folder in memory.
#![tactic(auto)]

#[cfg(test)]
mod answers;
#[cfg(test)]
mod at_once;
#[cfg(test)]
mod complements;
#[cfg(test)]
mod copies;
#[cfg(test)]
mod diagrams;
#[cfg(test)]
mod failing;
#[cfg(test)]
mod foreign;
#[cfg(test)]
mod given;
#[cfg(test)]
mod judged;
#[cfg(test)]
mod products;
#[cfg(test)]
mod reductions;
#[cfg(test)]
mod steps;
#[cfg(test)]
mod tables;
