//! Cases of scripts: which texts are refused, with the line and the kind of the first fault, and the plans of those
//! that are accepted.
#![tactic(auto)]

#[cfg(test)]
mod accepted;
#[cfg(test)]
mod examples;
#[cfg(test)]
mod known;
#[cfg(test)]
mod large;
#[cfg(test)]
mod netlists;
#[cfg(test)]
mod operators;
#[cfg(test)]
mod refused;
#[cfg(test)]
mod whole;
