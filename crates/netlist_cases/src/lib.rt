//! Cases of netlists: which texts are accepted, what they mean, and the steps of their plans.
#![tactic(auto)]

#[cfg(test)]
mod netlists;
#[cfg(test)]
mod plans;
#[cfg(test)]
mod slashed;
