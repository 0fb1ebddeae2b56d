//! Cases of the sweeps from the root down over a folder in memory.
#![tactic(auto)]

#[cfg(test)]
mod comparing;
#[cfg(test)]
mod evaluating;
#[cfg(test)]
mod faults;
#[cfg(test)]
mod sweeping;
#[cfg(test)]
mod tables;
