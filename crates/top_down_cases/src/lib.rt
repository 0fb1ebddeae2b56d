//! Cases of the sweeps from the root down over a folder in memory.
#![tactic(auto)]

#[cfg(test)]
mod driving;
#[cfg(test)]
mod meant;
#[cfg(test)]
mod refusals;
#[cfg(test)]
mod runs;
#[cfg(test)]
mod shapes;
#[cfg(test)]
mod sweeping;
#[cfg(test)]
mod tables;
#[cfg(test)]
mod turns;
