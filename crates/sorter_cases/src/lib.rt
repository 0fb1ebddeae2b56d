//! Cases of sorters and queues with runs, over a folder in memory.
#![tactic(auto)]

#[cfg(test)]
mod frozen;
#[cfg(test)]
mod frozen_queues;
#[cfg(test)]
mod lives;
#[cfg(test)]
mod parts;
#[cfg(test)]
mod queues;
#[cfg(test)]
mod sorters;
#[cfg(test)]
mod tables;
