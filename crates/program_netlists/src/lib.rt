//! The program on netlists, on scripts that are made from a size, and on lists, over a station in memory: what it
//! says, what it leaves in files, and its status where a call fails.
#![tactic(auto)]

#[cfg(test)]
mod budgets;
#[cfg(test)]
mod case;
#[cfg(test)]
mod generated;
#[cfg(test)]
mod jobs;
#[cfg(test)]
mod lists;
#[cfg(test)]
mod net_stops;
#[cfg(test)]
mod refusals;
#[cfg(test)]
mod rows;
#[cfg(test)]
mod tools;
#[cfg(test)]
mod wrong_bodies;
