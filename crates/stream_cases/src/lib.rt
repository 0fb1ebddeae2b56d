//! Cases of a folder in memory, and of streams, node files, arc files and runs over it.
#![tactic(auto)]

#[cfg(test)]
mod arcs;
#[cfg(test)]
mod calls;
#[cfg(test)]
mod disks;
#[cfg(test)]
mod nodes;
#[cfg(test)]
mod runs;
#[cfg(test)]
mod streams;
