//! Cases of sweeps that are saved and rebuilt, over a folder in memory.
#![tactic(auto)]

#[cfg(test)]
mod changed;
#[cfg(test)]
mod failing;
#[cfg(test)]
mod lives;
#[cfg(test)]
mod operations;
#[cfg(test)]
mod plans;
#[cfg(test)]
mod reduced;
#[cfg(test)]
mod saved;
#[cfg(test)]
mod shorter;
