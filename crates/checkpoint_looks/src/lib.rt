//! Checkpoints of sweeps, each looked at by a slow plain program.
#![tactic(auto)]

#[cfg(test)]
mod answered;
#[cfg(test)]
mod asked;
#[cfg(test)]
mod cases;
#[cfg(test)]
mod diagrams;
#[cfg(test)]
mod from_root;
#[cfg(test)]
mod lives;
#[cfg(test)]
mod looked;
#[cfg(test)]
mod looks;
#[cfg(test)]
mod noticed;
#[cfg(test)]
mod reduced;
#[cfg(test)]
mod shapes;
#[cfg(test)]
mod words;
