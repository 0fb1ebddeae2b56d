//! Steps that a stop ends in their midst, and that go on from their last checkpoint, over a folder in memory.
#![tactic(auto)]

#[cfg(test)]
mod anew;
#[cfg(test)]
mod answers;
#[cfg(test)]
mod changed;
#[cfg(test)]
mod folders;
#[cfg(test)]
mod lives;
#[cfg(test)]
mod rooms;
#[cfg(test)]
mod steps;
#[cfg(test)]
mod stops;
#[cfg(test)]
mod tidied;
#[cfg(test)]
mod words;
