//! Scripts that look random, run by the program over a station in memory, beside the tables of their steps, and a
//! script whose diagrams outgrow the least room; scripts and netlists that are refused, stopped at each call; and lists
//! of words.
#![tactic(auto)]

#[cfg(test)]
mod large;
#[cfg(test)]
mod random;
#[cfg(test)]
mod refused;
#[cfg(test)]
mod runs;
#[cfg(test)]
mod script;
#[cfg(test)]
mod stopped;
#[cfg(test)]
mod wanted;
#[cfg(test)]
mod words;
