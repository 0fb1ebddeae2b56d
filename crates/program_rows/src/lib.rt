//! The program on worked examples, over a station in memory: what it says, what it leaves in files, and
//! its status where a call fails; and once over a real folder.
#![tactic(auto)]

#[cfg(test)]
mod calls;
#[cfg(test)]
mod case;
#[cfg(test)]
mod listing;
#[cfg(test)]
mod node_files;
#[cfg(test)]
mod real_folder;
#[cfg(test)]
mod refusals;
#[cfg(test)]
mod restart;
#[cfg(test)]
mod rows;
#[cfg(test)]
mod scripts;
#[cfg(test)]
mod stops;
