//! The real outside: a folder of files, texts at paths, and standard output.
#![tactic(auto)]

mod bytes;
mod folder;
mod handle;
mod handles;
mod known;
mod station;
mod text;

pub use station::HostStation;
