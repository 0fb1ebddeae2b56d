//! Cases of the forms that diagrams have: tables, canonical files, and the words of records.
#![tactic(auto)]

#[cfg(test)]
mod files;
#[cfg(test)]
mod items;
#[cfg(test)]
mod tables;
#[cfg(test)]
mod words;
