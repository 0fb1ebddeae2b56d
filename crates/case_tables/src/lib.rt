//! Functions of a few variables as tables, for the cases of other crates: tables that look random, what operations make
//! of tables, and folders with their canonical files.
#![tactic(auto)]

mod folders;
mod operations;
mod random;

pub use folders::{FIRST, SECOND, THIRD, bench_of, canon_of, put_bytes};
pub use operations::{choice_of, operator, product_of, quantified_of, restricted_of};
pub use random::Random;
