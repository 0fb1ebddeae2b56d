//! A queue for items that are handled level by level, more of them than memory has room for: no item is pushed that is
//! less than the last one taken.
//!
//! A `LevelQueue` keeps its items in a `Sorter`, in a lent room and in runs. Which files a call may change, what its
//! calls cost, and how many parts it takes, is said of each call.
#![tactic(auto)]

mod laws;
mod queue;

pub use laws::{
    credit_is_bounded, in_step_stays, list_is_counted, list_is_unique, list_stays,
    list_stays_frozen, list_stays_unchanged, list_stays_with_parts, parts_serve_on, tables_stay,
    tables_stay_frozen,
};
pub use queue::LevelQueue;
