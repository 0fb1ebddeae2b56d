//! Streams of values over the files of a folder: each value as one record, through a window that is lent.
//!
//! A call of the folder moves no more records than the window has, and no more than 2,048 bytes. The
//! window has at least eight records.
#![tactic(auto)]

mod appender;
mod backward;
mod filling;
mod forward;
mod front;
mod read;
mod reading;
mod record;

pub use appender::Appender;
pub use backward::Backward;
pub use filling::{Filling, flush_records, put_record, settle_records};
pub use forward::Forward;
pub use front::fill;
pub use read::load;
pub use reading::Reading;
