//! Runs of the program over a station in memory, for the cases of other crates: words and texts that they share, acts
//! of a station with what has to come of them, and what the files and the text of a run are compared with.
#![tactic(auto)]

mod act;
mod bench_run;
mod files;
mod refused;
mod said;

pub use act::{Act, first_fault};
pub use bench_run::{
    LIST, NET, ONE_TEXT, ONE_VARIABLE, RUN, SMALL, SMALL_NET, USAGE, bench_with, gives, run,
};
pub use files::{
    ALWAYS, BOTH, DIFFERENT, FIRST, FOURTH, LEVEL_0, LEVEL_1, LEVEL_2, NEVER, NOT_BOTH, ONE,
    SECOND, SECOND_OF_THREE, THIRD, ZERO, has_no_other_parts, has_words, is_untouched, same_files,
    same_job,
};
pub use refused::REFUSED_NETLISTS;
pub use said::{goes_on, has_part, line_count, lines_said};
