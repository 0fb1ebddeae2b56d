ghost use Rattle.std.specs.Prelude.{◌≡◌, ◌<◌, length, if◌then◌else◌};
ghost use Rattle.script_runner.specs.Text.{start_line, resume_line};

use crate::line::{Line, resume_line, start_line};

/// The first line of a run: how many lines it will say, or how many were said before.
pub(crate) fn banner_line(fresh: bool, before: u64, count: u64) -> Line
    ensures text { result.bytes ≡ (if fresh then start_line count else resume_line before count) }
    ensures some { 0 < length result.bytes }
{
    if fresh {
        start_line(count)
    } else {
        resume_line(before, count)
    }
}
