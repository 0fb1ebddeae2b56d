//! Steps of a run that are committed together: they are made, committed and tidied up.
ghost use Rattle.std.specs.Prelude.{◌≡◌, ◌+◌, ◌*◌, ◌≤◌, ◌<◌, ℕ, IsTrue, IfOk, length};
ghost use Rattle.shelf_model.specs.World.{now};
ghost use Rattle.shelf_model.specs.Calls.{Told};
ghost use Rattle.catalogue.specs.Commits.{IsReady};
ghost use Rattle.sound_image.specs.Holds.{Holds};
ghost use Rattle.script_runner.specs.AtOnce.{most_spare};
ghost use Rattle.script_runner.specs.Calls.{calls_before, taken_to, spared_by, left_by, IsCounted, IsGated};
ghost use Rattle.script_runner.specs.JobOf.{job_in};
ghost use Rattle.script_runner.specs.Lean.{IsLean};
ghost use Rattle.script_runner.specs.Stops.{IsPaidStep, StepPays};
ghost use Rattle.script_runner.specs.StepRuns.{TakesSteps, stopped_by};
ghost use Rattle.script_runner.specs.Causes.{StopHasCause};

use crate::Finish;
use crate::anew::run_or_begin_anew;
use crate::at_once::{MOST_SPARE, take_at_once};
use crate::given_job::Job;
use crate::together::{commit_together, drops_end, tidy_together};
use catalogue::Entry;
use rec_words::Rec;
use shelf_model::{Shelf, SortFault};

/// Takes the step of that number and the drops behind it, and then the steps behind them that are surely made at once,
/// which are committed together; none from the step `until` on. The answer is the entry of the last one.
///
/// Looking whether a step is surely made at once takes calls. They are taken from those that the steps of the run so far
/// were sure to spare, which are counted in `spare`.
pub(crate) fn take_next<S: Shelf>(
    job: &Job,
    number: u32,
    until: u32,
    gone_on: bool,
    spare: &mut u64,
    room: &mut [Rec],
    shelf: &mut S,
) -> Result<Entry, Finish>
    requires within { (number < until) × (until ≤ length job.now.steps.now) }
    requires room { (16384 ≤ length room.old) × (length room.old ≤ 4194304) }
    requires spare { spare.old ≤ most_spare }
    requires ready { IsTrue (S.tells shelf.old) → IsReady number (now (S.world shelf.old)).folder }
    ensures content { Told S.tells shelf.old shelf.new
        (TakesSteps (job_in job.now) number until result (S.world shelf.old) (S.world shelf.new)) }
    ensures calls { IsTrue (S.tells shelf.new) → (rest : ℕ)
        → IsCounted (job_in job.now) number gone_on (now (S.world shelf.old)).folder rest
        → (S.world shelf.new).clock + left_by result spare.new + calls_before (job_in job.now) number
        ≤ (S.world shelf.old).clock + spare.old
        + (calls_before (job_in job.now) (taken_to result until) + rest) }
    // what a stop costs at any moment of it
    ensures stops { IsTrue (S.tells shelf.new) → (paid rest : ℕ)
        → IsPaidStep (job_in job.now) number gone_on paid rest (now (S.world shelf.old)).folder
        → StepPays (job_in job.now) paid rest spare.old spare.new result
        (S.world shelf.old) (S.world shelf.new) }
    // a folder in which nothing is left over is so behind the steps
    ensures lean { IfOk result (λ e. IsTrue (S.tells shelf.new)
        → Holds (job_in job.now) number (now (S.world shelf.old)).folder
        → IsGated gone_on number (now (S.world shelf.old)).folder
        → IsLean (job_in job.now) number (now (S.world shelf.old)).folder
        → IsLean (job_in job.now) (e.number + 1) (now (S.world shelf.new)).folder) }
    ensures reached { IfOk result (λ e. (number ≤ e.number) × (e.number < until)) }
    ensures spare { spare.new ≤ most_spare }
    ensures causes { StopHasCause (S.faults shelf.old) (S.faults shelf.new) result }
{
    let entry = take_steps(job, number, until, gone_on, room, shelf)?;
    *spare = spared(*spare, entry.number - number);
    match take_at_once(job, entry.number + 1, until, spare, room, shelf) {
        Ok(Some(last)) => Ok(last),
        Ok(None) => Ok(entry),
        Err(_) => Err(Finish::FolderFault),
    }
}

/// The calls that are to spare behind so many drops: five more for each, and 65,536 at most.
fn spared(spare: u64, drops: u32) -> u64
    requires { spare ≤ most_spare }
    ensures few { result ≤ most_spare }
    ensures more { result ≤ spare + 5 * drops }
{
    let more = spare + 5 * drops as u64;
    if more < MOST_SPARE { more } else { MOST_SPARE }
}

/// Runs the step of that number, behind those that are committed, and commits it together with the drops behind it, as
/// far as the step `until`, which isn't taken. The answer is the entry of the last one. What they leave behind is
/// emptied, for fewer calls where something is gated of the first, so that it may have gone on.
fn take_steps<S: Shelf>(
    job: &Job,
    number: u32,
    until: u32,
    gone_on: bool,
    room: &mut [Rec],
    shelf: &mut S,
) -> Result<Entry, Finish>
    requires within { (number < until) × (until ≤ length job.now.steps.now) }
    requires room { (16384 ≤ length room.old) × (length room.old ≤ 4194304) }
    requires ready { IsTrue (S.tells shelf.old) → IsReady number (now (S.world shelf.old)).folder }
    ensures content { Told S.tells shelf.old shelf.new
        (TakesSteps (job_in job.now) number until result (S.world shelf.old) (S.world shelf.new)) }
    ensures calls { IsTrue (S.tells shelf.new) → (rest : ℕ)
        → IsCounted (job_in job.now) number gone_on (now (S.world shelf.old)).folder rest
        → (S.world shelf.new).clock + spared_by result number + calls_before (job_in job.now) number
        ≤ (S.world shelf.old).clock + (calls_before (job_in job.now) (taken_to result until) + rest) }
    // what a stop costs at any moment of it
    ensures stops { IsTrue (S.tells shelf.new) → (paid rest : ℕ)
        → IsPaidStep (job_in job.now) number gone_on paid rest (now (S.world shelf.old)).folder
        → StepPays (job_in job.now) paid rest 0 (spared_by result number) result
        (S.world shelf.old) (S.world shelf.new) }
    // a folder in which nothing is left over is so behind the steps
    ensures lean { IfOk result (λ e. IsTrue (S.tells shelf.new)
        → Holds (job_in job.now) number (now (S.world shelf.old)).folder
        → IsGated gone_on number (now (S.world shelf.old)).folder
        → IsLean (job_in job.now) number (now (S.world shelf.old)).folder
        → IsLean (job_in job.now) (e.number + 1) (now (S.world shelf.new)).folder) }
    ensures reached { IfOk result (λ e. (number ≤ e.number) × (e.number < until)) }
    ensures causes { StopHasCause (S.faults shelf.old) (S.faults shelf.new) result }
{
    let entry = match run_or_begin_anew(job, number, room, shelf) {
        Ok(entry) => entry,
        Err(fault) => return Err(stopped_by(fault, number)),
    };
    let end = drops_end(job.steps, number, until);
    let Ok(last) = commit_together(job.steps, &entry, end, shelf) else {
        return Err(Finish::FolderFault);
    };
    let Ok(()) = tidy_together(job.steps, &entry, gone_on, end, shelf) else {
        return Err(Finish::FolderFault);
    };
    Ok(last)
}

/// How a run ends that such a fault of that step stops.
fn stopped_by(fault: SortFault, step: u32) -> Finish
    ensures { result ≡ stopped_by step fault }
{
    match fault {
        SortFault::Shelf => Finish::FolderFault,
        SortFault::Damaged { file, at } => Finish::Damaged { file, at },
        SortFault::RunsSpent => Finish::RunsSpent { step },
    }
}
