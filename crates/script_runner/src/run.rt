ghost use Rattle.std.specs.Prelude.{◌+◌, ◌≤◌, ℕ, IsTrue, length};
ghost use Rattle.bool_tables.specs.Plans.{IsWellFormed};
ghost use Rattle.shelf_model.specs.Calls.{Told};
ghost use Rattle.script_reader.specs.Lines.{AreLines};
ghost use Rattle.script_runner.specs.Running.{RunsSteps};
ghost use Rattle.script_runner.specs.Causes.{FinishHasCause};
ghost use Rattle.shelf_model.specs.World.{now};
ghost use Rattle.script_runner.specs.Calls.{most_calls, AreCounted};
ghost use Rattle.script_runner.specs.JobOf.{job_in, given_job};
ghost use Rattle.script_runner.specs.Stops.{RunPays};

use crate::Finish;
use crate::banner::banner_line;
use crate::begin::begin;
use crate::given_job::Job;
use crate::say::{count_before, next_end, say_lines};
use crate::step::take_next;
use crate::tidy_last::tidy_last;
use bool_tables::Planned;
use catalogue::AttachFault;
use rec_words::Rec;
use script_reader::LineEnd;
use shelf_model::Station;

/// Runs the steps of a job from where the folder stands: attaches the job, says how many lines there
/// will be, makes and commits each step that isn't committed yet and says the lines that end with it,
/// and then that all was done.
///
/// It takes no memory. The room, 16,384 to 4,194,304 records of 64 bytes, is for the steps that sweep over diagrams. A
/// step that was interrupted goes on from its last checkpoint, whatever the room of the run that saved it. The bytes of
/// the job have the budget of its run at 8 to 11, and those alone tell no job from another. The answer says how the run
/// ended. What was committed before stays, whichever it is.
pub fn run_steps<W: Station>(
    n: u32,
    text: &[u8],
    steps: &[Planned],
    lines: &[LineEnd],
    job: &[u8],
    room: &mut [Rec],
    station: &mut W,
) -> Finish
    requires plan { IsWellFormed n text.now steps.now }
    requires lines { AreLines steps.now lines.now }
    requires room { (16384 ≤ length room.old) × (length room.old ≤ 4194304) }
    ensures content { Told W.tells station.old station.new
        (RunsSteps (given_job n text.now steps.now job.now) lines.now result
        (W.world station.old) (W.world station.new)) }
    ensures calls { IsTrue (W.tells station.new) → (rest : ℕ)
        → AreCounted (given_job n text.now steps.now job.now) (now (W.world station.old)).folder rest
        → (W.world station.new).clock ≤ (W.world station.old).clock
        + (most_calls (given_job n text.now steps.now job.now) (length lines.now) + rest) }
    // what a stop costs at any moment
    ensures stops { IsTrue (W.tells station.new)
        → RunPays (given_job n text.now steps.now job.now) (length lines.now)
        (W.world station.old) (W.world station.new) }
    ensures causes { FinishHasCause (W.faults station.old) (W.faults station.new) result }
{
    let job = Job {
        n,
        text,
        steps,
        lines,
        bytes: job,
    };
    run_job(&job, room, station)
}

/// The same of a job that is given as one.
pub(crate) fn run_job<W: Station>(job: &Job, room: &mut [Rec], station: &mut W) -> Finish
    requires room { (16384 ≤ length room.old) × (length room.old ≤ 4194304) }
    ensures content { Told W.tells station.old station.new
        (RunsSteps (job_in job.now) job.now.lines.now result
        (W.world station.old) (W.world station.new)) }
    ensures calls { IsTrue (W.tells station.new) → (rest : ℕ)
        → AreCounted (job_in job.now) (now (W.world station.old)).folder rest
        → (W.world station.new).clock ≤ (W.world station.old).clock
        + (most_calls (job_in job.now) (length job.now.lines.now) + rest) }
    ensures stops { IsTrue (W.tells station.new)
        → RunPays (job_in job.now) (length job.now.lines.now)
        (W.world station.old) (W.world station.new) }
    ensures causes { FinishHasCause (W.faults station.old) (W.faults station.new) result }
{
    let begun = match begin(job, station) {
        Ok(begun) => begun,
        Err(AttachFault::Shelf) => return Finish::FolderFault,
        Err(AttachFault::Damaged { file, at }) => return Finish::Damaged { file, at },
        Err(AttachFault::OtherJob { at }) => return Finish::OtherJob { at },
    };
    let standing = begun.standing;
    let before = count_before(standing.done, job.lines);
    let banner = banner_line(standing.fresh, before as u64, job.lines.len() as u64);
    let Ok(()) = station.say(banner.as_str().as_bytes()) else {
        return Finish::SayFault;
    };
    let Ok(()) = tidy_last(job, standing.done, station) else {
        return Finish::FolderFault;
    };
    let mut rest = job.lines.split_at(before).1;
    let mut gone_on = begun.gone_on;
    let mut spare = 0;
    let steps = job.steps.len() as u32;
    let mut step = standing.done;
    while step < steps {
        // No line ends within what is committed together.
        let until = next_end(step, steps, rest);
        let entry = match take_next(job, step, until, gone_on, &mut spare, room, station) {
            Ok(entry) => entry,
            Err(finish) => return finish,
        };
        step = entry.number + 1;
        let (ending, later) = rest.split_at(count_before(step, rest));
        match say_lines(job.steps, ending, &entry, station) {
            Ok(()) => {}
            Err(finish) => return finish,
        }
        rest = later;
        // Of the steps behind the first ones nothing is gated.
        gone_on = false;
    }
    let Ok(()) = station.say(b"done\n") else {
        return Finish::SayFault;
    };
    Finish::Done
}
