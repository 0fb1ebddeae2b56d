//! Steps that are made at once, while those before them wait for the commit of all of them.
ghost use Rattle.std.specs.Prelude.{◌≡◌, ◌+◌, ◌*◌, ◌≤◌, ◌<◌, IsTrue, length};
ghost use Rattle.shelf_model.specs.World.{now, file};
ghost use Rattle.catalogue.specs.Commits.{IsReady};
ghost use Rattle.catalogue.specs.Files.{catalogue};
ghost use Rattle.step_sweeps.specs.declared.at_once.AtMost.{AtMost};
ghost use Rattle.script_runner.specs.AtOnce.{most_spare, gained, GathersStep, Gathers, TakesAtOnce};
ghost use Rattle.script_runner.specs.JobOf.{job_in};

use crate::given_job::Job;
use crate::together::empty_dropped;
use bool_tables::Step;
use catalogue::{Entry, MOST_WAITING, commit_waiting, put_entry};
use rec_words::Rec;
use shelf_model::{Failed, Shelf};
use step_engine::run_at_once;
use step_sweeps::AtMost;

/// So many calls at most are kept for looks that come to nothing.
pub(crate) const MOST_SPARE: u64 = 65536;

/// The calls that read the trailers of two operands.
const TRAILERS: u64 = 4;

/// The turns that steps which wait take together, but for one of each.
const MOST_TURNS: u64 = 65536;

/// No more nodes than these are joined in so many turns, as each is reckoned with fifteen.
const MOST_JOINED: u64 = 4369;

/// Makes the steps from that one on that are surely made at once, commits them together and empties the files that they
/// drop: 1,024 of them at most, and none from the step `until` on. The answer is the entry of the last one, or `None`
/// where the first isn't made so, or there are too few calls to spare for a look at it. Those that a look took are
/// taken from `spare`, and those that the steps spared are added.
///
/// After `Failed` some of them are committed, the first ones, or none.
pub(crate) fn take_at_once<S: Shelf>(
    job: &Job,
    from: u32,
    until: u32,
    spare: &mut u64,
    room: &mut [Rec],
    shelf: &mut S,
) -> Result<Option<Entry>, Failed>
    requires within { (from ≤ until) × (until ≤ length job.now.steps.now) }
    requires room { (16384 ≤ length room.old) × (length room.old ≤ 4194304) }
    requires spare { spare.old ≤ most_spare }
    requires ready { IsTrue (S.tells shelf.old) → IsReady from (now (S.world shelf.old)).folder }
    ensures takes { TakesAtOnce S.tells S.world S.faults (job_in job.now) from until spare.old spare.new
        shelf.old shelf.new result }
{
    let Some(last) = gather(job, from, until, spare, room, shelf)? else {
        return Ok(None);
    };
    let end = last.number + 1;
    commit_waiting(from, end - from, shelf)?;
    empty_dropped(job.steps, from, end, shelf)?;
    Ok(Some(last))
}

/// Makes the steps from that one on that are surely made at once, and puts their entries behind the committed ones. The
/// answer is the entry of the last one, if there is one. None of them is committed yet.
fn gather<S: Shelf>(
    job: &Job,
    from: u32,
    until: u32,
    spare: &mut u64,
    room: &mut [Rec],
    shelf: &mut S,
) -> Result<Option<Entry>, Failed>
    requires within { (from ≤ until) × (until ≤ length job.now.steps.now) }
    requires room { (16384 ≤ length room.old) × (length room.old ≤ 4194304) }
    requires spare { spare.old ≤ most_spare }
    requires ready { IsTrue (S.tells shelf.old) → IsReady from (now (S.world shelf.old)).folder }
    ensures gathers { Gathers S.tells S.world S.faults (job_in job.now) from until spare.old spare.new
        shelf.old shelf.new result }
{
    let mut end = from;
    let mut turns = 0;
    let mut last = None;
    while end < until && ((end - from) as usize) < MOST_WAITING && *spare >= TRAILERS {
        let most = AtMost {
            turns: MOST_TURNS.saturating_sub(turns),
            looks: most_looks(*spare),
        };
        let Some(entry) = gather_step(job, end, from, most, room, shelf)? else {
            // What the look may have taken is no longer to spare.
            *spare -= TRAILERS + most.looks;
            return Ok(last);
        };
        *spare = more_spare(*spare, job.steps[end as usize].step, entry.turns);
        turns += entry.turns;
        last = Some(entry);
        end += 1;
    }
    Ok(last)
}

/// How many nodes may be looked at in vain, where so many calls are to spare: no more than are joined in the turns that
/// there are.
fn most_looks(spare: u64) -> u64
    requires { 4 ≤ spare }
    ensures { result + 4 ≤ spare }
{
    let left = spare - TRAILERS;
    if left < MOST_JOINED {
        left
    } else {
        MOST_JOINED
    }
}

/// Makes a step if it is surely made at once, and puts its entry behind those that wait.
fn gather_step<S: Shelf>(
    job: &Job,
    number: u32,
    committed: u32,
    most: AtMost,
    room: &mut [Rec],
    shelf: &mut S,
) -> Result<Option<Entry>, Failed>
    requires within { (committed ≤ number) × (number < length job.now.steps.now) }
    requires room { (16384 ≤ length room.old) × (length room.old ≤ 4194304) }
    requires turns { most.turns ≤ 65536 }
    requires ready { IsTrue (S.tells shelf.old) → IsReady committed (now (S.world shelf.old)).folder }
    requires covers { IsTrue (S.tells shelf.old)
        → 128 * number ≤ length (file (S.world shelf.old) catalogue).bytes }
    ensures gathers { GathersStep S.tells S.world S.faults (job_in job.now) committed number most
        shelf.old shelf.new result }
{
    let planned = &job.steps[number as usize];
    let Some(entry) = run_at_once(job.n, job.text, planned, number, most, room, shelf)? else {
        return Ok(None);
    };
    put_entry(&entry, committed, shelf)?;
    Ok(Some(entry))
}

/// The calls that are to spare behind a step of so many turns that was made at once, 65,536 at most.
fn more_spare(spare: u64, step: Step, turns: u64) -> u64
    requires { (spare ≤ most_spare) × (turns ≤ 65536) }
    ensures few { result ≤ most_spare }
    ensures more { result ≤ spare + gained step turns }
{
    let gained = match step {
        Step::Pair { .. } => 200 * turns,
        Step::Drop { .. } => 5,
        _ => 0,
    };
    let more = spare + gained;
    if more < MOST_SPARE { more } else { MOST_SPARE }
}
