//! What the steps of the last commit left behind, where a run was stopped before they were tidied up.
ghost use Rattle.std.specs.Prelude.{◌≡◌, ℕ, ◌+◌, ◌<◌, ◌≤◌, [], IsTrue, Option, OnOk, length};
ghost use Rattle.bool_tables.specs.declared.steps.Step.TheVariants as variants;
ghost use Rattle.shelf_model.specs.declared.file_no.FileNo.{FileNo};
ghost use Rattle.shelf_model.specs.World.{now, file};
ghost use Rattle.shelf_model.specs.Calls.{Told};
ghost use Rattle.shelf_model.specs.Moments.{Ran};
ghost use Rattle.shelf_model.specs.Faults.{OnlyFolder};
ghost use Rattle.catalogue.specs.Commits.{IsReady};
ghost use Rattle.catalogue.specs.Counts.{count_in};
ghost use Rattle.step_work.specs.Tuples.{sweeps};
ghost use Rattle.sweep_core.specs.declared.checkpoint.Checkpoint.{Checkpoint};
ghost use Rattle.sweep_checkpoint.specs.Gated.{present};
ghost use Rattle.sound_image.specs.Files.{node_file};
ghost use Rattle.step_engine.specs.LeftBehind.{IsLastPoint, IsLeftBehind};
ghost use Rattle.step_engine.specs.OneFile.{OnlyTidied};
ghost use Rattle.script_runner.specs.Together.{OnlyEmptied};
ghost use Rattle.script_runner.specs.Tidied.{MayBeLast, IsCutOf, TidiedLast, TidiesFor, TidyCosts};
ghost use Rattle.script_runner.specs.Tidied.{EmptiesBy, EmptiesLast, may_wait, tidied_to, last_calls};

use crate::given_job::Job;
use crate::together::empty_dropped;
use bool_tables::{Planned, Step};
use catalogue::{Entry, MOST_WAITING};
use file_numbers::FIRST_RUN_PART;
use shelf_model::{Failed, Shelf, StreamFault};
use step_engine::{entry_of_kind, kind_of, tidy, tidy_gone_on};

/// Tidies up the steps of the last commit once more, of so many committed steps: the run that committed them may have
/// been stopped before. No look shows that this was done, as cuts needn't be kept in their order, nor how many steps
/// that commit had. There were 1,024 at most. The first of them may have swept, if those behind it were drops alone;
/// otherwise each was made at once, and of these nothing is left but the diagrams that they drop.
///
/// Where the entry of the first isn't whole nothing is cut of it. A line that needs the entry finds that out.
pub(crate) fn tidy_last<S: Shelf>(job: &Job, done: u32, shelf: &mut S) -> Result<(), Failed>
    requires ready { IsTrue (S.tells shelf.old) → IsReady done (now (S.world shelf.old)).folder }
    ensures content { Told S.tells shelf.old shelf.new
        (Ran (TidiedLast job.now.steps.now done (now (S.world shelf.old))) (S.world shelf.old) (S.world shelf.new)) }
    ensures calls { IsTrue (S.tells shelf.new)
        → TidyCosts job.now.steps.now done (S.world shelf.old) (S.world shelf.new) }
    ensures empty { OnOk result (IsTrue (S.tells shelf.new) → EmptiesLast job.now.steps.now done
        (now (S.world shelf.old)).folder (now (S.world shelf.new)).folder) }
    ensures faults { OnlyFolder (S.faults shelf.old) (S.faults shelf.new) result }
{
    if done == 0 || done as usize > job.steps.len() {
        return Ok(());
    }
    let first = last_commit(job.steps, done);
    tidy_step(job.steps, first, shelf)?;
    empty_dropped(job.steps, may_wait(done), done, shelf)
}

/// The first step that the last commit may have had, of so many committed steps, whichever way they were made.
fn may_wait(done: u32) -> u32
    ensures { result ≡ may_wait done }
{
    done.saturating_sub(MOST_WAITING as u32)
}

/// The first step that the last commit may have had, of so many committed steps, if those behind it were drops alone.
fn last_commit(steps: &[Planned], done: u32) -> u32
    requires within { (0 < done) × (done ≤ length steps.now) }
    ensures is { MayBeLast steps.now done result }
    ensures first { (k : ℕ) → MayBeLast steps.now done k → result ≤ k }
{
    let mut first = done - 1;
    while first > 0 && ((done - first) as usize) < MOST_WAITING {
        let Step::Drop { .. } = steps[first as usize].step else {
            return first;
        };
        first -= 1;
    }
    first
}

/// Tidies up a committed step once more. Where its entry isn't whole nothing is cut.
fn tidy_step<S: Shelf>(steps: &[Planned], number: u32, shelf: &mut S) -> Result<(), Failed>
    requires within { number < length steps.now }
    requires committed { IsTrue (S.tells shelf.old)
        → number < count_in (present (now (S.world shelf.old)).folder) }
    ensures content { Told S.tells shelf.old shelf.new
        (Ran (OnlyEmptied (IsCutOf steps.now number) (now (S.world shelf.old)))
        (S.world shelf.old) (S.world shelf.new)) }
    ensures most { IsTrue (S.tells shelf.new)
        → (S.world shelf.new).clock ≤ (S.world shelf.old).clock + 66128 }
    ensures calls { IsTrue (S.tells shelf.new)
        → TidiesFor steps.now number 0 (S.world shelf.old) (S.world shelf.new) }
    ensures empty { OnOk result (IsTrue (S.tells shelf.new) → EmptiesBy steps.now number
        (now (S.world shelf.old)).folder (now (S.world shelf.new)).folder) }
    ensures faults { OnlyFolder (S.faults shelf.old) (S.faults shelf.new) result }
{
    let planned = &steps[number as usize];
    match planned.step {
        Step::Const { .. } | Step::Var { .. } | Step::Size { .. } => Ok(()),
        _ => match entry_of_kind(number, kind_of(planned.step), shelf) {
            Ok(entry) => tidy_again(planned, &entry, shelf),
            Err(StreamFault::Shelf) => Err(Failed),
            Err(StreamFault::Damaged { .. }) => Ok(()),
        },
    }
}

/// Empties what a committed step may have left behind, whether it went on from a checkpoint or not. Fewer calls do
/// where it took so few turns that it saved no checkpoint and took no part for a run.
fn tidy_again<S: Shelf>(planned: &Planned, entry: &Entry, shelf: &mut S) -> Result<(), Failed>
    ensures content { Told S.tells shelf.old shelf.new
        (Ran (OnlyTidied planned.now.step entry.now.number (tidied_to entry.now) (now (S.world shelf.old)))
        (S.world shelf.old) (S.world shelf.new)) }
    ensures calls { IsTrue (S.tells shelf.new)
        → (S.world shelf.new).clock ≤ (S.world shelf.old).clock + last_calls planned.now.step entry.now }
    ensures empty { OnOk result (IsTrue (S.tells shelf.new) → (gone : ℕ) → planned.now.step ≡ variants.Drop gone →
        (file (S.world shelf.new) (node_file gone)).bytes ≡ []) }
    ensures behind { OnOk result (IsTrue (S.tells shelf.new) → IsTrue (sweeps planned.now.step)
        → (last : Option Checkpoint)
        → IsLastPoint entry.now.number (present (now (S.world shelf.old)).folder) last
        → (f : FileNo) → IsLeftBehind entry.now.number (tidied_to entry.now) last f
        → (file (S.world shelf.new) f).bytes ≡ []) }
    ensures faults { OnlyFolder (S.faults shelf.old) (S.faults shelf.new) result }
{
    if entry.turns >= 16 {
        return tidy_gone_on(planned, entry, shelf);
    }
    let mut short = *entry;
    short.parts = FIRST_RUN_PART;
    tidy(planned, &short, shelf)
}
