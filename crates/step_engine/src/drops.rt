//! What a committed step leaves behind.
ghost use Rattle.std.specs.Prelude.{◌≡◌, ℕ, ◌+◌, ◌-◌, ◌≤◌, min, Option, IsTrue, cond, OnOk, IfSome, []};
ghost use Rattle.bool_tables.specs.declared.steps.Step.TheVariants as variants;
ghost use Rattle.shelf_model.specs.declared.file_no.FileNo.{FileNo};
ghost use Rattle.shelf_model.specs.World.{now, file};
ghost use Rattle.shelf_model.specs.Calls.{Told};
ghost use Rattle.shelf_model.specs.Moments.{Ran};
ghost use Rattle.shelf_model.specs.Faults.{OnlyFolder};
ghost use Rattle.step_work.specs.Tuples.{sweeps};
ghost use Rattle.file_numbers.specs.Files.{checkpoint_part};
ghost use Rattle.sweep_core.specs.declared.checkpoint.Checkpoint.{Checkpoint};
ghost use Rattle.sweep_checkpoint.specs.Gated.{present};
ghost use Rattle.sweep_checkpoint.specs.Rules.{KeepsRules};
ghost use Rattle.sweep_checkpoint.specs.Retires.{IsBetween, Emptied};
ghost use Rattle.sound_image.specs.Files.{node_file};
ghost use Rattle.sound_image.specs.Steps.{IsBehind, parts_end};
ghost use Rattle.step_engine.specs.OneFile.{OnlyTidied};
ghost use Rattle.step_engine.specs.LeftBehind.{IsLastPoint, NamedBy, IsLeftBehind, IsRunOf, most_cut};

use crate::last_runs::{empty_tables, last_point};
use bool_tables::{Planned, Step};
use catalogue::Entry;
use file_numbers::{CHECKPOINT_PART, FIRST_RUN_PART, node_file};
use shelf_model::{Failed, FileNo, Shelf};
use sweep_core::Checkpoint;

/// The most parts that are cut of a step that went on, but for those that its last checkpoint names.
const MOST_CUT: u64 = 65_536;

/// Empties what a step leaves behind, once it is committed: the file of the diagram that it drops, or, where it swept,
/// all its parts behind its node file up to its entry's next part: its checkpoints, their gate, its arcs and its runs.
///
/// After `Failed` some of these may be empty and some not, or as a stop may leave them. No other file changes.
pub fn tidy<S: Shelf>(planned: &Planned, entry: &Entry, shelf: &mut S) -> Result<(), Failed>
    ensures content { Told S.tells shelf.old shelf.new
        (Ran (OnlyTidied planned.now.step entry.now.number entry.now.parts (now (S.world shelf.old)))
        (S.world shelf.old) (S.world shelf.new)) }
    ensures calls { IsTrue (S.tells shelf.new)
        → (S.world shelf.new).clock
        ≤ (S.world shelf.old).clock + cond (sweeps planned.now.step) (parts_end entry.now.parts - 1) 1 }
    ensures empty { OnOk result (IsTrue (S.tells shelf.new) → (gone : ℕ) → planned.now.step ≡ variants.Drop gone →
        (file (S.world shelf.new) (node_file gone)).bytes ≡ []) }
    ensures behind { OnOk result (IsTrue (S.tells shelf.new) → IsTrue (sweeps planned.now.step) → (f : FileNo) →
        IsBehind entry.now.number entry.now.parts f → (file (S.world shelf.new) f).bytes ≡ []) }
    ensures faults { OnlyFolder (S.faults shelf.old) (S.faults shelf.new) result }
{
    match planned.step {
        Step::Drop { gone } => shelf.cut(node_file(gone), 0),
        Step::Const { .. } | Step::Var { .. } | Step::Size { .. } => Ok(()),
        _ => empty_parts(planned.step, entry.number, entry.parts, shelf),
    }
}

/// The same of a step that went on from a checkpoint. Of its runs those are emptied that its last gated checkpoint
/// names, and its last 65,536 parts, which are all that it took but where it made some hundred million turns. So calls
/// don't grow with the turns of earlier runs.
///
/// Where the last gated bytes are no checkpoint, none is named.
pub fn tidy_gone_on<S: Shelf>(planned: &Planned, entry: &Entry, shelf: &mut S) -> Result<(), Failed>
    ensures content { Told S.tells shelf.old shelf.new
        (Ran (OnlyTidied planned.now.step entry.now.number entry.now.parts (now (S.world shelf.old)))
        (S.world shelf.old) (S.world shelf.new)) }
    ensures calls { IsTrue (S.tells shelf.new)
        → (S.world shelf.new).clock
        ≤ (S.world shelf.old).clock
        + cond (sweeps planned.now.step) (591 + min (parts_end entry.now.parts - 5) most_cut) 1 }
    ensures empty { OnOk result (IsTrue (S.tells shelf.new) → (gone : ℕ) → planned.now.step ≡ variants.Drop gone →
        (file (S.world shelf.new) (node_file gone)).bytes ≡ []) }
    ensures behind { OnOk result (IsTrue (S.tells shelf.new) → IsTrue (sweeps planned.now.step)
        → (last : Option Checkpoint)
        → IsLastPoint entry.now.number (present (now (S.world shelf.old)).folder) last
        → (f : FileNo) → IsLeftBehind entry.now.number entry.now.parts last f
        → (file (S.world shelf.new) f).bytes ≡ []) }
    ensures faults { OnlyFolder (S.faults shelf.old) (S.faults shelf.new) result }
{
    match planned.step {
        Step::Const { .. } | Step::Var { .. } | Step::Drop { .. } | Step::Size { .. } => {
            tidy(planned, entry, shelf)
        }
        _ => empty_gone_on(planned.step, entry.number, entry.parts, shelf),
    }
}

/// Empties what a step leaves behind that swept and went on.
fn empty_gone_on<S: Shelf>(step: Step, number: u32, next: u64, shelf: &mut S) -> Result<(), Failed>
    requires swept { IsTrue (sweeps step) }
    ensures content { Told S.tells shelf.old shelf.new
        (Ran (OnlyTidied step number next (now (S.world shelf.old))) (S.world shelf.old) (S.world shelf.new)) }
    ensures calls { IsTrue (S.tells shelf.new)
        → (S.world shelf.new).clock ≤ (S.world shelf.old).clock + (591 + min (parts_end next - 5) most_cut) }
    ensures behind { OnOk result (IsTrue (S.tells shelf.new) → (last : Option Checkpoint)
        → IsLastPoint number (present (now (S.world shelf.old)).folder) last
        → (f : FileNo) → IsLeftBehind number next last f → (file (S.world shelf.new) f).bytes ≡ []) }
    ensures faults { OnlyFolder (S.faults shelf.old) (S.faults shelf.new) result }
{
    let until = FIRST_RUN_PART.max(next);
    let last = last_point(number, shelf)?;
    empty_named(step, number, until, &last, shelf)?;
    let most = MOST_CUT.min(until - FIRST_RUN_PART);
    empty_between(step, number, until - most, until, shelf)?;
    empty_parts(step, number, FIRST_RUN_PART, shelf)
}

/// Empties the files of the runs that the last checkpoint names, below that part.
fn empty_named<S: Shelf>(
    step: Step,
    number: u32,
    until: u64,
    last: &Option<Checkpoint>,
    shelf: &mut S,
) -> Result<(), Failed>
    requires swept { IsTrue (sweeps step) }
    requires rules { IfSome last.now (KeepsRules number) }
    ensures content { Told S.tells shelf.old shelf.new
        (Ran (OnlyTidied step number until (now (S.world shelf.old))) (S.world shelf.old) (S.world shelf.new)) }
    ensures ok { OnOk result (IsTrue (S.tells shelf.new)
        → Emptied (IsRunOf number until (NamedBy last.now)) (S.world shelf.old) (S.world shelf.new)) }
    ensures calls { IsTrue (S.tells shelf.new)
        → (S.world shelf.new).clock ≤ (S.world shelf.old).clock + 576 }
    ensures faults { OnlyFolder (S.faults shelf.old) (S.faults shelf.new) result }
{
    let Some(point) = last else {
        return Ok(());
    };
    let tables = &point.runs[..point.tables as usize];
    empty_tables(step, number, until, tables, shelf)
}

/// Empties the parts of a step that swept from 1 up to its next part, parts 1 to 4 at least.
fn empty_parts<S: Shelf>(step: Step, number: u32, next: u64, shelf: &mut S) -> Result<(), Failed>
    requires swept { IsTrue (sweeps step) }
    ensures content { Told S.tells shelf.old shelf.new
        (Ran (OnlyTidied step number next (now (S.world shelf.old))) (S.world shelf.old) (S.world shelf.new)) }
    ensures calls { IsTrue (S.tells shelf.new)
        → (S.world shelf.new).clock ≤ (S.world shelf.old).clock + (parts_end next - 1) }
    ensures behind { OnOk result (IsTrue (S.tells shelf.new) → (f : FileNo) →
        IsBehind number next f → (file (S.world shelf.new) f).bytes ≡ []) }
    ensures faults { OnlyFolder (S.faults shelf.old) (S.faults shelf.new) result }
{
    let until = next.max(FIRST_RUN_PART);
    empty_between(step, number, CHECKPOINT_PART, until, shelf)
}

/// Empties its parts from one of them up to another.
fn empty_between<S: Shelf>(
    step: Step,
    number: u32,
    from: u64,
    until: u64,
    shelf: &mut S,
) -> Result<(), Failed>
    requires swept { IsTrue (sweeps step) }
    requires behind { checkpoint_part ≤ from }
    ensures content { Told S.tells shelf.old shelf.new
        (Ran (OnlyTidied step number until (now (S.world shelf.old))) (S.world shelf.old) (S.world shelf.new)) }
    ensures calls { IsTrue (S.tells shelf.new)
        → (S.world shelf.new).clock ≤ (S.world shelf.old).clock + (until - from) }
    ensures empty { OnOk result (IsTrue (S.tells shelf.new) → (f : FileNo) → f.step ≡ number
        → IsBetween from until f.part → (file (S.world shelf.new) f).bytes ≡ []) }
    ensures faults { OnlyFolder (S.faults shelf.old) (S.faults shelf.new) result }
{
    for part in from..until {
        shelf.cut(FileNo { step: number, part }, 0)?;
    }
    Ok(())
}
