//! The runs that the last checkpoint of a step names.
ghost use Rattle.std.specs.Prelude.{◌≡◌, ℕ, ◌+◌, ◌*◌, ◌^◌, ◌≤◌, IsTrue, OnOk, IfOk, IfSome, length};
ghost use Rattle.bool_tables.specs.declared.steps.Step.{Step};
ghost use Rattle.shelf_model.specs.World.{now};
ghost use Rattle.shelf_model.specs.Calls.{Told};
ghost use Rattle.shelf_model.specs.Moments.{Ran};
ghost use Rattle.shelf_model.specs.Faults.{OnlyFolder};
ghost use Rattle.step_work.specs.Tuples.{sweeps};
ghost use Rattle.sweep_checkpoint.specs.Gated.{present};
ghost use Rattle.sweep_checkpoint.specs.Rules.{KeepsRules};
ghost use Rattle.sweep_checkpoint.specs.Retires.{NamedAmong, NamedIn, Emptied};
ghost use Rattle.step_engine.specs.OneFile.{OnlyTidied};
ghost use Rattle.step_engine.specs.LeftBehind.{IsLastPoint, IsRunOf};

use bool_tables::Step;
use file_numbers::{FIRST_RUN_PART, checkpoint_gate};
use run_tiers::Run;
use shelf_model::{Failed, FileNo, Shelf, StreamFault};
use sweep_checkpoint::load;
use sweep_core::Checkpoint;

/// The last gated checkpoint of a step that swept, where its bytes are one.
pub(crate) fn last_point<S: Shelf>(number: u32, shelf: &mut S) -> Result<Option<Checkpoint>, Failed>
    ensures content { (step : Step) (next : ℕ) → IsTrue (sweeps step) → Told S.tells shelf.old shelf.new
        (Ran (OnlyTidied step number next (now (S.world shelf.old))) (S.world shelf.old) (S.world shelf.new)) }
    ensures rules { IfOk result (λ last. IfSome last (KeepsRules number)) }
    ensures ok { IfOk result (λ last. IsTrue (S.tells shelf.new)
        → IsLastPoint number (present (now (S.world shelf.old)).folder) last) }
    ensures calls { IsTrue (S.tells shelf.new)
        → (S.world shelf.new).clock ≤ (S.world shelf.old).clock + 11 }
    ensures faults { OnlyFolder (S.faults shelf.old) (S.faults shelf.new) result }
{
    // An empty gate isn't made sure: a file that never was stays so.
    if shelf.len(checkpoint_gate(number))? == 0 {
        return Ok(None);
    }
    match load(number, shelf) {
        Ok(last) => Ok(last),
        Err(StreamFault::Shelf) => Err(Failed),
        Err(StreamFault::Damaged { .. }) => Ok(None),
    }
}

/// Empties the file of a run of a step that swept, where its part is below that one.
fn empty_run<S: Shelf>(
    step: Step,
    number: u32,
    until: u64,
    part: u64,
    shelf: &mut S,
) -> Result<(), Failed>
    requires swept { IsTrue (sweeps step) }
    ensures content { Told S.tells shelf.old shelf.new
        (Ran (OnlyTidied step number until (now (S.world shelf.old))) (S.world shelf.old) (S.world shelf.new)) }
    ensures ok { OnOk result (IsTrue (S.tells shelf.new)
        → Emptied (IsRunOf number until (λ p. p ≡ part)) (S.world shelf.old) (S.world shelf.new)) }
    ensures calls { IsTrue (S.tells shelf.new)
        → (S.world shelf.new).clock ≤ (S.world shelf.old).clock + 1 }
    ensures faults { OnlyFolder (S.faults shelf.old) (S.faults shelf.new) result }
{
    if part < FIRST_RUN_PART || part >= until {
        return Ok(());
    }
    shelf.cut(FileNo { step: number, part }, 0)
}

/// Empties the files of the runs of a table whose parts are below that one.
fn empty_table<S: Shelf>(
    step: Step,
    number: u32,
    until: u64,
    table: &[Run],
    shelf: &mut S,
) -> Result<(), Failed>
    requires swept { IsTrue (sweeps step) }
    ensures content { Told S.tells shelf.old shelf.new
        (Ran (OnlyTidied step number until (now (S.world shelf.old))) (S.world shelf.old) (S.world shelf.new)) }
    ensures ok { OnOk result (IsTrue (S.tells shelf.new)
        → Emptied (IsRunOf number until (λ p. NamedAmong p table.now)) (S.world shelf.old) (S.world shelf.new)) }
    ensures calls { IsTrue (S.tells shelf.new)
        → (S.world shelf.new).clock ≤ (S.world shelf.old).clock + length table.now }
    ensures faults { OnlyFolder (S.faults shelf.old) (S.faults shelf.new) result }
{
    for k in 0..table.len() {
        let run = table[k];
        empty_run(step, number, until, run.part, shelf)?;
    }
    Ok(())
}

/// Empties the files of the runs of tables whose parts are below that one.
pub(crate) fn empty_tables<S: Shelf>(
    step: Step,
    number: u32,
    until: u64,
    tables: &[[Run; 64]],
    shelf: &mut S,
) -> Result<(), Failed>
    requires swept { IsTrue (sweeps step) }
    ensures content { Told S.tells shelf.old shelf.new
        (Ran (OnlyTidied step number until (now (S.world shelf.old))) (S.world shelf.old) (S.world shelf.new)) }
    ensures ok { OnOk result (IsTrue (S.tells shelf.new)
        → Emptied (IsRunOf number until (λ p. NamedIn p tables.now)) (S.world shelf.old) (S.world shelf.new)) }
    ensures calls { IsTrue (S.tells shelf.new)
        → (S.world shelf.new).clock ≤ (S.world shelf.old).clock + 64 * length tables.now }
    ensures faults { OnlyFolder (S.faults shelf.old) (S.faults shelf.new) result }
{
    for k in 0..tables.len() {
        let table = tables[k];
        empty_table(step, number, until, &table, shelf)?;
    }
    Ok(())
}
