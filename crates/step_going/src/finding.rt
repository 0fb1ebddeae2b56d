//! Finding how far a step has come.
ghost use Rattle.std.specs.Prelude.{◌≡◌, ◌+◌, ◌*◌, ◌≤◌, IsTrue, All, None, OnOk, IfOk, IfErr, length};
ghost use Rattle.shelf_model.specs.World.{now};
ghost use Rattle.shelf_model.specs.Calls.{Told};
ghost use Rattle.shelf_model.specs.Moments.{Ran};
ghost use Rattle.shelf_model.specs.Faults.{OnlyFolder, OnlyShelf};
ghost use Rattle.sweep_checkpoint.specs.Gated.{present};
ghost use Rattle.run_tiers.specs.Syncs.{RunsSynced};
ghost use Rattle.step_going.specs.Found.{IsGoingOf, IsFound, IsFindFault, DuringFind};
ghost use Rattle.step_going.specs.Found.{IsOf, IsSurePart, IsSureRun, AreSecured};

use file_numbers::{
    CHECKPOINT_PART, ENDS_PART, FIRST_RUN_PART, INNER_PART, NODES_PART, checkpoint_file,
};
use run_tiers::Run;
use shelf_model::{Failed, FileNo, Shelf, StreamFault};
use sweep_checkpoint::{Going, load};
use sweep_core::{Checkpoint, checkpoint_place};

/// How far a step has come, for a run with that budget: as its last gated checkpoint says, or nothing was done where
/// none is gated. Before the answer the gate, the checkpoints, and all files of the step on which that one may rest are
/// made sure, so that a stop leaves what was read.
///
/// Damage is at the place of that checkpoint: its bytes are none that keeps the rules, or it says that more parts were
/// taken than its turns pay for.
pub fn find_going<S: Shelf>(step: u32, budget: u32, shelf: &mut S) -> Result<Going, StreamFault>
    ensures content { Told S.tells shelf.old shelf.new
        (Ran (DuringFind step (now (S.world shelf.old))) (S.world shelf.old) (S.world shelf.new)) }
    ensures going { IfOk result (IsGoingOf step budget) }
    ensures ok { IfOk result (λ going. IsTrue (S.tells shelf.new)
        → IsFound step (now (S.world shelf.new)).folder going.last) }
    ensures err { IfErr result (λ fault. IsTrue (S.tells shelf.new)
        → IsFindFault step (present (now (S.world shelf.old)).folder) fault) }
    ensures calls { IsTrue (S.tells shelf.new)
        → (S.world shelf.new).clock ≤ (S.world shelf.old).clock + 590 }
    ensures few_calls { IfOk result (λ going. IsTrue (S.tells shelf.new) → going.last ≡ None
        → (S.world shelf.new).clock ≤ (S.world shelf.old).clock + 2) }
    ensures faults { OnlyShelf (S.faults shelf.old) (S.faults shelf.new) result }
{
    let Some(point) = load(step, shelf)? else {
        return Ok(Going {
            step,
            sweep: 0,
            budget,
            turns: 0,
            shown: 0,
            last: None,
        });
    };
    if point.next_part > 512 + point.turns / 16 {
        let at = checkpoint_place(step, shelf)?;
        return Err(StreamFault::Damaged {
            file: checkpoint_file(step),
            at,
        });
    }
    secure(&point, shelf)?;
    Ok(Going {
        step,
        sweep: point.sweep,
        budget,
        turns: point.turns,
        shown: point.turns,
        last: Some(point),
    })
}

// Makes sure the checkpoints of a step, its nodes, its arcs, and the runs that one of them names.
fn secure<S: Shelf>(point: &Checkpoint, shelf: &mut S) -> Result<(), Failed>
    requires tables { point.now.tables ≤ 9 }
    ensures content { Told S.tells shelf.old shelf.new
        (Ran (DuringFind point.now.step (now (S.world shelf.old))) (S.world shelf.old) (S.world shelf.new)) }
    ensures ok { OnOk result (IsTrue (S.tells shelf.new)
        → AreSecured point.now.step (now (S.world shelf.new)).folder point.now) }
    ensures calls { IsTrue (S.tells shelf.new)
        → (S.world shelf.new).clock ≤ (S.world shelf.old).clock + 4 + 64 * point.now.tables }
    ensures faults { OnlyFolder (S.faults shelf.old) (S.faults shelf.new) result }
{
    let step = point.step;
    let tables = &point.runs[..point.tables as usize];
    secure_parts(
        step,
        &[NODES_PART, CHECKPOINT_PART, INNER_PART, ENDS_PART],
        shelf,
    )?;
    secure_tables(step, tables, shelf)?;
    Ok(())
}

// Makes sure some parts of a step.
fn secure_parts<S: Shelf>(step: u32, parts: &[u64], shelf: &mut S) -> Result<(), Failed>
    ensures content { Told S.tells shelf.old shelf.new
        (RunsSynced (length parts.now) (IsOf step) (S.world shelf.old) (S.world shelf.new)) }
    ensures ok { OnOk result (IsTrue (S.tells shelf.new) → All (IsSurePart step (S.world shelf.new)) parts.now) }
    ensures faults { OnlyFolder (S.faults shelf.old) (S.faults shelf.new) result }
{
    for k in 0..parts.len() {
        let part = parts[k];
        shelf.sync(FileNo { step, part })?;
    }
    Ok(())
}

// Makes sure the runs of tables.
fn secure_tables<S: Shelf>(step: u32, tables: &[[Run; 64]], shelf: &mut S) -> Result<(), Failed>
    ensures content { Told S.tells shelf.old shelf.new
        (RunsSynced (64 * length tables.now) (IsOf step) (S.world shelf.old) (S.world shelf.new)) }
    ensures ok { OnOk result (IsTrue (S.tells shelf.new) → All (All (IsSureRun step (S.world shelf.new))) tables.now) }
    ensures faults { OnlyFolder (S.faults shelf.old) (S.faults shelf.new) result }
{
    for k in 0..tables.len() {
        let table = tables[k];
        secure_runs(step, &table, shelf)?;
    }
    Ok(())
}

// Makes sure the runs of a table.
fn secure_runs<S: Shelf>(step: u32, table: &[Run], shelf: &mut S) -> Result<(), Failed>
    ensures content { Told S.tells shelf.old shelf.new
        (RunsSynced (length table.now) (IsOf step) (S.world shelf.old) (S.world shelf.new)) }
    ensures ok { OnOk result (IsTrue (S.tells shelf.new) → All (IsSureRun step (S.world shelf.new)) table.now) }
    ensures faults { OnlyFolder (S.faults shelf.old) (S.faults shelf.new) result }
{
    for k in 0..table.len() {
        let run = table[k];
        secure_run(step, &run, shelf)?;
    }
    Ok(())
}

// Makes sure the run of a slot, where one stands there.
fn secure_run<S: Shelf>(step: u32, run: &Run, shelf: &mut S) -> Result<(), Failed>
    ensures content { Told S.tells shelf.old shelf.new
        (RunsSynced 1 (IsOf step) (S.world shelf.old) (S.world shelf.new)) }
    ensures ok { OnOk result (IsTrue (S.tells shelf.new) → IsSureRun step (S.world shelf.new) run.now) }
    ensures faults { OnlyFolder (S.faults shelf.old) (S.faults shelf.new) result }
{
    if run.part < FIRST_RUN_PART {
        return Ok(());
    }
    shelf.sync(FileNo {
        step,
        part: run.part,
    })
}
