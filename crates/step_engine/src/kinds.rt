//! The kinds of entries.
ghost use Rattle.std.specs.Prelude.{◌≡◌, ◌+◌, ◌<◌, ◌≤◌, IsTrue, IfOk, IfErr};
ghost use Rattle.shelf_model.specs.World.{now};
ghost use Rattle.shelf_model.specs.Calls.{Told};
ghost use Rattle.shelf_model.specs.Moments.{Ran, Stays};
ghost use Rattle.shelf_model.specs.Faults.{OnlyShelf};
ghost use Rattle.catalogue.specs.Counts.{count_in, present};
ghost use Rattle.catalogue.specs.Entries.{IsEntryOf};
ghost use Rattle.sound_image.specs.Entries.{kind_of};
ghost use Rattle.step_engine.specs.StepFaults.{IsKindFault};

use bool_tables::Step;
use catalogue::{CATALOGUE, ENTRY_SIZE, Entry, entry};
use shelf_model::{Shelf, StreamFault};

/// The kind of the entry of a step: 1 for a diagram, 2 for a drop, 3 for an answer.
pub fn kind_of(step: Step) -> u8
    ensures { result ≡ kind_of step }
{
    match step {
        Step::Const { .. }
        | Step::Var { .. }
        | Step::Pair { .. }
        | Step::Ite { .. }
        | Step::Quantify { .. }
        | Step::Restrict { .. } => 1,
        Step::Drop { .. } => 2,
        Step::Same { .. } | Step::Leq { .. } | Step::Eval { .. } | Step::Size { .. } => 3,
    }
}

/// The entry of step `k`, which has to be committed.
///
/// Refuses where the call of the folder fails (`Shelf`), and where no entry of that step and that kind stands at its
/// place (`Damaged`, from its first byte on). No file changes.
pub fn entry_of_kind<S: Shelf>(k: u32, kind: u8, shelf: &mut S) -> Result<Entry, StreamFault>
    requires committed { IsTrue (S.tells shelf.old)
        → k < count_in (present (now (S.world shelf.old)).folder) }
    ensures content { Told S.tells shelf.old shelf.new
        (Ran (Stays (now (S.world shelf.old))) (S.world shelf.old) (S.world shelf.new)) }
    ensures calls { IsTrue (S.tells shelf.new)
        → (S.world shelf.new).clock ≤ (S.world shelf.old).clock + 1 }
    ensures kind { IfOk result (λ e. e.kind ≡ kind) }
    ensures ok { IfOk result (λ e. IsTrue (S.tells shelf.new)
        → IsEntryOf k (present (now (S.world shelf.old)).folder) e) }
    ensures err { IfErr result (λ fault. IsTrue (S.tells shelf.new)
        → IsKindFault k kind (present (now (S.world shelf.old)).folder) fault) }
    ensures faults { OnlyShelf (S.faults shelf.old) (S.faults shelf.new) result }
{
    let found = entry(k, shelf)?;
    if found.kind != kind {
        return Err(StreamFault::Damaged {
            file: CATALOGUE,
            at: ENTRY_SIZE as u64 * k as u64,
        });
    }
    Ok(found)
}
