//! How a folder stands, whichever job it stores.
ghost use Rattle.std.specs.Prelude.{◌≡◌, ◌≢◌, ◌+◌, ◌≤◌, length, false, IsTrue, IfOk, Err};
ghost use Rattle.shelf_model.specs.World.{now, file};
ghost use Rattle.shelf_model.specs.Calls.{Told};
ghost use Rattle.shelf_model.specs.Moments.{Ran, Stays};
ghost use Rattle.shelf_model.specs.Faults.{OnlyShelf};
ghost use Rattle.shelf_model.specs.declared.fault.StreamFault.TheVariants.{Shelf, Damaged};
ghost use Rattle.catalogue.specs.Files.{catalogue, step_gate};
ghost use Rattle.catalogue.specs.Counts.{present};
ghost use Rattle.catalogue.specs.Standings.{counted_or, standing_found, most_steps, DuringSyncs, IsLooked};

use crate::job::make_gates_sure;
use crate::layout::ENTRY_SIZE;
use crate::standing::Standing;
use file_numbers::{CATALOGUE, STEP_GATE};
use shelf_model::{Shelf, StreamFault};

/// The most steps that a job has.
pub const MOST_STEPS: u32 = 1_048_576;

/// Tells how a folder stands, whichever job it stores, and stores nothing: fresh where there is none.
///
/// Both gates are made sure before a length is read. A gate of steps that stands without a job counts nothing.
///
/// Refuses where a call of the folder fails (`Shelf`), and where the gate counts more than 1,048,576 steps, or more
/// than the catalogue has entries (`Damaged`). No image is new, whatever the answer.
pub fn look<S: Shelf>(shelf: &mut S) -> Result<Standing, StreamFault>
    ensures content { Told S.tells shelf.old shelf.new
        (Ran (DuringSyncs (now (S.world shelf.old))) (S.world shelf.old) (S.world shelf.new)) }
    ensures answer { IsTrue (S.tells shelf.new) → result ≢ Err StreamFault.Shelf
        → result ≡ standing_found (present (now (S.world shelf.old)).folder) }
    ensures ok { IfOk result (λ s. IsTrue (S.tells shelf.new) → IsLooked s (now (S.world shelf.new)).folder) }
    ensures most { IfOk result (λ s. s.done ≤ most_steps) }
    ensures calls { IsTrue (S.tells shelf.new)
        → (S.world shelf.new).clock ≤ (S.world shelf.old).clock + 5 }
    ensures faults { OnlyShelf (S.faults shelf.old) (S.faults shelf.new) result }
{
    if make_gates_sure(shelf)? == 0 {
        return Ok(Standing {
            fresh: true,
            done: 0,
        });
    }
    count_at_most(MOST_STEPS, shelf)
}

/// How many steps are committed, at most so many, where the gate and the catalogue agree.
pub(crate) fn count_at_most<S: Shelf>(steps: u32, shelf: &mut S) -> Result<Standing, StreamFault>
    ensures content { Told S.tells shelf.old shelf.new
        (Ran (Stays (now (S.world shelf.old))) (S.world shelf.old) (S.world shelf.new)) }
    ensures answer { IsTrue (S.tells shelf.new) → result ≢ Err StreamFault.Shelf
        → result ≡ counted_or StreamFault.Damaged steps (length (file (S.world shelf.old) step_gate).bytes)
        (length (file (S.world shelf.old) catalogue).bytes) }
    ensures again { IfOk result (λ s. s.fresh ≡ false) }
    ensures most { IfOk result (λ s. s.done ≤ steps) }
    ensures calls { IsTrue (S.tells shelf.new)
        → (S.world shelf.new).clock ≤ (S.world shelf.old).clock + 2 }
    ensures faults { OnlyShelf (S.faults shelf.old) (S.faults shelf.new) result }
{
    let done = shelf.len(STEP_GATE)?;
    if done > steps as u64 {
        return Err(StreamFault::Damaged {
            file: STEP_GATE,
            at: steps as u64,
        });
    }
    let size = shelf.len(CATALOGUE)?;
    let entry = ENTRY_SIZE as u64;
    if size < entry * done {
        return Err(StreamFault::Damaged {
            file: CATALOGUE,
            at: entry * (size / entry),
        });
    }
    Ok(Standing {
        fresh: false,
        done: done as u32,
    })
}
