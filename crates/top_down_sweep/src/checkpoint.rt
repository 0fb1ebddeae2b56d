//! What a sweep says of a checkpoint that it can't have been saved in.
ghost use Rattle.shelf_model.specs.Calls.{Told};
ghost use Rattle.std.specs.Prelude.{Err, IsTrue};
ghost use Rattle.block_stream.specs.Reads.{Looked};
ghost use Rattle.run_tiers.specs.Faults.{OnlySortShelf};
ghost use Rattle.top_down_sweep.specs.Damage.{IsOfCheckpoint, IsCheckpointDamage};

use file_numbers::checkpoint_file;
use shelf_model::{Shelf, SortFault};
use sweep_core::checkpoint_place;

/// Damage at the first byte of the last checkpoint of a step that its gate counts, or of the file where it counts none.
pub(crate) fn checkpoint_fault<S: Shelf>(step: u32, shelf: &mut S) -> SortFault
    ensures says { IsOfCheckpoint step result }
    ensures place { IsTrue (S.tells shelf.new) → IsCheckpointDamage step (S.world shelf.old) result }
    ensures content { Told S.tells shelf.old shelf.new (Looked 1 (S.world shelf.old) (S.world shelf.new)) }
    ensures faults { OnlySortShelf {T = Unit} (S.faults shelf.old) (S.faults shelf.new) (Err result) }
{
    match checkpoint_place(step, shelf) {
        Ok(at) => SortFault::Damaged {
            file: checkpoint_file(step),
            at,
        },
        Err(_failed) => SortFault::Shelf,
    }
}
