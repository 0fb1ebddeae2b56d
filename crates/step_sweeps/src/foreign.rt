//! A checkpoint that is none of what the step does.
ghost use Rattle.std.specs.Prelude.{◌≡◌, ◌≢◌, ◌+◌, ◌≤◌, IsTrue, Err};
ghost use Rattle.shelf_model.specs.World.{now};
ghost use Rattle.shelf_model.specs.Calls.{Told};
ghost use Rattle.shelf_model.specs.Moments.{Ran, Stays};
ghost use Rattle.run_tiers.specs.Faults.{OnlySortShelf};

use file_numbers::checkpoint_file;
use shelf_model::{Shelf, SortFault};
use sweep_core::checkpoint_place;

/// Damage at the place of the step's last gated checkpoint.
pub(crate) fn foreign_point<S: Shelf>(step: u32, shelf: &mut S) -> SortFault
    ensures kind { result ≢ SortFault.RunsSpent }
    ensures content { Told S.tells shelf.old shelf.new
        (Ran (Stays (now (S.world shelf.old))) (S.world shelf.old) (S.world shelf.new)) }
    ensures calls { IsTrue (S.tells shelf.new) →
        (S.world shelf.new).clock ≤ (S.world shelf.old).clock + 1 }
    ensures faults { OnlySortShelf {T = Unit} (S.faults shelf.old) (S.faults shelf.new) (Err result) }
{
    match checkpoint_place(step, shelf) {
        Ok(at) => SortFault::Damaged {
            file: checkpoint_file(step),
            at,
        },
        Err(_failed) => SortFault::Shelf,
    }
}
