//! Giving up what a stopped life lost of a step.
ghost use Rattle.std.specs.Prelude.{◌≡◌, ◌+◌, ◌<◌, ◌≤◌, ◌^◌, IsTrue, OnOk, []};
ghost use Rattle.shelf_model.specs.declared.file_no.FileNo.{FileNo};
ghost use Rattle.shelf_model.specs.World.{now, file};
ghost use Rattle.shelf_model.specs.Calls.{Told};
ghost use Rattle.shelf_model.specs.Moments.{Ran, OnlyChanged};
ghost use Rattle.shelf_model.specs.Faults.{OnlyFolder};
ghost use Rattle.step_going.specs.Lost.{most_lost, IsLost};

use shelf_model::{Failed, FileNo, Shelf};

/// No fewer than the parts that a life takes between two checkpoints.
const MOST_LOST: u64 = 3_300;

/// Empties what a stopped life lost of a step, the parts that it took behind the checkpoint with which the step goes
/// on: from that checkpoint's next part number on. The life that goes on may never take these numbers, and their bytes
/// would stay.
///
/// After `Failed` some of them may be empty and some not, or as a stop may leave them.
pub fn give_up_lost<S: Shelf>(step: u32, next: u64, shelf: &mut S) -> Result<(), Failed>
    requires numbers { next + most_lost < 2 ^ 64 }
    ensures content { Told S.tells shelf.old shelf.new
        (Ran (OnlyChanged (IsLost step next) (now (S.world shelf.old))) (S.world shelf.old) (S.world shelf.new)) }
    ensures empty { OnOk result (IsTrue (S.tells shelf.new) → (f : FileNo) →
        IsLost step next f → (file (S.world shelf.new) f).bytes ≡ []) }
    ensures calls { IsTrue (S.tells shelf.new)
        → (S.world shelf.new).clock ≤ (S.world shelf.old).clock + most_lost }
    ensures faults { OnlyFolder (S.faults shelf.old) (S.faults shelf.new) result }
{
    for part in next..next + MOST_LOST {
        shelf.cut(FileNo { step, part }, 0)?;
    }
    Ok(())
}
