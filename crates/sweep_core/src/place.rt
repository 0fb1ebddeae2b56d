//! Where the checkpoints of a step stand, and which files its sweeps make.
ghost use Rattle.std.specs.Prelude.{◌≡◌, ◌↔◌, ◌+◌, ◌≤◌, IsTrue, IfOk};
ghost use Rattle.shelf_model.specs.Calls.{Told};
ghost use Rattle.shelf_model.specs.Faults.{OnlyFolder};
ghost use Rattle.shelf_model.specs.Moments.{Ran, Stays};
ghost use Rattle.shelf_model.specs.World.{now};
ghost use Rattle.sweep_core.specs.Saving.{IsMadePart, IsReadPart, reads_of};
ghost use Rattle.sweep_core.specs.Resting.{checkpoint_place};

use file_numbers::{ENDS_PART, INNER_PART, NODES_PART, checkpoint_gate};
use shelf_model::{Failed, FileNo, Shelf};

/// The bytes of a checkpoint in a file.
const POINT_SIZE: u64 = 16_384;

/// Where the last checkpoint of a step that is gated stands in the file of its checkpoints, in bytes; 0 where none is
/// gated. It is one call of the folder.
pub fn checkpoint_place<S: Shelf>(step: u32, shelf: &mut S) -> Result<u64, Failed>
    ensures place { IfOk result (λ at. IsTrue (S.tells shelf.new) →
        at ≡ checkpoint_place step (reads_of (S.world shelf.old))) }
    ensures content { Told S.tells shelf.old shelf.new
        (Ran (Stays (now (S.world shelf.old))) (S.world shelf.old) (S.world shelf.new)) }
    ensures calls { IsTrue (S.tells shelf.new) →
        (S.world shelf.new).clock ≤ (S.world shelf.old).clock + 1 }
    ensures faults { OnlyFolder (S.faults shelf.old) (S.faults shelf.new) result }
{
    let count = shelf.len(checkpoint_gate(step))?;
    Ok(POINT_SIZE * count.saturating_sub(1))
}

/// Whether a file is one that a sweep of the step makes: its node file, or one of its two files of arcs where its part
/// is below the next one.
pub fn is_made_part(file: FileNo, step: u32, next: u64) -> bool
    ensures { IsTrue result ↔ IsMadePart step next file }
{
    let arcs = INNER_PART <= file.part && file.part <= ENDS_PART && file.part < next;
    file.step == step && (file.part == NODES_PART || arcs)
}

/// Whether a file is one that a sweep of the step may read without making it: one of another step, or one that a sweep
/// of the step makes.
pub fn is_read_part(file: FileNo, step: u32, next: u64) -> bool
    ensures { IsTrue result ↔ IsReadPart step next file }
{
    file.step != step || is_made_part(file, step, next)
}
