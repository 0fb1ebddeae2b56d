//! Saving a checkpoint behind those that are gated.
ghost use Rattle.std.specs.Prelude.{◌≡◌, ◌+◌, ◌*◌, ◌^◌, ◌≤◌, IsTrue, OnOk, IfErr, length};
ghost use Rattle.shelf_model.specs.World.{now, file};
ghost use Rattle.shelf_model.specs.Calls.{Told};
ghost use Rattle.shelf_model.specs.Moments.{Ran};
ghost use Rattle.shelf_model.specs.Faults.{OnlyFolder, OnlyShelf};
ghost use Rattle.file_numbers.specs.Files.{checkpoint_file, checkpoint_gate};
ghost use Rattle.sweep_checkpoint.specs.Points.{point_size, point_bytes, Fits};
ghost use Rattle.sweep_checkpoint.specs.Gated.{present};
ghost use Rattle.sweep_checkpoint.specs.Saves.{DuringSave, IsSaved, IsSaveFault};

use crate::layout::{POINT_SIZE, bytes_of};
use file_numbers::{checkpoint_file, checkpoint_gate};
use file_writes::{lengthen, replace_from};
use shelf_model::{Failed, Shelf, StreamFault};
use sweep_core::Checkpoint;

// The bytes of a checkpoint in a file.
const SIZE: u64 = POINT_SIZE as u64;

/// Saves a checkpoint behind those of its step that are gated, in place of what stands there, and gates it.
///
/// All that it names has to be sure before. After `Shelf` it is gated or it isn't: load before the next one is saved.
pub fn save<S: Shelf>(point: &Checkpoint, shelf: &mut S) -> Result<(), StreamFault>
    ensures content { Told S.tells shelf.old shelf.new
        (Ran (DuringSave point.now (now (S.world shelf.old))) (S.world shelf.old) (S.world shelf.new)) }
    ensures ok { OnOk result (IsTrue (S.tells shelf.new)
        → IsSaved point.now (now (S.world shelf.old)).folder (now (S.world shelf.new)).folder) }
    ensures err { IfErr result (λ fault. IsTrue (S.tells shelf.new)
        → IsSaveFault point.now.step (now (S.world shelf.old)).folder (now (S.world shelf.new)).folder fault) }
    ensures calls { IsTrue (S.tells shelf.new)
        → (S.world shelf.new).clock ≤ (S.world shelf.old).clock + 14 }
    ensures fits { Fits point.now }
    ensures faults { OnlyShelf (S.faults shelf.old) (S.faults shelf.new) result }
{
    let bytes = bytes_of(point);
    let count = shelf.len(checkpoint_gate(point.step))?;
    let size = shelf.len(checkpoint_file(point.step))?;
    if size / SIZE < count {
        return Err(StreamFault::Damaged {
            file: checkpoint_file(point.step),
            at: SIZE * count.saturating_sub(1),
        });
    }
    put_behind(point, &bytes, count, shelf)?;
    Ok(())
}

// Puts a checkpoint, of which these are the bytes, behind the first ones, of which there are so many, and gates it.
fn put_behind<S: Shelf>(
    point: &Checkpoint,
    bytes: &[u8],
    count: u64,
    shelf: &mut S,
) -> Result<(), Failed>
    requires bytes { bytes.now ≡ point_bytes point.now }
    requires len { length bytes.now ≡ point_size }
    requires gated { IsTrue (S.tells shelf.old)
        → count ≡ length (file (S.world shelf.old) (checkpoint_gate point.now.step)).bytes }
    requires within { IsTrue (S.tells shelf.old)
        → point_size * count ≤ length (file (S.world shelf.old) (checkpoint_file point.now.step)).bytes }
    requires small { point_size * count ≤ 2 ^ 50 }
    ensures content { Told S.tells shelf.old shelf.new
        (Ran (DuringSave point.now (now (S.world shelf.old))) (S.world shelf.old) (S.world shelf.new)) }
    ensures ok { OnOk result (IsTrue (S.tells shelf.new)
        → IsSaved point.now (now (S.world shelf.old)).folder (now (S.world shelf.new)).folder) }
    ensures calls { IsTrue (S.tells shelf.new)
        → (S.world shelf.new).clock ≤ (S.world shelf.old).clock + 12 }
    ensures faults { OnlyFolder (S.faults shelf.old) (S.faults shelf.new) result }
{
    // The checkpoint has to be sure before its gate: behind an open gate other bytes would count.
    let at = SIZE * count;
    replace_from(checkpoint_file(point.step), at, bytes, shelf)?;
    lengthen(checkpoint_gate(point.step), count, shelf)
}
