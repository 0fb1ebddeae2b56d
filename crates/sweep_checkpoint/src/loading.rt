//! Loading the last checkpoint that is gated.
ghost use Rattle.std.specs.Prelude.{◌≡◌, ◌+◌, ◌-◌, ◌*◌, ◌^◌, ◌<◌, ◌≤◌, IsTrue, IfOk, IfErr, IfSome, None, length};
ghost use Rattle.shelf_model.specs.World.{now, file};
ghost use Rattle.shelf_model.specs.Calls.{Told};
ghost use Rattle.shelf_model.specs.Moments.{Ran, Stays};
ghost use Rattle.shelf_model.specs.Faults.{OnlyFolder, OnlyShelf};
ghost use Rattle.file_numbers.specs.Files.{checkpoint_file, checkpoint_gate};
ghost use Rattle.sweep_checkpoint.specs.Points.{point_size};
ghost use Rattle.sweep_checkpoint.specs.Gated.{present};
ghost use Rattle.sweep_checkpoint.specs.Rules.{KeepsRules};
ghost use Rattle.file_writes.specs.Writes.{pieces};
ghost use Rattle.sweep_checkpoint.specs.Loads.{DuringLoad, IsLoaded, IsLoadFault, ReadWhole, IsPointAt, IsPointFault};

use crate::blank::blank;
use crate::layout::POINT_SIZE;
use crate::point::point_of;
use file_numbers::{checkpoint_file, checkpoint_gate};
use shelf_model::{Failed, FileNo, PIECE, Shelf, StreamFault};
use sweep_core::Checkpoint;

// The bytes of a checkpoint in a file.
const SIZE: u64 = POINT_SIZE as u64;

/// Loads the last checkpoint of a step that is gated, whichever budget the run had that wrote it. None is there where
/// nothing is gated.
///
/// The gate is made sure before its length is read.
pub fn load<S: Shelf>(step: u32, shelf: &mut S) -> Result<Option<Checkpoint>, StreamFault>
    ensures content { Told S.tells shelf.old shelf.new
        (Ran (DuringLoad step (now (S.world shelf.old))) (S.world shelf.old) (S.world shelf.new)) }
    ensures rules { IfOk result (λ found. IfSome found (KeepsRules step)) }
    ensures ok { IfOk result (λ found. IsTrue (S.tells shelf.new)
        → IsLoaded step (now (S.world shelf.new)).folder found) }
    ensures err { IfErr result (λ fault. IsTrue (S.tells shelf.new)
        → IsLoadFault step (present (now (S.world shelf.old)).folder) fault) }
    ensures calls { IsTrue (S.tells shelf.new)
        → (S.world shelf.new).clock ≤ (S.world shelf.old).clock + 10 }
    ensures few_calls { IfOk result (λ found. IsTrue (S.tells shelf.new) → found ≡ None
        → (S.world shelf.new).clock ≤ (S.world shelf.old).clock + 2) }
    ensures faults { OnlyShelf (S.faults shelf.old) (S.faults shelf.new) result }
{
    let gate = checkpoint_gate(step);
    // Until the gate is made sure, an image may have another length of it than a read gives.
    shelf.sync(gate)?;
    let count = shelf.len(gate)?;
    if count == 0 {
        return Ok(None);
    }
    match read_point(step, SIZE * (count - 1), shelf) {
        Ok(point) => Ok(Some(point)),
        Err(fault) => Err(fault),
    }
}

// The checkpoint at a place.
fn read_point<S: Shelf>(step: u32, at: u64, shelf: &mut S) -> Result<Checkpoint, StreamFault>
    requires small { at + point_size ≤ 2 ^ 64 }
    ensures content { Told S.tells shelf.old shelf.new
        (Ran (Stays (now (S.world shelf.old))) (S.world shelf.old) (S.world shelf.new)) }
    ensures rules { IfOk result (KeepsRules step) }
    ensures ok { IfOk result (λ point. IsTrue (S.tells shelf.new)
        → IsPointAt step at (file (S.world shelf.old) (checkpoint_file step)).bytes point) }
    ensures err { IfErr result (λ fault. IsTrue (S.tells shelf.new)
        → IsPointFault step at (file (S.world shelf.old) (checkpoint_file step)).bytes fault) }
    ensures calls { IsTrue (S.tells shelf.new)
        → (S.world shelf.new).clock ≤ (S.world shelf.old).clock + 8 }
    ensures faults { OnlyShelf (S.faults shelf.old) (S.faults shelf.new) result }
{
    let points = checkpoint_file(step);
    let damaged = StreamFault::Damaged { file: points, at };
    let mut bytes = blank();
    let whole = read_whole(points, at, &mut bytes, shelf)?;
    if !whole {
        return Err(damaged);
    }
    let Some(point) = point_of(&bytes, step) else {
        return Err(damaged);
    };
    Ok(point)
}

// Fills the bytes from a place of a file on, and answers whether the file has so many there.
fn read_whole<S: Shelf>(f: FileNo, at: u64, bytes: &mut [u8], shelf: &mut S) -> Result<bool, Failed>
    requires small { at + length bytes.old ≤ 2 ^ 64 }
    ensures content { Told S.tells shelf.old shelf.new
        (Ran (Stays (now (S.world shelf.old))) (S.world shelf.old) (S.world shelf.new)) }
    ensures ok { IfOk result (λ whole. IsTrue (S.tells shelf.new)
        → ReadWhole (file (S.world shelf.old) f).bytes at bytes.new whole) }
    ensures calls { IsTrue (S.tells shelf.new)
        → (S.world shelf.new).clock ≤ (S.world shelf.old).clock + pieces (length bytes.old) }
    ensures faults { OnlyFolder (S.faults shelf.old) (S.faults shelf.new) result }
{
    let mut done = 0;
    while done < bytes.len() {
        let next = done + PIECE.min(bytes.len() - done);
        let got = shelf.read_at(f, at + done as u64, &mut bytes[done..next])?;
        if got < next - done {
            return Ok(false);
        }
        done = next;
    }
    Ok(true)
}
