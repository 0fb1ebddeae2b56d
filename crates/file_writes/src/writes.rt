//! Writing to a file: behind what is kept of it, and a gate by one byte.
ghost use Rattle.std.specs.Prelude.{◌≡◌, ◌+◌, ◌^◌, ◌<◌, ◌≤◌, [], ◌∷◌, ◌++◌, length, take, IsTrue, OnOk};
ghost use Rattle.shelf_model.specs.File.{firm_file};
ghost use Rattle.shelf_model.specs.World.{now, file};
ghost use Rattle.shelf_model.specs.Calls.{Told};
ghost use Rattle.shelf_model.specs.Moments.{Ran};
ghost use Rattle.shelf_model.specs.Faults.{OnlyFolder};
ghost use Rattle.file_writes.specs.Writes.{pieces, Growing, Replacing};

use shelf_model::{Failed, FileNo, PIECE, Shelf};

/// Puts bytes at the end of a file, whose length is `at`. They aren't made sure.
///
/// After `Failed` some of them, or none, stand there.
pub fn append_all<S: Shelf>(f: FileNo, at: u64, bytes: &[u8], shelf: &mut S) -> Result<(), Failed>
    requires small { at + length bytes.now < 2 ^ 64 }
    requires at_end { IsTrue (S.tells shelf.old) → at ≡ length (file (S.world shelf.old) f).bytes }
    ensures content { Told S.tells shelf.old shelf.new
        (Ran (Growing f (length bytes.now) (now (S.world shelf.old)))
        (S.world shelf.old) (S.world shelf.new)) }
    ensures ok { OnOk result (IsTrue (S.tells shelf.new)
        → (file (S.world shelf.new) f).bytes ≡ (file (S.world shelf.old) f).bytes ++ bytes.now) }
    ensures calls { IsTrue (S.tells shelf.new)
        → (S.world shelf.new).clock ≤ (S.world shelf.old).clock + pieces (length bytes.now) }
    ensures faults { OnlyFolder (S.faults shelf.old) (S.faults shelf.new) result }
{
    let mut done = 0;
    while done < bytes.len() {
        let next = done + PIECE.min(bytes.len() - done);
        shelf.append(f, at + done as u64, &bytes[done..next])?;
        done = next;
    }
    Ok(())
}

/// Replaces what stands from byte `at` on by these bytes, and makes the file sure.
///
/// After `Failed` the file may be cut at that place or not, with some of the bytes behind it. What it kept before that
/// place it keeps.
pub fn replace_from<S: Shelf>(f: FileNo, at: u64, bytes: &[u8], shelf: &mut S) -> Result<(), Failed>
    requires small { at + length bytes.now < 2 ^ 64 }
    requires within { IsTrue (S.tells shelf.old) → at ≤ length (file (S.world shelf.old) f).bytes }
    ensures content { Told S.tells shelf.old shelf.new
        (Ran (Replacing f at (length bytes.now) (now (S.world shelf.old)))
        (S.world shelf.old) (S.world shelf.new)) }
    ensures ok { OnOk result (IsTrue (S.tells shelf.new)
        → file (S.world shelf.new) f
        ≡ firm_file (take at (file (S.world shelf.old) f).bytes ++ bytes.now)) }
    ensures calls { IsTrue (S.tells shelf.new)
        → (S.world shelf.new).clock ≤ (S.world shelf.old).clock + 2 + pieces (length bytes.now) }
    ensures faults { OnlyFolder (S.faults shelf.old) (S.faults shelf.new) result }
{
    shelf.cut(f, at)?;
    append_all(f, at, bytes, shelf)?;
    shelf.sync(f)
}

/// Lengthens a gate of `at` bytes by one byte, and makes it sure.
///
/// All that the gate counts has to be sure before. After `Failed` it has grown or it hasn't.
pub fn lengthen<S: Shelf>(gate: FileNo, at: u64, shelf: &mut S) -> Result<(), Failed>
    requires at_end { IsTrue (S.tells shelf.old)
        → at ≡ length (file (S.world shelf.old) gate).bytes }
    ensures content { Told S.tells shelf.old shelf.new
        (Ran (Growing gate 1 (now (S.world shelf.old))) (S.world shelf.old) (S.world shelf.new)) }
    ensures ok { OnOk result (IsTrue (S.tells shelf.new)
        → file (S.world shelf.new) gate
        ≡ firm_file ((file (S.world shelf.old) gate).bytes ++ 0 ∷ [])) }
    ensures calls { IsTrue (S.tells shelf.new)
        → (S.world shelf.new).clock ≤ (S.world shelf.old).clock + 2 }
    ensures faults { OnlyFolder (S.faults shelf.old) (S.faults shelf.new) result }
{
    shelf.append(gate, at, &[0])?;
    shelf.sync(gate)
}
