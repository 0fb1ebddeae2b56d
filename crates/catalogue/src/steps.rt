//! The committed steps: their entries, one behind the other, and the gate that counts them.
ghost use Rattle.std.specs.Prelude.{◌≡◌, ◌+◌, ◌*◌, ◌<◌, ◌≤◌, length, IsTrue, OnOk, IfOk, IfErr};
ghost use Rattle.shelf_model.specs.World.{now, file};
ghost use Rattle.shelf_model.specs.Calls.{Told};
ghost use Rattle.shelf_model.specs.Moments.{Ran, Stays};
ghost use Rattle.shelf_model.specs.Faults.{OnlyFolder, OnlyShelf};
ghost use Rattle.catalogue.specs.Counts.{count_in, present};
ghost use Rattle.catalogue.specs.Entries.{IsEntry, IsEntryOf, IsEntryFault};
ghost use Rattle.catalogue.specs.Files.{entry_size, catalogue};
ghost use Rattle.catalogue.specs.Commits.{IsReady, DuringCommit, IsCommitted};
ghost use Rattle.catalogue.specs.Commits.{DuringPut, IsPut, DuringCommits, AreCommitted};

use crate::layout::{ENTRY_SIZE, Entry};
use file_numbers::{CATALOGUE, STEP_GATE};
use file_writes::append_all;
use shelf_model::{Failed, Shelf, StreamFault};

/// The most steps that one commit takes.
pub const MOST_WAITING: usize = 1024;

/// The entry of step `k`, which has to be committed.
///
/// It isn't judged against the plan: whether its kind is that of the step, its caller knows.
///
/// Refuses where the call of the folder fails (`Shelf`), and where the 128 bytes at the step's place are no entry of it
/// (`Damaged`, from the first of them on). No file changes.
pub fn entry<S: Shelf>(k: u32, shelf: &mut S) -> Result<Entry, StreamFault>
    requires committed { IsTrue (S.tells shelf.old)
        → k < count_in (present (now (S.world shelf.old)).folder) }
    ensures content { Told S.tells shelf.old shelf.new
        (Ran (Stays (now (S.world shelf.old))) (S.world shelf.old) (S.world shelf.new)) }
    ensures ok { IfOk result (λ e. IsTrue (S.tells shelf.new)
        → IsEntryOf k (present (now (S.world shelf.old)).folder) e) }
    ensures keeps { IfOk result IsEntry }
    ensures err { IfErr result (λ fault. IsTrue (S.tells shelf.new)
        → IsEntryFault k (present (now (S.world shelf.old)).folder) fault) }
    ensures calls { IsTrue (S.tells shelf.new)
        → (S.world shelf.new).clock ≤ (S.world shelf.old).clock + 1 }
    ensures faults { OnlyShelf (S.faults shelf.old) (S.faults shelf.new) result }
{
    let at = ENTRY_SIZE as u64 * k as u64;
    let damaged = StreamFault::Damaged {
        file: CATALOGUE,
        at,
    };
    let mut bytes = [0u8; ENTRY_SIZE];
    let got = shelf.read_at(CATALOGUE, at, &mut bytes)?;
    if got < ENTRY_SIZE {
        return Err(damaged);
    }
    let Some(entry) = Entry::from_bytes(&bytes) else {
        return Err(damaged);
    };
    if entry.number != k {
        return Err(damaged);
    }
    Ok(entry)
}

/// Puts the entry of a step in its place: behind the `committed` steps, and the entries of those that wait between them
/// and this one. What stood there or behind it is gone.
///
/// Nothing is made sure, and no step more is committed: `commit_waiting` does both. After `Failed` the entries before
/// this one stand as they did, and it can be put again.
pub fn put_entry<S: Shelf>(entry: &Entry, committed: u32, shelf: &mut S) -> Result<(), Failed>
    requires behind { committed ≤ entry.now.number }
    requires ready { IsTrue (S.tells shelf.old) → IsReady committed (now (S.world shelf.old)).folder }
    requires within { IsTrue (S.tells shelf.old)
        → entry_size * entry.now.number ≤ length (file (S.world shelf.old) catalogue).bytes }
    ensures content { Told S.tells shelf.old shelf.new
        (Ran (DuringPut committed entry.now (now (S.world shelf.old)))
        (S.world shelf.old) (S.world shelf.new)) }
    ensures ok { OnOk result (IsTrue (S.tells shelf.new)
        → IsPut committed entry.now (now (S.world shelf.old)).folder (now (S.world shelf.new)).folder) }
    ensures calls { IsTrue (S.tells shelf.new)
        → (S.world shelf.new).clock ≤ (S.world shelf.old).clock + 2 }
    ensures faults { OnlyFolder (S.faults shelf.old) (S.faults shelf.new) result }
{
    let at = ENTRY_SIZE as u64 * entry.number as u64;
    shelf.cut(CATALOGUE, at)?;
    append_all(CATALOGUE, at, &entry.to_bytes(), shelf)
}

/// Commits so many steps, 1 to 1,024 of them, whose entries wait behind those of the committed ones.
///
/// All that the entries speak of has to be sure before. After `Failed` some of the steps, all or none are committed:
/// attach again before the next commit.
pub fn commit_waiting<S: Shelf>(committed: u32, waiting: u32, shelf: &mut S) -> Result<(), Failed>
    requires some { (1 ≤ waiting) × (waiting ≤ MOST_WAITING) }
    requires ready { IsTrue (S.tells shelf.old) → IsReady committed (now (S.world shelf.old)).folder }
    requires within { IsTrue (S.tells shelf.old)
        → entry_size * (committed + waiting) ≤ length (file (S.world shelf.old) catalogue).bytes }
    ensures content { Told S.tells shelf.old shelf.new
        (Ran (DuringCommits committed waiting (now (S.world shelf.old)))
        (S.world shelf.old) (S.world shelf.new)) }
    ensures ok { OnOk result (IsTrue (S.tells shelf.new)
        → AreCommitted committed waiting (now (S.world shelf.old)).folder (now (S.world shelf.new)).folder) }
    ensures calls { IsTrue (S.tells shelf.new)
        → (S.world shelf.new).clock ≤ (S.world shelf.old).clock + 3 }
    ensures faults { OnlyFolder (S.faults shelf.old) (S.faults shelf.new) result }
{
    let steps = [0u8; MOST_WAITING];
    shelf.sync(CATALOGUE)?;
    shelf.append(STEP_GATE, committed as u64, &steps[..waiting as usize])?;
    shelf.sync(STEP_GATE)
}

/// Commits the step that the entry is of: the step after those that are committed.
///
/// All that the entry speaks of has to be sure before. After `Failed` the step is committed or it
/// isn't: attach again before the next commit.
pub fn commit<S: Shelf>(entry: &Entry, shelf: &mut S) -> Result<(), Failed>
    requires ready { IsTrue (S.tells shelf.old)
        → IsReady entry.now.number (now (S.world shelf.old)).folder }
    ensures content { Told S.tells shelf.old shelf.new
        (Ran (DuringCommit entry.now (now (S.world shelf.old)))
        (S.world shelf.old) (S.world shelf.new)) }
    ensures ok { OnOk result (IsTrue (S.tells shelf.new)
        → IsCommitted entry.now (now (S.world shelf.old)).folder (now (S.world shelf.new)).folder) }
    ensures calls { IsTrue (S.tells shelf.new)
        → (S.world shelf.new).clock ≤ (S.world shelf.old).clock + 5 }
    ensures faults { OnlyFolder (S.faults shelf.old) (S.faults shelf.new) result }
{
    put_entry(entry, entry.number, shelf)?;
    commit_waiting(entry.number, 1, shelf)
}
