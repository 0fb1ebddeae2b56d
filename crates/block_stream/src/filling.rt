//! Records that are put at the end of a file, through a window.
ghost use Rattle.std.specs.Prelude.{◌≡◌, ℕ, ◌+◌, ◌-◌, ◌*◌, ◌/◌, ◌<◌, ◌≤◌, ◌++◌, [], IsTrue, OnOk, IfOk, IfErr, length, take};
ghost use Rattle.shelf_model.specs.File.{firm_file};
ghost use Rattle.shelf_model.specs.World.{file};
ghost use Rattle.shelf_model.specs.Calls.{Told, longest};
ghost use Rattle.shelf_model.specs.Faults.{OnlyFolder, OnlyShelf};
ghost use Rattle.block_stream.specs.Records.{piece_records, record_bytes};
ghost use Rattle.block_stream.specs.Reads.{IsDamageOf, IsShort};
ghost use Rattle.block_stream.specs.Writes.{Wrote, Cut, IsFilling, Fills, HasRoom, InStep, IsWriting, SameFile, count_of, written};

use crate::reading::byte_place;
use crate::record::{piece_len, write_records};
use rec_words::Rec;
use shelf_model::{Failed, FileNo, PIECE, Shelf, StreamFault};

/// A file that records are put at the end of, and how many of them wait in a window.
#[derive(Clone, Copy, Debug, PartialEq, Eq)]
pub struct Filling {
    /// The file that is written.
    pub(crate) file: FileNo,
    /// How many words its records have.
    pub(crate) words: usize,
    /// How many records were put into the file.
    pub(crate) stored: u64,
    /// How many records wait in the window, from its front on.
    pub(crate) waiting: usize,
}

impl Filling {
    /// Cuts a file to nothing, and begins at its front.
    pub fn start<S: Shelf>(f: FileNo, words: usize, shelf: &mut S) -> Result<Filling, Failed>
        requires words { (1 ≤ words) × (words ≤ 8) }
        ensures fresh { IfOk result (λ w. w ≡ record { file = f; words = words; stored = 0; waiting = 0 }) }
        ensures empty { OnOk result (IsTrue (S.tells shelf.new) → (file (S.world shelf.new) f).bytes ≡ []) }
        ensures content { Told S.tells shelf.old shelf.new (Cut 1 f 0 (S.world shelf.old) (S.world shelf.new)) }
        ensures faults { OnlyFolder (S.faults shelf.old) (S.faults shelf.new) result }
    {
        shelf.cut(f, 0)?;
        Ok(Filling {
            file: f,
            words,
            stored: 0,
            waiting: 0,
        })
    }

    /// Goes on with the first records of a file, so many of them, and cuts off the others.
    pub fn resume<S: Shelf>(
        f: FileNo,
        words: usize,
        count: u64,
        shelf: &mut S,
    ) -> Result<Filling, StreamFault>
        requires words { (1 ≤ words) × (words ≤ 8) }
        ensures kept { IfOk result (λ w. w ≡ record { file = f; words = words; stored = count; waiting = 0 }) }
        ensures fits { OnOk result (count * (8 * words) ≤ longest) }
        ensures bytes { OnOk result (IsTrue (S.tells shelf.new) →
            (file (S.world shelf.new) f).bytes ≡ take (count * (8 * words)) (file (S.world shelf.old) f).bytes) }
        ensures whole { OnOk result (IsTrue (S.tells shelf.new) →
            count * (8 * words) ≤ length (file (S.world shelf.old) f).bytes) }
        ensures damaged { IfErr result (IsDamageOf f) }
        ensures short { IfErr result (λ e. IsTrue (S.tells shelf.new) →
            IsShort words count (file (S.world shelf.old) f).bytes e) }
        ensures content { Told S.tells shelf.old shelf.new
            (Cut 2 f (count * (8 * words)) (S.world shelf.old) (S.world shelf.new)) }
        ensures faults { OnlyShelf (S.faults shelf.old) (S.faults shelf.new) result }
    {
        let width = 8 * words as u64;
        let whole = shelf.len(f)? / width;
        if whole < count {
            return Err(StreamFault::Damaged {
                file: f,
                at: whole * width,
            });
        }
        shelf.cut(f, count * width)?;
        Ok(Filling {
            file: f,
            words,
            stored: count,
            waiting: 0,
        })
    }

    /// The file that is written.
    pub fn file(&self) -> FileNo
        ensures { result ≡ self.now.file }
    {
        self.file
    }

    /// How many records were put, with those that the file had at first.
    pub fn count(&self) -> u64
        requires fills { (room : ℕ) × IsFilling self.now room }
        ensures { result ≡ count_of self.now }
    {
        self.stored + self.waiting as u64
    }
}

/// Puts the records that wait at the end of the file, with one call where there are any. A stop may lose them.
pub fn flush_records<S: Shelf>(
    window: &[Rec],
    filling: &mut Filling,
    shelf: &mut S,
) -> Result<(), Failed>
    requires fills { IsFilling filling.old (length window.now) }
    requires in_step { IsTrue (S.tells shelf.old) → InStep filling.old (S.world shelf.old) }
    ensures fills { IsFilling filling.new (length window.now) }
    ensures same { SameFile filling.old filling.new }
    ensures counted { count_of filling.new ≡ count_of filling.old }
    ensures settled { OnOk result (filling.new.waiting ≡ 0) }
    ensures bytes { OnOk result (IsTrue (S.tells shelf.new) →
        IsWriting filling.new window.now (S.world shelf.new) (written filling.old window.now (S.world shelf.old))) }
    ensures content { Told S.tells shelf.old shelf.new
        (Wrote 1 filling.old.file (S.world shelf.old) (S.world shelf.new)) }
    ensures faults { OnlyFolder (S.faults shelf.old) (S.faults shelf.new) result }
{
    if filling.waiting == 0 {
        return Ok(());
    }
    let len = filling.waiting * (8 * filling.words);
    let at = filling.stored * (8 * filling.words as u64);
    let mut piece = [0; PIECE];
    write_records(&window[..filling.waiting], filling.words, &mut piece[..len]);
    shelf.append(filling.file, at, &piece[..len])?;
    filling.stored += filling.waiting as u64;
    filling.waiting = 0;
    Ok(())
}

// Sees to it that the window has room for one record more.
fn make_room<S: Shelf>(window: &[Rec], filling: &mut Filling, shelf: &mut S) -> Result<(), Failed>
    requires fills { IsFilling filling.old (length window.now) }
    requires in_step { IsTrue (S.tells shelf.old) → InStep filling.old (S.world shelf.old) }
    ensures same { SameFile filling.old filling.new }
    ensures counted { OnOk result (count_of filling.new ≡ count_of filling.old) }
    ensures fills { IsFilling filling.new (length window.now) }
    ensures room { OnOk result (let room = length window.now in HasRoom filling.new room) }
    ensures stays { OnOk result (filling.old.waiting < piece_records filling.old.words (length window.now) →
        filling.new ≡ filling.old) }
    ensures flushed { OnOk result (piece_records filling.old.words (length window.now) ≤ filling.old.waiting →
        filling.new.waiting ≡ 0) }
    ensures calls { IsTrue (S.tells shelf.new) →
        filling.old.waiting < piece_records filling.old.words (length window.now) →
        (S.world shelf.new).clock ≡ (S.world shelf.old).clock }
    ensures bytes { OnOk result (IsTrue (S.tells shelf.new) →
        IsWriting filling.new window.now (S.world shelf.new) (written filling.old window.now (S.world shelf.old))) }
    ensures content { Told S.tells shelf.old shelf.new
        (Wrote 1 filling.old.file (S.world shelf.old) (S.world shelf.new)) }
    ensures faults { OnlyFolder (S.faults shelf.old) (S.faults shelf.new) result }
{
    if filling.waiting < piece_len(window.len(), filling.words) {
        return Ok(());
    }
    flush_records(window, filling, shelf)
}

/// Puts a record behind the others: into the window, whose records go to the file
/// with one call where a full piece of them waits.
pub fn put_record<S: Shelf>(
    window: &mut [Rec],
    filling: &mut Filling,
    item: Rec,
    shelf: &mut S,
) -> Result<(), StreamFault>
    requires fills { IsFilling filling.old (length window.old) }
    requires in_step { IsTrue (S.tells shelf.old) → InStep filling.old (S.world shelf.old) }
    ensures fills { IsFilling filling.new (length window.new) }
    ensures same { SameFile filling.old filling.new }
    ensures counted { OnOk result (count_of filling.new ≡ count_of filling.old + 1) }
    ensures bytes { OnOk result (IsTrue (S.tells shelf.new) → IsWriting filling.new window.new (S.world shelf.new)
        (written filling.old window.old (S.world shelf.old) ++ record_bytes filling.old.words item)) }
    ensures waits { OnOk result (Fills (length window.old) filling.old filling.new) }
    ensures calls { IsTrue (S.tells shelf.new) →
        filling.old.waiting < piece_records filling.old.words (length window.old) →
        (S.world shelf.new).clock ≡ (S.world shelf.old).clock }
    ensures cause { IfErr result (λ e. e ≡ StreamFault.Shelf) }
    ensures content { Told S.tells shelf.old shelf.new
        (Wrote 1 filling.old.file (S.world shelf.old) (S.world shelf.new)) }
    ensures faults { OnlyShelf (S.faults shelf.old) (S.faults shelf.new) result }
{
    make_room(window, filling, shelf)?;
    window[filling.waiting] = item;
    filling.waiting += 1;
    Ok(())
}

/// Makes all that was put stand in the file, whatever a stop leaves.
pub fn settle_records<S: Shelf>(
    window: &[Rec],
    filling: &mut Filling,
    shelf: &mut S,
) -> Result<(), StreamFault>
    requires fills { IsFilling filling.old (length window.now) }
    requires in_step { IsTrue (S.tells shelf.old) → InStep filling.old (S.world shelf.old) }
    ensures fills { IsFilling filling.new (length window.now) }
    ensures same { SameFile filling.old filling.new }
    ensures counted { OnOk result (count_of filling.new ≡ count_of filling.old) }
    ensures settled { OnOk result (filling.new.waiting ≡ 0) }
    ensures bytes { OnOk result (IsTrue (S.tells shelf.new) →
        file (S.world shelf.new) filling.old.file ≡ firm_file (written filling.old window.now (S.world shelf.old))) }
    ensures in_step { OnOk result (IsTrue (S.tells shelf.new) → InStep filling.new (S.world shelf.new)) }
    ensures cause { IfErr result (λ e. e ≡ StreamFault.Shelf) }
    ensures content { Told S.tells shelf.old shelf.new
        (Wrote 2 filling.old.file (S.world shelf.old) (S.world shelf.new)) }
    ensures faults { OnlyShelf (S.faults shelf.old) (S.faults shelf.new) result }
{
    let f = filling.file;
    flush_records(window, filling, shelf)?;
    shelf.sync(f)?;
    Ok(())
}
