//! Values that are put at the end of a file.
ghost use Rattle.std.specs.Prelude.{length};
ghost use Rattle.block_stream.specs.Writes.{IsFilling};

use crate::filling::{Filling, put_record, settle_records};
use rec_words::{Rec, Spill};
use shelf_model::{FileNo, Shelf, StreamFault};
use std::marker::PhantomData;

/// Puts values at the end of a file, whose records wait in a window until they fill a piece or the window.
///
/// No other call changes the file meanwhile. After a refusal it isn't used again.
#[derive(Drop)]
pub struct Appender<'r, T> {
    window: &'r mut [Rec],
    filling: Filling,
    of: PhantomData<T>,
    ghost fills: { IsFilling filling (length window.now) },
}

impl<'r, T: Spill> Appender<'r, T> {
    ghost use Rattle.std.specs.Prelude.{◌≡◌, ◌+◌, ◌*◌, ◌<◌, ◌≤◌, ◌++◌, [], IsTrue, ◌∷◌, OnOk, IfOk, IfErr, List, take};
    ghost use Rattle.shelf_model.specs.File.{firm_file};
    ghost use Rattle.shelf_model.specs.World.{file};
    ghost use Rattle.shelf_model.specs.Calls.{Told, longest};
    ghost use Rattle.shelf_model.specs.Faults.{OnlyShelf};
    ghost use Rattle.block_stream.specs.Reads.{IsDamageOf, IsShort};
    ghost use Rattle.block_stream.specs.Writes.{Wrote, Cut, Fills, InStep, SameFile, count_of};
    ghost use Rattle.block_stream.specs.Appenders.{filling_of, room_of, written_of, Holds, HoldsItems};
    ghost use Rattle.block_stream.specs.Records.{piece_records};
    ghost use Rattle.block_stream.specs.Items.{item_bytes};

    /// Cuts a file to nothing, and begins at its front.
    pub fn start<S: Shelf>(
        f: FileNo,
        window: &'r mut [Rec],
        shelf: &mut S,
    ) -> Result<Appender<'r, T>, StreamFault>
        requires enough { 8 ≤ length window.old }
        ensures file { IfOk result (λ a. (filling_of a).file ≡ f) }
        ensures words { IfOk result (λ a. (filling_of a).words ≡ T.WORDS) }
        ensures count { IfOk result (λ a. count_of (filling_of a) ≡ 0) }
        ensures bound { IfOk result (λ a. IsFilling (filling_of a) (room_of a)) }
        ensures room { IfOk result (λ a. room_of a ≡ length window.entry.now) }
        ensures holds { IfOk result (λ a. IsTrue (S.tells shelf.new) → Holds a (S.world shelf.new) []) }
        ensures cause { IfErr result (λ e. e ≡ StreamFault.Shelf) }
        ensures content { Told S.tells shelf.old shelf.new (Cut 1 f 0 (S.world shelf.old) (S.world shelf.new)) }
        ensures faults { OnlyShelf (S.faults shelf.old) (S.faults shelf.new) result }
    {
        let filling = Filling::start(f, T::WORDS, shelf)?;
        Ok(Appender {
            window,
            filling,
            of: PhantomData,
        })
    }

    /// Goes on behind the first records of a file, so many of them, and cuts off the others.
    pub fn resume<S: Shelf>(
        f: FileNo,
        count: u64,
        window: &'r mut [Rec],
        shelf: &mut S,
    ) -> Result<Appender<'r, T>, StreamFault>
        requires enough { 8 ≤ length window.old }
        ensures file { IfOk result (λ a. (filling_of a).file ≡ f) }
        ensures words { IfOk result (λ a. (filling_of a).words ≡ T.WORDS) }
        ensures count { IfOk result (λ a. count_of (filling_of a) ≡ count) }
        ensures bound { IfOk result (λ a. IsFilling (filling_of a) (room_of a)) }
        ensures room { IfOk result (λ a. room_of a ≡ length window.entry.now) }
        ensures holds { IfOk result (λ a. IsTrue (S.tells shelf.new) → Holds a (S.world shelf.new)
            (take (count * (8 * T.WORDS)) (file (S.world shelf.old) f).bytes)) }
        ensures whole { OnOk result (IsTrue (S.tells shelf.new) →
            count * (8 * T.WORDS) ≤ length (file (S.world shelf.old) f).bytes) }
        ensures damaged { IfErr result (IsDamageOf f) }
        ensures short { IfErr result (λ e. IsTrue (S.tells shelf.new) →
            IsShort T.WORDS count (file (S.world shelf.old) f).bytes e) }
        ensures content { Told S.tells shelf.old shelf.new
            (Cut 2 f (count * (8 * T.WORDS)) (S.world shelf.old) (S.world shelf.new)) }
        ensures faults { OnlyShelf (S.faults shelf.old) (S.faults shelf.new) result }
    {
        let filling = Filling::resume(f, T::WORDS, count, shelf)?;
        Ok(Appender {
            window,
            filling,
            of: PhantomData,
        })
    }

    /// Puts a value behind the others. It makes a call only where a full piece waits.
    pub fn put<S: Shelf>(&mut self, item: T, shelf: &mut S) -> Result<(), StreamFault>
        requires in_step { IsTrue (S.tells shelf.old) → InStep (filling_of self.old) (S.world shelf.old) }
        ensures same { SameFile (filling_of self.old) (filling_of self.new) }
        ensures count { OnOk result (count_of (filling_of self.new) ≡ count_of (filling_of self.old) + 1) }
        ensures bound { IsFilling (filling_of self.new) (room_of self.new) }
        ensures room { room_of self.new ≡ room_of self.old }
        ensures holds { OnOk result (IsTrue (S.tells shelf.new) → Holds self.new (S.world shelf.new)
            (written_of self.old (S.world shelf.old) ++ item_bytes T.words (filling_of self.old).words item)) }
        ensures items { OnOk result (IsTrue (S.tells shelf.new) → (filling_of self.old).words ≡ T.WORDS →
            (xs : List T) → HoldsItems T.is_value T.words self.old (S.world shelf.old) xs →
            HoldsItems T.is_value T.words self.new (S.world shelf.new) (xs ++ item ∷ [])) }
        ensures waits { OnOk result (Fills (room_of self.old) (filling_of self.old) (filling_of self.new)) }
        ensures calls { IsTrue (S.tells shelf.new) → let w = filling_of self.old in
            w.waiting < piece_records w.words (room_of self.old) →
            (S.world shelf.new).clock ≡ (S.world shelf.old).clock }
        ensures cause { IfErr result (λ e. e ≡ StreamFault.Shelf) }
        ensures content { Told S.tells shelf.old shelf.new
            (Wrote 1 (filling_of self.old).file (S.world shelf.old) (S.world shelf.new)) }
        ensures faults { OnlyShelf (S.faults shelf.old) (S.faults shelf.new) result }
    {
        put_record(self.window, &mut self.filling, item.to_rec(), shelf)
    }

    /// Makes all that was put stand in the file, whatever a stop leaves.
    pub fn settle<S: Shelf>(&mut self, shelf: &mut S) -> Result<(), StreamFault>
        requires in_step { IsTrue (S.tells shelf.old) → InStep (filling_of self.old) (S.world shelf.old) }
        ensures same { SameFile (filling_of self.old) (filling_of self.new) }
        ensures count { OnOk result (count_of (filling_of self.new) ≡ count_of (filling_of self.old)) }
        ensures fits { OnOk result (let w = filling_of self.new in count_of w * (8 * w.words) ≤ longest) }
        ensures bound { IsFilling (filling_of self.new) (room_of self.new) }
        ensures room { room_of self.new ≡ room_of self.old }
        ensures firm { OnOk result (IsTrue (S.tells shelf.new) → file (S.world shelf.new) (filling_of self.old).file
            ≡ firm_file (written_of self.old (S.world shelf.old))) }
        ensures holds { OnOk result (IsTrue (S.tells shelf.new) →
            Holds self.new (S.world shelf.new) (written_of self.old (S.world shelf.old))) }
        ensures cause { IfErr result (λ e. e ≡ StreamFault.Shelf) }
        ensures content { Told S.tells shelf.old shelf.new
            (Wrote 2 (filling_of self.old).file (S.world shelf.old) (S.world shelf.new)) }
        ensures faults { OnlyShelf (S.faults shelf.old) (S.faults shelf.new) result }
    {
        settle_records(self.window, &mut self.filling, shelf)
    }

    /// How many values were put, with those that the file had at first.
    pub fn count(&self) -> u64
        ensures { result ≡ count_of (filling_of self.now) }
    {
        self.filling.count()
    }
}
