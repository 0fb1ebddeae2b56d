//! A range of records from its end on.
ghost use Rattle.std.specs.Prelude.{◌≡◌, ℕ, ◌*◌, ◌-◌, ◌<◌, ◌≤◌, IsTrue, IfOk, List, length};
ghost use Rattle.shelf_model.specs.World.{file};
ghost use Rattle.shelf_model.specs.Calls.{Told, longest};
ghost use Rattle.shelf_model.specs.Faults.{OnlyShelf};
ghost use Rattle.block_stream.specs.Reads.{Looked, IsBackward, SameRange, AreLoaded, WaitsBehind, FillsBehind, GoesBack, TakesBehind, IsAnswer, IsTorn, place_of, waits_behind};

use crate::read::load;
use crate::reading::Reading;
use crate::record::piece_len;
use rec_words::{Rec, Spill};
use shelf_model::{FileNo, Shelf, StreamFault};
use std::marker::PhantomData;

/// The values of a range of a file's records, the last one first.
///
/// It reads only where none waits in its window, and then as many records as the window, a piece and what
/// is left of the range allow. After a refusal it isn't used again.
#[derive(Drop)]
pub struct Backward<'r, T> {
    window: &'r mut [Rec],
    reading: Reading,
    of: PhantomData<T>,
    ghost stands: { IsBackward reading (length window.now) },
}

impl<'r, T: Spill> Backward<'r, T> {
    ghost use Rattle.block_stream.specs.Backwards.{reading_of, room_of, Reads};
    ghost use Rattle.block_stream.specs.Items.{AreBehind, GivesLast};

    /// The stream of the records from one place up to another, from behind: the record before the second place
    /// is given first.
    pub fn start(f: FileNo, from: u64, to: u64, window: &'r mut [Rec]) -> Backward<'r, T>
        requires order { from ≤ to }
        requires range { to * (8 * T.WORDS) ≤ longest }
        requires room { 8 ≤ length window.old }
        ensures file { (reading_of result).file ≡ f }
        ensures words { (reading_of result).words ≡ T.WORDS }
        ensures place { place_of (reading_of result) ≡ to }
        ensures bound { (reading_of result).bound ≡ from }
        ensures waits { waits_behind (reading_of result) ≡ 0 }
        ensures room { room_of result ≡ length window.entry.now }
        ensures reads { (bytes : List ℕ) → Reads result bytes }
    {
        let reading = Reading {
            file: f,
            words: T::WORDS,
            bound: from,
            base: to,
            loaded: 0,
            at: 0,
        };
        Backward {
            window,
            reading,
            of: PhantomData,
        }
    }

    /// The value before the stream's place.
    ///
    /// A record that isn't whole, or that no value is stored as, is damaged where it is the one before the place.
    pub fn next<S: Shelf>(&mut self, shelf: &mut S) -> Result<Option<T>, StreamFault>
        ensures same { SameRange (reading_of self.old) (reading_of self.new) }
        ensures place { GoesBack T.is_value (reading_of self.old) (reading_of self.new) result }

        // of bytes that didn't change since the start
        ensures reads { IsTrue (S.tells shelf.new) → let r = reading_of self.old in
            let bytes = (file (S.world shelf.old) r.file).bytes in
            Reads self.old bytes → IfOk result (λ _. Reads self.new bytes) }
        ensures value { IsTrue (S.tells shelf.new) → let r = reading_of self.old in
            let bytes = (file (S.world shelf.old) r.file).bytes in
            Reads self.old bytes → IsAnswer T.is_value T.words r.words (place_of r - 1) bytes result }
        ensures items { IsTrue (S.tells shelf.new) → let r = reading_of self.old in
            let bytes = (file (S.world shelf.old) r.file).bytes in
            Reads self.old bytes → (xs : List T) → AreBehind T.is_value T.words r bytes xs →
            GivesLast (AreBehind T.is_value T.words (reading_of self.new) bytes) xs result }

        // what waits afterwards, what the call leaves and what it costs
        ensures room { room_of self.new ≡ room_of self.old }
        ensures waits { TakesBehind (room_of self.old) (reading_of self.old) (reading_of self.new) result }
        ensures calls { IsTrue (S.tells shelf.new) → 0 < waits_behind (reading_of self.old) →
            (S.world shelf.new).clock ≡ (S.world shelf.old).clock }
        ensures content { Told S.tells shelf.old shelf.new (Looked 1 (S.world shelf.old) (S.world shelf.new)) }
        ensures faults { OnlyShelf (S.faults shelf.old) (S.faults shelf.new) result }
    {
        next_backward(self.window, &mut self.reading, shelf)
    }

    /// The file that is read.
    pub fn file(&self) -> FileNo
        ensures { result ≡ (reading_of self.now).file }
    {
        self.reading.file
    }

    /// The place that the stream has come back to, in records: those before it are still to be given.
    pub fn place(&self) -> u64
        ensures { result ≡ place_of (reading_of self.now) }
    {
        self.reading.base + self.reading.at as u64
    }
}

// Sees to it that a record waits, where any is left, and answers whether one does.
fn wait_backward<S: Shelf>(
    window: &mut [Rec],
    reading: &mut Reading,
    shelf: &mut S,
) -> Result<bool, StreamFault>
    requires stands { IsBackward reading.old (length window.old) }
    ensures stands { IsBackward reading.new (length window.new) }
    ensures same { SameRange reading.old reading.new }
    ensures place { place_of reading.new ≡ place_of reading.old }
    ensures waits { WaitsBehind reading.old reading.new result }
    ensures fills { FillsBehind (length window.old) reading.old reading.new result }
    ensures calls { IsTrue (S.tells shelf.new) → 0 < waits_behind reading.old →
        (S.world shelf.new).clock ≡ (S.world shelf.old).clock }
    ensures loaded { IsTrue (S.tells shelf.new) → let bytes = (file (S.world shelf.old) reading.old.file).bytes in
        AreLoaded reading.old window.old bytes → IfOk result (λ _. AreLoaded reading.new window.new bytes) }
    ensures torn { IsTrue (S.tells shelf.new) → let bytes = (file (S.world shelf.old) reading.old.file).bytes in
        IsTorn reading.old.words (place_of reading.old - 1) bytes result }
    ensures content { Told S.tells shelf.old shelf.new (Looked 1 (S.world shelf.old) (S.world shelf.new)) }
    ensures faults { OnlyShelf (S.faults shelf.old) (S.faults shelf.new) result }
{
    if reading.at > 0 {
        return Ok(true);
    }
    if reading.base <= reading.bound {
        return Ok(false);
    }
    let end = reading.base;
    let piece = piece_len(window.len(), reading.words) as u64;
    let wanted = piece.min(end - reading.bound) as usize;
    let loaded = load(
        reading.file,
        reading.words,
        end - wanted as u64,
        wanted,
        window,
        shelf,
    )?;
    if loaded < wanted {
        return Err(reading.damage_at(end - 1));
    }
    reading.base = end - wanted as u64;
    reading.loaded = wanted;
    reading.at = wanted;
    Ok(true)
}

fn next_backward<T: Spill, S: Shelf>(
    window: &mut [Rec],
    reading: &mut Reading,
    shelf: &mut S,
) -> Result<Option<T>, StreamFault>
    requires stands { IsBackward reading.old (length window.old) }
    ensures stands { IsBackward reading.new (length window.new) }
    ensures same { SameRange reading.old reading.new }
    ensures place { GoesBack T.is_value reading.old reading.new result }
    ensures takes { TakesBehind (length window.old) reading.old reading.new result }
    ensures calls { IsTrue (S.tells shelf.new) → 0 < waits_behind reading.old →
        (S.world shelf.new).clock ≡ (S.world shelf.old).clock }
    ensures loaded { IsTrue (S.tells shelf.new) → let bytes = (file (S.world shelf.old) reading.old.file).bytes in
        AreLoaded reading.old window.old bytes → IfOk result (λ _. AreLoaded reading.new window.new bytes) }
    ensures value { IsTrue (S.tells shelf.new) → let bytes = (file (S.world shelf.old) reading.old.file).bytes in
        AreLoaded reading.old window.old bytes →
        IsAnswer T.is_value T.words reading.old.words (place_of reading.old - 1) bytes result }
    ensures content { Told S.tells shelf.old shelf.new (Looked 1 (S.world shelf.old) (S.world shelf.new)) }
    ensures faults { OnlyShelf (S.faults shelf.old) (S.faults shelf.new) result }
{
    if !wait_backward(window, reading, shelf)? {
        return Ok(None);
    }
    let record = window[reading.at - 1];
    let Some(item) = T::from_rec(&record) else {
        return Err(reading.damage_at(reading.base + reading.at as u64 - 1));
    };
    reading.at -= 1;
    Ok(Some(item))
}
