//! A range of records from its front on.
ghost use Rattle.std.specs.Prelude.{◌≡◌, ℕ, ◌*◌, ◌<◌, ◌≤◌, IsTrue, IfOk, List, length};
ghost use Rattle.shelf_model.specs.World.{file};
ghost use Rattle.shelf_model.specs.Calls.{Told, longest};
ghost use Rattle.shelf_model.specs.Faults.{OnlyShelf};
ghost use Rattle.block_stream.specs.Reads.{Looked, IsForward, SameRange, AreLoaded, Waits, FillsAhead, StopsAhead, GoesOn, TakesAhead, EndsAhead, IsAnswer, IsTorn, place_of, waits_ahead};

use crate::read::load;
use crate::reading::Reading;
use crate::record::piece_len;
use rec_words::{Rec, Spill};
use shelf_model::{FileNo, Shelf, StreamFault};
use std::marker::PhantomData;

/// The values of a range of a file's records, the first one first.
///
/// It reads only where none waits in its window, and then as many records as the window, a piece and what
/// is left of the range allow. After a refusal it isn't used again.
#[derive(Drop)]
pub struct Forward<'r, T> {
    window: &'r mut [Rec],
    reading: Reading,
    of: PhantomData<T>,
    ghost stands: { IsForward reading (length window.now) },
}

impl<'r, T: Spill> Forward<'r, T> {
    ghost use Rattle.block_stream.specs.Forwards.{reading_of, room_of, Reads};
    ghost use Rattle.block_stream.specs.Items.{AreAhead, GivesFirst};

    /// The stream of the records from one place up to another.
    pub fn start(f: FileNo, from: u64, to: u64, window: &'r mut [Rec]) -> Forward<'r, T>
        requires order { from ≤ to }
        requires range { to * (8 * T.WORDS) ≤ longest }
        requires room { 8 ≤ length window.old }
        ensures file { (reading_of result).file ≡ f }
        ensures words { (reading_of result).words ≡ T.WORDS }
        ensures place { place_of (reading_of result) ≡ from }
        ensures bound { (reading_of result).bound ≡ to }
        ensures waits { waits_ahead (reading_of result) ≡ 0 }
        ensures room { room_of result ≡ length window.entry.now }
        ensures reads { (bytes : List ℕ) → Reads result bytes }
    {
        let reading = Reading {
            file: f,
            words: T::WORDS,
            bound: to,
            base: from,
            loaded: 0,
            at: 0,
        };
        Forward {
            window,
            reading,
            of: PhantomData,
        }
    }

    /// The next value of the range.
    ///
    /// A record that isn't whole, or that no value is stored as, is damaged where it is the next one.
    pub fn next<S: Shelf>(&mut self, shelf: &mut S) -> Result<Option<T>, StreamFault>
        ensures same { SameRange (reading_of self.old) (reading_of self.new) }
        ensures place { GoesOn T.is_value (reading_of self.old) (reading_of self.new) result }

        // of bytes that didn't change since the start
        ensures reads { IsTrue (S.tells shelf.new) → let r = reading_of self.old in
            let bytes = (file (S.world shelf.old) r.file).bytes in
            Reads self.old bytes → IfOk result (λ _. Reads self.new bytes) }
        ensures value { IsTrue (S.tells shelf.new) → let r = reading_of self.old in
            let bytes = (file (S.world shelf.old) r.file).bytes in
            Reads self.old bytes → IsAnswer T.is_value T.words r.words (place_of r) bytes result }
        ensures items { IsTrue (S.tells shelf.new) → let r = reading_of self.old in
            let bytes = (file (S.world shelf.old) r.file).bytes in
            Reads self.old bytes → (xs : List T) → AreAhead T.is_value T.words r bytes xs →
            GivesFirst (AreAhead T.is_value T.words (reading_of self.new) bytes) xs result }

        // what waits afterwards, what the call leaves and what it costs
        ensures room { room_of self.new ≡ room_of self.old }
        ensures waits { TakesAhead (room_of self.old) (reading_of self.old) (reading_of self.new) result }
        ensures ends { IsTrue (S.tells shelf.new) → let r = reading_of self.old in
            EndsAhead (room_of self.old) r (reading_of self.new) (file (S.world shelf.old) r.file).bytes result }
        ensures calls { IsTrue (S.tells shelf.new) → 0 < waits_ahead (reading_of self.old) →
            (S.world shelf.new).clock ≡ (S.world shelf.old).clock }
        ensures content { Told S.tells shelf.old shelf.new (Looked 1 (S.world shelf.old) (S.world shelf.new)) }
        ensures faults { OnlyShelf (S.faults shelf.old) (S.faults shelf.new) result }
    {
        next_forward(self.window, &mut self.reading, shelf)
    }

    /// The file that is read.
    pub fn file(&self) -> FileNo
        ensures { result ≡ (reading_of self.now).file }
    {
        self.reading.file
    }

    /// The next place, in records.
    pub fn place(&self) -> u64
        ensures { result ≡ place_of (reading_of self.now) }
    {
        self.reading.base + self.reading.at as u64
    }
}

// Sees to it that a record waits, where any is left, and answers whether one does.
fn wait_forward<S: Shelf>(
    window: &mut [Rec],
    reading: &mut Reading,
    shelf: &mut S,
) -> Result<bool, StreamFault>
    requires stands { IsForward reading.old (length window.old) }
    ensures stands { IsForward reading.new (length window.new) }
    ensures same { SameRange reading.old reading.new }
    ensures place { place_of reading.new ≡ place_of reading.old }
    ensures waits { Waits reading.old reading.new result }
    ensures fills { FillsAhead (length window.old) reading.old reading.new result }
    ensures stops { IsTrue (S.tells shelf.new) →
        StopsAhead (length window.old) reading.old reading.new
        (file (S.world shelf.old) reading.old.file).bytes result }
    ensures calls { IsTrue (S.tells shelf.new) → 0 < waits_ahead reading.old →
        (S.world shelf.new).clock ≡ (S.world shelf.old).clock }
    ensures loaded { IsTrue (S.tells shelf.new) → let bytes = (file (S.world shelf.old) reading.old.file).bytes in
        AreLoaded reading.old window.old bytes → IfOk result (λ _. AreLoaded reading.new window.new bytes) }
    ensures torn { IsTrue (S.tells shelf.new) → let bytes = (file (S.world shelf.old) reading.old.file).bytes in
        IsTorn reading.old.words (place_of reading.old) bytes result }
    ensures content { Told S.tells shelf.old shelf.new (Looked 1 (S.world shelf.old) (S.world shelf.new)) }
    ensures faults { OnlyShelf (S.faults shelf.old) (S.faults shelf.new) result }
{
    if reading.at < reading.loaded {
        return Ok(true);
    }
    let place = reading.base + reading.at as u64;
    if place >= reading.bound {
        return Ok(false);
    }
    let piece = piece_len(window.len(), reading.words) as u64;
    let wanted = piece.min(reading.bound - place) as usize;
    let loaded = load(reading.file, reading.words, place, wanted, window, shelf)?;
    reading.base = place;
    reading.loaded = loaded;
    reading.at = 0;
    if loaded == 0 {
        return Err(reading.damage_at(place));
    }
    Ok(true)
}

fn next_forward<T: Spill, S: Shelf>(
    window: &mut [Rec],
    reading: &mut Reading,
    shelf: &mut S,
) -> Result<Option<T>, StreamFault>
    requires stands { IsForward reading.old (length window.old) }
    ensures stands { IsForward reading.new (length window.new) }
    ensures same { SameRange reading.old reading.new }
    ensures place { GoesOn T.is_value reading.old reading.new result }
    ensures takes { TakesAhead (length window.old) reading.old reading.new result }
    ensures ends { IsTrue (S.tells shelf.new) →
        EndsAhead (length window.old) reading.old reading.new (file (S.world shelf.old) reading.old.file).bytes result }
    ensures calls { IsTrue (S.tells shelf.new) → 0 < waits_ahead reading.old →
        (S.world shelf.new).clock ≡ (S.world shelf.old).clock }
    ensures loaded { IsTrue (S.tells shelf.new) → let bytes = (file (S.world shelf.old) reading.old.file).bytes in
        AreLoaded reading.old window.old bytes → IfOk result (λ _. AreLoaded reading.new window.new bytes) }
    ensures value { IsTrue (S.tells shelf.new) → let bytes = (file (S.world shelf.old) reading.old.file).bytes in
        AreLoaded reading.old window.old bytes →
        IsAnswer T.is_value T.words reading.old.words (place_of reading.old) bytes result }
    ensures content { Told S.tells shelf.old shelf.new (Looked 1 (S.world shelf.old) (S.world shelf.new)) }
    ensures faults { OnlyShelf (S.faults shelf.old) (S.faults shelf.new) result }
{
    if !wait_forward(window, reading, shelf)? {
        return Ok(None);
    }
    let record = window[reading.at];
    let Some(item) = T::from_rec(&record) else {
        return Err(reading.damage_at(reading.base + reading.at as u64));
    };
    reading.at += 1;
    Ok(Some(item))
}
