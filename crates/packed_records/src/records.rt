//! The packed records of a room, four in the place of one.
ghost use Rattle.std.specs.Prelude.{◌≡◌, ◌≢◌, ℕ, ◌*◌, ◌<◌, [], ◌∷◌, IsTrue, length, slice_index};
ghost use Rattle.run_files.specs.Items.{record_at};
ghost use Rattle.packed_records.specs.Packed.{packed};

use crate::numbers::{number_at, put_number};
use crate::words::{narrow, widen};
use rec_words::Rec;

/// The word of a column in the packed record at a place.
pub fn word_at(room: &[Rec], place: usize, column: usize) -> u64
    requires place { place < 4 * length room.now }
    requires column { column < 4 }
    ensures { result ≡ slice_index (record_at (packed room.now) place).w column }
{
    widen(number_at(room, place, column))
}

/// Puts a word into a column of the packed record at a place, where a number stands for it.
pub fn put_word(room: &mut [Rec], place: usize, column: usize, word: u64) -> bool
    requires place { place < 4 * length room.old }
    requires column { column < 4 }
    ensures own { IsTrue result → slice_index (record_at (packed room.new) place).w column ≡ word }
    ensures columns { (c : ℕ) → c ≢ column →
        slice_index (record_at (packed room.new) place).w c ≡ slice_index (record_at (packed room.old) place).w c }
    ensures others { (k : ℕ) → k ≢ place → record_at (packed room.new) k ≡ record_at (packed room.old) k }
{
    let Some(number) = narrow(word) else {
        return false;
    };
    put_number(room, place, column, number);
    true
}

/// Puts four words into the packed record at a place, where numbers stand for them.
pub fn put_record(room: &mut [Rec], place: usize, words: [u64; 4]) -> bool
    requires place { place < 4 * length room.old }
    ensures own { IsTrue result → record_at (packed room.new) place
        ≡ record {
          w = slice_index words 0 ∷ slice_index words 1 ∷ slice_index words 2 ∷ slice_index words 3
              ∷ 0 ∷ 0 ∷ 0 ∷ 0 ∷ [];
        } }
    ensures others { (k : ℕ) → k ≢ place → record_at (packed room.new) k ≡ record_at (packed room.old) k }
{
    put_word(room, place, 0, words[0])
        && put_word(room, place, 1, words[1])
        && put_word(room, place, 2, words[2])
        && put_word(room, place, 3, words[3])
}

/// The packed record at a place.
pub fn record_of(room: &[Rec], place: usize) -> Rec
    requires place { place < 4 * length room.now }
    ensures { result ≡ record_at (packed room.now) place }
{
    Rec {
        w: [
            word_at(room, place, 0),
            word_at(room, place, 1),
            word_at(room, place, 2),
            word_at(room, place, 3),
            0,
            0,
            0,
            0,
        ],
    }
}
