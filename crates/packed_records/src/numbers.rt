//! The numbers of 32 bits in a room, sixteen to a record.
ghost use Rattle.std.specs.Prelude.{◌≡◌, ◌≢◌, ◌⊎◌, ℕ, ◌*◌, ◌<◌, length};
ghost use Rattle.packed_records.specs.Numbers.{number_in, number_of};

use crate::halves::{lower_of, upper_of, with_lower, with_upper};
use rec_words::Rec;

/// The number of a column in the packed record at a place.
pub fn number_at(room: &[Rec], place: usize, column: usize) -> u32
    requires place { place < 4 * length room.now }
    requires column { column < 4 }
    ensures { result ≡ number_in room.now place column }
{
    let word = room[place / 4].w[2 * (place % 4) + column / 2];
    if column % 2 == 0 {
        lower_of(word)
    } else {
        upper_of(word)
    }
}

// Puts a number into a column of a quarter.
fn put_in_quarter(words: &mut [u64; 8], quarter: usize, column: usize, number: u32)
    requires quarter { quarter < 4 }
    requires column { column < 4 }
    ensures own { number_of words.new quarter column ≡ number }
    ensures others { (q c : ℕ) → c < 4 → (q ≢ quarter) ⊎ (c ≢ column) →
        number_of words.new q c ≡ number_of words.old q c }
{
    let index = 2 * quarter + column / 2;
    words[index] = if column % 2 == 0 {
        with_lower(words[index], number)
    } else {
        with_upper(words[index], number)
    };
}

/// Puts a number into a column of the packed record at a place.
pub fn put_number(room: &mut [Rec], place: usize, column: usize, number: u32)
    requires place { place < 4 * length room.old }
    requires column { column < 4 }
    ensures own { number_in room.new place column ≡ number }
    ensures columns { (c : ℕ) → c < 4 → c ≢ column → number_in room.new place c ≡ number_in room.old place c }
    ensures others { (k c : ℕ) → c < 4 → k ≢ place → number_in room.new k c ≡ number_in room.old k c }
{
    put_in_quarter(&mut room[place / 4].w, place % 4, column, number);
}
