//! The front of a range of records, in one call.
ghost use Rattle.std.specs.Prelude.{◌≡◌, ℕ, ◌+◌, ◌-◌, ◌*◌, ◌<◌, ◌≤◌, min, IsTrue, IfOk, IfErr, length};
ghost use Rattle.shelf_model.specs.World.{file};
ghost use Rattle.shelf_model.specs.Calls.{Told, longest};
ghost use Rattle.shelf_model.specs.Faults.{OnlyShelf};
ghost use Rattle.block_stream.specs.Records.{piece_records};
ghost use Rattle.block_stream.specs.Reads.{Looked, HoldsRecords, AreValues, IsNoValueAt, IsDamageAt, IsDamaged, IsFillDamage};

use crate::read::load;
use crate::reading::byte_place;
use crate::record::piece_len;
use rec_words::{Rec, Spill};
use shelf_model::{FileNo, Shelf, StreamFault};

/// Reads the first records of a range into the window, with one call, and answers how many there are.
///
/// These are as many as the window, a piece and the range allow, but it ends before a record that isn't
/// whole or that no value is stored as, and refuses where that is the first one.
pub fn fill<T: Spill, S: Shelf>(
    f: FileNo,
    from: u64,
    to: u64,
    window: &mut [Rec],
    shelf: &mut S,
) -> Result<usize, StreamFault>
    requires order { from < to }
    requires range { to * (8 * T.WORDS) ≤ longest }
    requires room { 8 ≤ length window.old }
    ensures within { IfOk result (λ n. (1 ≤ n) × (n ≤ length window.old) × (n ≤ to - from)) }
    ensures values { IfOk result (λ n. AreValues T.is_value T.words n window.new) }
    ensures loaded { IfOk result (λ n. IsTrue (S.tells shelf.new) →
        HoldsRecords T.WORDS from n window.new (file (S.world shelf.old) f).bytes) }
    ensures full { IfOk result (λ n. IsTrue (S.tells shelf.new) →
        n < min (piece_records T.WORDS (length window.old)) (to - from) →
        IsDamaged T.is_value T.words T.WORDS (from + n) (file (S.world shelf.old) f).bytes) }
    ensures damage { IfErr result (IsDamageAt f T.WORDS from) }
    ensures damaged { IfErr result (λ e. IsTrue (S.tells shelf.new) →
        IsFillDamage T.is_value T.words T.WORDS from (file (S.world shelf.old) f).bytes e) }
    ensures content { Told S.tells shelf.old shelf.new (Looked 1 (S.world shelf.old) (S.world shelf.new)) }
    ensures faults { OnlyShelf (S.faults shelf.old) (S.faults shelf.new) result }
{
    let words = T::WORDS;
    let piece = piece_len(window.len(), words) as u64;
    let wanted = piece.min(to - from) as usize;
    let loaded = load(f, words, from, wanted, window, shelf)?;
    let values = values_len::<T>(&window[..loaded]);
    if values == 0 {
        return Err(StreamFault::Damaged {
            file: f,
            at: byte_place(from, words),
        });
    }
    Ok(values)
}

// How many records from the front on are those of values.
fn values_len<T: Spill>(records: &[Rec]) -> usize
    ensures within { result ≤ length records.now }
    ensures values { AreValues T.is_value T.words result records.now }
    ensures ended { IsNoValueAt T.is_value T.words result records.now }
{
    for (n, record) in records.iter().enumerate() {
        let Some(_item) = T::from_rec(record) else {
            return n;
        };
    }
    records.len()
}
