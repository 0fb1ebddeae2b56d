//! The sources of a diagram, as packed records in the room.
ghost use Rattle.std.specs.Prelude.{◌≡◌, ◌≢◌, ℕ, ◌*◌, ◌<◌, ◌≤◌, IsTrue, IfSome, length};
ghost use Rattle.run_files.specs.Items.{record_at};
ghost use Rattle.room_reduction.specs.Records.{word, uid_in};
ghost use Rattle.room_reduction.specs.Sources.{sources_in};
ghost use Rattle.room_reduction.specs.Index.{sources_of};

use crate::index::{Index, begin_of};
use packed_records::{put_word, word_at};
use rec_words::{LEVEL_NUMBERS, Rec};

/// The columns of the packed record of a source or of a node: its identifier, and the pointers on its two sides.
pub const UID: usize = 0;

pub const LOW: usize = 1;

pub const HIGH: usize = 2;

/// The column in which a source says what it became.
pub(crate) const BECAME: usize = 3;

/// The word of a column in the source at a place, of so many.
pub fn source_word(sources: &[Rec], count: usize, place: usize, column: usize) -> u64
    requires many { count ≤ 4 * length sources.now }
    requires place { place < count }
    requires column { column < 4 }
    ensures { result ≡ word column (record_at (sources_in count sources.now) place) }
{
    let _many = count;
    word_at(sources, place, column)
}

/// Puts a word into a column of the source at a place, of so many, where a number stands for the word.
pub(crate) fn put_source_word(
    sources: &mut [Rec],
    count: usize,
    place: usize,
    column: usize,
    to: u64,
) -> bool
    requires many { count ≤ 4 * length sources.old }
    requires place { place < count }
    requires column { column < 4 }
    ensures own { IsTrue result → word column (record_at (sources_in count sources.new) place) ≡ to }
    ensures columns { (c : ℕ) → c ≢ column → word c (record_at (sources_in count sources.new) place)
        ≡ word c (record_at (sources_in count sources.old) place) }
    ensures others { (k : ℕ) → k ≢ place →
        record_at (sources_in count sources.new) k ≡ record_at (sources_in count sources.old) k }
{
    let _many = count;
    put_word(sources, place, column, to)
}

/// The place of a source among so many, where it is found: of its level the place is kept where its first number would
/// stand, if that is right. A level of which none is kept is looked for by halves: the sources ascend.
pub fn find(sources: &[Rec], index: Index, source: u64) -> Option<usize>
    requires many { index.total ≤ 4 * length sources.now }
    ensures { IfSome result (λ k. (k < index.entry.total) ×
        (uid_in (record_at (sources_of index.entry sources.now) k) ≡ source)) }
{
    let level = (source / LEVEL_NUMBERS) as usize;
    if level >= index.levels.len() {
        return search(sources, index.total, source);
    }
    let place = begin_of(&index.levels[level]).wrapping_add(source % LEVEL_NUMBERS);
    if place >= index.total as u64 {
        return None;
    }
    let place = place as usize;
    if source_word(sources, index.total, place, UID) != source {
        return None;
    }
    Some(place)
}

// The place of a source among so many that ascend.
fn search(sources: &[Rec], count: usize, source: u64) -> Option<usize>
    requires many { count ≤ 4 * length sources.now }
    ensures { IfSome result (λ k. (k < count) × (uid_in (record_at (sources_in count sources.now) k) ≡ source)) }
{
    let mut from = 0;
    let mut to = count;
    'halves: while from < to {
        let middle = from + (to - from) / 2;
        let there = source_word(sources, count, middle, UID);
        if there == source {
            return Some(middle);
        }
        if there < source {
            from = middle + 1;
        } else {
            to = middle;
        }
    }
    None
}
