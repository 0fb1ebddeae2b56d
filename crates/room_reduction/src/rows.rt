//! The rows of a level's sources.
ghost use Rattle.std.specs.Prelude.{◌≡◌, ℕ, ◌+◌, ◌*◌, ◌<◌, ◌≤◌, IsTrue, IfSome, length, map};
ghost use Rattle.canon_file.specs.Rows.{row_before};
ghost use Rattle.arc_diagrams.specs.Reducing.{IsRising};
ghost use Rattle.room_reduction.specs.Records.{row_in};
ghost use Rattle.room_reduction.specs.Index.{sources_of};
ghost use Rattle.room_reduction.specs.Levels.{KeepsEnds, AreKnown, IsRowOf, AreRowsOf};

use crate::Index;
use crate::sources::{BECAME, HIGH, LOW, find, source_word};
use rec_words::{Ptr, Rec};

/// What a pointer became: a truth value stays, and the record of a source says it, where that stands at a place or
/// behind it.
pub(crate) fn became(sources: &[Rec], index: Index, from: usize, word: u64) -> Option<u64>
    requires many { index.total ≤ 4 * length sources.now }
    ensures { IfSome result (λ w. (f : ℕ → ℕ) → KeepsEnds f → AreKnown f from (sources_of index.entry sources.now) →
        w ≡ f word) }
{
    match Ptr::from_word(word)?.value() {
        Some(_value) => Some(word),
        None => pointer_of(sources, index, from, word),
    }
}

// What the record of a source says.
fn pointer_of(sources: &[Rec], index: Index, from: usize, source: u64) -> Option<u64>
    requires many { index.total ≤ 4 * length sources.now }
    ensures { IfSome result (λ w. (f : ℕ → ℕ) → AreKnown f from (sources_of index.entry sources.now) → w ≡ f source) }
{
    let place = find(sources, index, source)?;
    if place < from {
        return None;
    }
    Some(source_word(sources, index.total, place, BECAME))
}

/// Puts the row of each source between two places into the rows, where those behind them say what they became.
pub(crate) fn collect_rows(
    sources: &[Rec],
    index: Index,
    from: usize,
    end: usize,
    rows: &mut [Rec],
) -> bool
    requires as_many { from + length rows.old ≡ end }
    requires many { index.total ≤ 4 * length sources.now }
    requires within { end ≤ index.total }
    ensures { IsTrue result → (f : ℕ → ℕ) → KeepsEnds f → AreKnown f end (sources_of index.entry sources.now) →
        AreRowsOf f from (sources_of index.entry sources.now) rows.new }
{
    for place in 0..rows.len() {
        let Some(row) = row_at(sources, index, from + place, end) else {
            return false;
        };
        rows[place] = row;
    }
    true
}

// The row of the source at a place.
fn row_at(sources: &[Rec], index: Index, place: usize, end: usize) -> Option<Rec>
    requires many { index.total ≤ 4 * length sources.now }
    requires within { place < index.total }
    ensures { IfSome result (λ r. (f : ℕ → ℕ) → KeepsEnds f → AreKnown f end (sources_of index.entry sources.now) →
        IsRowOf f place (sources_of index.entry sources.now) r) }
{
    let low_source = source_word(sources, index.total, place, LOW);
    let high_source = source_word(sources, index.total, place, HIGH);
    let low = became(sources, index, end, low_source)?;
    let high = became(sources, index, end, high_source)?;
    Some(Rec {
        w: [low, high, place as u64, 0, 0, 0, 0, 0],
    })
}

/// Whether no row is before the one in front of it.
pub(crate) fn are_rising(rows: &[Rec]) -> bool
    ensures { IsTrue result → IsRising (map row_in rows.now) }
{
    for place in 1..rows.len() {
        if is_before(&rows[place], &rows[place - 1]) {
            return false;
        }
    }
    true
}

// Whether a row is before another one.
fn is_before(row: &Rec, other: &Rec) -> bool
    ensures { result ≡ row_before (row_in row.now) (row_in other.now) }
{
    row.w[0] < other.w[0] || (row.w[0] == other.w[0] && row.w[1] < other.w[1])
}
