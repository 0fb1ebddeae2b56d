//! What is looked at once all pairs are answered.
ghost use Rattle.std.specs.Prelude.{◌*◌, ◌≤◌, IsTrue, length};
ghost use Rattle.room_reduction.specs.Index.{sources_of};
ghost use Rattle.room_products.specs.Joining.{AreDone};

use crate::slots::ID;
use rec_words::Rec;
use room_reduction::{Index, find, source_word};

/// Whether each of so many slots has its source among as many.
pub(crate) fn are_done(slots: &[Rec], sources: &[Rec], index: Index) -> bool
    requires slots { index.total ≤ 4 * length slots.now }
    requires sources { index.total ≤ 4 * length sources.now }
    ensures { IsTrue result → AreDone (sources_of index.entry slots.now) (sources_of index.entry sources.now) }
{
    for place in 0..index.total {
        if find(sources, index, source_word(slots, index.total, place, ID)).is_none() {
            return false;
        }
    }
    true
}
