ghost use Rattle.std.specs.Prelude.{refl};
ghost use Rattle.std.proofs.Common.{lit≤};
ghost use Rattle.arc_diagrams.specs.Items.{source_row_words, IsSourceRow};
ghost use Rattle.arc_diagrams.specs.ItemLaws.{source_row_order, same_source_row, source_row_fits};

use rec_words::{Ptr, Rec, Spill, Uid};

/// The final pointers of the two targets of a source, with the source. They are ordered by the
/// pointers first.
#[derive(Clone, Copy, Debug, PartialEq, Eq, PartialOrd, Ord)]
pub struct SourceRow {
    pub low: Ptr,
    pub high: Ptr,
    pub source: Uid,
}

impl Spill for SourceRow {
    const WORDS: usize = 3;

    ghost WORDS = { 3 };

    ghost words = { source_row_words };

    ghost is_value = { IsSourceRow };

    fn to_rec(&self) -> Rec {
        Rec {
            w: [
                self.low.word(),
                self.high.word(),
                self.source.ptr().word(),
                0,
                0,
                0,
                0,
                0,
            ],
        }
    }

    fn from_rec(source: &Rec) -> Option<SourceRow> {
        let [low, high, uid, 0, 0, 0, 0, 0] = source.w else {
            return None;
        };
        Some(SourceRow {
            low: Ptr::from_word(low)?,
            high: Ptr::from_word(high)?,
            source: Uid::of(Ptr::from_word(uid)?)?,
        })
    }

    ghost few = { (lit≤ tt, lit≤ tt) };

    ghost eight = { λ _ _. refl };

    ghost fits = { source_row_fits };

    ghost unused = { λ _ _. refl };

    ghost differ = { λ x y _ _ same. same_source_row x y same };

    ghost ordered = { λ x y _ _. source_row_order x y };
}
