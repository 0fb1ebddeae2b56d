ghost use Rattle.std.specs.Prelude.{refl};
ghost use Rattle.std.proofs.Common.{lit≤};
ghost use Rattle.arc_file.specs.Arcs.{arc_words, IsArc};
ghost use Rattle.arc_file.specs.ArcLaws.{arc_fits, same_arc, arc_order};

use rec_words::{Ptr, Rec, Spill, Uid};

/// The bytes of an arc in a file.
pub const ARC_SIZE: u64 = 16;

/// What the first word of a high arc has above the identifier of its source.
const HIGH: u64 = 1 << 63;

/// An arc: whether it is the high one of its source, the source, and the pointer that it leads to.
/// Arcs are ordered as the records that they are stored as: the low ones first, then by their source.
#[derive(Clone, Copy, Debug, PartialEq, Eq, PartialOrd, Ord)]
pub struct Arc {
    pub high: bool,
    pub source: Uid,
    pub target: Ptr,
}

impl Spill for Arc {
    const WORDS: usize = 2;

    ghost WORDS = { 2 };

    ghost words = { arc_words };

    ghost is_value = { IsArc };

    fn to_rec(&self) -> Rec {
        let source = self.source.ptr().word();
        let first = if self.high { source + HIGH } else { source };
        Rec {
            w: [first, self.target.word(), 0, 0, 0, 0, 0, 0],
        }
    }

    fn from_rec(source: &Rec) -> Option<Arc> {
        let [first, target, 0, 0, 0, 0, 0, 0] = source.w else {
            return None;
        };
        let high = first >= HIGH;
        let source = if high { first - HIGH } else { first };
        Some(Arc {
            high,
            source: Uid::of(Ptr::from_word(source)?)?,
            target: Ptr::from_word(target)?,
        })
    }

    ghost few = { (lit≤ tt, lit≤ tt) };

    ghost eight = { λ _ _. refl };

    ghost fits = { arc_fits };

    ghost unused = { λ _ _. refl };

    ghost differ = { same_arc };

    ghost ordered = { arc_order };
}
