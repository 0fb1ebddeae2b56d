ghost use Rattle.std.specs.Prelude.{refl};
ghost use Rattle.std.proofs.Common.{lit≤, rules};
ghost use Rattle.std.specs.Cmp.{partial_order_from_own_ties};
ghost use Rattle.std.specs.Cmp.Rules.{comparing};
ghost use Rattle.std.specs.Ordering.{as_partial_cmp};
ghost use Rattle.arc_diagrams.specs.Items.{final_arc_words, IsFinalArc, final_arc_cmp};
ghost use Rattle.arc_diagrams.specs.ItemLaws.{final_arc_order, same_final_arc, final_arc_fits};

use rec_words::{Ptr, Rec, Spill, Uid};
use std::cmp::Ordering;

/// The greatest word below that of a truth value.
const TOP: u64 = (1 << 63) - 1;

/// An arc that leads to a final pointer. The greatest source comes first, and its low arc before its high one.
#[derive(Clone, Copy, Debug, PartialEq, Eq)]
pub struct FinalArc {
    pub source: Uid,
    pub high: bool,
    pub target: Ptr,
}

impl Ord for FinalArc {
    ghost cmp = { final_arc_cmp };

    ghost total = { Prim.search (comparing, rules) };

    ghost matches_partial_cmp = { Prim.search (comparing, rules) };

    ghost matches_eq = { Prim.search (comparing, rules) };

    fn cmp(&self, other: &FinalArc) -> Ordering {
        let within = self
            .high
            .cmp(&other.high)
            .then(self.target.cmp(&other.target));
        other.source.cmp(&self.source).then(within)
    }
}

impl PartialOrd for FinalArc {
    ghost partial_cmp = { as_partial_cmp final_arc_cmp };

    ghost laws = { partial_order_from_own_ties (Prim.search (comparing, rules)) (Prim.search (comparing, rules)) };

    fn partial_cmp(&self, other: &FinalArc) -> Option<Ordering> {
        Some(self.cmp(other))
    }
}

impl Spill for FinalArc {
    const WORDS: usize = 3;

    ghost WORDS = { 3 };

    ghost words = { final_arc_words };

    ghost is_value = { IsFinalArc };

    fn to_rec(&self) -> Rec {
        let side = if self.high { 1 } else { 0 };
        Rec {
            w: [
                TOP - self.source.ptr().word(),
                side,
                self.target.word(),
                0,
                0,
                0,
                0,
                0,
            ],
        }
    }

    fn from_rec(source: &Rec) -> Option<FinalArc> {
        let [back, side, target, 0, 0, 0, 0, 0] = source.w else {
            return None;
        };
        if back > TOP || side > 1 {
            return None;
        }
        Some(FinalArc {
            source: Uid::of(Ptr::from_word(TOP - back)?)?,
            high: side == 1,
            target: Ptr::from_word(target)?,
        })
    }

    ghost few = { (lit≤ tt, lit≤ tt) };

    ghost eight = { λ _ _. refl };

    ghost fits = { final_arc_fits };

    ghost unused = { λ _ _. refl };

    ghost differ = { same_final_arc };

    ghost ordered = { final_arc_order };
}
