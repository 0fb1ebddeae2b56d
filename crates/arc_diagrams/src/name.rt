ghost use Rattle.std.specs.Prelude.{refl};
ghost use Rattle.std.proofs.Common.{lit≤, rules};
ghost use Rattle.std.specs.Cmp.{partial_order_from_own_ties};
ghost use Rattle.std.specs.Cmp.Rules.{comparing};
ghost use Rattle.std.specs.Ordering.{as_partial_cmp};
ghost use Rattle.arc_diagrams.specs.Items.{name_words, IsName, name_cmp};
ghost use Rattle.arc_diagrams.specs.ItemLaws.{name_order, same_name, name_fits};

use rec_words::{Ptr, Rec, Spill, Uid};
use std::cmp::Ordering;

/// The greatest word below that of a truth value.
const TOP: u64 = (1 << 63) - 1;

/// A source with its final pointer. The greatest source comes first.
#[derive(Clone, Copy, Debug, PartialEq, Eq)]
pub struct Name {
    pub source: Uid,
    pub pointer: Ptr,
}

impl Ord for Name {
    ghost cmp = { name_cmp };

    ghost total = { Prim.search (comparing, rules) };

    ghost matches_partial_cmp = { Prim.search (comparing, rules) };

    ghost matches_eq = { Prim.search (comparing, rules) };

    fn cmp(&self, other: &Name) -> Ordering {
        other
            .source
            .cmp(&self.source)
            .then(self.pointer.cmp(&other.pointer))
    }
}

impl PartialOrd for Name {
    ghost partial_cmp = { as_partial_cmp name_cmp };

    ghost laws = { partial_order_from_own_ties (Prim.search (comparing, rules)) (Prim.search (comparing, rules)) };

    fn partial_cmp(&self, other: &Name) -> Option<Ordering> {
        Some(self.cmp(other))
    }
}

impl Spill for Name {
    const WORDS: usize = 2;

    ghost WORDS = { 2 };

    ghost words = { name_words };

    ghost is_value = { IsName };

    fn to_rec(&self) -> Rec {
        Rec {
            w: [
                TOP - self.source.ptr().word(),
                self.pointer.word(),
                0,
                0,
                0,
                0,
                0,
                0,
            ],
        }
    }

    fn from_rec(source: &Rec) -> Option<Name> {
        let [back, pointer, 0, 0, 0, 0, 0, 0] = source.w else {
            return None;
        };
        if back > TOP {
            return None;
        }
        Some(Name {
            source: Uid::of(Ptr::from_word(TOP - back)?)?,
            pointer: Ptr::from_word(pointer)?,
        })
    }

    ghost few = { (lit≤ tt, lit≤ tt) };

    ghost eight = { λ _ _. refl };

    ghost fits = { name_fits };

    ghost unused = { λ _ _. refl };

    ghost differ = { same_name };

    ghost ordered = { name_order };
}
