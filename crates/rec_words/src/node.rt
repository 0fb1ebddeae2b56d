ghost use Rattle.std.specs.Prelude.{refl};
ghost use Rattle.std.proofs.Common.{lit≤};
ghost use Rattle.rec_words.specs.Records.{node_words, IsNode};
ghost use Rattle.rec_words.specs.RecordLaws.{node_fits, same_node, node_order};

use crate::{Ptr, Rec, Spill, Uid};

/// The bytes of a node in a file, and of the trailer that ends it.
pub const NODE_SIZE: u64 = 24;

/// A node: its identifier, and the pointers that it leads to where its variable is 0 and where it is 1.
/// Nodes are ordered by identifier first.
#[derive(Clone, Copy, Debug, PartialEq, Eq, PartialOrd, Ord)]
pub struct Node {
    pub uid: Uid,
    pub low: Ptr,
    pub high: Ptr,
}

impl Spill for Node {
    const WORDS: usize = 3;

    ghost WORDS = { 3 };

    ghost words = { node_words };

    ghost is_value = { IsNode };

    fn to_rec(&self) -> Rec {
        Rec {
            w: [
                self.uid.ptr().word(),
                self.low.word(),
                self.high.word(),
                0,
                0,
                0,
                0,
                0,
            ],
        }
    }

    fn from_rec(source: &Rec) -> Option<Node> {
        let [uid, low, high, 0, 0, 0, 0, 0] = source.w else {
            return None;
        };
        Some(Node {
            uid: Uid::of(Ptr::from_word(uid)?)?,
            low: Ptr::from_word(low)?,
            high: Ptr::from_word(high)?,
        })
    }

    ghost few = { (lit≤ tt, lit≤ tt) };

    ghost eight = { λ _ _. refl };

    ghost fits = { node_fits };

    ghost unused = { λ _ _. refl };

    ghost differ = { λ x y _ _ same. same_node x y same };

    ghost ordered = { λ x y _ _. node_order x y };
}
