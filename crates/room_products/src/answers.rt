//! What is made of the pairs on the sides of a source.
ghost use Rattle.std.specs.Prelude.{◌≡◌, ℕ, ◌*◌, ◌<◌, ◌≤◌, IfSome, List, ◌∷◌, length};
ghost use Rattle.rec_words.specs.declared.rec.Rec.{Rec};
ghost use Rattle.top_down.specs.declared.tuple.Tuple.{Tuple};
ghost use Rattle.top_down.specs.Operations.{two, product_goal, product_rule};
ghost use Rattle.top_down.specs.Tuples.{Targets};
ghost use Rattle.top_down.specs.Rules.{IsRule, IsAsked};
ghost use Rattle.packed_records.specs.Packed.{packed};
ghost use Rattle.room_products.specs.Slots.{KeepsSlots};
ghost use Rattle.room_products.specs.Joining.{IsAnswer, IsJoining};

use crate::goals::{ZERO, end_of};
use crate::slots::{ID, add_slot, look_up};
use bool_tables::Bin;
use packed_records::word_at;
use rec_words::Rec;

/// A word, and how many slots are used.
#[derive(Clone, Copy)]
pub(crate) struct Answer {
    pub(crate) word: u64,
    pub(crate) count: usize,
}

/// The answer to a pair: the truth value in which it ends, or the identifier of its slot, which may be a new one.
pub(crate) fn answer_pair(
    op: Bin,
    first: u64,
    second: u64,
    slots: &mut [Rec],
    count: usize,
    firsts: &mut [Rec],
    buckets: &mut [Rec],
) -> Option<Answer>
    requires within { count ≤ 4 * length slots.old }
    ensures within { IfSome result (λ a. a.count ≤ 4 * length slots.new) }
    ensures kept { IfSome result (λ a. KeepsSlots count a.count (packed slots.old) (packed slots.new)) }
    ensures answered { IfSome result (λ a. (n root i : ℕ) (roots : Tuple) (targets : Targets) (owed : List ℕ)
        (sources : List Rec) (done : ℕ) → i ≤ n → IsRule n (product_rule op) targets →
        IsAsked n (product_rule op) i (two first second) →
        IsJoining n root roots (product_rule op) targets owed (packed slots.old) firsts.old count sources done →
        IsJoining n root roots (product_rule op) targets (a.word ∷ owed) (packed slots.new) firsts.new a.count sources
        done) }
    ensures answer { IfSome result (λ a.
        IsAnswer (product_goal op (two first second)) (packed slots.new) a.count a.word) }
{
    if let Some(value) = end_of(op, first, second) {
        let word = if value { ZERO + 1 } else { ZERO };
        return Some(Answer { word, count });
    }
    let looked = look_up(first, second, slots, count, buckets);
    if let Some(place) = looked.slot {
        let word = word_at(slots, place, ID);
        return Some(Answer { word, count });
    }
    let word = add_slot(first, second, looked.bucket, slots, count, firsts, buckets)?;
    Some(Answer {
        word,
        count: count + 1,
    })
}
