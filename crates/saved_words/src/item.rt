//! A value that can be spilled.
ghost use Rattle.std.specs.Prelude.{◌≡◌, ◌-◌, ◌<◌, ◌≤◌, ◌++◌, length, replicate};
ghost use Rattle.std.specs.Prelude.{IfSome, IfNone};
ghost use Rattle.saved_words.specs.Places.{put_in, next_words, moved};

use crate::{Carried, Words};
use rec_words::{Rec, Spill};

/// A value that can be spilled, saved by as many words as its type takes.
#[derive(Clone, Copy, Debug, PartialEq, Eq)]
pub struct Item<T> {
    pub value: T,
}

impl<T: Spill> Carried for Item<T> {
    ghost use Rattle.saved_words.specs.Items.{item_words, IsItem, item_long, item_fits, item_differs};

    ghost count = { T.WORDS };

    ghost words = { item_words T.WORDS T.words };

    ghost is_value = { IsItem T.is_value };

    fn put(&self, into: &mut Words) {
        let rec = self.value.to_rec();
        push_all(&rec.w[..T::WORDS], into);
    }

    fn put_none(into: &mut Words) {
        push_all(&[0u64; 8][..T::WORDS], into);
    }

    fn get(from: &mut Words) -> Option<Item<T>> {
        let rec = next_rec(T::WORDS, from)?;
        let value = T::from_rec(&rec)?;
        Some(Item { value })
    }

    fn get_none(from: &mut Words) -> bool {
        match next_rec(T::WORDS, from) {
            None => false,
            Some(rec) => rec == Rec { w: [0; 8] },
        }
    }

    ghost long = { item_long T.WORDS T.words T.is_value T.few T.eight };

    ghost fits = { item_fits T.WORDS T.words T.is_value T.fits };

    ghost differ = { item_differs T.WORDS T.words T.is_value T.unused T.differ };
}

// Puts words one behind the other.
fn push_all(words: &[u64], into: &mut Words)
    ensures { into.new ≡ put_in words.now into.old }
{
    for k in 0..words.len() {
        into.push(words[k]);
    }
}

// The record that begins with the next words, where there are so many.
fn next_rec(count: usize, from: &mut Words) -> Option<Rec>
    requires { count ≤ 8 }
    ensures found { IfSome result (λ r. r.w ≡ next_words count from.old ++ replicate (8 - count) 0) }
    ensures moves { IfSome result (λ r. from.new ≡ moved count from.old) }
    ensures long { IfSome result (λ r. length (next_words count from.old) ≡ count) }
    ensures none { IfNone result (length (next_words count from.old) < count) }
{
    let mut rec = Rec { w: [0; 8] };
    for k in 0..count {
        rec.w[k] = from.next()?;
    }
    Some(rec)
}
