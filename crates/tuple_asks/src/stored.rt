//! Asks as the records of a queue.
ghost use Rattle.std.specs.Prelude.{◌≡◌, ◌≢◌, ◌<◌, ◌^◌, IfSome, IfNone, refl};
ghost use Rattle.std.proofs.Common.{lit≤};
ghost use Rattle.std.specs.Option.{SomeIff};
ghost use Rattle.rec_words.specs.Words.{IsPointer};
ghost use Rattle.tuple_asks.specs.declared.ask.Ask.{Ask};
ghost use Rattle.tuple_asks.specs.Items.{ask_words, IsForm, IsAsk};
ghost use Rattle.tuple_asks.specs.ItemLaws.{ask_order, same_ask, ask_fits};

use crate::ask::{Ask, Member, Members};
use crate::sound::SoundAsk;
use rec_words::{Ptr, Rec, Spill, Uid};

impl Spill for SoundAsk {
    const WORDS: usize = 8;

    ghost WORDS = { 8 };

    ghost words = { ask_words };

    ghost is_value = { IsAsk };

    fn to_rec(&self) -> Rec {
        let ask = self.ask();
        let asker = same_word(ask.asker);
        Rec {
            w: [
                ask.key.ptr().word(),
                ask.members.first.low.word(),
                ask.members.first.high.word(),
                ask.members.second.low.word(),
                ask.members.second.high.word(),
                ask.members.third.low.word(),
                ask.members.third.high.word(),
                asker,
            ],
        }
    }

    // A record that no sweep puts into its queue is none of an ask, so that the queue names it where it stands.
    fn from_rec(source: &Rec) -> Option<SoundAsk> {
        SoundAsk::of(ask_of(source)?)
    }

    ghost few = { (lit≤ tt, lit≤ tt) };

    ghost eight = { λ _ _. refl };

    ghost fits = { ask_fits };

    ghost unused = { λ _ _. refl };

    ghost differ = { λ x y _ _ same. same_ask x y same };

    ghost ordered = { λ x y _ _. ask_order x y };
}

// The ask of a record, sound or not, where its words are those of a node and of pointers.
fn ask_of(source: &Rec) -> Option<Ask>
    ensures found { IfSome result (λ x. ask_words x ≡ source.now.w) }
    ensures form { IfSome result IsForm }
    ensures none { IfNone result ((x : Ask) → IsForm x → ask_words x ≢ source.now.w) }
{
    let [
        key,
        low,
        high,
        second_low,
        second_high,
        third_low,
        third_high,
        asker,
    ] = source.w;
    Some(Ask {
        key: Uid::of(Ptr::from_word(key)?)?,
        members: Members {
            first: member_of(low, high)?,
            second: member_of(second_low, second_high)?,
            third: member_of(third_low, third_high)?,
        },
        asker,
    })
}

// The same word. It is read here, so that its range is known.
fn same_word(word: u64) -> u64
    ensures same { result ≡ word }
    ensures fits { result < 2 ^ 64 }
{
    word
}

// The member of two words, where both are those of pointers.
fn member_of(low: u64, high: u64) -> Option<Member>
    ensures { SomeIff result (IsPointer low × IsPointer high) (record { low = low; high = high }) }
{
    Some(Member {
        low: Ptr::from_word(low)?,
        high: Ptr::from_word(high)?,
    })
}
