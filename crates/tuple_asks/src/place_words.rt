//! The words of where a sweep stands.
ghost use Rattle.std.specs.Prelude.{◌≡◌};

use crate::ask::{Member, Members};
use crate::place::{Asking, Numbered};
use rec_words::{Ptr, Uid};
use saved_words::{Carried, Words};

// The two pointers of a member, and those of three.
type Pair = (Ptr, Ptr);

type Three = (Pair, (Pair, Pair));

// The key, the members and the number.
type NumberedParts = (Uid, (Three, u64));

impl Numbered {
    ghost use Rattle.std.specs.Prelude.{◌≡◌};
    ghost use Rattle.tuple_asks.specs.Saved.{numbered_parts};

    fn parts(&self) -> NumberedParts
        ensures { result ≡ numbered_parts self.now }
    {
        let Members {
            first,
            second,
            third,
        } = self.members;
        let three = (
            (first.low, first.high),
            ((second.low, second.high), (third.low, third.high)),
        );
        (self.key, (three, self.number))
    }
}

impl Carried for Numbered {
    ghost use Rattle.tuple_asks.specs.Saved.{numbered_spelling};

    ghost count = { numbered_spelling.count };

    ghost words = { numbered_spelling.words };

    ghost is_value = { numbered_spelling.is_value };

    fn put(&self, into: &mut Words) {
        self.parts().put(into);
    }

    fn put_none(into: &mut Words) {
        NumberedParts::put_none(into);
    }

    fn get(from: &mut Words) -> Option<Numbered> {
        let (key, (three, number)) = NumberedParts::get(from)?;
        let (first, (second, third)) = three;
        let members = Members {
            first: member(first),
            second: member(second),
            third: member(third),
        };
        Some(Numbered {
            key,
            members,
            number,
        })
    }

    fn get_none(from: &mut Words) -> bool {
        NumberedParts::get_none(from)
    }

    ghost long = { numbered_spelling.long };

    ghost fits = { numbered_spelling.fits };

    ghost differ = { numbered_spelling.differ };
}

// The member of two pointers.
fn member(pair: Pair) -> Member
    ensures { result ≡ record { low = pair.0; high = pair.1 } }
{
    let (low, high) = pair;
    Member { low, high }
}

type AskingParts = (Uid, Option<Numbered>);

impl Carried for Asking {
    ghost use Rattle.tuple_asks.specs.Saved.{asking_spelling};

    ghost count = { asking_spelling.count };

    ghost words = { asking_spelling.words };

    ghost is_value = { asking_spelling.is_value };

    fn put(&self, into: &mut Words) {
        (self.root, self.last).put(into);
    }

    fn put_none(into: &mut Words) {
        AskingParts::put_none(into);
    }

    fn get(from: &mut Words) -> Option<Asking> {
        let (root, last) = AskingParts::get(from)?;
        Some(Asking { root, last })
    }

    fn get_none(from: &mut Words) -> bool {
        AskingParts::get_none(from)
    }

    ghost long = { asking_spelling.long };

    ghost fits = { asking_spelling.fits };

    ghost differ = { asking_spelling.differ };
}
