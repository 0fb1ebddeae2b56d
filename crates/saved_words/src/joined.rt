//! A value that may be missing, and two values.
use crate::{Carried, Words};

impl<A: Carried> Carried for Option<A> {
    ghost use Rattle.std.specs.Prelude.{◌+◌};
    ghost use Rattle.saved_words.specs.Joined.{option_words, IsOption, option_long, option_fits, option_differs};

    ghost count = { 1 + A.count };

    ghost words = { option_words A.count A.words };

    ghost is_value = { IsOption A.is_value };

    fn put(&self, into: &mut Words) {
        match *self {
            None => {
                into.push(0);
                A::put_none(into);
            }
            Some(x) => {
                into.push(1);
                x.put(into);
            }
        }
    }

    fn put_none(into: &mut Words) {
        into.push(0);
        A::put_none(into);
    }

    fn get(from: &mut Words) -> Option<Option<A>> {
        match from.next()? {
            0 => { if A::get_none(from) { Some(None) } else { None } }
            1 => Some(Some(A::get(from)?)),
            _ => None,
        }
    }

    fn get_none(from: &mut Words) -> bool {
        u64::get_none(from) && A::get_none(from)
    }

    ghost long = { option_long A.count A.words A.is_value A.long };

    ghost fits = { option_fits A.count A.words A.is_value A.long A.fits };

    ghost differ = { option_differs A.count A.words A.is_value A.long A.differ };
}

impl<A: Carried, B: Carried> Carried for (A, B) {
    ghost use Rattle.std.specs.Prelude.{◌+◌};
    ghost use Rattle.saved_words.specs.Joined.{pair_words, IsPair, pair_long, pair_fits, pair_differs};

    ghost count = { A.count + B.count };

    ghost words = { pair_words A.words B.words };

    ghost is_value = { IsPair A.is_value B.is_value };

    fn put(&self, into: &mut Words) {
        let (x, y) = *self;
        x.put(into);
        y.put(into);
    }

    fn put_none(into: &mut Words) {
        A::put_none(into);
        B::put_none(into);
    }

    fn get(from: &mut Words) -> Option<(A, B)> {
        let x = A::get(from)?;
        let y = B::get(from)?;
        Some((x, y))
    }

    fn get_none(from: &mut Words) -> bool {
        A::get_none(from) && B::get_none(from)
    }

    ghost long = { pair_long A.count B.count A.words B.words A.is_value B.is_value A.long B.long };

    ghost fits = { pair_fits A.count B.count A.words B.words A.is_value B.is_value A.long B.long A.fits B.fits };

    ghost differ = { pair_differs A.count B.count A.words B.words A.is_value B.is_value A.long B.long A.differ B.differ };
}
