//! A law of values that stand in words, the contract of a function that does little.
ghost use Rattle.std.specs.Prelude.{◌≡◌, ◌+◌, ◌≤◌, Some};
ghost use Rattle.saved_words.specs.Places.{most_words};

use crate::{Carried, Words};

/// Where there is room for a value, what is put is what is got from the same place, and the place behind it is as
/// many words on as each value of its type has.
pub fn what_is_put_is_got<A: Carried>(x: A, words: &mut Words) -> Option<A>
    requires room { words.old.at + A.count ≤ most_words }
    ensures same { result ≡ Some x }
    ensures place { words.new.at ≡ words.old.at + A.count }
{
    let at = words.at;
    x.put(words);
    words.at = at;
    A::get(words)
}
