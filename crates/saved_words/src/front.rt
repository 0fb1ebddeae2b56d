//! A value whose words are the first ones.
ghost use Rattle.std.specs.Prelude.{◌≡◌, ◌-◌, ◌≤◌, drop, replicate, IfSome, IfNone};
ghost use Rattle.saved_words.specs.Places.{most_words};
ghost use Rattle.saved_words.specs.Fronts.{IsFront};

use crate::{Carried, Words};

/// The words of a value, and words 0 behind them.
pub fn words_of<A: Carried>(x: A) -> [u64; 250]
    requires room { A.count ≤ most_words }
    ensures front { IsFront A.count A.words A.is_value x result }
    ensures zeros { drop A.count result ≡ replicate (most_words - A.count) 0 }
{
    let mut words = Words::blank();
    x.put(&mut words);
    words.w
}

/// The value whose words are the first ones, if there is one. What stands behind them isn't looked at.
pub fn value_of<A: Carried>(carry: &[u64; 250]) -> Option<A>
    ensures found { IfSome result (λ x. IsFront A.count A.words A.is_value x carry.now) }
    ensures none { IfNone result ((x : A) → ¬ IsFront A.count A.words A.is_value x carry.now) }
{
    let mut words = Words { w: *carry, at: 0 };
    A::get(&mut words)
}
