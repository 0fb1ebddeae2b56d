use crate::Words;

/// A value that stands in words: so many for each value of its type.
pub trait Carried: Copy {
    ghost use Rattle.std.specs.Prelude.{◌≡◌, ◌≢◌, ◌↔◌, ℕ, ◌^◌, ◌<◌, List, All, length, replicate};
    ghost use Rattle.std.specs.Prelude.{IsTrue, IfSome, IfNone};
    ghost use Rattle.saved_words.specs.Places.{put_in, next_words, moved};

    /// How many words each value has.
    ghost count: { ℕ };

    ghost words: { Self → List ℕ };

    ghost is_value: { Self → Type 0 };

    /// Puts the words of the value at the place, as far as there is room.
    fn put(&self, into: &mut Words)
        ensures words { into.new ≡ put_in (words self.now) into.old }
        ensures value { is_value self.now };

    /// Puts as many words 0.
    fn put_none(into: &mut Words)
        ensures { into.new ≡ put_in (replicate count 0) into.old };

    /// The value whose words stand at the place. Where none has these words, the words aren't used further.
    fn get(from: &mut Words) -> Option<Self>
        ensures found { IfSome result (λ x. words x ≡ next_words count from.old) }
        ensures value { IfSome result is_value }
        ensures moves { IfSome result (λ _. from.new ≡ moved count from.old) }
        ensures none { IfNone result ((x : Self) → is_value x → words x ≢ next_words count from.old) };

    /// Whether as many words 0 stand at the place. Where they don't, the words aren't used further.
    fn get_none(from: &mut Words) -> bool
        ensures zeros { IsTrue result ↔ (next_words count from.old ≡ replicate count 0) }
        ensures moves { IsTrue result → from.new ≡ moved count from.old };

    ghost long: { (x : Self) → is_value x → length (words x) ≡ count };

    ghost fits: { (x : Self) → is_value x → All (λ word. word < 2 ^ 64) (words x) };

    ghost differ: { (x y : Self) → is_value x → is_value y → words x ≡ words y → x ≡ y };
}
