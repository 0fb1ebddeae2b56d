ghost use Rattle.std.specs.Prelude.{◌≡◌, ℕ, ◌-◌, ◌^◌, ◌<◌, ◌≤◌, ◌≢◌, List, All, length, drop, replicate, IfSome, IfNone};
ghost use Rattle.std.specs.Cmp.Lexicographic.{slice_cmp};
ghost use Rattle.std.specs.Ordering.{nat_cmp};

use crate::Rec;

/// Values that are stored as records: each value as one record, and the order of the values is that of
/// their records. The words from `WORDS` on are 0.
pub trait Spill: Copy + Ord {
    /// How many words a value takes, from 1 to 8.
    const WORDS: usize;

    ghost WORDS: { ℕ };

    ghost words: { Self → List ℕ };

    ghost is_value: { Self → Type 0 };

    fn to_rec(&self) -> Rec
        ensures words { result.w ≡ words self.now }
        ensures value { is_value self.now };

    /// The value that is stored as this record. None is answered for a record that no value has.
    fn from_rec(source: &Rec) -> Option<Self>
        ensures found { IfSome result (λ x. words x ≡ source.now.w) }
        ensures value { IfSome result (λ x. is_value x) }
        ensures none { IfNone result ((x : Self) → is_value x → words x ≢ source.now.w) };

    ghost few: { (1 ≤ WORDS) × (WORDS ≤ 8) };

    ghost eight: { (x : Self) → is_value x → length (words x) ≡ 8 };

    ghost fits: { (x : Self) → is_value x → All (λ word. word < 2 ^ 64) (words x) };

    ghost unused: { (x : Self) → is_value x → drop WORDS (words x) ≡ replicate (8 - WORDS) 0 };

    ghost differ: { (x y : Self) → is_value x → is_value y → words x ≡ words y → x ≡ y };

    ghost ordered: { (x y : Self) → is_value x → is_value y → Self.cmp x y ≡ slice_cmp nat_cmp (words x) (words y) };
}
