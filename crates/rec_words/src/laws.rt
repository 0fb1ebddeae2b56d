//! Laws of pointers, each the contract of a function that does little.
ghost use Rattle.std.specs.Prelude.{◌≡◌, ◌<◌, ℕ, Bool, true, false};
ghost use Rattle.std.specs.Ordering.{nat_cmp, ordering_then};
ghost use Rattle.std.specs.declared.cmp.Ordering.TheVariants.{Less};
ghost use Rattle.rec_words.specs.Words.{level_numbers, node_word, terminal, IsNodeWord};

use crate::Ptr;
use std::cmp::Ordering;

/// Pointers are ordered by level and then by number, and the truth values come last, 0 before 1.
pub fn pointers_are_ordered(p: Ptr, q: Ptr) -> Ordering
    ensures words { result ≡ nat_cmp p q }
    ensures nodes { (level number other its_number : ℕ) →
        number < level_numbers → its_number < level_numbers →
        nat_cmp (node_word level number) (node_word other its_number)
        ≡ ordering_then (nat_cmp level other) (nat_cmp number its_number) }
    ensures last { (word : ℕ) (value : Bool) → IsNodeWord word → nat_cmp word (terminal value) ≡ Less }
    ensures values { nat_cmp (terminal false) (terminal true) ≡ Less }
{
    p.cmp(&q)
}
