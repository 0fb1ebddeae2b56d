//! The laws of met tuples. Each function does nothing: what it ensures is the law.
ghost use Rattle.std.specs.Prelude.{ℕ};
ghost use Rattle.met_tuples.specs.Few.{ProductMeetsFew, ChoiceMeetsFew, QuantifyMeetsFew, RestrictMeetsFew};

/// On canonical diagrams an operation, a choice, a quantifier and a restriction meet no more tuples than the step joins
/// in which a piece of a table splits.
pub fn operations_meet_few_tuples()
    ensures product { (n : ℕ) → ProductMeetsFew n }
    ensures choice { (n : ℕ) → ChoiceMeetsFew n }
    ensures quantifier { (n : ℕ) → QuantifyMeetsFew n }
    ensures restriction { (n : ℕ) → RestrictMeetsFew n }
{}
