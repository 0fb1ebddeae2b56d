//! The law of complements: the contract of a function that does nothing.
ghost use Rattle.std.specs.Prelude.{ℕ};
ghost use Rattle.room_reduction.specs.Complements.{GivesComplement};

/// With exchanged truth values a diagram of a table is one of the table's complement.
pub fn exchanged_truth_values_give_the_complement()
    ensures { (n : ℕ) → GivesComplement n }
{}
