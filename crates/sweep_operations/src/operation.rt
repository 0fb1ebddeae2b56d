use saved_words::Carried;
use top_down::{Goal, Tuple};

/// An operation on up to three diagrams, seen by the tuples of pointers that a sweep from the root down meets.
///
/// A tuple is asked for only where it has a node, and on the sides of a node only where it lies deeper. A checkpoint
/// keeps the operation by few words.
pub trait Operation: Carried {
    ghost use Rattle.std.specs.Prelude.{◌≡◌, ◌≤◌};
    ghost use Rattle.top_down.specs.declared.tuple.Tuple.{Tuple};
    ghost use Rattle.top_down.specs.Rules.{Rule};
    ghost use Rattle.sweep_operations.specs.Rules.{Deepens};

    /// What the operation says of tuples.
    ghost rule: { Self → Rule };

    /// The tuple of the whole operation, where these are the roots of the operands.
    ghost begins: { Self → Tuple → Tuple };

    /// The tuple of the whole operation, where these are the roots of the operands.
    fn roots(&self, roots: &Tuple) -> Tuple
        ensures { result ≡ begins self.now roots.now };

    /// What is made of a tuple.
    fn goal(&self, tuple: &Tuple) -> Goal
        ensures { result ≡ (rule self.now).goal tuple.now };

    /// The tuple on a side of one of that level, where its members' low and high pointers are given.
    fn below(&self, level: u16, high: bool, lows: &Tuple, highs: &Tuple) -> Tuple
        ensures { result ≡ (rule self.now).below level high lows.now highs.now };

    ghost deepens: { (operation : Self) → Deepens (rule operation) };

    ghost few_words: { Self.count ≤ 16 };
}
