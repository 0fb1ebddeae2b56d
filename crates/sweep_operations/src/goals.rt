//! What the operations have in common.
ghost use Rattle.std.specs.Prelude.{◌≡◌, Some, None, cond};
ghost use Rattle.top_down.specs.Operations as rules;
ghost use Rattle.top_down.specs.Tuples as tuples;

use rec_words::Ptr;
use top_down::{Goal, Tuple};

/// What stands in a member that isn't used.
pub(crate) fn unused() -> Ptr
    ensures { result ≡ tuples.unused }
{
    Ptr::terminal(false)
}

/// The truth value that a pointer is.
pub(crate) fn value_of(pointer: Ptr) -> Option<bool>
    ensures { result ≡ cond (rules.is_end pointer) (Some (rules.is_one pointer)) None }
{
    pointer.value()
}

/// A pointer that is a truth value ends, and any other is asked for.
pub(crate) fn ends_or(pointer: Ptr, tuple: &Tuple) -> Goal
    ensures { result ≡ rules.ends_or pointer tuple.now }
{
    match value_of(pointer) {
        Some(value) => Goal::End(value),
        None => Goal::Go(*tuple),
    }
}

/// Two values that are the same decide, and otherwise the tuple is asked for.
pub(crate) fn decides(b: bool, c: bool, tuple: &Tuple) -> Goal
    ensures { result ≡ rules.decides b c tuple.now }
{
    if b == c {
        Goal::End(b)
    } else {
        Goal::Go(*tuple)
    }
}

/// The tuple of one side's pointers.
pub(crate) fn same_side(high: bool, lows: &Tuple, highs: &Tuple) -> Tuple
    ensures { result ≡ cond high highs.now lows.now }
{
    if high { *highs } else { *lows }
}

/// The tuple of two pointers.
pub(crate) fn two(a: Ptr, b: Ptr) -> Tuple
    ensures { result ≡ rules.two a b }
{
    Tuple {
        first: a,
        second: b,
        third: unused(),
    }
}
