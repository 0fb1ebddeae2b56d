//! What an operator makes of a pair of pointers.
ghost use Rattle.std.specs.Prelude.{◌≡◌, Some, None, cond};
ghost use Rattle.bool_tables.specs.Tables.{same_bit};
ghost use Rattle.top_down.specs.Operations.{is_end, is_one, product_goal, two};
ghost use Rattle.room_products.specs.Goals.{end_in};

use bool_tables::Bin;

/// The word of the truth value 0. That of 1 is the next one, and those of nodes are below.
pub(crate) const ZERO: u64 = 1 << 63;

/// The truth value in which a pair of words ends: where the operator's value hangs on no node.
pub(crate) fn end_of(op: Bin, first: u64, second: u64) -> Option<bool>
    ensures { result ≡ end_in (product_goal op (two first second)) }
{
    match (value_of(first), value_of(second)) {
        (Some(left), Some(right)) => Some(op.value(left, right)),
        (Some(left), None) => decided(op.value(left, false), op.value(left, true)),
        (None, Some(right)) => decided(op.value(false, right), op.value(true, right)),
        (None, None) => None,
    }
}

// The truth value that a word is.
fn value_of(word: u64) -> Option<bool>
    ensures { result ≡ cond (is_end word) (Some (is_one word)) None }
{
    if word < ZERO {
        None
    } else {
        Some(word == ZERO + 1)
    }
}

// The value that two values decide: both of them, where they are the same.
fn decided(zero: bool, one: bool) -> Option<bool>
    ensures { result ≡ cond (same_bit zero one) (Some zero) None }
{
    if zero == one { Some(zero) } else { None }
}
