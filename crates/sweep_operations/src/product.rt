ghost use Rattle.std.specs.Prelude.{◌≡◌};
ghost use Rattle.top_down.specs.Operations as rules;

use crate::Operation;
use crate::goals::{decides, same_side, unused, value_of};
use bool_tables::Bin;
use top_down::{Goal, Tuple};

/// An operator on two diagrams, by its four values. The third operand isn't used.
#[derive(Clone, Copy, Debug, PartialEq, Eq)]
pub struct Product {
    pub op: Bin,
}

impl Operation for Product {
    ghost use Rattle.std.proofs.Common.{lit≤};
    ghost use Rattle.top_down.specs.Operations.{product_rule};
    ghost use Rattle.top_down.specs.Tuples.{unused};
    ghost use Rattle.sweep_operations.specs.Deepening.{product_deepens};

    ghost rule = { λ o. product_rule o.op };

    ghost begins = { λ o x. record { first = x.first; second = x.second; third = unused } };

    fn roots(&self, roots: &Tuple) -> Tuple {
        Tuple {
            first: roots.first,
            second: roots.second,
            third: unused(),
        }
    }

    fn goal(&self, tuple: &Tuple) -> Goal {
        product_goal(self.op, tuple)
    }

    fn below(&self, _level: u16, high: bool, lows: &Tuple, highs: &Tuple) -> Tuple {
        same_side(high, lows, highs)
    }

    ghost deepens = { λ o. product_deepens o.op };

    ghost few_words = { lit≤ tt };
}

// A truth value ends where the operator's value doesn't depend on the other operand.
fn product_goal(op: Bin, tuple: &Tuple) -> Goal
    ensures { result ≡ rules.product_goal op tuple.now }
{
    match (value_of(tuple.first), value_of(tuple.second)) {
        (Some(left), Some(right)) => Goal::End(op.value(left, right)),
        (Some(left), None) => decides(op.value(left, false), op.value(left, true), tuple),
        (None, Some(right)) => decides(op.value(false, right), op.value(true, right), tuple),
        (None, None) => Goal::Go(*tuple),
    }
}
