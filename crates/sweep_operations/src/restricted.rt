use crate::Operation;
use crate::goals::{ends_or, same_side, unused};
use top_down::{Goal, Tuple};

/// The restriction of the variable of a level to a value. The other two operands aren't used.
#[derive(Clone, Copy, Debug, PartialEq, Eq)]
pub struct Restricted {
    pub variable: u32,
    pub value: bool,
}

impl Operation for Restricted {
    ghost use Rattle.std.proofs.Common.{lit≤};
    ghost use Rattle.top_down.specs.Operations.{restrict_rule};
    ghost use Rattle.top_down.specs.Tuples.{unused};
    ghost use Rattle.sweep_operations.specs.Deepening.{restrict_deepens};

    ghost rule = { λ o. restrict_rule o.variable o.value };

    ghost begins = { λ o x. record { first = x.first; second = unused; third = unused } };

    fn roots(&self, roots: &Tuple) -> Tuple {
        Tuple {
            first: roots.first,
            second: unused(),
            third: unused(),
        }
    }

    fn goal(&self, tuple: &Tuple) -> Goal {
        ends_or(tuple.first, tuple)
    }

    fn below(&self, level: u16, high: bool, lows: &Tuple, highs: &Tuple) -> Tuple {
        if u32::from(level) == self.variable {
            same_side(self.value, lows, highs)
        } else {
            same_side(high, lows, highs)
        }
    }

    ghost deepens = { λ o. restrict_deepens o.variable o.value };

    ghost few_words = { lit≤ tt };
}
