ghost use Rattle.std.specs.Prelude.{◌≡◌, ◌==◌, ◌&&◌, cond};
ghost use Rattle.top_down.specs.declared.tuple.Goal.TheVariants as goals;
ghost use Rattle.top_down.specs.Operations as rules;

use crate::Operation;
use crate::goals::{ends_or, same_side, unused, value_of};
use top_down::{Goal, Tuple};

/// The choice between two diagrams by a third, which stands first: where it is 1 the second operand, else the third.
#[derive(Clone, Copy, Debug, PartialEq, Eq)]
pub struct Choice;

impl Operation for Choice {
    ghost use Rattle.std.proofs.Common.{lit≤};
    ghost use Rattle.top_down.specs.Operations.{choice_rule};
    ghost use Rattle.sweep_operations.specs.Deepening.{choice_deepens};

    ghost rule = { λ o. choice_rule };

    ghost begins = { λ o x. x };

    fn roots(&self, roots: &Tuple) -> Tuple {
        *roots
    }

    fn goal(&self, tuple: &Tuple) -> Goal {
        choice_goal(tuple)
    }

    fn below(&self, _level: u16, high: bool, lows: &Tuple, highs: &Tuple) -> Tuple {
        same_side(high, lows, highs)
    }

    ghost deepens = { λ o. choice_deepens };

    ghost few_words = { lit≤ tt };
}

// A truth value as test leaves the chosen diagram alone, and two branches that are the same truth value end.
fn choice_goal(tuple: &Tuple) -> Goal
    ensures { result ≡ rules.choice_goal tuple.now }
{
    match value_of(tuple.first) {
        Some(true) => {
            let chosen = Tuple {
                first: tuple.first,
                second: tuple.second,
                third: unused(),
            };
            ends_or(tuple.second, &chosen)
        }
        Some(false) => {
            let chosen = Tuple {
                first: tuple.first,
                second: unused(),
                third: tuple.third,
            };
            ends_or(tuple.third, &chosen)
        }
        None => branches_goal(tuple),
    }
}

// Two branches that are the same truth value end.
fn branches_goal(tuple: &Tuple) -> Goal
    ensures { result ≡ cond (rules.is_end tuple.now.second && (tuple.now.second == tuple.now.third))
        (goals.End (rules.is_one tuple.now.second)) (goals.Go tuple.now) }
{
    match value_of(tuple.second) {
        Some(value) if tuple.second == tuple.third => Goal::End(value),
        _ => Goal::Go(*tuple),
    }
}
