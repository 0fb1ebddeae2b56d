use crate::{Choice, Operation, Product, Quantified, Restricted};
use bool_tables::{Bin, Quant};
use top_down::{Goal, Tuple};

/// The operation that a step is, on up to three diagrams.
#[derive(Clone, Copy, Debug, PartialEq, Eq)]
pub enum StepOperation {
    /// An operator on two.
    Operator(Bin),
    /// A choice: the test, and the two branches.
    Choice,
    /// A quantifier over the variable of a level of one.
    Quantifier { kind: Quant, level: u32 },
    /// One in which the variable of a level has a value.
    Restriction { level: u32, value: bool },
}

impl Operation for StepOperation {
    ghost use Rattle.std.proofs.Common.{lit≤};
    ghost use Rattle.sweep_operations.specs.Operations.{rule_of, begins_of, operation_deepens};

    ghost rule = { rule_of };

    ghost begins = { begins_of };

    fn roots(&self, roots: &Tuple) -> Tuple {
        match *self {
            StepOperation::Operator(op) => Product { op }.roots(roots),
            StepOperation::Choice => Choice.roots(roots),
            StepOperation::Quantifier { kind, level } => Quantified {
                kind,
                variable: level,
            }
            .roots(roots),
            StepOperation::Restriction { level, value } => Restricted {
                variable: level,
                value,
            }
            .roots(roots),
        }
    }

    fn goal(&self, tuple: &Tuple) -> Goal {
        match *self {
            StepOperation::Operator(op) => Product { op }.goal(tuple),
            StepOperation::Choice => Choice.goal(tuple),
            StepOperation::Quantifier { kind, level } => Quantified {
                kind,
                variable: level,
            }
            .goal(tuple),
            StepOperation::Restriction { level, value } => Restricted {
                variable: level,
                value,
            }
            .goal(tuple),
        }
    }

    fn below(&self, level: u16, high: bool, lows: &Tuple, highs: &Tuple) -> Tuple {
        match *self {
            StepOperation::Operator(op) => Product { op }.below(level, high, lows, highs),
            StepOperation::Choice => Choice.below(level, high, lows, highs),
            StepOperation::Quantifier {
                kind,
                level: variable,
            } => Quantified { kind, variable }.below(level, high, lows, highs),
            StepOperation::Restriction {
                level: variable,
                value,
            } => Restricted { variable, value }.below(level, high, lows, highs),
        }
    }

    ghost deepens = { operation_deepens };

    ghost few_words = { lit≤ tt };
}
