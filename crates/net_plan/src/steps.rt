//! Steps put one after the other, numbered from a first number on.

ghost use Rattle.std.specs.Prelude.{◌≡◌, ◌+◌, ◌<◌, ◌≤◌, ◌++◌, ◌∷◌, [], List, Bool, length, drop, take, IfOk, OnOk, IfErr, OnErr, Err};
ghost use Rattle.net_plan.specs.Covers.{Draft, put, join, column, columns, cube, summed, row, rows, signed, block};
ghost use Rattle.net_plan.specs.Drafts.{Drafts};

use crate::fault::PlanFault;
use bool_tables::{Bin, Step};

/// The steps of a plan have numbers below this.
pub const MOST_STEPS: usize = 1_048_576;

pub(crate) const BOTH: Bin = Bin {
    v00: false,
    v01: false,
    v10: false,
    v11: true,
};

pub(crate) const LEFT_ALONE: Bin = Bin {
    v00: false,
    v01: false,
    v10: true,
    v11: false,
};

pub(crate) const EITHER: Bin = Bin {
    v00: false,
    v01: true,
    v10: true,
    v11: true,
};

/// Neither of two operands is 1, or one of them isn't: for one operand twice, its complement.
pub const NOT_BOTH: Bin = Bin {
    v00: true,
    v01: true,
    v10: true,
    v11: false,
};

/// Puts one step. The answer is its number.
pub(crate) fn put_step(first: u32, steps: &mut Vec<Step>, step: Step) -> Result<u32, PlanFault>
    ensures { Drafts first steps.old.items steps.new.items (put first steps.old.items step) result }
{
    let number = first as usize + steps.len();
    if number >= MOST_STEPS {
        return Err(PlanFault::TooManySteps);
    }
    steps.push(step)?;
    Ok(number as u32)
}

/// Joins the diagram at hand with another, and drops it.
pub(crate) fn join_steps(
    first: u32,
    steps: &mut Vec<Step>,
    op: Bin,
    at: u32,
    other: u32,
) -> Result<u32, PlanFault>
    ensures { Drafts first steps.old.items steps.new.items
        (join first op (record { steps = steps.old.items; at = at }) other) result }
{
    let made = put_step(
        first,
        steps,
        Step::Pair {
            op,
            left: at,
            right: other,
        },
    )?;
    put_step(first, steps, Step::Drop { gone: at })?;
    Ok(made)
}
