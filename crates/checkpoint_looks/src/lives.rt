//! A life of the sweep of a plan, which is saved behind its turns.
ghost use Rattle.std.specs.Prelude.{◌≡◌, ◌≤◌, length};

use crate::asked::Meant;
use crate::cases::{Kind, Plan, arcs_in};
use case_lives::{Lived, STEP, Way, compare, copy, evaluate, going_from, imply, operate, reduce};
use case_tables::operator;
use rec_words::Rec;
use shelf_memory::Bench;
use shelf_model::SortFault;
use sweep_checkpoint::{Going, load};
use top_down_sweep::{Choice, Product, Quantified, Restricted, StepOperation};

const BUDGET: u32 = 0x4000;

// An operation by its own type.
fn operate_own(
    meant: Meant,
    n: u32,
    way: Way,
    going: &mut Going,
    room: &mut [Rec],
    bench: &mut Bench,
) -> Result<Option<Lived>, SortFault>
    requires room { 16384 ≤ length room.old }
    requires step { going.old.step ≡ 7 }
    requires sweep { going.old.sweep ≤ 1 }
{
    match meant {
        Meant::Operator(digits) => {
            let op = operator(digits);
            operate(Product { op }, n, way, going, room, bench)
        }
        Meant::Choice => operate(Choice, n, way, going, room, bench),
        Meant::Quantifier(kind, variable) => {
            operate(Quantified { kind, variable }, n, way, going, room, bench)
        }
        Meant::Restriction(variable, value) => {
            operate(Restricted { variable, value }, n, way, going, room, bench)
        }
    }
}

// An operation as that of a step.
fn step_of(meant: Meant) -> StepOperation {
    match meant {
        Meant::Operator(digits) => StepOperation::Operator(operator(digits)),
        Meant::Choice => StepOperation::Choice,
        Meant::Quantifier(kind, level) => StepOperation::Quantifier { kind, level },
        Meant::Restriction(level, value) => StepOperation::Restriction { level, value },
    }
}

// An evaluation, whose text ends behind its bits.
fn evaluate_text(
    plan: Plan,
    way: Way,
    going: &mut Going,
    room: &mut [Rec],
    bench: &mut Bench,
) -> Result<Option<Lived>, SortFault>
    requires room { 16384 ≤ length room.old }
    requires step { going.old.step ≡ 7 }
    requires sweep { going.old.sweep ≤ 1 }
{
    let n = plan.variables();
    let text = plan.text();
    match text.get(0..5 + n as usize) {
        Some(text) => evaluate(n, text, way, going, room, bench),
        None => Ok(None),
    }
}

// The life of a plan.
fn live_from(
    plan: Plan,
    way: Way,
    going: &mut Going,
    room: &mut [Rec],
    bench: &mut Bench,
) -> Result<Option<Lived>, SortFault>
    requires room { 16384 ≤ length room.old }
    requires step { going.old.step ≡ 7 }
    requires sweep { going.old.sweep ≤ 1 }
{
    let n = plan.variables();
    match plan.kind {
        Kind::Own(meant) => operate_own(meant, n, way, going, room, bench),
        Kind::OfStep(meant) => operate(step_of(meant), n, way, going, room, bench),
        Kind::Implication(_) => imply(n, way, going, room, bench),
        Kind::Reduction(_) => reduce(n, arcs_in(bench), way, going, room, bench),
        Kind::Comparison(_) => compare(n, way, going, room, bench),
        Kind::Value(_) => evaluate_text(plan, way, going, room, bench),
        Kind::Copy(pieces) => copy(pieces, way, going, room, bench),
    }
}

/// A life of at most so many turns, from the step's last checkpoint if there is one. None is answered where that isn't
/// one of such a sweep.
pub(crate) fn live_on(
    plan: Plan,
    most: u64,
    room: &mut [Rec],
    bench: &mut Bench,
) -> Result<Option<Lived>, SortFault>
    requires { 16384 ≤ length room.old }
{
    let last = load(STEP, bench)?;
    let mut going = going_from(plan.kind.sweep(), BUDGET, last);
    live_from(plan, Way::Saved(most), &mut going, room, bench)
}
