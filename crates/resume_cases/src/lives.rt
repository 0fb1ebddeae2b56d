//! A life of the sweep of a case.
ghost use Rattle.std.specs.Prelude.{◌≡◌, ◌≤◌, length};

use crate::plans::{Case, Plan};
use case_lives::{Lived, STEP, Way, compare, copy, evaluate, going_from};
use rec_words::Rec;
use shelf_memory::Bench;
use shelf_model::SortFault;
use sweep_checkpoint::{Going, load};

/// A life of the sweep of a case, from the last checkpoint of its step if there is one. None is answered where that
/// doesn't fit.
pub(crate) fn live_from(
    case: &Case,
    way: Way,
    going: &mut Going,
    room: &mut [Rec],
    bench: &mut Bench,
) -> Result<Option<Lived>, SortFault>
    requires room { 16384 ≤ length room.old }
    requires step { going.old.step ≡ 7 }
    requires sweep { going.old.sweep ≤ 1 }
{
    let n = case.plan.variables();
    match case.plan {
        Plan::Same(_) | Plan::Different(_, _) | Plan::Complement(_) => {
            compare(n, way, going, room, bench)
        }
        Plan::Value(_, _) => evaluate(n, case.text.as_slice(), way, going, room, bench),
        Plan::Pieces(_, pieces) => copy(pieces, way, going, room, bench),
    }
}

/// The same from what the folder holds, whichever budget the life had that saved it.
pub(crate) fn live_on(
    case: &Case,
    way: Way,
    budget: u32,
    room: &mut [Rec],
    bench: &mut Bench,
) -> Result<Option<Lived>, SortFault>
    requires room { 16384 ≤ length room.old }
{
    let last = load(STEP, bench)?;
    live_from(case, way, &mut going_from(0, budget, last), room, bench)
}
