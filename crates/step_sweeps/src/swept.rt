//! A step that makes a diagram of others by a sweep, and a reduction of the arcs that it makes.
ghost use Rattle.std.specs.Prelude.{◌≤◌, IsTrue, length};
ghost use Rattle.step_sweeps.specs.Operations.{IsWithin};
ghost use Rattle.step_sweeps.specs.Given.{Tables, AreEarlier};
ghost use Rattle.step_sweeps.specs.Makes.{IsGiven};
ghost use Rattle.step_sweeps.specs.Sweeping.{MaySweep, IsEarly, Sweeps};
ghost use Rattle.step_sweeps.specs.Ways.{IsAnew, MakesAnew, left_by_sweeps};
ghost use Rattle.step_sweeps.specs.Stops.{sweeps_stop};

use crate::MadeDiagram;
use crate::arcs::make_arcs;
use crate::reduction::reduce_arcs;
use crate::task::Making;
use rec_words::Rec;
use shelf_model::{Shelf, SortFault};
use sweep_checkpoint::Going;

/// Makes the node file of an operation: a sweep makes the arcs of a diagram in parts 3 and 4 of the step, and a
/// reduction makes part 0 of them. So many turns were made before the first one. Of the step's work at least two turns
/// for each node of the operands are left, and one.
pub(crate) fn sweep_diagram<S: Shelf>(
    making: Making,
    before: u64,
    going: &mut Going,
    room: &mut [Rec],
    shelf: &mut S,
) -> Result<MadeDiagram, SortFault>
    requires variables { making.n ≤ 65535 }
    requires room { 16384 ≤ length room.old }
    requires within { IsWithin making.n making.operation }
    requires earlier { AreEarlier making.number making.operands }
    requires anew { IsAnew making.number going.old }
    requires few { IsTrue (S.tells shelf.old) → (g : Tables) → IsGiven making (S.world shelf.old) g →
        before ≤ left_by_sweeps making g }
    ensures makes { MakesAnew S.tells S.world S.faults making before (left_by_sweeps making) 11
        sweeps_stop shelf.old shelf.new result }
{
    going.turns = before;
    going.shown = before;
    sweep_on(making, going, room, shelf)
}

/// Makes the arcs, or goes on with them from the step's last checkpoint, and reduces them.
pub(crate) fn sweep_on<S: Shelf>(
    making: Making,
    going: &mut Going,
    room: &mut [Rec],
    shelf: &mut S,
) -> Result<MadeDiagram, SortFault>
    requires variables { making.n ≤ 65535 }
    requires room { 16384 ≤ length room.old }
    requires within { IsWithin making.n making.operation }
    requires earlier { AreEarlier making.number making.operands }
    requires going { MaySweep making.number going.old }
    requires early { IsEarly S.tells S.world making going.old shelf.old }
    ensures sweeps { Sweeps S.tells S.world S.faults making going.old shelf.old shelf.new result }
{
    let made = make_arcs(making, going, room, shelf)?;
    reduce_arcs(making, made, going, room, shelf)
}
