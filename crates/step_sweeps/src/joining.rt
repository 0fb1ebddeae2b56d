//! An operator's diagram that is joined of both operands': in the room where it fits there, and else by sweeps.
ghost use Rattle.std.specs.Prelude.{ℕ, ◌+◌, ◌^◌, ◌≤◌, IsTrue, length};
ghost use Rattle.step_sweeps.specs.Given.{Tables, AreEarlier, nodes_by};
ghost use Rattle.step_sweeps.specs.Makes.{IsGiven, nodes_for};
ghost use Rattle.step_sweeps.specs.Pairs.{IsPairOf};
ghost use Rattle.step_sweeps.specs.Ways.{IsAnew, MakesAnew};
ghost use Rattle.step_sweeps.specs.Stops.{sweeps_stop};

use crate::MadeDiagram;
use crate::ended::keep_if_due;
use crate::swept::sweep_diagram;
use crate::task::Making;
use bool_tables::Bin;
use copied_diagrams::Pair;
use file_numbers::{INNER_PART, NODES_PART};
use rec_words::Rec;
use room_products::join_in_room;
use shelf_model::{FileNo, Shelf, SortFault};
use sweep_checkpoint::Going;

/// Makes the step's node file in the room, where it holds what that takes, which is saved where that is due, and else
/// by sweeps, for which the look at the trailers and each node of both operands, which may have been read in vain,
/// count as a turn. So many turns were made before. Of the step's work at least a turn for each node of the operands is
/// left.
pub(crate) fn join<S: Shelf>(
    op: Bin,
    pair: Pair,
    making: Making,
    before: u64,
    going: &mut Going,
    room: &mut [Rec],
    shelf: &mut S,
) -> Result<MadeDiagram, SortFault>
    requires variables { making.n ≤ 65535 }
    requires room { 16384 ≤ length room.old }
    requires earlier { AreEarlier making.number making.operands }
    requires pair { IsPairOf S.tells S.world op making pair shelf.old }
    requires anew { IsAnew making.number going.old }
    requires few { IsTrue (S.tells shelf.old) → (g : Tables) → IsGiven making (S.world shelf.old) g →
        before ≤ nodes_for making g }
    ensures makes { MakesAnew S.tells S.world S.faults making before
        (nodes_by making.operation making.n) 7 (sweeps_stop + 2 ^ 18 + 6) shelf.old shelf.new result }
{
    let out = FileNo {
        step: making.number,
        part: NODES_PART,
    };
    let tried = join_in_room(op, making.n, pair.left, pair.right, out, room, shelf)?;
    if let Some(joined) = tried {
        going.turns = before.saturating_add(joined.turns);
        keep_if_due(making, joined.turns, joined.nodes, INNER_PART, going, shelf)?;
        return Ok(MadeDiagram {
            nodes: joined.nodes,
            turns: going.turns,
            next: INNER_PART,
        });
    }
    let nodes = pair
        .left
        .trailer
        .count
        .saturating_add(pair.right.trailer.count);
    let looked = before.saturating_add(nodes).saturating_add(1);
    sweep_diagram(making, looked, going, room, shelf)
}
