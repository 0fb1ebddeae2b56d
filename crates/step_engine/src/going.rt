//! How far a step has come before it is run.
ghost use Rattle.std.specs.Prelude.{◌≤◌, length};
ghost use Rattle.step_engine.specs.Finding.{FindsGoing};

use rec_words::Rec;
use shelf_model::{Shelf, SortFault};
use step_going::{find_going, give_up_lost};
use sweep_checkpoint::Going;

/// How far a step has come, for a run in this room: its last gated checkpoint is found, and made sure with all on which
/// it may rest; and what a stopped life took behind it is given up, where it is one of a sweep that keeps runs. Nothing
/// was done where it has none.
pub(crate) fn going_in<S: Shelf>(
    number: u32,
    room: &[Rec],
    shelf: &mut S,
) -> Result<Going, SortFault>
    requires room { (16384 ≤ length room.now) × (length room.now ≤ 4194304) }
    ensures finds { FindsGoing S.tells S.world S.faults number shelf.old shelf.new result }
{
    let going = find_going(number, room.len() as u32, shelf)?;
    let Some(point) = &going.last else {
        return Ok(going);
    };
    // A sweep that keeps no runs takes no part.
    if point.tables == 0 {
        return Ok(going);
    }
    give_up_lost(number, point.next_part, shelf)?;
    Ok(going)
}
