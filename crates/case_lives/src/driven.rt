//! The turns of a life, whichever sweep makes them.
ghost use Rattle.std.specs.Prelude.{◌≡◌, ◌<◌, ◌≤◌, IsTrue, OnOk, IfOk};
ghost use Rattle.sweep_core.specs.Saving.{IsOfStep};
ghost use Rattle.shelf_memory.specs.Benches.{tells_of, world_of};

use crate::life::{Way, unfilled};
use shelf_memory::Bench;
use shelf_model::SortFault;
use sweep_checkpoint::{Going, run_saved, save};
use sweep_core::{Made, Sweep, Turn, run_some};

// Makes turns of a sweep, at most so many, which are counted.
fn make_some<'r, P: Sweep<'r>>(
    sweep: &mut P,
    most: u64,
    going: &mut Going,
    bench: &mut Bench,
) -> Result<Made, SortFault>
    requires ready { P.ready sweep.old }
    requires in_step { IsTrue (tells_of bench.old) → P.in_step sweep.old (world_of bench.old) }
    requires files { IsOfStep (P.accounts.makes sweep.old) (P.saving.operands (P.task sweep.old))
        (P.accounts.step sweep.old) (P.accounts.next sweep.old) }
    requires step { going.old.step ≡ P.accounts.step sweep.old }
    ensures ready { OnOk result (P.ready sweep.new) }
    ensures in_step { OnOk result (IsTrue (tells_of bench.new) → P.in_step sweep.new (world_of bench.new)) }
    ensures works { IfOk result (λ made. made.turn ≡ Turn.More → 0 < made.turns → 0 < P.fuel sweep.new) }
    ensures files { OnOk result (IsOfStep (P.accounts.makes sweep.new) (P.saving.operands (P.task sweep.new))
        (P.accounts.step sweep.new) (P.accounts.next sweep.new)) }
    ensures step { going.new.step ≡ P.accounts.step sweep.new }
    ensures sweep { going.new.sweep ≡ going.old.sweep }
{
    let made = run_some(sweep, most, bench)?;
    going.turns = going.turns.saturating_add(made.turns);
    Ok(made)
}

// Makes the turns of a life. A sweep that has ended isn't saved.
pub(crate) fn live<'r, P: Sweep<'r>>(
    sweep: &mut P,
    way: Way,
    going: &mut Going,
    bench: &mut Bench,
) -> Result<Turn, SortFault>
    requires ready { P.ready sweep.old }
    requires in_step { IsTrue (tells_of bench.old) → P.in_step sweep.old (world_of bench.old) }
    requires files { IsOfStep (P.accounts.makes sweep.old) (P.saving.operands (P.task sweep.old))
        (P.accounts.step sweep.old) (P.accounts.next sweep.old) }
    requires step { going.old.step ≡ P.accounts.step sweep.old }
    requires sweep { going.old.sweep ≤ 1 }
{
    let most = match way {
        Way::Saved(most) | Way::Unsaved(most) => most,
        // The first turn tells whether it works on.
        Way::ToEnd => 1,
    };
    let made = make_some(sweep, most, going, bench)?;
    if made.turn == Turn::Ended || made.turns == 0 {
        return Ok(made.turn);
    }
    match way {
        Way::Unsaved(_) => {}
        Way::Saved(_) => {
            let mut point = unfilled(going);
            sweep.carry(bench, &mut point)?;
            save(&point, bench)?;
        }
        Way::ToEnd => {
            run_saved(sweep, going, bench)?;
            return Ok(Turn::Ended);
        }
    }
    Ok(made.turn)
}
