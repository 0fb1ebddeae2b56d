//! An operator's diagram that is that of one operand, copied in turns.
ghost use Rattle.std.specs.Prelude.{◌≡◌, ◌↔◌, ◌+◌, ◌-◌, ◌^◌, ◌<◌, ◌≤◌, IsTrue, Some, Err, IfOk, IfErr, length};
ghost use Rattle.sweep_core.specs.declared.checkpoint.Checkpoint.{Checkpoint};
ghost use Rattle.copied_diagrams.specs.declared.way.Way.TheVariants as ways;
ghost use Rattle.step_sweeps.specs.Copied.{CopiesTo};
ghost use Rattle.step_sweeps.specs.Given.{AreEarlier};
ghost use Rattle.step_sweeps.specs.Pairs.{Leads};
ghost use Rattle.step_sweeps.specs.Made.{node_file};
ghost use Rattle.step_sweeps.specs.Makes.{work_for};
ghost use Rattle.step_sweeps.specs.Kinds.{copy_kind};
ghost use Rattle.step_sweeps.specs.Started.{Starts};
ghost use Rattle.step_sweeps.specs.Sweeping.{MayResume, Sweeps, IsOperand, IsCopyFor};
ghost use Rattle.step_sweeps.specs.Ways.{IsAnew, MakesAnew};
ghost use Rattle.step_sweeps.specs.Stops.{sweeps_stop};

use crate::MadeDiagram;
use crate::foreign::foreign_point;
use crate::reduction::PARTS;
use crate::task::Making;
use copied_diagrams::Source;
use copy_sweep::{CopySweep, CopyTask};
use file_numbers::{INNER_PART, node_file};
use node_file::node_pieces;
use rec_words::{NODE_SIZE, Rec};
use run_merge::Parts;
use shelf_model::{FileNo, Shelf, SortFault};
use sweep_checkpoint::{Going, run_saved};
use sweep_core::{Checkpoint, Sweep};

/// Makes the step's node file a copy of an operand's, of which each turn copies a piece, and one syncs them.
pub(crate) fn copy_in_turns<S: Shelf>(
    source: Source,
    making: Making,
    going: &mut Going,
    shelf: &mut S,
) -> Result<MadeDiagram, SortFault>
    requires operand { IsOperand making source.from }
    requires earlier { AreEarlier making.number making.operands }
    requires few { source.trailer.count < 2 ^ 40 }
    requires leads { Leads S.tells S.world making (ways.CopyInTurns source) shelf.old }
    requires anew { IsAnew making.number going.old }
    ensures makes { MakesAnew S.tells S.world S.faults making 0 (λ g. 0) 7
        (sweeps_stop + 2 ^ 19 + 32) shelf.old shelf.new result }
{
    let task = CopyTask {
        from: source.from,
        to: node_file(making.number),
        pieces: node_pieces(source.trailer.count),
    };
    let parts = Parts {
        step: making.number,
        next: INNER_PART,
    };
    let mut sweep = CopySweep::start(task, parts, shelf)?;
    run_saved(&mut sweep, going, shelf)?;
    Ok(MadeDiagram {
        nodes: source.trailer.count,
        turns: going.turns,
        // A step has no more part numbers.
        next: sweep.parts().next.min(PARTS),
    })
}

/// Goes on with such a copy from the step's last checkpoint, which has to be one of it.
pub(crate) fn copy_on<S: Shelf>(
    making: Making,
    going: &mut Going,
    room: &mut [Rec],
    shelf: &mut S,
) -> Result<MadeDiagram, SortFault>
    requires room { 16384 ≤ length room.old }
    requires earlier { AreEarlier making.number making.operands }
    requires going { MayResume making.number going.old }
    requires first { going.old.sweep ≡ 0 }
    requires tables { (c : Checkpoint) → going.old.last ≡ Some c → c.tables ≡ 0 }
    ensures sweeps { Sweeps S.tells S.world S.faults making going.old shelf.old shelf.new result }
{
    let mut sweep = rebuild_copy(making, going, room, shelf)?;
    run_saved(&mut sweep, going, shelf)?;
    let size = shelf.len(node_file(making.number))?;
    Ok(MadeDiagram {
        nodes: (size / NODE_SIZE).saturating_sub(1),
        turns: going.turns,
        next: sweep.parts().next.min(PARTS),
    })
}

// The copy of which the step's last checkpoint has to be one.
fn rebuild_copy<'r, S: Shelf>(
    making: Making,
    going: &Going,
    room: &'r mut [Rec],
    shelf: &mut S,
) -> Result<CopySweep<'r>, SortFault>
    requires room { 16384 ≤ length room.old }
    requires earlier { AreEarlier making.number making.operands }
    requires going { MayResume making.number going.now }
    requires first { going.now.sweep ≡ 0 }
    requires tables { (c : Checkpoint) → going.now.last ≡ Some c → c.tables ≡ 0 }
    ensures starts { IfOk result (Starts S.tells S.world S.faults copy_kind
        (λ g job s. CopiesTo making g job s) (λ g. work_for making g - 1) 0 making going.now shelf.old shelf.new) }
    ensures task { IfOk result (λ s. IsOperand making s.task.from × (s.task.to ≡ node_file making.number)) }
    ensures refused { IfErr result (λ e. Sweeps S.tells S.world S.faults making going.now
        shelf.old shelf.new (Err e)) }
{
    let Some(point) = &going.last else {
        unreachable!();
    };
    if !is_of(point, making) || !CopySweep::fits(point) {
        return Err(foreign_point(making.number, shelf));
    }
    CopySweep::rebuild(point, &[], room, shelf)
}

// Whether a checkpoint says that an operand's file is copied to the step's node file.
fn is_of(point: &Checkpoint, making: Making) -> bool
    ensures { IsTrue result ↔ IsCopyFor making point.now }
{
    let Some(task) = CopySweep::named(point) else {
        return false;
    };
    task.to == node_file(making.number) && is_operand(task.from, making)
}

// Whether a file is that of one of an operator's operands.
fn is_operand(file: FileNo, making: Making) -> bool
    ensures { IsTrue result ↔ IsOperand making file }
{
    file == making.operands.first || file == making.operands.second
}
