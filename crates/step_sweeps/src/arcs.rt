//! The first sweep of a step that makes a diagram: from the operands' files to the arcs of a diagram that isn't
//! reduced.
ghost use Rattle.std.specs.Prelude.{◌≡◌, ◌↔◌, ◌≤◌, IsTrue, Err, IfOk, IfErr, None, length};
ghost use Rattle.top_down_sweep.specs.Calls.{IsTrusted};
ghost use Rattle.top_down_sweep.specs.Resumes.{Names};
ghost use Rattle.top_down_sweep.specs.Sweeps.{task_of};
ghost use Rattle.table_work.specs.Tables.{sweep_of, work_of};
ghost use Rattle.resumable.specs.Diagrams.{step_words, arcs_of};
ghost use Rattle.step_sweeps.specs.Operations.{IsWithin, rule_of, begins_of};
ghost use Rattle.step_sweeps.specs.Given.{AreEarlier};
ghost use Rattle.step_sweeps.specs.Kinds.{arcs_kind};
ghost use Rattle.step_sweeps.specs.Makes.{HasNoGate};
ghost use Rattle.step_sweeps.specs.Started.{Starts};
ghost use Rattle.step_sweeps.specs.Sweeping.{MaySweep, IsEarly, SweepsArcs, MakesArcs, IsCovered, arcs_most};

use crate::StepOperation;
use crate::confirming::confirmed;
use crate::foreign::foreign_point;
use crate::reduction::PARTS;
use crate::task::Making;
use arc_file::Unreduced;
use file_numbers::{INNER_PART, ends_file, inner_file};
use rec_words::Rec;
use run_merge::Parts;
use shelf_model::{Shelf, SortFault};
use sweep_checkpoint::{Going, run_saved};
use sweep_core::{Checkpoint, Sweep};
use table_work::TableSweep;
use top_down_sweep::{Files, TopDownSweep};

/// The arcs of a diagram that isn't reduced, and the part numbers that weren't taken.
#[derive(Clone, Copy)]
pub(crate) struct MadeArcs {
    pub(crate) arcs: Unreduced,
    pub(crate) parts: Parts,
}

/// Makes the arcs of an operation on the files of diagrams of `n` variables, in parts 3 and 4 of the step, with the
/// parts from 5 on for the runs of its queue: from the beginning on, or from the step's last checkpoint. It is refused
/// where more part numbers were taken than a step has. Where an operand is found damaged, all its nodes are read before
/// a place is named.
pub(crate) fn make_arcs<S: Shelf>(
    making: Making,
    going: &mut Going,
    room: &mut [Rec],
    shelf: &mut S,
) -> Result<MadeArcs, SortFault>
    requires room { 16384 ≤ length room.old }
    requires within { IsWithin making.n making.operation }
    requires earlier { AreEarlier making.number making.operands }
    requires going { MaySweep making.number going.old }
    requires early { IsEarly S.tells S.world making going.old shelf.old }
    ensures makes { MakesArcs S.tells S.world S.faults making going.old going.new shelf.old shelf.new result }
{
    match sweep_to_arcs(making, going, room, shelf) {
        Ok(made) => Ok(made),
        Err(fault) => Err(confirmed(making.n, making.operands, fault, room, shelf)),
    }
}

// The sweep that makes them, begun or rebuilt, and run to its end.
fn sweep_to_arcs<S: Shelf>(
    making: Making,
    going: &mut Going,
    room: &mut [Rec],
    shelf: &mut S,
) -> Result<MadeArcs, SortFault>
    requires room { 16384 ≤ length room.old }
    requires within { IsWithin making.n making.operation }
    requires earlier { AreEarlier making.number making.operands }
    requires going { MaySweep making.number going.old }
    requires early { IsEarly S.tells S.world making going.old shelf.old }
    ensures makes { SweepsArcs S.tells S.world S.faults making going.old going.new shelf.old shelf.new result }
{
    let mut sweep = begin_arcs(making, going, room, shelf)?;
    run_saved(&mut sweep, going, shelf)?;
    // A word of a checkpoint holds the turns that are shown: their range is known once they are read.
    let _shown = going.shown;
    let parts = sweep.parts();
    if parts.next > PARTS {
        return Err(SortFault::RunsSpent);
    }
    let Some(arcs) = sweep.made() else {
        unreachable!();
    };
    Ok(MadeArcs { arcs, parts })
}

// The sweep from its beginning on, or from the step's last checkpoint, which has to be one of it.
fn begin_arcs<'r, S: Shelf>(
    making: Making,
    going: &Going,
    room: &'r mut [Rec],
    shelf: &mut S,
) -> Result<TableSweep<'r, StepOperation>, SortFault>
    requires room { 16384 ≤ length room.old }
    requires within { IsWithin making.n making.operation }
    requires earlier { AreEarlier making.number making.operands }
    requires going { MaySweep making.number going.now }
    requires early { IsEarly S.tells S.world making going.now shelf.old }
    ensures starts { IfOk result (Starts S.tells S.world S.faults arcs_kind
        (λ g job s. job ≡ work_of making.operation making.n g) (arcs_most making going.now) 8 making going.now
        shelf.old shelf.new) }
    ensures task { IfOk result (λ s. task_of (sweep_of s) ≡ arcs_of making.n making.operands making.number) }
    ensures operation { IfOk result (λ s. going.now.last ≡ None → (sweep_of s).operation ≡ making.operation) }
    ensures trusts { IfOk result (λ s. IsTrue (S.tells shelf.new) → going.now.last ≡ None →
        IsTrusted rule_of begins_of (sweep_of s) (S.world shelf.new)) }
    ensures covered { IfOk result (λ s. IsTrue (S.tells shelf.new) → going.now.last ≡ None →
        HasNoGate making.number (S.world shelf.old) → IsCovered making.number (S.world shelf.new)) }
    ensures refused { IfErr result (λ e. SweepsArcs S.tells S.world S.faults making going.now going.now
        shelf.old shelf.new (Err e)) }
{
    let Some(point) = &going.last else {
        let parts = Parts {
            step: making.number,
            next: INNER_PART,
        };
        return TableSweep::begin(
            making.operation,
            making.n,
            making.operands,
            parts,
            room,
            shelf,
        );
    };
    if !is_of(point, making) || !TopDownSweep::<StepOperation>::fits(point) {
        return Err(foreign_point(making.number, shelf));
    }
    TableSweep::rebuild(point, &[], room, shelf)
}

// Whether a checkpoint says that arcs of the step are made of its operands.
fn is_of(point: &Checkpoint, making: Making) -> bool
    ensures { IsTrue result ↔ Names step_words point.now (arcs_of making.n making.operands making.number) }
{
    let Some(named) = TopDownSweep::<StepOperation>::named(point) else {
        return false;
    };
    let files = Files {
        first: making.operands.first,
        second: making.operands.second,
        third: making.operands.third,
        inner: inner_file(making.number),
        ends: ends_file(making.number),
    };
    named.variables == making.n && named.files == files
}
