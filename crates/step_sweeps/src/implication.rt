//! The step that answers whether one function implies another.
ghost use Rattle.std.specs.Prelude.{◌≡◌, ◌↔◌, ◌<◌, ◌≤◌, IsTrue, Err, IfOk, IfErr, length};
ghost use Rattle.resumable.specs.Answers.{two_files};
ghost use Rattle.resumable.specs.Diagrams.{arcs_of};
ghost use Rattle.step_sweeps.specs.Answers.{Answers, refuting, implying, refutation_of};
ghost use Rattle.step_sweeps.specs.Begun.{Begun};
ghost use Rattle.step_sweeps.specs.Going.{MayGoOn};
ghost use Rattle.step_sweeps.specs.Points.{IsOfImplication, AreMadeOf};

use crate::Answered;
use crate::confirming::confirmed;
use crate::foreign::foreign_point;
use crate::reduction::PARTS;
use file_numbers::{INNER_PART, ends_file, inner_file};
use product_sweep::LeqSweep;
use rec_words::Rec;
use run_merge::Parts;
use shelf_model::{FileNo, Shelf, SortFault};
use sweep_checkpoint::{Going, run_saved};
use sweep_core::{Checkpoint, Sweep};
use top_down_sweep::{Files, OperandFiles, Product, TopDownSweep};

/// Whether the left function implies the right one everywhere, of the files of two diagrams of `n` variables: the arcs
/// of "left and not right" are made, in parts 3 and 4 of the step, until one leads to 1. It begins, or goes on from the
/// step's last checkpoint. Where one of the files is found damaged, all its nodes are read before a place is named.
pub fn imply<S: Shelf>(
    n: u32,
    left: FileNo,
    right: FileNo,
    going: &mut Going,
    room: &mut [Rec],
    shelf: &mut S,
) -> Result<Answered, SortFault>
    requires room { 16384 ≤ length room.old }
    requires going { MayGoOn going.old }
    requires earlier { (left.step < going.old.step) × (right.step < going.old.step) }
    ensures answers { Answers S.tells S.world S.faults (implying n left right) going.old shelf.old shelf.new result }
{
    match refute(n, left, right, going, room, shelf) {
        Ok(answered) => Ok(answered),
        Err(fault) => {
            let operands = OperandFiles {
                first: left,
                second: right,
                third: right,
            };
            Err(confirmed(n, operands, fault, room, shelf))
        }
    }
}

// The sweep that answers it, begun or rebuilt, and run to its end.
fn refute<S: Shelf>(
    n: u32,
    left: FileNo,
    right: FileNo,
    going: &mut Going,
    room: &mut [Rec],
    shelf: &mut S,
) -> Result<Answered, SortFault>
    requires room { 16384 ≤ length room.old }
    requires going { MayGoOn going.old }
    requires earlier { (left.step < going.old.step) × (right.step < going.old.step) }
    ensures answers { Answers S.tells S.world S.faults (refuting n left right) going.old shelf.old shelf.new result }
{
    let mut sweep = begin_implication(n, left, right, going, room, shelf)?;
    run_saved(&mut sweep, going, shelf)?;
    let Some(answer) = sweep.answer() else {
        unreachable!();
    };
    Ok(Answered {
        answer,
        turns: going.turns,
        // A step has no more part numbers.
        next: sweep.parts().next.min(PARTS),
    })
}

// The implication from its beginning on, or from the step's last checkpoint, which has to be one of it.
fn begin_implication<'r, S: Shelf>(
    n: u32,
    left: FileNo,
    right: FileNo,
    going: &Going,
    room: &'r mut [Rec],
    shelf: &mut S,
) -> Result<LeqSweep<'r>, SortFault>
    requires room { 16384 ≤ length room.old }
    requires going { MayGoOn going.now }
    requires earlier { (left.step < going.now.step) × (right.step < going.now.step) }
    ensures begun { IfOk result (Begun S.tells S.world S.faults ⟦<LeqSweep<'r> as Sweep<'r>>⟧ (refuting n left right)
        (refutation_of n) (arcs_of n (two_files left right) going.now.step) going.now shelf.old shelf.new) }
    ensures refused { IfErr result (λ e. Answers S.tells S.world S.faults (refuting n left right) going.now
        shelf.old shelf.new (Err e)) }
{
    let Some(point) = &going.last else {
        let parts = Parts {
            step: going.step,
            next: INNER_PART,
        };
        return LeqSweep::start(n, left, right, parts, room, shelf);
    };
    if !is_of_implication(point, n, left, right) {
        return Err(foreign_point(going.step, shelf));
    }
    LeqSweep::rebuild(point, &[], room, shelf)
}

// Whether a checkpoint says that arcs of its step are made of these two files.
fn is_of_implication(point: &Checkpoint, n: u32, left: FileNo, right: FileNo) -> bool
    ensures { IsTrue result ↔ IsOfImplication point.now n left right }
{
    let Some(named) = TopDownSweep::<Product>::named(point) else {
        return false;
    };
    if point.sweep != 0
        || named.variables != n
        || !are_made_of(named.files, point.step, left, right)
    {
        return false;
    }
    TopDownSweep::<Product>::fits(point)
}

// Whether these are the step's files of arcs, made of those two.
fn are_made_of(files: Files, step: u32, left: FileNo, right: FileNo) -> bool
    ensures { IsTrue result ↔ AreMadeOf files step left right }
{
    let operands = files.first == left && files.second == right && files.third == right;
    operands && files.inner == inner_file(step) && files.ends == ends_file(step)
}
