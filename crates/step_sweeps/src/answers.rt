//! The steps that answer by reading diagrams.
ghost use Rattle.std.specs.Prelude.{◌≡◌, ◌≢◌, ◌↔◌, ◌+◌, ◌<◌, ◌≤◌, IsTrue, Err, IfOk, IfErr, length};
ghost use Rattle.restrict_eval.specs.Same as same;
ghost use Rattle.restrict_eval.specs.Eval as eval;
ghost use Rattle.resumable.specs.Answers.{comparison_of, evaluation_of, two_tables, one_table, no_parts};
ghost use Rattle.step_sweeps.specs.Answers.{Answers, comparing, evaluating};
ghost use Rattle.step_sweeps.specs.Begun.{Begun};
ghost use Rattle.step_sweeps.specs.Going.{MayGoOn};
ghost use Rattle.step_sweeps.specs.Points.{IsOfComparison, IsOfEvaluation};

use crate::foreign::foreign_point;
use file_numbers::INNER_PART;
use rec_words::Rec;
use restrict_eval::{EvalSweep, SameSweep};
use run_merge::Parts;
use shelf_model::{FileNo, Shelf, SortFault};
use sweep_checkpoint::{Going, run_saved};
use sweep_core::{Checkpoint, Sweep};

/// What a step answers, the turns that it took in all its lives, as many as 64 bits count, and the next part number of
/// its step.
#[derive(Clone, Copy, Debug, PartialEq, Eq)]
pub struct Answered {
    pub answer: bool,
    pub turns: u64,
    pub next: u64,
}

/// Whether the files of two diagrams of `n` variables are those of one function. It begins, or goes on from the step's
/// last checkpoint.
pub fn compare<S: Shelf>(
    n: u32,
    left: FileNo,
    right: FileNo,
    going: &mut Going,
    room: &mut [Rec],
    shelf: &mut S,
) -> Result<Answered, SortFault>
    requires room { 16384 ≤ length room.old }
    requires going { MayGoOn going.old }
    requires earlier { (left.step < going.old.step) × (right.step < going.old.step) }
    ensures answers { Answers S.tells S.world S.faults (comparing n left right) going.old shelf.old shelf.new result }
    ensures kind { IfErr result (λ e. e ≢ SortFault.RunsSpent) }
{
    let mut sweep = begin_comparison(n, left, right, going, room, shelf)?;
    run_saved(&mut sweep, going, shelf)?;
    let Some(answer) = sweep.answer() else {
        unreachable!();
    };
    Ok(Answered {
        answer,
        turns: going.turns,
        next: INNER_PART,
    })
}

// The comparison from its beginning on, or from the step's last checkpoint, which has to be one of it.
fn begin_comparison<'r, S: Shelf>(
    n: u32,
    left: FileNo,
    right: FileNo,
    going: &Going,
    room: &'r mut [Rec],
    shelf: &mut S,
) -> Result<SameSweep<'r>, SortFault>
    requires room { 16384 ≤ length room.old }
    requires going { MayGoOn going.now }
    requires earlier { (left.step < going.now.step) × (right.step < going.now.step) }
    ensures begun { IfOk result (Begun S.tells S.world S.faults ⟦<SameSweep<'r> as Sweep<'r>>⟧ (comparing n left right)
        (λ g. two_tables n g.left g.right) (comparison_of n left right going.now.step) going.now shelf.old shelf.new) }
    ensures refused { IfErr result (λ e. Answers S.tells S.world S.faults (comparing n left right) going.now
        shelf.old shelf.new (Err e)) }
    ensures kind { IfErr result (λ e. e ≢ SortFault.RunsSpent) }
{
    let Some(point) = &going.last else {
        return SameSweep::start(n, left, right, no_parts(going), room, shelf);
    };
    if !is_of_comparison(point, n, left, right) {
        return Err(foreign_point(going.step, shelf));
    }
    SameSweep::rebuild(point, &[], room, shelf)
}

// Whether a checkpoint is one of the comparison of these two files, which takes no part.
fn is_of_comparison(point: &Checkpoint, n: u32, left: FileNo, right: FileNo) -> bool
    ensures { IsTrue result ↔ IsOfComparison point.now n left right }
{
    let first = point.sweep == 0 && point.next_part == INNER_PART;
    first && SameSweep::names(point, n, left, right) && SameSweep::fits(point)
}

// No part number was taken of the step.
fn no_parts(going: &Going) -> Parts
    ensures { result ≡ no_parts going.now.step }
{
    Parts {
        step: going.step,
        next: INNER_PART,
    }
}

/// The value of the diagram in a file at the assignment whose bits stand in a text: the `n` bytes from `at` on. It
/// begins, or goes on from the step's last checkpoint.
pub fn evaluate<S: Shelf>(
    n: u32,
    file: FileNo,
    text: &[u8],
    at: u32,
    going: &mut Going,
    room: &mut [Rec],
    shelf: &mut S,
) -> Result<Answered, SortFault>
    requires room { 16384 ≤ length room.old }
    requires going { MayGoOn going.old }
    requires earlier { file.step < going.old.step }
    requires bits { at + n ≤ length text.now }
    ensures answers { Answers S.tells S.world S.faults (evaluating n file text.now at) going.old
        shelf.old shelf.new result }
    ensures kind { IfErr result (λ e. e ≢ SortFault.RunsSpent) }
{
    let mut sweep = begin_evaluation(n, file, text, at, going, room, shelf)?;
    run_saved(&mut sweep, going, shelf)?;
    let Some(answer) = sweep.answer() else {
        unreachable!();
    };
    Ok(Answered {
        answer,
        turns: going.turns,
        next: INNER_PART,
    })
}

// The evaluation from its beginning on, or from the step's last checkpoint, which has to be one of it.
fn begin_evaluation<'r, S: Shelf>(
    n: u32,
    file: FileNo,
    text: &'r [u8],
    at: u32,
    going: &Going,
    room: &'r mut [Rec],
    shelf: &mut S,
) -> Result<EvalSweep<'r>, SortFault>
    requires room { 16384 ≤ length room.old }
    requires going { MayGoOn going.now }
    requires earlier { file.step < going.now.step }
    requires bits { at + n ≤ length text.now }
    ensures begun { IfOk result (Begun S.tells S.world S.faults ⟦<EvalSweep<'r> as Sweep<'r>>⟧
        (evaluating n file text.now at) (one_table n) (evaluation_of n file text.now at going.now.step) going.now
        shelf.old shelf.new) }
    ensures refused { IfErr result (λ e. Answers S.tells S.world S.faults (evaluating n file text.now at) going.now
        shelf.old shelf.new (Err e)) }
    ensures kind { IfErr result (λ e. e ≢ SortFault.RunsSpent) }
{
    let Some(point) = &going.last else {
        return EvalSweep::start(n, file, text, at, no_parts(going), room, shelf);
    };
    if !is_of_evaluation(point, n, file, text, at) {
        return Err(foreign_point(going.step, shelf));
    }
    EvalSweep::rebuild(point, text, room, shelf)
}

// Whether a checkpoint is one of the evaluation of this file at these bits, which takes no part.
fn is_of_evaluation(point: &Checkpoint, n: u32, file: FileNo, text: &[u8], at: u32) -> bool
    ensures { IsTrue result ↔ IsOfEvaluation point.now n file text.now at }
{
    let first = point.sweep == 0 && point.next_part == INNER_PART;
    first && EvalSweep::names(point, n, file, at) && EvalSweep::fits(point, text)
}
