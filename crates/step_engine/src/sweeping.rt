//! The steps that sweep over diagrams.
ghost use Rattle.std.specs.Prelude.{◌≡◌, ◌≤◌, IsTrue, IsSome, length};
ghost use Rattle.bool_tables.specs.declared.steps.Step.TheVariants as variants;
ghost use Rattle.step_work.specs.Tuples.{sweeps};
ghost use Rattle.bool_tables.specs.Plans.{makes_diagram};
ghost use Rattle.step_engine.specs.Simple.{MayRun};
ghost use Rattle.step_engine.specs.Sweeping.{files_of, sweeping_of};
ghost use Rattle.step_engine.specs.Running.{RunsStep};

use crate::entries::{Spent, answer_entry, diagram_entry};
use crate::going::going_in;
use bool_tables::{Planned, Step};
use catalogue::Entry;
use file_numbers::node_file;
use rec_words::Rec;
use shelf_model::{Shelf, SortFault};
use step_sweeps::{StepOperation, compare, evaluate, imply, make_diagram};
use top_down_sweep::OperandFiles;

/// An operation, and the files of the diagrams that it is made of.
#[derive(Clone, Copy, Debug, PartialEq, Eq)]
pub(crate) struct Sweeping {
    pub(crate) operation: StepOperation,
    pub(crate) operands: OperandFiles,
}

/// The operation that a step is which makes a diagram of others.
pub(crate) fn sweeping_of(step: Step) -> Option<Sweeping>
    ensures { result ≡ sweeping_of step }
{
    match step {
        Step::Pair { op, left, right } => Some(Sweeping {
            operation: StepOperation::Operator(op),
            operands: files_of(left, right, right),
        }),
        Step::Ite { test, yes, no } => Some(Sweeping {
            operation: StepOperation::Choice,
            operands: files_of(test, yes, no),
        }),
        Step::Quantify { kind, of, level } => Some(Sweeping {
            operation: StepOperation::Quantifier { kind, level },
            operands: files_of(of, of, of),
        }),
        Step::Restrict { of, level, value } => Some(Sweeping {
            operation: StepOperation::Restriction { level, value },
            operands: files_of(of, of, of),
        }),
        _ => None,
    }
}

fn files_of(first: u32, second: u32, third: u32) -> OperandFiles
    ensures { result ≡ files_of first second third }
{
    OperandFiles {
        first: node_file(first),
        second: node_file(second),
        third: node_file(third),
    }
}

/// Runs a step that makes a diagram of others.
pub(crate) fn run_operation<S: Shelf>(
    n: u32,
    text: &[u8],
    planned: &Planned,
    sweeping: Sweeping,
    number: u32,
    room: &mut [Rec],
    shelf: &mut S,
) -> Result<Entry, SortFault>
    requires step { MayRun n text.now number planned.now }
    requires sweeping { sweeping_of planned.now.step ≡ Some sweeping }
    requires room { (16384 ≤ length room.old) × (length room.old ≤ 4194304) }
    ensures runs { RunsStep S.tells S.world S.faults n text.now number planned.now
        shelf.old shelf.new result }
{
    let mut going = going_in(number, room, shelf)?;
    let made = make_diagram(
        sweeping.operation,
        n,
        sweeping.operands,
        &mut going,
        room,
        shelf,
    )?;
    let spent = Spent {
        turns: made.turns,
        parts: made.next,
    };
    Ok(diagram_entry(text, planned, number, made.nodes, spent))
}

/// Runs a step that answers whether two functions are equal.
pub(crate) fn run_comparison<S: Shelf>(
    n: u32,
    text: &[u8],
    planned: &Planned,
    left: u32,
    right: u32,
    number: u32,
    room: &mut [Rec],
    shelf: &mut S,
) -> Result<Entry, SortFault>
    requires step { MayRun n text.now number planned.now }
    requires kind { planned.now.step ≡ variants.Same left right }
    requires room { (16384 ≤ length room.old) × (length room.old ≤ 4194304) }
    ensures runs { RunsStep S.tells S.world S.faults n text.now number planned.now
        shelf.old shelf.new result }
{
    let left = node_file(left);
    let right = node_file(right);
    let mut going = going_in(number, room, shelf)?;
    let answered = compare(n, left, right, &mut going, room, shelf)?;
    Ok(answer_entry(number, answered))
}

/// Runs a step that answers whether one function implies another.
pub(crate) fn run_implication<S: Shelf>(
    n: u32,
    text: &[u8],
    planned: &Planned,
    left: u32,
    right: u32,
    number: u32,
    room: &mut [Rec],
    shelf: &mut S,
) -> Result<Entry, SortFault>
    requires step { MayRun n text.now number planned.now }
    requires kind { planned.now.step ≡ variants.Leq left right }
    requires room { (16384 ≤ length room.old) × (length room.old ≤ 4194304) }
    ensures runs { RunsStep S.tells S.world S.faults n text.now number planned.now
        shelf.old shelf.new result }
{
    let left = node_file(left);
    let right = node_file(right);
    let mut going = going_in(number, room, shelf)?;
    let answered = imply(n, left, right, &mut going, room, shelf)?;
    Ok(answer_entry(number, answered))
}

/// Runs a step that answers a function's value.
pub(crate) fn run_evaluation<S: Shelf>(
    n: u32,
    text: &[u8],
    planned: &Planned,
    of: u32,
    at: u32,
    number: u32,
    room: &mut [Rec],
    shelf: &mut S,
) -> Result<Entry, SortFault>
    requires step { MayRun n text.now number planned.now }
    requires kind { planned.now.step ≡ variants.Eval of at }
    requires room { (16384 ≤ length room.old) × (length room.old ≤ 4194304) }
    ensures runs { RunsStep S.tells S.world S.faults n text.now number planned.now
        shelf.old shelf.new result }
{
    let of = node_file(of);
    let mut going = going_in(number, room, shelf)?;
    let answered = evaluate(n, of, text, at, &mut going, room, shelf)?;
    Ok(answer_entry(number, answered))
}
