//! Steps of which nothing was done, over a folder in memory. What no step may be asked for is refused here, so that no
//! case has to show that it asks for none.
ghost use Rattle.std.specs.Prelude.{◌≡◌, ◌<◌, ◌≤◌, IsTrue, length};
ghost use Rattle.step_sweeps.specs.Given.{AreEarlier};
ghost use Rattle.step_sweeps.specs.Going.{MayGoOn};
ghost use Rattle.step_sweeps.specs.Operations.{IsWithin};
ghost use Rattle.step_cases.specs.declared.steps.TheConstants.{NUMBER, LEAST_ROOM};

use case_tables::{FIRST, SECOND, THIRD, operator};
use file_numbers::node_file;
use rec_words::Rec;
use shelf_memory::Bench;
use shelf_model::{FileNo, SortFault};
use std::process::Abort;
use std::test::Fail;
use step_sweeps::{
    Answered, AtMost, MadeDiagram, Making, StepOperation, compare, evaluate, imply, make_at_once,
    make_diagram,
};
use sweep_checkpoint::Going;
use top_down_sweep::OperandFiles;

/// The step that is done.
pub(crate) const NUMBER: u32 = 3;

/// How many records a step needs at least.
pub(crate) const LEAST_ROOM: usize = 16_384;

/// More records than that.
pub(crate) const LARGE_ROOM: usize = 50_000;

pub(crate) const EMPTY: Rec = Rec { w: [0; 8] };

/// The most records of a run's room.
const MOST_RECORDS: usize = 4_194_304;

/// The files of an operation on three diagrams, on two and on one.
pub(crate) const THREE: OperandFiles = OperandFiles {
    first: FIRST,
    second: SECOND,
    third: THIRD,
};

pub(crate) const TWO: OperandFiles = OperandFiles {
    first: FIRST,
    second: SECOND,
    third: SECOND,
};

pub(crate) const ONE: OperandFiles = OperandFiles {
    first: FIRST,
    second: FIRST,
    third: FIRST,
};

/// Ends a test where its case isn't so.
pub(crate) fn holds(rt: &impl Abort, case: Result<bool, Fail>) -> Result<(), Fail> {
    let is_so = case?;
    assert!(rt; is_so);
    Ok(())
}

/// What makes a diagram: an operation, and the files that it is on.
#[derive(Clone, Copy)]
pub(crate) struct Task {
    pub(crate) operation: StepOperation,
    pub(crate) operands: OperandFiles,
}

/// The operator whose four values are the binary digits of a number, on these files.
pub(crate) fn operator_on(digits: u32, operands: OperandFiles) -> Task {
    Task {
        operation: StepOperation::Operator(operator(digits)),
        operands,
    }
}

/// An operation on the first file alone.
pub(crate) fn on_first(operation: StepOperation) -> Task {
    Task {
        operation,
        operands: ONE,
    }
}

/// The choice between the second and the third file by the first.
pub(crate) const CHOICE: Task = Task {
    operation: StepOperation::Choice,
    operands: THREE,
};

// The step, of which nothing was done, in a run with that room.
fn begun(room: &[Rec]) -> Going
    requires enough { LEAST_ROOM ≤ length room.now }
    ensures step { result.step ≡ NUMBER }
    ensures going { MayGoOn result }
{
    Going {
        step: NUMBER,
        sweep: 0,
        budget: room.len().min(MOST_RECORDS) as u32,
        turns: 0,
        shown: 0,
        last: None,
    }
}

// The file of the first, of the second or of the third table.
fn file(index: u32) -> FileNo
    requires { index < 3 }
    ensures { result.step < 3 }
{
    node_file(index)
}

// Whether an operation is one on so many variables.
fn is_within(n: u32, operation: StepOperation) -> bool
    ensures { IsTrue result → IsWithin n operation }
{
    match operation {
        StepOperation::Operator(_) | StepOperation::Choice => true,
        StepOperation::Quantifier { level, .. } | StepOperation::Restriction { level, .. } => {
            level < n
        }
    }
}

// Whether the files are of steps before the one that is done.
fn are_earlier(operands: OperandFiles) -> bool
    ensures { IsTrue result → AreEarlier NUMBER operands }
{
    operands.first.step < NUMBER && operands.second.step < NUMBER && operands.third.step < NUMBER
}

/// Makes a diagram of n variables.
pub(crate) fn made_by(
    task: Task,
    n: u32,
    room: &mut [Rec],
    bench: &mut Bench,
) -> Result<MadeDiagram, SortFault> {
    if n > 65_535
        || room.len() < LEAST_ROOM
        || !is_within(n, task.operation)
        || !are_earlier(task.operands)
    {
        return Err(SortFault::RunsSpent);
    }
    let mut going = begun(room);
    make_diagram(task.operation, n, task.operands, &mut going, room, bench)
}

/// Makes a diagram of n variables at once, if it may.
pub(crate) fn made_now(
    task: Task,
    most: AtMost,
    n: u32,
    room: &mut [Rec],
    bench: &mut Bench,
) -> Result<Option<MadeDiagram>, Fail> {
    if n > 65_535 || room.len() < LEAST_ROOM || !are_earlier(task.operands) {
        return Err(Fail::new("no step may be asked for that"));
    }
    let making = Making {
        operation: task.operation,
        n,
        operands: task.operands,
        number: NUMBER,
    };
    Ok(make_at_once(making, most, room, bench)?)
}

/// Tells whether two of the three files are those of one function.
pub(crate) fn compared(
    n: u32,
    left: u32,
    right: u32,
    room: &mut [Rec],
    bench: &mut Bench,
) -> Result<Answered, SortFault> {
    if left >= 3 || right >= 3 || room.len() < LEAST_ROOM {
        return Err(SortFault::RunsSpent);
    }
    let mut going = begun(room);
    compare(n, file(left), file(right), &mut going, room, bench)
}

/// Tells whether the function of one of the three files implies that of another.
pub(crate) fn implied(
    n: u32,
    left: u32,
    right: u32,
    room: &mut [Rec],
    bench: &mut Bench,
) -> Result<Answered, SortFault> {
    if left >= 3 || right >= 3 || room.len() < LEAST_ROOM {
        return Err(SortFault::RunsSpent);
    }
    let mut going = begun(room);
    imply(n, file(left), file(right), &mut going, room, bench)
}

/// Finds the value of the first file's function where the variables have the values whose digits stand at that place of
/// a text.
pub(crate) fn evaluated(
    n: u32,
    text: &[u8],
    at: u32,
    room: &mut [Rec],
    bench: &mut Bench,
) -> Result<Answered, SortFault> {
    if text.len() < at as usize + n as usize || room.len() < LEAST_ROOM {
        return Err(SortFault::RunsSpent);
    }
    let mut going = begun(room);
    evaluate(n, FIRST, text, at, &mut going, room, bench)
}
