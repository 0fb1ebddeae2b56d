ghost use Rattle.std.specs.Prelude.{◌≤◌, IsTrue, length};
ghost use Rattle.shelf_model.specs.World.{now};
ghost use Rattle.catalogue.specs.Counts.{count_in, present};
ghost use Rattle.step_engine.specs.Simple.{MayRun};
ghost use Rattle.step_engine.specs.Running.{RunsStep};

use crate::entries::drop_entry;
use crate::simple::{run_constant, run_size, run_variable};
use crate::sweeping::{
    run_comparison, run_evaluation, run_implication, run_operation, sweeping_of,
};
use bool_tables::{Planned, Step};
use catalogue::Entry;
use rec_words::Rec;
use shelf_model::{Shelf, SortFault};

/// Runs one step of a plan for `n` variables over a script's text, where the steps before it are committed:
/// makes its diagram's node file, or finds its answer. The answer is the step's entry, which its caller commits.
///
/// It changes the step's own files alone: its node file, its checkpoints and their gate, its arcs and its runs. A step
/// that was interrupted goes on from its last gated checkpoint, or begins anew where it has none. Before it goes on,
/// the 3,300 parts from that checkpoint's next part number on are empty, as many as a stopped life may have taken
/// behind it, where it is one of a sweep that keeps runs: another sweep takes no part.
///
/// It takes no memory: the room, 16,384 to 4,194,304 records of 64 bytes, holds what it sorts, and may have another
/// length in each run.
///
/// Refuses where a call of the folder fails (`Shelf`), where an operand's node file or the entry that a size reads
/// isn't what a step leaves (`Damaged`), and where a sweep has no part number left for a new file (`RunsSpent`). The
/// step's own files are of no use then.
pub fn run_step<S: Shelf>(
    n: u32,
    text: &[u8],
    planned: &Planned,
    number: u32,
    room: &mut [Rec],
    shelf: &mut S,
) -> Result<Entry, SortFault>
    requires step { MayRun n text.now number planned.now }
    requires room { (16384 ≤ length room.old) × (length room.old ≤ 4194304) }
    requires committed { IsTrue (S.tells shelf.old) → number ≤ count_in (present (now (S.world shelf.old)).folder) }
    ensures runs { RunsStep S.tells S.world S.faults n text.now number planned.now
        shelf.old shelf.new result }
{
    if let Some(sweeping) = sweeping_of(planned.step) {
        return run_operation(n, text, planned, sweeping, number, room, shelf);
    }
    match planned.step {
        Step::Const { value } => run_constant(n, text, planned, value, number, room, shelf),
        Step::Var { level } => run_variable(n, text, planned, level, number, room, shelf),
        Step::Size { of } => run_size(n, text, planned, of, number, shelf),
        Step::Same { left, right } => {
            run_comparison(n, text, planned, left, right, number, room, shelf)
        }
        Step::Leq { left, right } => {
            run_implication(n, text, planned, left, right, number, room, shelf)
        }
        Step::Eval { of, at } => run_evaluation(n, text, planned, of, at, number, room, shelf),
        Step::Drop { gone } => Ok(drop_entry(number, gone)),
        _ => unreachable!(),
    }
}
