//! The beginning of a sweep whose files of arcs are the next two parts of its step.
ghost use Rattle.std.specs.Prelude.{◌≡◌, ◌↔◌, ◌+◌, ◌^◌, ◌≤◌, IsErr, IfOk, IfErr, OnOk};
ghost use Rattle.top_down_sweep.specs.Beginning.{after_two, files_from};

use crate::{Files, Operation, TopDownSweep};
use rec_words::Rec;
use run_merge::Parts;
use shelf_model::{FileNo, Shelf, SortFault};

/// The files of the operands, one for each pointer of a tuple.
#[derive(Clone, Copy, Debug, PartialEq, Eq)]
pub struct OperandFiles {
    pub first: FileNo,
    pub second: FileNo,
    pub third: FileNo,
}

impl<'r, O: Operation> TopDownSweep<'r, O> {
    ghost use Rattle.std.specs.Prelude.{◌*◌, IsTrue, length};
    ghost use Rattle.sweep_core.specs.Sweeps.{IsNoDamage};
    ghost use Rattle.top_down_sweep.specs.Beginning.{Begun, Starts};
    ghost use Rattle.top_down_sweep.specs.Meaning.{Task, IsTaskOn, Remains};
    ghost use Rattle.top_down_sweep.specs.Sweeps.{variables_of};
    ghost use Rattle.top_down_sweep.specs.Turns.{Work, nodes_of, left_of};

    /// Begins an operation on diagrams of `n` variables. The next two parts are its files of arcs, and those
    /// behind them are for its queue.
    ///
    /// An operand that the operation doesn't use may be any file of a diagram, as that of another operand.
    pub fn begin<S: Shelf>(
        operation: O,
        n: u32,
        operands: OperandFiles,
        parts: Parts,
        room: &'r mut [Rec],
        shelf: &mut S,
    ) -> Result<TopDownSweep<'r, O>, SortFault>
        requires room { 16384 ≤ length room.old }
        requires past_made { 3 ≤ parts.next }
        ensures begun { IfOk result (Begun O.rule O.begins S.tells S.world (files_from operands parts)
            (after_two parts) shelf.old shelf.new) }
        ensures variables { IfOk result (λ s. variables_of s ≡ n) }
        ensures operation { IfOk result (λ s. s.operation ≡ operation) }
        ensures leaves { Starts S.tells S.world S.faults n (files_from operands parts) parts
            shelf.old shelf.new result }
        ensures few_calls { IsTrue (S.tells shelf.new) →
            (S.world shelf.new).clock ≤ (S.world shelf.old).clock + 8 }

        // a task on files of its diagrams remains, and none of them is damaged
        ensures remains { IfOk result (λ s. IsTrue (S.tells shelf.new) → (t : Task) →
            IsTaskOn t (O.rule operation) (O.begins operation) n (files_from operands parts) parts.step
            (S.world shelf.old) → Remains O.rule O.begins s (S.world shelf.new) t) }
        ensures left { IfOk result (λ s. IsTrue (S.tells shelf.new) → (w : Work) →
            IsTaskOn w.task (O.rule operation) (O.begins operation) n (files_from operands parts) parts.step
            (S.world shelf.old) →
            left_of s (S.world shelf.new) w ≡ 6 * length w.tuples + nodes_of w.task.diagrams + 5) }
        ensures undamaged { IfErr result (λ e. IsTrue (S.tells shelf.new) → (t : Task) →
            IsTaskOn t (O.rule operation) (O.begins operation) n (files_from operands parts) parts.step
            (S.world shelf.old) → IsNoDamage e) }
    {
        let mut parts = parts;
        let files = with_arcs(&operands, &mut parts)?;
        TopDownSweep::start(operation, n, files, parts, room, shelf)
    }
}

// The operands, and the next two parts as the files of arcs.
fn with_arcs(operands: &OperandFiles, parts: &mut Parts) -> Result<Files, SortFault>
    ensures files { IfOk result (λ files. files ≡ files_from operands.now parts.old) }
    ensures after { OnOk result (parts.new ≡ after_two parts.old) }
    ensures spent { IsErr result ↔ (2 ^ 32 ≤ parts.old.next + 1) }
    ensures cause { IfErr result (λ e. e ≡ SortFault.RunsSpent) }
{
    let inner = parts.fresh()?;
    let ends = parts.fresh()?;
    Ok(Files {
        first: operands.first,
        second: operands.second,
        third: operands.third,
        inner,
        ends,
    })
}
