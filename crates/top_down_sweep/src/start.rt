//! The beginning of a sweep.
ghost use Rattle.std.specs.Prelude.{◌≡◌, ◌≤◌, None, length};

use crate::machine::Machine;
use crate::{Operation, TopDownSweep};
use arc_file::ArcWriter;
use level_queue::LevelQueue;
use rec_words::Rec;
use run_merge::Parts;
use shelf_model::{Shelf, SortFault};
use tuple_asks::{Files, Operands, Phase, Place, READING};

/// How many records of the room the writer of arcs has.
pub(crate) const WRITING: usize = 256;

impl<'r, O: Operation> TopDownSweep<'r, O> {
    ghost use Rattle.std.specs.Prelude.{◌≢◌, IsTrue, IfOk, IfErr};
    ghost use Rattle.shelf_model.specs.World.{now};
    ghost use Rattle.shelf_model.specs.Calls.{Told};
    ghost use Rattle.shelf_model.specs.Moments.{Ran};
    ghost use Rattle.arc_file.specs.Pairs.{DuringCuts};
    ghost use Rattle.run_tiers.specs.Faults.{OnlySortShelf};
    ghost use Rattle.run_tiers.specs.Parts.{Paid};
    ghost use Rattle.sweep_core.specs.Accounts.{CanBeTaken};
    ghost use Rattle.top_down_sweep.specs.Sweeps.{files_of, variables_of, parts_of, made_in, credit_of, stock_of, IsSound};
    ghost use Rattle.tuple_asks.specs.Operands.{IsStartDamage};
    ghost use Rattle.tuple_asks.specs.Damage.{IsStartFault};
    ghost use Rattle.top_down_sweep.specs.Calls.{IsInStep, IsTrusted};
    ghost use Rattle.sweep_core.specs.Sweeps.{IsNoDamage};
    ghost use Rattle.std.specs.Prelude.{◌+◌, ◌*◌};
    ghost use Rattle.top_down_sweep.specs.Meaning.{Task, IsTaskOn, Remains};
    ghost use Rattle.top_down_sweep.specs.Turns.{Work, nodes_of, left_of};

    /// Begins an operation on diagrams of `n` variables, with the part numbers that its queue may take.
    ///
    /// The room is the queue's, but for 520 records with which files are read and written. An operand that the
    /// operation doesn't use may be any file of a diagram, as that of another operand.
    pub fn start<S: Shelf>(
        operation: O,
        n: u32,
        files: Files,
        parts: Parts,
        room: &'r mut [Rec],
        shelf: &mut S,
    ) -> Result<TopDownSweep<'r, O>, SortFault>
        requires room { 16384 ≤ length room.old }
        requires two_files { files.inner ≢ files.ends }
        requires past_made { 3 ≤ parts.next }
        requires inner_made { ¬ CanBeTaken parts.step parts.next files.inner }
        requires ends_made { ¬ CanBeTaken parts.step parts.next files.ends }
        ensures ready { IfOk result IsSound }
        ensures in_step { IfOk result (λ s. IsTrue (S.tells shelf.new) → IsInStep s (S.world shelf.new)) }
        ensures trusts { IfOk result (λ s. IsTrue (S.tells shelf.new) → IsTrusted O.rule O.begins s (S.world shelf.new)) }
        ensures files { IfOk result (λ s. files_of s ≡ files) }
        ensures variables { IfOk result (λ s. variables_of s ≡ n) }
        ensures operation { IfOk result (λ s. s.operation ≡ operation) }
        ensures parts { IfOk result (λ s. parts_of s ≡ parts) }
        ensures made { IfOk result (λ s. made_in s ≡ None) }

        // what the call leaves, and what it costs
        ensures content { Told S.tells shelf.old shelf.new
            (Ran (DuringCuts files.inner 0 files.ends 0 (now (S.world shelf.old))) (S.world shelf.old)
            (S.world shelf.new)) }
        ensures calls { IfOk result (λ s. IsTrue (S.tells shelf.new) →
            Paid 8 0 (credit_of s) (S.world shelf.old) (S.world shelf.new)) }
        ensures stock { IfOk result (λ s. stock_of s ≡ 0) }
        ensures few_calls { IsTrue (S.tells shelf.new) →
            (S.world shelf.new).clock ≤ (S.world shelf.old).clock + 8 }
        ensures faults { OnlySortShelf (S.faults shelf.old) (S.faults shelf.new) result }
        ensures refused { IfErr result (IsStartDamage files) }
        ensures damage { IfErr result (λ e. IsTrue (S.tells shelf.new) → IsStartFault files n (S.world shelf.old) e) }

        // a task on files of its diagrams remains, and none of them is damaged
        ensures remains { IfOk result (λ s. IsTrue (S.tells shelf.new) → (t : Task) →
            IsTaskOn t (O.rule operation) (O.begins operation) n files parts.step (S.world shelf.old) →
            Remains O.rule O.begins s (S.world shelf.new) t) }
        ensures left { IfOk result (λ s. IsTrue (S.tells shelf.new) → (w : Work) →
            IsTaskOn w.task (O.rule operation) (O.begins operation) n files parts.step (S.world shelf.old) →
            left_of s (S.world shelf.new) w ≡ 6 * length w.tuples + nodes_of w.task.diagrams + 5) }
        ensures undamaged { IfErr result (λ e. IsTrue (S.tells shelf.new) → (t : Task) →
            IsTaskOn t (O.rule operation) (O.begins operation) n files parts.step (S.world shelf.old) →
            IsNoDamage e) }
    {
        let (reading, rest) = room.split_at_mut(3 * READING);
        let (writing, asking) = rest.split_at_mut(WRITING);
        let operands = Operands::start(&files, n, reading, shelf)?;
        let writer = ArcWriter::start(files.inner, files.ends, writing, shelf)?;
        Ok(TopDownSweep {
            operation,
            machine: Machine {
                place: Place {
                    variables: n,
                    phase: Phase::Fresh,
                    has_one: false,
                },
                operands,
                queue: LevelQueue::start(asking),
                writer,
                parts,
            },
        })
    }
}
