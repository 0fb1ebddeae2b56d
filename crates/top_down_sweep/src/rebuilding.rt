//! A machine that is rebuilt from what a checkpoint keeps of it.
ghost use Rattle.std.specs.Prelude.{◌≡◌, ◌≢◌, ◌+◌, ◌*◌, ◌≤◌, ℕ, IsTrue, IfOk, IfErr, length};
ghost use Rattle.shelf_model.specs.Calls.{Told};
ghost use Rattle.shelf_model.specs.Moments.{Ran};
ghost use Rattle.shelf_model.specs.World.{now};
ghost use Rattle.arc_file.specs.Arcs.{arc_size};
ghost use Rattle.arc_file.specs.Pairs.{DuringCuts};
ghost use Rattle.arc_file.specs.Writers.{AreInStep};
ghost use Rattle.level_queue.specs.Queues.{credit, stock};
ghost use Rattle.level_queue.specs.Tables.{tables_left};
ghost use Rattle.run_tiers.specs.Faults.{OnlySortShelf};
ghost use Rattle.sweep_core.specs.Saving.{reads_of};
ghost use Rattle.sweep_core.specs.Sweeps.{IsNoDamage};
ghost use Rattle.top_down.specs.declared.tuple.Tuple.{Tuple};
ghost use Rattle.top_down.specs.Rules.{Rule};
ghost use Rattle.tuple_asks.specs.Resuming.{saved_place, saved_files, IsCause, operand_calls};
ghost use Rattle.tuple_asks.specs.SavedRules.{KeepsRules};
ghost use Rattle.top_down_sweep.specs.Meaning.{Task};
ghost use Rattle.top_down_sweep.specs.Rebuilds.{Restores};
ghost use Rattle.top_down_sweep.specs.Resumes.{queue_tables, parts_at, HasQueue, GoesOn};
ghost use Rattle.top_down_sweep.specs.Sweeps.{files_in, IsSoundMachine};

use crate::machine::Machine;
use crate::rules::queue_tables;
use crate::start::WRITING;
use arc_file::ArcWriter;
use level_queue::LevelQueue;
use rec_words::Rec;
use run_merge::Parts;
use shelf_model::{Shelf, SortFault};
use sweep_core::Checkpoint;
use tuple_asks::{READING, SavedMachine};

impl<'r> Machine<'r> {
    /// The machine of which a checkpoint keeps this.
    pub(crate) fn rebuild<S: Shelf>(
        saved: &SavedMachine,
        from: &Checkpoint,
        room: &'r mut [Rec],
        shelf: &mut S,
    ) -> Result<Machine<'r>, SortFault>
        requires rules { KeepsRules from.now saved.now }
        requires queue { HasQueue from.now }
        requires room { 16384 ≤ length room.old }
        ensures sound { IfOk result IsSoundMachine }
        ensures in_step { IfOk result (λ m. IsTrue (S.tells shelf.new) → AreInStep m.writer (S.world shelf.new)) }
        ensures place { IfOk result (λ m. m.place ≡ saved_place saved.now) }
        ensures parts { IfOk result (λ m. m.parts ≡ parts_at from.now) }
        ensures files { IfOk result (λ m. files_in m ≡ saved_files saved.now) }
        ensures remains { IfOk result (λ m. IsTrue (S.tells shelf.new) → (t : Task) (rule : Rule)
            (begins : Tuple → Tuple) (tuples turns : ℕ) →
            GoesOn rule begins from.now saved.now (reads_of (S.world shelf.old)) t tuples turns →
            Restores t rule begins m (S.world shelf.new) tuples turns) }
        ensures undamaged { IfErr result (λ e. IsTrue (S.tells shelf.new) → (t : Task) (rule : Rule)
            (begins : Tuple → Tuple) (tuples turns : ℕ) →
            GoesOn rule begins from.now saved.now (reads_of (S.world shelf.old)) t tuples turns → IsNoDamage e) }
        ensures damage { IfErr result (λ e. IsTrue (S.tells shelf.new) →
            IsCause from.now.step saved.now (S.world shelf.old) e) }
        ensures content { Told S.tells shelf.old shelf.new (Ran (DuringCuts saved.now.arcs.inner
            (saved.now.arcs.inner_count * arc_size) saved.now.arcs.ends (saved.now.arcs.ends_count * arc_size)
            (now (S.world shelf.old))) (S.world shelf.old) (S.world shelf.new)) }
        ensures calls { IsTrue (S.tells shelf.new) → (S.world shelf.new).clock ≤ (S.world shelf.old).clock
            + operand_calls (reads_of (S.world shelf.old) saved.now.first.file)
            + operand_calls (reads_of (S.world shelf.old) saved.now.second.file)
            + operand_calls (reads_of (S.world shelf.old) saved.now.third.file) + 4 }
        ensures credit { IfOk result (λ m. credit m.queue ≤ 64 * tables_left (queue_tables from.now)) }
        ensures stock { IfOk result (λ m. stock m.queue ≤ 5632) }
        ensures kind { IfErr result (λ e. e ≢ SortFault.RunsSpent) }
        ensures faults { OnlySortShelf (S.faults shelf.old) (S.faults shelf.new) result }
    {
        let (reading, rest) = room.split_at_mut(3 * READING);
        let (writing, asking) = rest.split_at_mut(WRITING);
        let operands = saved.operands(from.step, reading, shelf)?;
        let writer = ArcWriter::resume(saved.arcs.made(), writing, shelf)?;
        let tables = queue_tables(from);
        Ok(Machine {
            place: saved.place(),
            operands,
            queue: LevelQueue::thaw(from.step, &tables, saved.taken, asking),
            writer,
            parts: Parts {
                step: from.step,
                next: from.next_part,
            },
        })
    }
}
