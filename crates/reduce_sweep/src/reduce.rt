//! A reduction, as it stands between two turns.
use crate::phase::Phase;
use crate::place::Place;
use crate::rules::table_of;
use crate::saved::Saved;
use crate::start::{READING, WRITING};
use arc_file::ArcReader;
use level_queue::LevelQueue;
use node_file::NodeWriter;
use rec_words::Rec;
use reduce_lists::{Ahead, Lists};
use run_merge::{Parts, Sorter};
use saved_words::{value_of, words_of};
use shelf_model::{Shelf, SortFault};
use sweep_core::{Checkpoint, Sweep, Turn, fill_with_runs};

/// The reduction of a diagram, level by level from the deepest one.
///
/// After a refusal it isn't used again.
#[derive(Drop)]
pub struct ReduceSweep<'r> {
    pub(crate) place: Place,
    pub(crate) ahead: Ahead<'r>,
    pub(crate) lists: Lists<'r>,
    pub(crate) writer: NodeWriter<'r>,
    // The part numbers of its step that weren't taken.
    pub(crate) parts: Parts,
}

impl<'r> ReduceSweep<'r> {
    ghost use Rattle.std.specs.Prelude.{◌≡◌};
    ghost use Rattle.reduce_sweep.specs.Sweeps.{count_in, parts_of};

    /// How many nodes the diagram has, once the reduction has ended.
    pub fn count(&self) -> Option<u64>
        ensures { result ≡ count_in self.now }
    {
        match self.place.phase {
            Phase::Ended(count) => Some(count),
            _ => None,
        }
    }

    /// The part numbers that weren't taken.
    pub fn parts(&self) -> Parts
        ensures { result ≡ parts_of self.now }
    {
        self.parts
    }
}

impl<'r> Sweep<'r> for ReduceSweep<'r> {
    ghost use Rattle.reduce_sweep.specs.Remaining.{Diagram, RemainsOf};
    ghost use Rattle.reduce_sweep.specs.Sweeps.{Task, task_of, accounts, turns_left, IsSound};
    ghost use Rattle.reduce_sweep.specs.Damage.{IsDamage};
    ghost use Rattle.reduce_sweep.specs.Calls.{IsInStep, HasLists};
    ghost use Rattle.reduce_sweep.specs.RemainingLaws.{lists_remain};
    ghost use Rattle.reduce_sweep.specs.Resumes.{reduce_saving, Blames};
    ghost use Rattle.reduce_sweep.specs.ResumeLaws.{stays, apart};

    ghost Job = { Diagram };

    ghost remains = { RemainsOf };

    ghost fuel = { turns_left };

    ghost left = { λ s world d. turns_left s };

    ghost accounts = { accounts };

    ghost damaged = { IsDamage };

    ghost blames = { Blames };

    ghost Task = { Task };

    ghost task = { task_of };

    ghost saving = { reduce_saving };

    ghost ready = { IsSound };

    ghost in_step = { IsInStep };

    ghost trusts = { HasLists };

    ghost trusted = { lists_remain };

    fn turn<S: Shelf>(&mut self, shelf: &mut S) -> Result<Turn, SortFault> {
        ReduceSweep::turn(self, shelf)
    }

    fn carry<S: Shelf>(&mut self, shelf: &mut S, into: &mut Checkpoint) -> Result<(), SortFault> {
        let tables = self.settle(shelf)?;
        fill_with_runs(into, self.parts.next, words_of(self.saved()), &tables);
        Ok(())
    }

    fn rebuild<S: Shelf>(
        from: &Checkpoint,
        text: &'r [u8],
        room: &'r mut [Rec],
        shelf: &mut S,
    ) -> Result<ReduceSweep<'r>, SortFault> {
        let Some(saved) = value_of::<Saved>(&from.carry) else {
            unreachable!();
        };
        let Some(phase) = saved.phase.phase() else {
            unreachable!();
        };
        let (reading, rest) = room.split_at_mut(READING);
        let (writing, lists) = rest.split_at_mut(WRITING);
        let most = lists.len() / 3 * 2;
        let (queue, sorters) = lists.split_at_mut(most);
        let half = sorters.len() / 2;
        let (rows, names) = sorters.split_at_mut(half);
        let writer = saved.writer(&phase, writing, shelf)?;
        let place = saved.place(phase);
        let mut reader = ArcReader::start(saved.arcs, reading);
        let inner = reader.next_inner(shelf)?;
        let end = reader.next_end(shelf)?;
        let tables = [table_of(from, 0), table_of(from, 1), table_of(from, 2)];
        Ok(ReduceSweep {
            place,
            ahead: Ahead {
                reader,
                inner,
                end,
                queue: LevelQueue::thaw(from.step, &tables, saved.last_arc(), queue),
            },
            lists: Lists {
                rows: Sorter::thaw(from.step, &table_of(from, 3), rows),
                names: Sorter::thaw(from.step, &table_of(from, 4), names),
            },
            writer,
            parts: Parts {
                step: from.step,
                next: from.next_part,
            },
        })
    }

    ghost stays = { stays };

    ghost apart = { apart };
}
