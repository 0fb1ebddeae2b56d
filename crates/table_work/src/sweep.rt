//! The sweep that makes a diagram of a step's table.
use crate::TableOperation;
use crate::laws::operations_on_canonical_files_are_work;
use arc_file::Unreduced;
use rec_words::Rec;
use run_merge::Parts;
use shelf_model::{Shelf, SortFault};
use sweep_core::{Checkpoint, Sweep, Turn};
use top_down_sweep::{OperandFiles, Operation, TopDownSweep};

/// An operation of a step on up to three diagrams, level by level from the roots down. It makes the arcs of a diagram
/// of the step's table that isn't reduced.
///
/// After a refusal it isn't used again.
#[derive(Drop)]
pub struct TableSweep<'r, O> {
    /// The sweep that it is, whatever the table.
    pub sweep: TopDownSweep<'r, O>,
}

impl<'r, O: TableOperation> TableSweep<'r, O> {
    ghost use Rattle.std.specs.Prelude.{◌≡◌, ◌≤◌, IfOk, length};
    ghost use Rattle.table_work.specs.Tables.{StartsTable, sweep_of};
    ghost use Rattle.sweep_operations.specs.Operations.{IsWithin};

    /// Begins an operation on the files of diagrams of `n` variables, which may be one file. The next two parts are its
    /// files of arcs, and those behind them are for its queue.
    ///
    /// An operand that the operation doesn't use may be any file of a diagram, as that of another operand.
    pub fn begin<S: Shelf>(
        operation: O,
        n: u32,
        operands: OperandFiles,
        parts: Parts,
        room: &'r mut [Rec],
        shelf: &mut S,
    ) -> Result<TableSweep<'r, O>, SortFault>
        requires room { 16384 ≤ length room.old }
        requires past_made { 3 ≤ parts.next }
        requires within { IsWithin n (O.step operation) }
        ensures starts { StartsTable O.rule O.begins S.tells S.world S.faults (O.step operation) n operands parts
            shelf.old shelf.new result }
        ensures operation { IfOk result (λ s. (sweep_of s).operation ≡ operation) }
    {
        operations_on_canonical_files_are_work();
        let sweep = TopDownSweep::begin(operation, n, operands, parts, room, shelf)?;
        Ok(TableSweep { sweep })
    }
}

impl<'r, O: Operation> TableSweep<'r, O> {
    ghost use Rattle.std.specs.Prelude.{◌≡◌};
    ghost use Rattle.table_work.specs.Jobs.{GivesWithin};
    ghost use Rattle.table_work.specs.Tables.{sweep_of};
    ghost use Rattle.top_down_sweep.specs.Sweeps.{parts_of};

    /// The arcs that it made, once it has ended.
    pub fn made(&self) -> Option<Unreduced>
        ensures { GivesWithin O.rule O.begins (sweep_of self.now) result }
    {
        self.sweep.made()
    }

    /// The part numbers that weren't taken.
    pub fn parts(&self) -> Parts
        ensures { result ≡ parts_of (sweep_of self.now) }
    {
        self.sweep.parts()
    }
}

impl<'r, O: Operation> Sweep<'r> for TableSweep<'r, O> {
    ghost use Rattle.top_down_sweep.specs.Beginning.{IsReady};
    ghost use Rattle.top_down_sweep.specs.Calls.{IsInStep, IsTrusted};
    ghost use Rattle.top_down_sweep.specs.Damage.{IsDamage};
    ghost use Rattle.top_down_sweep.specs.Fuel.{fuel_of};
    ghost use Rattle.top_down_sweep.specs.Making.{accounts_along};
    ghost use Rattle.top_down_sweep.specs.Resumes.{Blames, top_saving};
    ghost use Rattle.top_down_sweep.specs.ResumeLaws.{stays, apart};
    ghost use Rattle.top_down_sweep.specs.Sweeps.{SweepTask, whole_task, accounts};
    ghost use Rattle.top_down_sweep.specs.Trusting.{sweep_trusted};
    ghost use Rattle.table_work.specs.Jobs.{TableWork, MakesWithin, turns_of};
    ghost use Rattle.table_work.specs.TableSaving.{table_saving, table_stays};
    ghost use Rattle.table_work.specs.Tables.{sweep_of};

    ghost Job = { TableWork };

    ghost remains = { λ s world job. MakesWithin O.rule O.begins (sweep_of s) world job };

    ghost fuel = { λ s. fuel_of (sweep_of s) };

    ghost left = { λ s world job. turns_of (sweep_of s) world job };

    ghost accounts = { accounts_along sweep_of (accounts O) };

    ghost damaged = { λ s world e. IsDamage O.rule O.begins (sweep_of s) world e };

    ghost blames = { Blames O.Carried };

    ghost Task = { SweepTask × O };

    ghost task = { λ s. whole_task (sweep_of s) };

    ghost saving = { table_saving (top_saving O.Carried O.rule O.begins) };

    ghost ready = { λ s. IsReady (sweep_of s) };

    ghost in_step = { λ s world. IsInStep (sweep_of s) world };

    ghost trusts = { λ s world. IsTrusted O.rule O.begins (sweep_of s) world };

    ghost trusted = { λ s world job remains. sweep_trusted O.rule O.begins (sweep_of s) world
        remains.makes.task remains.makes.remains };

    fn turn<S: Shelf>(&mut self, shelf: &mut S) -> Result<Turn, SortFault> {
        TopDownSweep::turn(&mut self.sweep, shelf)
    }

    fn carry<S: Shelf>(&mut self, shelf: &mut S, into: &mut Checkpoint) -> Result<(), SortFault> {
        self.sweep.carry(shelf, into)
    }

    fn rebuild<S: Shelf>(
        from: &Checkpoint,
        text: &'r [u8],
        room: &'r mut [Rec],
        shelf: &mut S,
    ) -> Result<TableSweep<'r, O>, SortFault> {
        let sweep = TopDownSweep::rebuild(from, text, room, shelf)?;
        Ok(TableSweep { sweep })
    }

    ghost stays = { table_stays (top_saving O.Carried.own O.rule O.begins) (stays O.Carried.own O.rule O.begins) };

    ghost apart = { apart O.Carried.own };
}
