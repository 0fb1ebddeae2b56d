//! The calls by which all that a reduction made is made sure.
use crate::reduce::ReduceSweep;
use run_merge::RunTable;
use shelf_model::{Shelf, SortFault};

impl<'r> ReduceSweep<'r> {
    ghost use Rattle.std.specs.Prelude.{◌≡◌, OnOk, IfOk};
    ghost use Rattle.run_tiers.specs.Syncs.{AnyFroze};
    ghost use Rattle.run_tiers.specs.Parts.{Took};
    ghost use Rattle.run_tiers.specs.Tables.{IsBareTable};
    ghost use Rattle.shelf_model.specs.Calls.{Told};
    ghost use Rattle.shelf_model.specs.Moments.{Ran};
    ghost use Rattle.shelf_model.specs.World.{now};
    ghost use Rattle.level_queue.specs.Tables.{table_at};
    ghost use Rattle.reduce_sweep.specs.Calls.{IsFit};
    ghost use Rattle.reduce_sweep.specs.Settling.{Settles, HasNodes, QueueFroze, RowsFroze, NamesFroze, AllFroze};

    /// Makes all that it made stand in files, whatever a stop leaves, and answers the tables of its runs: three of the
    /// queue, that of the rows, and that of the names.
    pub(crate) fn settle<S: Shelf>(&mut self, shelf: &mut S) -> Result<[RunTable; 5], SortFault>
        requires fit { IsFit S.tells S.world shelf.old self.old }
        ensures settles { Settles S.tells S.world S.faults 6146 1536 shelf.old shelf.new self.old self.new result }
        ensures froze { IfOk result (AllFroze S.tells S.world shelf.old shelf.new self.old self.new) }
    {
        self.settle_nodes(shelf)?;
        let queue = self.freeze_queue(shelf)?;
        let rows = self.freeze_rows(shelf)?;
        let names = self.freeze_names(shelf)?;
        Ok([queue[0], queue[1], queue[2], rows, names])
    }

    // Puts the nodes that wait into their file, and makes them sure.
    fn settle_nodes<S: Shelf>(&mut self, shelf: &mut S) -> Result<(), SortFault>
        requires fit { IsFit S.tells S.world shelf.old self.old }
        ensures settles { Settles S.tells S.world S.faults 2 0 shelf.old shelf.new self.old self.new result }
        ensures rest { self.new ≡ record self.old { writer = self.new.writer } }
        ensures nodes { OnOk result (HasNodes S.tells S.world shelf.old shelf.new self.old self.new) }
    {
        self.writer.settle(shelf)?;
        Ok(())
    }

    // Freezes the queue.
    fn freeze_queue<S: Shelf>(&mut self, shelf: &mut S) -> Result<[RunTable; 3], SortFault>
        requires fit { IsFit S.tells S.world shelf.old self.old }
        ensures settles { Settles S.tells S.world S.faults 2048 512 shelf.old shelf.new self.old self.new result }
        ensures rest { self.new ≡ record self.old {
          ahead = record self.old.ahead { queue = self.new.ahead.queue };
          parts = self.new.parts;
        } }
        ensures took { Took self.old.parts self.new.parts }
        ensures others { Told S.tells shelf.old shelf.new
            (Ran (AnyFroze self.old.parts self.new.parts (now (S.world shelf.old)))
            (S.world shelf.old) (S.world shelf.new)) }
        ensures froze { IfOk result (λ tables.
            QueueFroze S.tells S.world shelf.old shelf.new self.old self.new (table_at tables 0)
            × IsBareTable (table_at tables 1) × IsBareTable (table_at tables 2)) }
    {
        self.ahead.queue.freeze(&mut self.parts, shelf)
    }

    // Freezes the rows.
    fn freeze_rows<S: Shelf>(&mut self, shelf: &mut S) -> Result<RunTable, SortFault>
        requires fit { IsFit S.tells S.world shelf.old self.old }
        ensures settles { Settles S.tells S.world S.faults 2048 512 shelf.old shelf.new self.old self.new result }
        ensures rest { self.new ≡ record self.old {
          lists = record self.old.lists { rows = self.new.lists.rows };
          parts = self.new.parts;
        } }
        ensures took { Took self.old.parts self.new.parts }
        ensures others { Told S.tells shelf.old shelf.new
            (Ran (AnyFroze self.old.parts self.new.parts (now (S.world shelf.old)))
            (S.world shelf.old) (S.world shelf.new)) }
        ensures froze { IfOk result (RowsFroze S.tells S.world shelf.old shelf.new self.old self.new) }
    {
        self.lists.rows.freeze(&mut self.parts, shelf)
    }

    // Freezes the names.
    fn freeze_names<S: Shelf>(&mut self, shelf: &mut S) -> Result<RunTable, SortFault>
        requires fit { IsFit S.tells S.world shelf.old self.old }
        ensures settles { Settles S.tells S.world S.faults 2048 512 shelf.old shelf.new self.old self.new result }
        ensures rest { self.new ≡ record self.old {
          lists = record self.old.lists { names = self.new.lists.names };
          parts = self.new.parts;
        } }
        ensures took { Took self.old.parts self.new.parts }
        ensures others { Told S.tells shelf.old shelf.new
            (Ran (AnyFroze self.old.parts self.new.parts (now (S.world shelf.old)))
            (S.world shelf.old) (S.world shelf.new)) }
        ensures froze { IfOk result (NamesFroze S.tells S.world shelf.old shelf.new self.old self.new) }
    {
        self.lists.names.freeze(&mut self.parts, shelf)
    }
}
