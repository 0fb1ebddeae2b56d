//! A machine that is made sure, so that it can be saved.
ghost use Rattle.std.specs.Prelude.{◌≡◌, ◌<◌, IsTrue, IfOk};
ghost use Rattle.shelf_model.specs.declared.file_no.FileNo.{FileNo};
ghost use Rattle.shelf_model.specs.World.{file};
ghost use Rattle.top_down_sweep.specs.Calls.{IsFit};
ghost use Rattle.top_down_sweep.specs.Freezing.{Saves};

use crate::machine::Machine;
use arc_file::Unreduced;
use rec_words::Ptr;
use run_merge::RunTable;
use shelf_model::{Shelf, SortFault};

/// What was made sure: the arcs, with any root, and the runs of the queue.
#[derive(Drop)]
pub(crate) struct Frozen {
    pub(crate) made: Unreduced,
    pub(crate) tables: [RunTable; 3],
}

impl<'r> Machine<'r> {
    ghost use Rattle.top_down_sweep.specs.Sweeps.{files_in, IsMade, IsSoundMachine};
    ghost use Rattle.top_down_sweep.specs.Fuel.{machine_fuel};
    ghost use Rattle.top_down_sweep.specs.Calls.{IsMachineInStep};
    ghost use Rattle.top_down_sweep.specs.Freezing.{HasSettled, HasTables};

    /// Makes sure the arcs that were put and the asks that wait, where it hasn't ended.
    pub(crate) fn freeze<S: Shelf>(&mut self, shelf: &mut S) -> Result<Frozen, SortFault>
        requires sound { IsSoundMachine self.old }
        requires works { 0 < machine_fuel self.old }
        requires in_step { IsTrue (S.tells shelf.old) → IsMachineInStep self.old (S.world shelf.old) }
        ensures saves { Saves S.tells S.world S.faults 2052 512 shelf.old shelf.new self.old self.new result }
        ensures arcs { IfOk result (λ frozen. HasSettled S.tells S.world shelf.old shelf.new
            self.old self.new frozen.made) }
        ensures tables { IfOk result (λ frozen. HasTables S.tells S.world shelf.old shelf.new
            self.old self.new frozen.tables) }
    {
        let made = self.settle(shelf)?;
        let tables = self.freeze_asks(shelf)?;
        Ok(Frozen { made, tables })
    }

    // Makes sure the arcs that were put.
    fn settle<S: Shelf>(&mut self, shelf: &mut S) -> Result<Unreduced, SortFault>
        requires fit { IsFit S.tells S.world shelf.old self.old }
        ensures saves { Saves S.tells S.world S.faults 4 0 shelf.old shelf.new self.old self.new result }
        ensures arcs { IfOk result (HasSettled S.tells S.world shelf.old shelf.new self.old self.new) }
    {
        let made = self.writer.settle(Ptr::terminal(false), shelf)?;
        Ok(made)
    }

    // Makes sure the asks that wait.
    fn freeze_asks<S: Shelf>(&mut self, shelf: &mut S) -> Result<[RunTable; 3], SortFault>
        requires fit { IsFit S.tells S.world shelf.old self.old }
        ensures saves { Saves S.tells S.world S.faults 2048 512 shelf.old shelf.new self.old self.new result }
        ensures writer { self.new.writer ≡ self.old.writer }
        ensures same { IsTrue (S.tells shelf.new) → (f : FileNo) → IsMade (files_in self.old) f →
            file (S.world shelf.new) f ≡ file (S.world shelf.old) f }
        ensures tables { IfOk result (HasTables S.tells S.world shelf.old shelf.new self.old self.new) }
    {
        self.queue.freeze(&mut self.parts, shelf)
    }
}
