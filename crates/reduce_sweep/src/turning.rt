//! The turns of a reduction.
use crate::collecting::level_at;
use crate::phase::{Numbered, Phase};
use crate::reduce::ReduceSweep;
use crate::source::Source;
use shelf_model::{Shelf, SortFault};
use sweep_core::Turn;

impl<'r> ReduceSweep<'r> {
    ghost use Rattle.std.specs.Prelude.{◌≡◌, [], IsTrue, OnOk, IfOk, IfErr};
    ghost use Rattle.shelf_model.specs.World.{file};
    ghost use Rattle.sweep_core.specs.Accounts.{Leaves};
    ghost use Rattle.sweep_core.specs.Sweeps.{Falls, AtEnd, IsFirm, StaysEnded, IsNoDamage};
    ghost use Rattle.reduce_sweep.specs.Sweeps.{out_of, inner_file, ends_file, task_of, count_in, turns_left, accounts, IsGoing, IsSound, Handles, CountsAtEnd, Refuses};
    ghost use Rattle.reduce_lists.specs.Damage.{IsDamageOf};
    ghost use Rattle.reduce_sweep.specs.Damage.{IsDamage};
    ghost use Rattle.reduce_lists.specs.AtWork.{AreListed};
    ghost use Rattle.reduce_sweep.specs.Calls.{Does, IsFit, KeepsLists, IsInStep, HasLists};
    ghost use Rattle.reduce_lists.specs.Contents.{Contents, Holds, to_collect};
    ghost use Rattle.reduce_sweep.specs.Remaining.{Diagram, IsLeft, IsWorking, IsReduced, RemainsOf};
    ghost use Rattle.reduce_sweep.specs.Changes.{IsDoneAt};

    /// Handles one item, or ends the reduction. Once it has ended, each further turn answers so and does nothing.
    ///
    /// Where the lists are what was put there, damage is that of the next record of an arc file, from its end on.
    pub fn turn<S: Shelf>(&mut self, shelf: &mut S) -> Result<Turn, SortFault>
        requires ready { IsSound self.old }
        requires in_step { IsTrue (S.tells shelf.old) → IsInStep self.old (S.world shelf.old) }
        ensures ready { OnOk result (IsSound self.new) }
        ensures in_step { OnOk result (IsTrue (S.tells shelf.new) → IsInStep self.new (S.world shelf.new)) }
        ensures falls { Falls (turns_left self.old) (turns_left self.new) result }
        ensures ended { turns_left self.old ≡ 0 → StaysEnded shelf.old shelf.new self.old self.new result }
        ensures ends { IfOk result (λ turn. CountsAtEnd turn (count_in self.new)) }
        ensures firm { AtEnd result (IsTrue (S.tells shelf.new) → IsFirm (file (S.world shelf.new) (out_of self.new))) }

        // what remains
        ensures keeps { OnOk result (IsTrue (S.tells shelf.new) → (d : Diagram) →
            RemainsOf self.old (S.world shelf.old) d → RemainsOf self.new (S.world shelf.new) d) }
        ensures reduced { IfOk result (λ turn. IsTrue (S.tells shelf.new) → (d : Diagram) →
            RemainsOf self.old (S.world shelf.old) d → IsDoneAt turn self.new (S.world shelf.new) d) }
        ensures trusts { OnOk result (IsTrue (S.tells shelf.new) →
            HasLists self.old (S.world shelf.old) → HasLists self.new (S.world shelf.new)) }
        ensures damage { IfErr result (λ e. IsTrue (S.tells shelf.new) → HasLists self.old (S.world shelf.old) →
            IsDamageOf self.old.ahead.reader (S.world shelf.old) e) }
        ensures damaged { IfErr result (λ e. IsTrue (S.tells shelf.new) → HasLists self.old (S.world shelf.old) →
            IsDamage self.new (S.world shelf.new) e) }
        ensures undamaged { IfErr result (λ e. IsTrue (S.tells shelf.new) → (d : Diagram) →
            RemainsOf self.old (S.world shelf.old) d → IsNoDamage e) }

        // what the call leaves, and what it costs
        ensures leaves { Leaves S.tells S.world S.faults accounts 134 6 shelf.old shelf.new self.old self.new result }
        ensures same { task_of self.new ≡ task_of self.old }
        ensures refused { IfErr result (Refuses (inner_file self.old) (ends_file self.old) self.new) }
    {
        if let Phase::Ended(_count) = self.place.phase {
            return Ok(Turn::Ended);
        }
        self.handle(shelf)
    }

    // Handles one item, or ends the reduction.
    fn handle<S: Shelf>(&mut self, shelf: &mut S) -> Result<Turn, SortFault>
        requires going { IsGoing self.old.place.phase }
        requires fit { IsFit S.tells S.world shelf.old self.old }
        ensures does { Does S.tells S.world S.faults 134 6 shelf.old shelf.new self.old self.new result }
        ensures sound { OnOk result (IsSound self.new) }
        ensures in_step { OnOk result (IsTrue (S.tells shelf.new) → IsInStep self.new (S.world shelf.new)) }
        ensures trusts { OnOk result (IsTrue (S.tells shelf.new) →
            AreListed self.old.ahead self.old.lists (S.world shelf.old) → HasLists self.new (S.world shelf.new)) }
        ensures falls { Falls (turns_left self.old) (turns_left self.new) result }
        ensures ends { IfOk result (λ turn. CountsAtEnd turn (count_in self.new)) }
        ensures keeps { OnOk result (IsTrue (S.tells shelf.new) → (d : Diagram) →
            IsWorking self.old (S.world shelf.old) d → RemainsOf self.new (S.world shelf.new) d) }
    {
        if self.handle_level(shelf)? {
            return Ok(Turn::More);
        }
        self.open_level(shelf)
    }

    // Handles one item of the level at hand, where there is one.
    fn handle_level<S: Shelf>(&mut self, shelf: &mut S) -> Result<bool, SortFault>
        requires going { IsGoing self.old.place.phase }
        requires fit { IsFit S.tells S.world shelf.old self.old }
        ensures does { Does S.tells S.world S.faults 102 5 shelf.old shelf.new self.old self.new result }
        ensures fit { OnOk result (IsFit S.tells S.world shelf.new self.new) }
        ensures trusts { OnOk result (KeepsLists S.tells S.world shelf.old shelf.new self.old self.new) }
        ensures handles { IfOk result (Handles Phase.Between self.old self.new) }
        ensures keeps { OnOk result (IsTrue (S.tells shelf.new) → (d : Diagram) →
            IsWorking self.old (S.world shelf.old) d → IsWorking self.new (S.world shelf.new) d) }
    {
        match self.place.phase {
            Phase::Collect(source) => self.from_collect(source, shelf),
            Phase::Number(numbered) => self.from_number(numbered, shelf),
            Phase::Forward => self.forward(shelf),
            _ => Ok(false),
        }
    }

    // Collects an arc, or goes on to the rows.
    fn from_collect<S: Shelf>(&mut self, source: Source, shelf: &mut S) -> Result<bool, SortFault>
        requires phase { self.old.place.phase ≡ Phase.Collect source }
        requires fit { IsFit S.tells S.world shelf.old self.old }
        ensures does { Does S.tells S.world S.faults 102 5 shelf.old shelf.new self.old self.new result }
        ensures fit { OnOk result (IsFit S.tells S.world shelf.new self.new) }
        ensures trusts { OnOk result (KeepsLists S.tells S.world shelf.old shelf.new self.old self.new) }
        ensures handles { IfOk result (Handles Phase.Between self.old self.new) }
        ensures keeps { OnOk result (IsTrue (S.tells shelf.new) → (d : Diagram) →
            IsWorking self.old (S.world shelf.old) d → IsWorking self.new (S.world shelf.new) d) }
    {
        if self.collect(source, shelf)? {
            return Ok(true);
        }
        self.from_number(Numbered::NONE, shelf)
    }

    // Numbers a row, or goes on to the names.
    fn from_number<S: Shelf>(
        &mut self,
        numbered: Numbered,
        shelf: &mut S,
    ) -> Result<bool, SortFault>
        requires phase { self.old.place.phase ≡ Phase.Number numbered }
        requires fit { IsFit S.tells S.world shelf.old self.old }
        ensures does { Does S.tells S.world S.faults 70 4 shelf.old shelf.new self.old self.new result }
        ensures fit { OnOk result (IsFit S.tells S.world shelf.new self.new) }
        ensures trusts { OnOk result (KeepsLists S.tells S.world shelf.old shelf.new self.old self.new) }
        ensures handles { IfOk result (Handles Phase.Between self.old self.new) }
        ensures keeps { OnOk result (IsTrue (S.tells shelf.new) → (d : Diagram) →
            IsWorking self.old (S.world shelf.old) d → IsWorking self.new (S.world shelf.new) d) }
    {
        if self.give_number(numbered, shelf)? {
            return Ok(true);
        }
        self.forward(shelf)
    }

    // Opens the level of the next arc, or ends the reduction where there is none.
    //
    // An arc of a level that was finished is passed over: no file that this program wrote has one.
    fn open_level<S: Shelf>(&mut self, shelf: &mut S) -> Result<Turn, SortFault>
        requires phase { self.old.place.phase ≡ Phase.Between }
        requires fit { IsFit S.tells S.world shelf.old self.old }
        ensures does { Does S.tells S.world S.faults 16 0 shelf.old shelf.new self.old self.new result }
        ensures sound { OnOk result (IsSound self.new) }
        ensures in_step { OnOk result (IsTrue (S.tells shelf.new) → IsInStep self.new (S.world shelf.new)) }
        ensures trusts { OnOk result (IsTrue (S.tells shelf.new) →
            AreListed self.old.ahead self.old.lists (S.world shelf.old) → HasLists self.new (S.world shelf.new)) }
        ensures falls { Falls (turns_left self.old) (turns_left self.new) result }
        ensures ends { IfOk result (λ turn. CountsAtEnd turn (count_in self.new)) }
        ensures keeps { OnOk result (IsTrue (S.tells shelf.new) → (d : Diagram) →
            IsWorking self.old (S.world shelf.old) d → RemainsOf self.new (S.world shelf.new) d) }
    {
        let Some((arc, queued)) = self.next_arc(shelf)? else {
            self.end_file(shelf)?;
            return Ok(Turn::Ended);
        };
        self.pass(queued, shelf)?;
        let level = level_at(arc.source);
        if level < self.place.level {
            self.place.level = level;
            self.place.phase = Phase::Collect(Source::of(&arc));
        }
        Ok(Turn::More)
    }

    // Ends the file of the nodes.
    fn end_file<S: Shelf>(&mut self, shelf: &mut S) -> Result<(), SortFault>
        requires phase { self.old.place.phase ≡ Phase.Between }
        requires fit { IsFit S.tells S.world shelf.old self.old }
        ensures does { Does S.tells S.world S.faults 3 0 shelf.old shelf.new self.old self.new result }
        ensures sound { OnOk result (IsSound self.new) }
        ensures in_step { OnOk result (IsTrue (S.tells shelf.new) → IsInStep self.new (S.world shelf.new)) }
        ensures trusts { OnOk result (IsTrue (S.tells shelf.new) →
            AreListed self.old.ahead self.old.lists (S.world shelf.old) → HasLists self.new (S.world shelf.new)) }
        ensures ended { OnOk result (turns_left self.new ≡ 0) }
        ensures reduced { OnOk result (IsTrue (S.tells shelf.new) → (d : Diagram) → (k : Contents) →
            Holds self.old.ahead self.old.lists self.old.writer (S.world shelf.old) k → IsLeft self.old.place d k →
            to_collect k ≡ [] → RemainsOf self.new (S.world shelf.new) d) }
    {
        let count = self.writer.end(self.place.known, shelf)?;
        self.place.phase = Phase::Ended(count);
        Ok(())
    }
}
