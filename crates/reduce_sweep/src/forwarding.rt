//! The forwarding of final pointers along the arcs that lead to a level.
use crate::collecting::level_at;
use crate::phase::Phase;
use crate::reduce::ReduceSweep;
use arc_diagrams::{FinalArc, Name};
use shelf_model::{Shelf, SortFault};

impl<'r> ReduceSweep<'r> {
    ghost use Rattle.std.specs.Prelude.{List, ◌∷◌, ◌≡◌, ◌≤◌, ◌+◌, IsTrue, OnOk, IfOk, IsSome};
    ghost use Rattle.rec_words.specs.Words.{level_of};
    ghost use Rattle.arc_diagrams.specs.declared.name.Name.{Name};
    ghost use Rattle.run_merge.specs.Sorters.{held};
    ghost use Rattle.reduce_sweep.specs.Sweeps.{Handles, arcs_weight, lists_weight};
    ghost use Rattle.reduce_lists.specs.Contents.{Contents, Holds, IsTakenTo};
    ghost use Rattle.reduce_sweep.specs.Remaining.{Diagram, IsLeft, IsWorking};
    ghost use Rattle.reduce_sweep.specs.Changes.{known_with, ForwardsAlong};
    ghost use Rattle.reduce_sweep.specs.Calls.{Does, IsFit, KeepsLists};

    /// Forwards the next name along the next arc, where it leads to its source, or gives up one of both.
    ///
    /// A name of another level is taken without effect: no list that this program wrote has one.
    pub(crate) fn forward<S: Shelf>(&mut self, shelf: &mut S) -> Result<bool, SortFault>
        requires phase { self.old.place.phase ≡ Phase.Forward }
        requires fit { IsFit S.tells S.world shelf.old self.old }
        ensures does { Does S.tells S.world S.faults 51 3 shelf.old shelf.new self.old self.new result }
        ensures fit { OnOk result (IsFit S.tells S.world shelf.new self.new) }
        ensures trusts { OnOk result (KeepsLists S.tells S.world shelf.old shelf.new self.old self.new) }
        ensures handles { IfOk result (Handles Phase.Between self.old self.new) }
        ensures keeps { OnOk result (IsTrue (S.tells shelf.new) → (d : Diagram) →
            IsWorking self.old (S.world shelf.old) d → IsWorking self.new (S.world shelf.new) d) }
    {
        let Some(name) = self.first_name(shelf)? else {
            self.place.phase = Phase::Between;
            return Ok(false);
        };
        if level_at(name.source) != self.place.level {
            self.take_name(shelf)?;
            return Ok(true);
        }
        self.forward_name(&name, shelf)?;
        Ok(true)
    }

    // Forwards a name along the next arc, or gives up one of both.
    fn forward_name<S: Shelf>(&mut self, name: &Name, shelf: &mut S) -> Result<(), SortFault>
        requires phase { self.old.place.phase ≡ Phase.Forward }
        requires some { 1 ≤ held self.old.lists.names }
        requires fit { IsFit S.tells S.world shelf.old self.old }
        ensures does { Does S.tells S.world S.faults 49 3 shelf.old shelf.new self.old self.new result }
        ensures fit { OnOk result (IsFit S.tells S.world shelf.new self.new) }
        ensures trusts { OnOk result (KeepsLists S.tells S.world shelf.old shelf.new self.old self.new) }
        ensures phase { self.new.place.phase ≡ self.old.place.phase }
        ensures weight { OnOk result (arcs_weight self.new.ahead + lists_weight self.new.lists + 1
            ≤ arcs_weight self.old.ahead + lists_weight self.old.lists) }
        ensures keeps { OnOk result (IsTrue (S.tells shelf.new) → (d : Diagram) → (k : Contents) → (rest : List Name) →
            k.names ≡ name.now ∷ rest → level_of name.now.source ≡ self.old.place.level →
            Holds self.old.ahead self.old.lists self.old.writer (S.world shelf.old) k → IsLeft self.old.place d k →
            IsWorking self.new (S.world shelf.new) d) }
    {
        let source = name.source.ptr();
        let Some(arc) = self.ahead.inner else {
            return self.give_up_name(name, shelf);
        };
        if arc.target < source {
            return self.give_up_name(name, shelf);
        }
        if arc.target > source {
            return self.read_inner(shelf);
        }
        let told = FinalArc {
            source: arc.source,
            high: arc.high,
            target: name.pointer,
        };
        self.forward_along(told, shelf)
    }

    // Puts an arc into the queue for the next one to a node, which is passed over.
    fn forward_along<S: Shelf>(&mut self, told: FinalArc, shelf: &mut S) -> Result<(), SortFault>
        requires some { IsSome self.old.ahead.inner }
        requires fit { IsFit S.tells S.world shelf.old self.old }
        ensures does { Does S.tells S.world S.faults 49 3 shelf.old shelf.new self.old self.new result }
        ensures fit { OnOk result (IsFit S.tells S.world shelf.new self.new) }
        ensures trusts { OnOk result (KeepsLists S.tells S.world shelf.old shelf.new self.old self.new) }
        ensures rest { self.new ≡ record self.old { ahead = self.new.ahead; parts = self.new.parts } }
        ensures weight { OnOk result (arcs_weight self.new.ahead + 1 ≤ arcs_weight self.old.ahead) }
        ensures along { OnOk result (IsTrue (S.tells shelf.new) → (k : Contents) →
            Holds self.old.ahead self.old.lists self.old.writer (S.world shelf.old) k →
            IsTakenTo (level_of told.source + 1) k.last →
            ForwardsAlong self.old.ahead.inner self.new (S.world shelf.new) k told) }
    {
        self.push(told, shelf)?;
        self.read_inner(shelf)
    }

    // Takes the next name. The root's final pointer is known from its name.
    fn give_up_name<S: Shelf>(&mut self, name: &Name, shelf: &mut S) -> Result<(), SortFault>
        requires some { 1 ≤ held self.old.lists.names }
        requires fit { IsFit S.tells S.world shelf.old self.old }
        ensures does { Does S.tells S.world S.faults 2 0 shelf.old shelf.new self.old self.new result }
        ensures fit { OnOk result (IsFit S.tells S.world shelf.new self.new) }
        ensures trusts { OnOk result (KeepsLists S.tells S.world shelf.old shelf.new self.old self.new) }
        ensures rest { self.new ≡ record self.old {
          place = record self.old.place { known = self.new.place.known };
          lists = record self.old.lists { names = self.new.lists.names };
        } }
        ensures known { OnOk result (self.new.place.known ≡ known_with self.old.place name.now) }
        ensures weight { OnOk result (lists_weight self.new.lists + 1 ≡ lists_weight self.old.lists) }
        ensures left { OnOk result (IsTrue (S.tells shelf.new) → (k : Contents) → (m : Name) → (rest : List Name) →
            k.names ≡ m ∷ rest → Holds self.old.ahead self.old.lists self.old.writer (S.world shelf.old) k →
            Holds self.new.ahead self.new.lists self.new.writer (S.world shelf.new) (record k { names = rest })) }
    {
        self.take_name(shelf)?;
        if name.source.ptr() == self.place.arcs.root {
            self.place.known = name.pointer;
        }
        Ok(())
    }
}
