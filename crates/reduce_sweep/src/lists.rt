//! The calls of the lists of rows and of names.
use crate::reduce::ReduceSweep;
use arc_diagrams::{Name, SourceRow};
use shelf_model::{Shelf, SortFault};

impl<'r> ReduceSweep<'r> {
    ghost use Rattle.std.specs.Prelude.{◌≡◌, ◌≤◌, ◌+◌, IsTrue, OnOk, IfOk, List, ◌∷◌};
    ghost use Rattle.arc_diagrams.specs.declared.name.Name.{Name};
    ghost use Rattle.run_merge.specs.Lists.{CountsDown, CountStays};
    ghost use Rattle.run_merge.specs.Sorters.{held};
    ghost use Rattle.reduce_sweep.specs.Sweeps.{held_of, lists_weight};
    ghost use Rattle.reduce_lists.specs.Contents.{Contents, Holds};
    ghost use Rattle.reduce_lists.specs.Changes.{GivesRow, JoinsRows, JoinsNames, ShowsName};
    ghost use Rattle.reduce_sweep.specs.Calls.{Does, IsFit, KeepsLists};

    /// Puts a row into its list.
    pub(crate) fn push_row<S: Shelf>(
        &mut self,
        row: SourceRow,
        shelf: &mut S,
    ) -> Result<(), SortFault>
        requires fit { IsFit S.tells S.world shelf.old self.old }
        ensures does { Does S.tells S.world S.faults 16 1 shelf.old shelf.new self.old self.new result }
        ensures fit { OnOk result (IsFit S.tells S.world shelf.new self.new) }
        ensures trusts { OnOk result (KeepsLists S.tells S.world shelf.old shelf.new self.old self.new) }
        ensures rest { self.new ≡ record self.old {
          lists = record self.old.lists { rows = self.new.lists.rows };
          parts = self.new.parts;
        } }
        ensures weight { OnOk result (lists_weight self.new.lists ≡ lists_weight self.old.lists + 2) }
        ensures joined { OnOk result (IsTrue (S.tells shelf.new) → (k : Contents) →
            Holds self.old.ahead self.old.lists self.old.writer (S.world shelf.old) k →
            JoinsRows (held_of self.new) (S.world shelf.new) k row) }
    {
        self.lists.rows.push(row, &mut self.parts, shelf)
    }

    /// Puts a name into its list.
    pub(crate) fn push_name<S: Shelf>(&mut self, name: Name, shelf: &mut S) -> Result<(), SortFault>
        requires fit { IsFit S.tells S.world shelf.old self.old }
        ensures does { Does S.tells S.world S.faults 16 1 shelf.old shelf.new self.old self.new result }
        ensures fit { OnOk result (IsFit S.tells S.world shelf.new self.new) }
        ensures trusts { OnOk result (KeepsLists S.tells S.world shelf.old shelf.new self.old self.new) }
        ensures rest { self.new ≡ record self.old {
          lists = record self.old.lists { names = self.new.lists.names };
          parts = self.new.parts;
        } }
        ensures weight { OnOk result (lists_weight self.new.lists ≡ lists_weight self.old.lists + 1) }
        ensures joined { OnOk result (IsTrue (S.tells shelf.new) → (k : Contents) →
            Holds self.old.ahead self.old.lists self.old.writer (S.world shelf.old) k →
            JoinsNames (held_of self.new) (S.world shelf.new) k name) }
    {
        self.lists.names.push(name, &mut self.parts, shelf)
    }

    /// Takes the first row.
    pub(crate) fn next_row<S: Shelf>(
        &mut self,
        shelf: &mut S,
    ) -> Result<Option<SourceRow>, SortFault>
        requires fit { IsFit S.tells S.world shelf.old self.old }
        ensures does { Does S.tells S.world S.faults 2 0 shelf.old shelf.new self.old self.new result }
        ensures fit { OnOk result (IsFit S.tells S.world shelf.new self.new) }
        ensures trusts { OnOk result (KeepsLists S.tells S.world shelf.old shelf.new self.old self.new) }
        ensures rest { self.new ≡ record self.old { lists = record self.old.lists { rows = self.new.lists.rows } } }
        ensures count { CountsDown (held self.old.lists.rows) (held self.new.lists.rows) result }
        ensures given { IfOk result (λ row. IsTrue (S.tells shelf.new) → (k : Contents) →
            Holds self.old.ahead self.old.lists self.old.writer (S.world shelf.old) k →
            GivesRow (held_of self.new) (S.world shelf.new) k row) }
    {
        self.lists.rows.next(shelf)
    }

    /// The first name, which stays.
    pub(crate) fn first_name<S: Shelf>(&mut self, shelf: &mut S) -> Result<Option<Name>, SortFault>
        requires fit { IsFit S.tells S.world shelf.old self.old }
        ensures does { Does S.tells S.world S.faults 2 0 shelf.old shelf.new self.old self.new result }
        ensures fit { OnOk result (IsFit S.tells S.world shelf.new self.new) }
        ensures trusts { OnOk result (KeepsLists S.tells S.world shelf.old shelf.new self.old self.new) }
        ensures rest { self.new ≡ record self.old { lists = record self.old.lists { names = self.new.lists.names } } }
        ensures count { CountStays (held self.old.lists.names) (held self.new.lists.names) result }
        ensures shown { IfOk result (λ name. IsTrue (S.tells shelf.new) → (k : Contents) →
            Holds self.old.ahead self.old.lists self.old.writer (S.world shelf.old) k →
            ShowsName (held_of self.new) (S.world shelf.new) k name) }
    {
        self.lists.names.peek(shelf)
    }

    /// Takes the first name.
    pub(crate) fn take_name<S: Shelf>(&mut self, shelf: &mut S) -> Result<(), SortFault>
        requires some { 1 ≤ held self.old.lists.names }
        requires fit { IsFit S.tells S.world shelf.old self.old }
        ensures does { Does S.tells S.world S.faults 2 0 shelf.old shelf.new self.old self.new result }
        ensures fit { OnOk result (IsFit S.tells S.world shelf.new self.new) }
        ensures trusts { OnOk result (KeepsLists S.tells S.world shelf.old shelf.new self.old self.new) }
        ensures rest { self.new ≡ record self.old { lists = record self.old.lists { names = self.new.lists.names } } }
        ensures weight { OnOk result (lists_weight self.new.lists + 1 ≡ lists_weight self.old.lists) }
        ensures left { OnOk result (IsTrue (S.tells shelf.new) → (k : Contents) → (m : Name) → (rest : List Name) →
            k.names ≡ m ∷ rest → Holds self.old.ahead self.old.lists self.old.writer (S.world shelf.old) k →
            Holds self.new.ahead self.new.lists self.new.writer (S.world shelf.new) (record k { names = rest })) }
    {
        self.lists.names.next(shelf)?;
        Ok(())
    }
}
