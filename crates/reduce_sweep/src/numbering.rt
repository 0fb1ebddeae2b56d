//! The numbering of the rows of a level.
use crate::collecting::level_at;
use crate::phase::{Numbered, Phase};
use crate::reduce::ReduceSweep;
use arc_diagrams::{Name, SourceRow};
use canon_file::Row;
use rec_words::{Node, Ptr, Uid};
use shelf_model::{Shelf, SortFault};

/// The number of the first node of a level.
const TOP: u64 = (1 << 47) - 1;

impl Numbered {
    ghost use Rattle.std.specs.Prelude.{◌≡◌, ◌-◌, ◌^◌, ◌<◌, ◌≤◌};
    ghost use Rattle.rec_words.specs.Words.{node_word};
    ghost use Rattle.reduce_sweep.specs.Changes.{is_last, numbered_with};

    // Once a row has its number: a new one, unless the row before has the same pair.
    fn with(&self, row: &SourceRow) -> Numbered
        requires few { self.now.number ≤ 2 ^ 47 }
        ensures { result ≡ numbered_with self.now row.now }
    {
        let number = if self.has_last(row) {
            self.number
        } else {
            self.number + 1
        };
        Numbered {
            number,
            last: Some(Row {
                low: row.low,
                high: row.high,
            }),
        }
    }

    // Whether the row that got its number last has the same pair.
    fn has_last(&self, row: &SourceRow) -> bool
        ensures { result ≡ is_last self.now.last row.now }
    {
        match &self.last {
            Some(last) => last.low == row.low && last.high == row.high,
            None => false,
        }
    }

    // The node of a level that got its number last.
    fn node(&self, level: u32) -> Ptr
        requires level { level ≤ 65534 }
        requires some { 1 ≤ self.now.number }
        requires few { self.now.number ≤ 2 ^ 47 }
        ensures value { result ≡ node_word level (2 ^ 47 - self.now.number) }
        ensures below { result < 2 ^ 63 }
    {
        Ptr::node(level as u16, TOP + 1 - self.number)
    }
}

impl<'r> ReduceSweep<'r> {
    ghost use Rattle.std.specs.Prelude.{◌≡◌, ◌≤◌, ◌^◌, ◌+◌, IsTrue, OnOk, IfOk};
    ghost use Rattle.reduce_sweep.specs.Sweeps.{Handles, lists_weight};
    ghost use Rattle.reduce_lists.specs.Contents.{Contents, Holds};
    ghost use Rattle.reduce_sweep.specs.Remaining.{Diagram, IsWorking};
    ghost use Rattle.reduce_sweep.specs.Changes.{numbered_with, nodes_with, NumbersRow};
    ghost use Rattle.reduce_sweep.specs.Calls.{Does, IsFit, KeepsLists};

    /// Names the source of the next row, whose node is put where its pair is a new one.
    ///
    /// A row of another level is taken without effect: no list that this program wrote has one.
    pub(crate) fn give_number<S: Shelf>(
        &mut self,
        numbered: Numbered,
        shelf: &mut S,
    ) -> Result<bool, SortFault>
        requires phase { self.old.place.phase ≡ Phase.Number numbered }
        requires fit { IsFit S.tells S.world shelf.old self.old }
        ensures does { Does S.tells S.world S.faults 19 1 shelf.old shelf.new self.old self.new result }
        ensures fit { OnOk result (IsFit S.tells S.world shelf.new self.new) }
        ensures trusts { OnOk result (KeepsLists S.tells S.world shelf.old shelf.new self.old self.new) }
        ensures handles { IfOk result (Handles Phase.Forward self.old self.new) }
        ensures keeps { OnOk result (IsTrue (S.tells shelf.new) → (d : Diagram) →
            IsWorking self.old (S.world shelf.old) d → IsWorking self.new (S.world shelf.new) d) }
    {
        let Some(row) = self.next_row(shelf)? else {
            self.place.phase = Phase::Forward;
            return Ok(false);
        };
        if level_at(row.source) != self.place.level {
            return Ok(true);
        }
        self.number_row(numbered, &row, shelf)?;
        Ok(true)
    }

    // Numbers a row of the level at hand, and names its source.
    fn number_row<S: Shelf>(
        &mut self,
        numbered: Numbered,
        row: &SourceRow,
        shelf: &mut S,
    ) -> Result<(), SortFault>
        requires phase { self.old.place.phase ≡ Phase.Number numbered }
        requires fit { IsFit S.tells S.world shelf.old self.old }
        ensures does { Does S.tells S.world S.faults 17 1 shelf.old shelf.new self.old self.new result }
        ensures fit { OnOk result (IsFit S.tells S.world shelf.new self.new) }
        ensures trusts { OnOk result (KeepsLists S.tells S.world shelf.old shelf.new self.old self.new) }
        ensures rest { self.new ≡ record self.old {
          place = record self.old.place { phase = self.new.place.phase };
          lists = record self.old.lists { names = self.new.lists.names };
          writer = self.new.writer;
          parts = self.new.parts;
        } }
        ensures phase { OnOk result (self.new.place.phase ≡ Phase.Number (numbered_with numbered row.now)) }
        ensures weight { OnOk result (lists_weight self.new.lists ≡ lists_weight self.old.lists + 1) }
        ensures named { OnOk result (IsTrue (S.tells shelf.new) → (k : Contents) →
            Holds self.old.ahead self.old.lists self.old.writer (S.world shelf.old) k →
            NumbersRow self.old.place.level numbered self.new (S.world shelf.new) k row.now) }
    {
        let numbered = self.put_node(numbered, row, shelf)?;
        let name = Name {
            source: row.source,
            pointer: numbered.node(self.place.level),
        };
        self.push_name(name, shelf)
    }

    // Puts the node of a row, unless the last row had the same pair.
    fn put_node<S: Shelf>(
        &mut self,
        numbered: Numbered,
        row: &SourceRow,
        shelf: &mut S,
    ) -> Result<Numbered, SortFault>
        requires phase { self.old.place.phase ≡ Phase.Number numbered }
        requires fit { IsFit S.tells S.world shelf.old self.old }
        ensures does { Does S.tells S.world S.faults 1 0 shelf.old shelf.new self.old self.new result }
        ensures fit { OnOk result (IsFit S.tells S.world shelf.new self.new) }
        ensures trusts { OnOk result (KeepsLists S.tells S.world shelf.old shelf.new self.old self.new) }
        ensures number { IfOk result (λ next. next ≡ numbered_with numbered row.now) }
        ensures some { IfOk result (λ next. (1 ≤ next.number) × (next.number ≤ 2 ^ 47)) }
        ensures rest { self.new ≡ record self.old {
          place = record self.old.place { phase = self.new.place.phase };
          writer = self.new.writer;
        } }
        ensures phase { self.new.place.phase ≡ Phase.Number (numbered_with numbered row.now) }
        ensures put { OnOk result (IsTrue (S.tells shelf.new) → (k : Contents) →
            Holds self.old.ahead self.old.lists self.old.writer (S.world shelf.old) k →
            Holds self.new.ahead self.new.lists self.new.writer (S.world shelf.new)
            (record k { nodes = nodes_with self.old.place.level numbered row.now k.nodes })) }
    {
        let next = numbered.with(row);
        self.place.phase = Phase::Number(next);
        if numbered.has_last(row) {
            return Ok(next);
        }
        let Some(uid) = Uid::of(next.node(self.place.level)) else {
            unreachable!();
        };
        let node = Node {
            uid,
            low: row.low,
            high: row.high,
        };
        self.writer.put(node, shelf)?;
        Ok(next)
    }
}
