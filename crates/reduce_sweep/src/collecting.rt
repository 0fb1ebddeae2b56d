//! The collecting of the sources of a level.
ghost use Rattle.std.specs.Prelude.{◌≡◌, ◌≤◌};
ghost use Rattle.rec_words.specs.Words.{level_of};

use crate::phase::{Numbered, Phase};
use crate::reduce::ReduceSweep;
use crate::source::Source;
use arc_diagrams::{FinalArc, Name};
use rec_words::Uid;
use shelf_model::{Shelf, SortFault};

impl<'r> ReduceSweep<'r> {
    ghost use Rattle.std.specs.Prelude.{◌+◌, ◌<◌, IsTrue, OnOk, IfOk, Some};
    ghost use Rattle.reduce_sweep.specs.Sources.{closed_by, noted_with};
    ghost use Rattle.reduce_lists.specs.Held.{IsThere};
    ghost use Rattle.reduce_sweep.specs.Sweeps.{Handles, none_numbered, lists_weight, turns_left};
    ghost use Rattle.reduce_lists.specs.Contents.{Contents, Holds};
    ghost use Rattle.reduce_sweep.specs.Remaining.{Diagram, IsLeft, IsWorking};
    ghost use Rattle.reduce_lists.specs.Changes.{IsAt, IsGreatest};
    ghost use Rattle.reduce_sweep.specs.Changes.{Closes};
    ghost use Rattle.reduce_sweep.specs.Calls.{Does, IsFit, KeepsLists};

    /// Collects an arc of the level at hand, or ends the collecting where the next one is of a shallower level.
    ///
    /// An arc of a deeper level is passed over: no file that this program wrote has one.
    pub(crate) fn collect<S: Shelf>(
        &mut self,
        source: Source,
        shelf: &mut S,
    ) -> Result<bool, SortFault>
        requires phase { self.old.place.phase ≡ Phase.Collect source }
        requires fit { IsFit S.tells S.world shelf.old self.old }
        ensures does { Does S.tells S.world S.faults 32 1 shelf.old shelf.new self.old self.new result }
        ensures fit { OnOk result (IsFit S.tells S.world shelf.new self.new) }
        ensures trusts { OnOk result (KeepsLists S.tells S.world shelf.old shelf.new self.old self.new) }
        ensures handles { IfOk result (Handles (Phase.Number none_numbered) self.old self.new) }
        ensures keeps { OnOk result (IsTrue (S.tells shelf.new) → (d : Diagram) →
            IsWorking self.old (S.world shelf.old) d → IsWorking self.new (S.world shelf.new) d) }
    {
        if let Some((arc, queued)) = self.next_arc(shelf)? {
            let level = level_at(arc.source);
            if level == self.place.level {
                self.collect_arc(source, &arc, queued, shelf)?;
                return Ok(true);
            }
            if level > self.place.level {
                self.pass(queued, shelf)?;
                return Ok(true);
            }
        }
        self.close(source, shelf)?;
        self.place.phase = Phase::Number(Numbered::NONE);
        Ok(false)
    }

    // Collects an arc of the level at hand.
    fn collect_arc<S: Shelf>(
        &mut self,
        source: Source,
        arc: &FinalArc,
        queued: bool,
        shelf: &mut S,
    ) -> Result<(), SortFault>
        requires phase { self.old.place.phase ≡ Phase.Collect source }
        requires there { IsThere self.old.ahead queued }
        requires fit { IsFit S.tells S.world shelf.old self.old }
        ensures does { Does S.tells S.world S.faults 24 1 shelf.old shelf.new self.old self.new result }
        ensures fit { OnOk result (IsFit S.tells S.world shelf.new self.new) }
        ensures trusts { OnOk result (KeepsLists S.tells S.world shelf.old shelf.new self.old self.new) }
        ensures fewer { OnOk result ((0 < turns_left self.new) × (turns_left self.new < turns_left self.old)) }
        ensures keeps { OnOk result (IsTrue (S.tells shelf.new) → (d : Diagram) → (k : Contents) →
            Holds self.old.ahead self.old.lists self.old.writer (S.world shelf.old) k → IsLeft self.old.place d k →
            IsAt queued k arc.now → IsGreatest k arc.now → level_of arc.now.source ≡ self.old.place.level →
            IsWorking self.new (S.world shelf.new) d) }
    {
        self.note(source, arc, shelf)?;
        self.pass(queued, shelf)
    }

    // Notes an arc of the level at hand. Another source is the one at hand from then on.
    fn note<S: Shelf>(
        &mut self,
        source: Source,
        arc: &FinalArc,
        shelf: &mut S,
    ) -> Result<(), SortFault>
        requires phase { self.old.place.phase ≡ Phase.Collect source }
        requires fit { IsFit S.tells S.world shelf.old self.old }
        ensures does { Does S.tells S.world S.faults 16 1 shelf.old shelf.new self.old self.new result }
        ensures fit { OnOk result (IsFit S.tells S.world shelf.new self.new) }
        ensures trusts { OnOk result (KeepsLists S.tells S.world shelf.old shelf.new self.old self.new) }
        ensures rest { self.new ≡ record self.old {
          place = record self.old.place { phase = self.new.place.phase };
          lists = self.new.lists;
          parts = self.new.parts;
        } }
        ensures phase { OnOk result (self.new.place.phase ≡ Phase.Collect (noted_with source arc.now)) }
        ensures weight { OnOk result (lists_weight self.new.lists ≤ lists_weight self.old.lists + 2) }
        ensures closed { OnOk result (IsTrue (S.tells shelf.new) → (k : Contents) →
            Holds self.old.ahead self.old.lists self.old.writer (S.world shelf.old) k →
            Closes (closed_by source arc.now) self.new (S.world shelf.new) k) }
    {
        if source.uid == arc.source {
            self.place.phase = Phase::Collect(source.noted(arc.high, arc.target));
            return Ok(());
        }
        self.close(source, shelf)?;
        self.place.phase = Phase::Collect(Source::of(arc));
        Ok(())
    }

    // Makes a row of a source, or a name where its two pointers are equal.
    fn close<S: Shelf>(&mut self, source: Source, shelf: &mut S) -> Result<(), SortFault>
        requires fit { IsFit S.tells S.world shelf.old self.old }
        ensures does { Does S.tells S.world S.faults 16 1 shelf.old shelf.new self.old self.new result }
        ensures fit { OnOk result (IsFit S.tells S.world shelf.new self.new) }
        ensures trusts { OnOk result (KeepsLists S.tells S.world shelf.old shelf.new self.old self.new) }
        ensures rest { self.new ≡ record self.old { lists = self.new.lists; parts = self.new.parts } }
        ensures weight { OnOk result (lists_weight self.new.lists ≤ lists_weight self.old.lists + 2) }
        ensures closed { OnOk result (IsTrue (S.tells shelf.new) → (k : Contents) →
            Holds self.old.ahead self.old.lists self.old.writer (S.world shelf.old) k →
            Closes (Some source) self.new (S.world shelf.new) k) }
    {
        let row = source.row();
        if row.low == row.high {
            let name = Name {
                source: row.source,
                pointer: row.low,
            };
            return self.push_name(name, shelf);
        }
        self.push_row(row, shelf)
    }
}

/// The level of a node.
pub(crate) fn level_at(uid: Uid) -> u32
    ensures level { result ≡ level_of uid }
    ensures below { result ≤ 65534 }
{
    match uid.ptr().level() {
        Some(level) => u32::from(level),
        None => unreachable!(),
    }
}
