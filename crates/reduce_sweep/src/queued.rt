//! The calls of the queue and of the reader of arcs.
ghost use Rattle.std.specs.Prelude.{◌≡◌, ◌+◌, true};
ghost use Rattle.rec_words.specs.Words.{level_of};
ghost use Rattle.arc_diagrams.specs.Items.{final_arc_cmp};
ghost use Rattle.level_queue.specs.Queues.{IsNoLess};
ghost use Rattle.reduce_lists.specs.Contents.{IsTakenTo};

use crate::reduce::ReduceSweep;
use arc_diagrams::FinalArc;
use shelf_model::{Shelf, SortFault};

impl<'r> ReduceSweep<'r> {
    ghost use Rattle.std.specs.Prelude.{◌≤◌, false, IsTrue, OnOk, IfOk, IsSome};
    ghost use Rattle.arc_diagrams.specs.declared.final_arc.FinalArc.{FinalArc};
    ghost use Rattle.level_queue.specs.Queues.{held};
    ghost use Rattle.reduce_lists.specs.Held.{IsThere};
    ghost use Rattle.reduce_sweep.specs.Sweeps.{held_of, arcs_weight};
    ghost use Rattle.reduce_lists.specs.Contents.{Contents, Holds};
    ghost use Rattle.reduce_lists.specs.Changes.{ShowsQueued, JoinsQueue, IsAt, Passes, PassesInner};
    ghost use Rattle.reduce_sweep.specs.Calls.{Does, IsFit, KeepsLists};

    /// The first arc of the queue, which stays.
    pub(crate) fn first_queued<S: Shelf>(
        &mut self,
        shelf: &mut S,
    ) -> Result<Option<FinalArc>, SortFault>
        requires fit { IsFit S.tells S.world shelf.old self.old }
        ensures does { Does S.tells S.world S.faults 8 0 shelf.old shelf.new self.old self.new result }
        ensures fit { OnOk result (IsFit S.tells S.world shelf.new self.new) }
        ensures trusts { OnOk result (KeepsLists S.tells S.world shelf.old shelf.new self.old self.new) }
        ensures rest { self.new ≡ record self.old { ahead = record self.old.ahead { queue = self.new.ahead.queue } } }
        ensures held { OnOk result (held self.new.ahead.queue ≡ held self.old.ahead.queue) }
        ensures there { IfOk result (λ found. IsSome found → 1 ≤ held self.new.ahead.queue) }
        ensures shown { IfOk result (λ found. IsTrue (S.tells shelf.new) → (k : Contents) →
            Holds self.old.ahead self.old.lists self.old.writer (S.world shelf.old) k →
            ShowsQueued (held_of self.new) (S.world shelf.new) k found) }
    {
        self.ahead.queue.peek(shelf)
    }

    /// Puts an arc into the queue, unless it comes before what was taken: no list that this program wrote has such
    /// an arc.
    pub(crate) fn push<S: Shelf>(&mut self, told: FinalArc, shelf: &mut S) -> Result<(), SortFault>
        requires fit { IsFit S.tells S.world shelf.old self.old }
        ensures does { Does S.tells S.world S.faults 48 3 shelf.old shelf.new self.old self.new result }
        ensures fit { OnOk result (IsFit S.tells S.world shelf.new self.new) }
        ensures trusts { OnOk result (KeepsLists S.tells S.world shelf.old shelf.new self.old self.new) }
        ensures rest { self.new ≡ record self.old {
          ahead = record self.old.ahead { queue = self.new.ahead.queue };
          parts = self.new.parts;
        } }
        ensures weight { OnOk result (arcs_weight self.new.ahead ≤ arcs_weight self.old.ahead + 3) }
        ensures joined { OnOk result (IsTrue (S.tells shelf.new) → (k : Contents) →
            Holds self.old.ahead self.old.lists self.old.writer (S.world shelf.old) k →
            IsTakenTo (level_of told.source + 1) k.last → JoinsQueue (held_of self.new) (S.world shelf.new) k told) }
    {
        if !follows(self.ahead.queue.last(), &told) {
            return Ok(());
        }
        self.ahead.queue.push(told, &mut self.parts, shelf)
    }

    /// Passes over the next arc to collect.
    pub(crate) fn pass<S: Shelf>(&mut self, queued: bool, shelf: &mut S) -> Result<(), SortFault>
        requires there { IsThere self.old.ahead queued }
        requires fit { IsFit S.tells S.world shelf.old self.old }
        ensures does { Does S.tells S.world S.faults 8 0 shelf.old shelf.new self.old self.new result }
        ensures fit { OnOk result (IsFit S.tells S.world shelf.new self.new) }
        ensures trusts { OnOk result (KeepsLists S.tells S.world shelf.old shelf.new self.old self.new) }
        ensures rest { self.new ≡ record self.old { ahead = self.new.ahead; parts = self.new.parts } }
        ensures weight { OnOk result (arcs_weight self.new.ahead + 3 ≡ arcs_weight self.old.ahead) }
        ensures passed { OnOk result (IsTrue (S.tells shelf.new) → (k : Contents) → (arc : FinalArc) →
            IsAt queued k arc →
            Holds self.old.ahead self.old.lists self.old.writer (S.world shelf.old) k →
            Passes queued (held_of self.new) (S.world shelf.new) k arc) }
    {
        if queued {
            return self.take(shelf);
        }
        self.read_end(shelf)
    }

    // Takes the first arc of the queue.
    fn take<S: Shelf>(&mut self, shelf: &mut S) -> Result<(), SortFault>
        requires there { IsThere self.old.ahead true }
        requires fit { IsFit S.tells S.world shelf.old self.old }
        ensures does { Does S.tells S.world S.faults 8 0 shelf.old shelf.new self.old self.new result }
        ensures fit { OnOk result (IsFit S.tells S.world shelf.new self.new) }
        ensures trusts { OnOk result (KeepsLists S.tells S.world shelf.old shelf.new self.old self.new) }
        ensures rest { self.new ≡ record self.old {
          ahead = record self.old.ahead { queue = self.new.ahead.queue };
          parts = self.new.parts;
        } }
        ensures weight { OnOk result (arcs_weight self.new.ahead + 3 ≡ arcs_weight self.old.ahead) }
        ensures taken { OnOk result (IsTrue (S.tells shelf.new) → (k : Contents) → (arc : FinalArc) → IsAt true k arc →
            Holds self.old.ahead self.old.lists self.old.writer (S.world shelf.old) k →
            Passes true (held_of self.new) (S.world shelf.new) k arc) }
    {
        self.ahead.queue.take(&mut self.parts, shelf)?;
        Ok(())
    }

    // Passes over the next arc to a truth value.
    fn read_end<S: Shelf>(&mut self, shelf: &mut S) -> Result<(), SortFault>
        requires there { IsThere self.old.ahead false }
        requires fit { IsFit S.tells S.world shelf.old self.old }
        ensures does { Does S.tells S.world S.faults 1 0 shelf.old shelf.new self.old self.new result }
        ensures fit { OnOk result (IsFit S.tells S.world shelf.new self.new) }
        ensures trusts { OnOk result (KeepsLists S.tells S.world shelf.old shelf.new self.old self.new) }
        ensures rest { self.new ≡ record self.old {
          ahead = record self.old.ahead {
            reader = self.new.ahead.reader;
            end = self.new.ahead.end;
          };
        } }
        ensures weight { OnOk result (arcs_weight self.new.ahead + 3 ≡ arcs_weight self.old.ahead) }
        ensures passed { OnOk result (IsTrue (S.tells shelf.new) → (k : Contents) → (arc : FinalArc) →
            IsAt false k arc →
            Holds self.old.ahead self.old.lists self.old.writer (S.world shelf.old) k →
            Passes false (held_of self.new) (S.world shelf.new) k arc) }
    {
        self.ahead.end = self.ahead.reader.next_end(shelf)?;
        Ok(())
    }

    /// Passes over the next arc to a node.
    pub(crate) fn read_inner<S: Shelf>(&mut self, shelf: &mut S) -> Result<(), SortFault>
        requires some { IsSome self.old.ahead.inner }
        requires fit { IsFit S.tells S.world shelf.old self.old }
        ensures does { Does S.tells S.world S.faults 1 0 shelf.old shelf.new self.old self.new result }
        ensures fit { OnOk result (IsFit S.tells S.world shelf.new self.new) }
        ensures trusts { OnOk result (KeepsLists S.tells S.world shelf.old shelf.new self.old self.new) }
        ensures rest { self.new ≡ record self.old {
          ahead = record self.old.ahead {
            reader = self.new.ahead.reader;
            inner = self.new.ahead.inner;
          };
        } }
        ensures weight { OnOk result (arcs_weight self.new.ahead + 4 ≡ arcs_weight self.old.ahead) }
        ensures passed { OnOk result (IsTrue (S.tells shelf.new) → (k : Contents) →
            Holds self.old.ahead self.old.lists self.old.writer (S.world shelf.old) k →
            PassesInner self.old.ahead.inner (held_of self.new) (S.world shelf.new) k) }
    {
        self.ahead.inner = self.ahead.reader.next_inner(shelf)?;
        Ok(())
    }
}

// Whether an arc doesn't come before the last one that was taken.
fn follows(last: Option<FinalArc>, told: &FinalArc) -> bool
    ensures order { result ≡ true → IsNoLess final_arc_cmp last told.now }
    ensures later { IsTakenTo (level_of told.now.source + 1) last → result ≡ true }
{
    match last {
        Some(last) => !told.cmp(&last).is_lt(),
        None => true,
    }
}
