//! What a checkpoint keeps of a reduction, and how that goes on from it.
ghost use Rattle.std.specs.Prelude.{◌≡◌, ◌≢◌, ℕ, ◌+◌, ◌*◌, ◌≤◌, ◌^◌, IsTrue, OnOk, IfOk, IfErr, length, take};
ghost use Rattle.shelf_model.specs.Calls.{Told};
ghost use Rattle.shelf_model.specs.File.{firm_file};
ghost use Rattle.shelf_model.specs.Moments.{Ran};
ghost use Rattle.shelf_model.specs.World.{now, file};
ghost use Rattle.rec_words.specs.Words.{node_size};
ghost use Rattle.block_stream.specs.Writes.{DuringCut, count_of};
ghost use Rattle.node_file.specs.Writers.{filling_of, Holds};
ghost use Rattle.run_tiers.specs.Faults.{OnlySortShelf};
ghost use Rattle.sweep_core.specs.Saving.{reads_of};
ghost use Rattle.reduce_sweep.specs.Sweeps.{one_if_some, arcs_of, AreFew};
ghost use Rattle.reduce_sweep.specs.Resumes.{IsShortFault, arc_at, place_of};
ghost use Rattle.reduce_sweep.specs.Saving.{saved_of, item_at};

use crate::phase::Phase;
use crate::place::Place;
use crate::reduce::ReduceSweep;
use crate::saved::Saved;
use crate::saved_phase::SavedPhase;
use arc_diagrams::FinalArc;
use arc_file::{Arc, Unreduced};
use node_file::NodeWriter;
use rec_words::Rec;
use saved_words::Item;
use shelf_model::{Shelf, SortFault};

impl<'r> ReduceSweep<'r> {
    // What a checkpoint keeps of it. The arcs at hand are among those that aren't done with.
    pub(crate) fn saved(&self) -> Saved
        requires few { AreFew (arcs_of self.now) self.now.ahead.reader self.now.ahead.inner self.now.ahead.end }
        ensures { result ≡ saved_of self.now }
    {
        let left = self.ahead.reader.left_over();
        let arcs = Unreduced {
            root: self.place.arcs.root,
            inner: left.inner,
            inner_count: with_one(left.inner_count, self.ahead.inner),
            ends: left.ends,
            ends_count: with_one(left.ends_count, self.ahead.end),
        };
        Saved {
            variables: self.place.variables,
            arcs,
            known: self.place.known,
            out: self.writer.file(),
            kept: self.writer.count(),
            level: self.place.level,
            phase: SavedPhase::of(self.place.phase),
            last: item_of(self.ahead.queue.last()),
        }
    }
}

// So many arcs, and one more where one is at hand.
fn with_one(count: u64, next: Option<Arc>) -> u64
    requires few { count ≤ 2 ^ 46 }
    ensures { result ≡ count + one_if_some next }
{
    match next {
        Some(_arc) => count + 1,
        None => count,
    }
}

// An arc as an item.
fn item_of(arc: Option<FinalArc>) -> Option<Item<FinalArc>>
    ensures { result ≡ item_at arc }
{
    match arc {
        Some(value) => Some(Item { value }),
        None => None,
    }
}

impl Saved {
    // The last arc that was taken of the queue.
    pub(crate) fn last_arc(&self) -> Option<FinalArc>
        ensures { result ≡ arc_at self.now.last }
    {
        match self.last {
            Some(item) => Some(item.value),
            None => None,
        }
    }

    // The place at which it stands in that phase.
    pub(crate) fn place(&self, phase: Phase) -> Place
        ensures { result ≡ place_of self.now phase }
    {
        Place {
            variables: self.variables,
            arcs: self.arcs,
            known: self.known,
            level: self.level,
            phase,
        }
    }

    // Goes on behind the nodes that are kept. Where the reduction has ended they are made sure with the trailer.
    pub(crate) fn writer<'r, S: Shelf>(
        &self,
        phase: &Phase,
        window: &'r mut [Rec],
        shelf: &mut S,
    ) -> Result<NodeWriter<'r>, SortFault>
        requires enough { 8 ≤ length window.old }
        ensures file { IfOk result (λ w. (filling_of w).file ≡ self.now.out) }
        ensures variables { IfOk result (λ w. w.n ≡ self.now.variables) }
        ensures count { IfOk result (λ w. count_of (filling_of w) ≡ self.now.kept) }
        ensures holds { IfOk result (λ w. IsTrue (S.tells shelf.new) → Holds w (S.world shelf.new)
            (take (self.now.kept * node_size) (file (S.world shelf.old) self.now.out).bytes)) }
        ensures firm { OnOk result (IsTrue (S.tells shelf.new) → (count : ℕ) → phase.now ≡ Phase.Ended count →
            file (S.world shelf.new) self.now.out
            ≡ firm_file (take (self.now.kept * node_size) (file (S.world shelf.old) self.now.out).bytes)) }
        ensures damage { IfErr result (λ e. IsTrue (S.tells shelf.new) →
            IsShortFault self.now (reads_of (S.world shelf.old)) e) }
        ensures content { Told S.tells shelf.old shelf.new
            (Ran (DuringCut self.now.out (self.now.kept * node_size) (now (S.world shelf.old)))
            (S.world shelf.old) (S.world shelf.new)) }
        ensures calls { IsTrue (S.tells shelf.new) →
            (S.world shelf.new).clock ≤ (S.world shelf.old).clock + 3 }
        ensures kind { IfErr result (λ e. e ≢ SortFault.RunsSpent) }
        ensures faults { OnlySortShelf (S.faults shelf.old) (S.faults shelf.new) result }
    {
        let writer = NodeWriter::resume(self.out, self.variables, self.kept, window, shelf)?;
        if let Phase::Ended(_count) = phase {
            shelf.sync(self.out)?;
        }
        Ok(writer)
    }
}
