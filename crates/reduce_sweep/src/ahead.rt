//! The arcs whose sources are collected: those in the queue, and those to truth values.
ghost use Rattle.std.specs.Prelude.{◌≡◌};
ghost use Rattle.reduce_lists.specs.Changes.{next_of};

use crate::reduce::ReduceSweep;
use arc_diagrams::FinalArc;
use arc_file::Arc;
use shelf_model::{Shelf, SortFault};

impl<'r> ReduceSweep<'r> {
    ghost use Rattle.std.specs.Prelude.{IsTrue, OnOk, IfOk};
    ghost use Rattle.reduce_lists.specs.Held.{IsNext};
    ghost use Rattle.reduce_sweep.specs.Sweeps.{arcs_weight};
    ghost use Rattle.reduce_lists.specs.Contents.{Contents, Holds};
    ghost use Rattle.reduce_lists.specs.Changes.{ComesNext};
    ghost use Rattle.reduce_sweep.specs.Calls.{Does, IsFit, KeepsLists};

    /// The next arc to collect, and whether it is of the queue.
    pub(crate) fn next_arc<S: Shelf>(
        &mut self,
        shelf: &mut S,
    ) -> Result<Option<(FinalArc, bool)>, SortFault>
        requires fit { IsFit S.tells S.world shelf.old self.old }
        ensures does { Does S.tells S.world S.faults 8 0 shelf.old shelf.new self.old self.new result }
        ensures fit { OnOk result (IsFit S.tells S.world shelf.new self.new) }
        ensures trusts { OnOk result (KeepsLists S.tells S.world shelf.old shelf.new self.old self.new) }
        ensures rest { self.new ≡ record self.old { ahead = record self.old.ahead { queue = self.new.ahead.queue } } }
        ensures weight { OnOk result (arcs_weight self.new.ahead ≡ arcs_weight self.old.ahead) }
        ensures next { IfOk result (IsNext self.new.ahead) }
        ensures shown { OnOk result (IsTrue (S.tells shelf.new) → (k : Contents) →
            Holds self.old.ahead self.old.lists self.old.writer (S.world shelf.old) k →
            Holds self.new.ahead self.new.lists self.new.writer (S.world shelf.new) k) }
        ensures first { IfOk result (λ found. IsTrue (S.tells shelf.new) → (k : Contents) →
            Holds self.old.ahead self.old.lists self.old.writer (S.world shelf.old) k → ComesNext k found) }
    {
        let queued = self.first_queued(shelf)?;
        Ok(greatest(queued, self.ahead.end))
    }
}

// The arc with the greater source, and whether it is the one of the queue.
fn greatest(queued: Option<FinalArc>, end: Option<Arc>) -> Option<(FinalArc, bool)>
    ensures { result ≡ next_of queued end }
{
    let Some(end) = end else {
        return match queued {
            Some(arc) => Some((arc, true)),
            None => None,
        };
    };
    let read = FinalArc {
        source: end.source,
        high: end.high,
        target: end.target,
    };
    match queued {
        Some(arc) if arc.source >= read.source => Some((arc, true)),
        _ => Some((read, false)),
    }
}
