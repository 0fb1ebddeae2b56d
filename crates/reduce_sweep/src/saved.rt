//! What a checkpoint keeps of a reduction.
ghost use Rattle.std.specs.Prelude.{◌≡◌};
ghost use Rattle.reduce_sweep.specs.SavedReduction.{parts_of};

use crate::saved_phase::SavedPhase;
use arc_diagrams::FinalArc;
use arc_file::Unreduced;
use rec_words::Ptr;
use saved_words::{Carried, Item, Words};
use shelf_model::FileNo;

/// How many variables there are, the arcs that aren't done with, those at hand counted, and the root's final pointer;
/// the file of the nodes, and how many of its nodes are kept; the level, and what is done there; and the last arc that
/// was taken of the queue.
#[derive(Clone, Copy)]
pub(crate) struct Saved {
    pub(crate) variables: u32,
    pub(crate) arcs: Unreduced,
    pub(crate) known: Ptr,
    pub(crate) out: FileNo,
    pub(crate) kept: u64,
    pub(crate) level: u32,
    pub(crate) phase: SavedPhase,
    pub(crate) last: Option<Item<FinalArc>>,
}

// A file, and how many records of it count.
type Front = (FileNo, u64);

// The variables and the level, and the root and its final pointer.
type Numbers = ((u32, u32), (Ptr, Ptr));

// The numbers and the two arc files; and then the file of the nodes, the phase and the last arc.
type Parts = (
    (Numbers, (Front, Front)),
    (Front, (SavedPhase, Option<Item<FinalArc>>)),
);

impl Saved {
    fn parts(&self) -> Parts
        ensures { result ≡ parts_of self.now }
    {
        let arcs = self.arcs;
        let numbers = ((self.variables, self.level), (arcs.root, self.known));
        let fronts = ((arcs.inner, arcs.inner_count), (arcs.ends, arcs.ends_count));
        (
            (numbers, fronts),
            ((self.out, self.kept), (self.phase, self.last)),
        )
    }
}

// What has these parts.
fn saved_by(parts: Parts) -> Saved
    ensures { parts_of result ≡ parts }
{
    let ((numbers, (inner, ends)), (nodes, (phase, last))) = parts;
    let ((variables, level), (root, known)) = numbers;
    let arcs = Unreduced {
        root,
        inner: inner.0,
        inner_count: inner.1,
        ends: ends.0,
        ends_count: ends.1,
    };
    Saved {
        variables,
        arcs,
        known,
        out: nodes.0,
        kept: nodes.1,
        level,
        phase,
        last,
    }
}

impl Carried for Saved {
    ghost use Rattle.reduce_sweep.specs.SavedReduction.{saved_count, saved_words, IsSaved, saved_long, saved_fits, saved_differs};

    ghost count = { saved_count };

    ghost words = { saved_words };

    ghost is_value = { IsSaved };

    fn put(&self, into: &mut Words) {
        self.parts().put(into);
    }

    fn put_none(into: &mut Words) {
        Parts::put_none(into);
    }

    fn get(from: &mut Words) -> Option<Saved> {
        let parts = Parts::get(from)?;
        Some(saved_by(parts))
    }

    fn get_none(from: &mut Words) -> bool {
        Parts::get_none(from)
    }

    ghost long = { saved_long };

    ghost fits = { saved_fits };

    ghost differ = { saved_differs };
}
