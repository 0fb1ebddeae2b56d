//! The checkpoint of a reduction that was done without a sweep.
ghost use Rattle.std.specs.Prelude.{◌≡◌, ℕ, ◌+◌, ◌*◌, ◌^◌, ◌<◌, ◌≤◌, List, length, take};
ghost use Rattle.shelf_model.specs.declared.file_no.FileNo.{FileNo};
ghost use Rattle.rec_words.specs.Words.{node_size};
ghost use Rattle.canon_file.specs.Canon.{canon_bytes, canon_nodes};
ghost use Rattle.sweep_core.specs.Saving.{SameHead, IsFilled, IsMadePart};
ghost use Rattle.reduce_sweep.specs.Ended.{NamesEnded};
ghost use Rattle.reduce_sweep.specs.Remaining.{Diagram};
ghost use Rattle.reduce_sweep.specs.Resumes.{Fits, StandsFor};

use crate::phase::Phase;
use crate::saved::Saved;
use crate::saved_phase::SavedPhase;
use arc_file::Unreduced;
use file_numbers::checkpoint_file;
use rec_words::Ptr;
use saved_words::words_of;
use shelf_model::FileNo;
use sweep_core::{Checkpoint, fill_without_runs};

/// Fills a checkpoint, whose step stands there, as that of a reduction that has ended with so many nodes: of a file
/// that was made without a sweep, to which a step may go on from there.
pub fn ended_point(into: &mut Checkpoint, out: FileNo, variables: u32, count: u64, next_part: u64)
    requires few { count < 2 ^ 46 }
    ensures head { SameHead into.old into.new }
    ensures filled { IsFilled next_part into.new }
    ensures fits { 3 ≤ next_part → IsMadePart into.old.step next_part out → Fits into.new }
    ensures names { NamesEnded into.new out variables }
    ensures stands { (r : FileNo → List ℕ) → (d : Diagram) → (turns : ℕ) →
        take (node_size * (count + 1)) (r out) ≡ canon_bytes variables d.table →
        count ≡ length (canon_nodes variables d.table) → StandsFor into.new r d turns }
{
    // No sweep takes the part of the checkpoints: it may stand for the files of no arcs.
    let none = checkpoint_file(into.step);
    let arcs = Unreduced {
        root: Ptr::terminal(false),
        inner: none,
        inner_count: 0,
        ends: none,
        ends_count: 0,
    };
    let saved = Saved {
        variables,
        arcs,
        known: Ptr::terminal(false),
        out,
        kept: count + 1,
        level: 0,
        phase: SavedPhase::of(Phase::Ended(count)),
        last: None,
    };
    fill_without_runs(into, next_part, words_of(saved));
}
