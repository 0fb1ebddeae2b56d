//! The beginning of a reduction.
ghost use Rattle.std.specs.Prelude.{◌≡◌};
ghost use Rattle.rec_words.specs.Words.{IsTerminal};

use crate::phase::Phase;
use crate::place::Place;
use crate::reduce::ReduceSweep;
use arc_file::{ArcReader, Unreduced};
use level_queue::LevelQueue;
use node_file::NodeWriter;
use rec_words::{Ptr, Rec};
use reduce_lists::{Ahead, Lists};
use run_merge::{Parts, Sorter};
use shelf_model::{FileNo, Shelf, SortFault};

/// How many records of the room the reader of arcs has, and the writer of nodes.
pub(crate) const READING: usize = 256;

pub(crate) const WRITING: usize = 88;

impl<'r> ReduceSweep<'r> {
    ghost use Rattle.std.specs.Prelude.{◌≡◌, ◌≢◌, ℕ, ◌+◌, ◌*◌, ◌^◌, ◌≤◌, IsTrue, List, ◌++◌, OnOk, IfOk, IfErr, None, length};
    ghost use Rattle.shelf_model.specs.World.{now, file};
    ghost use Rattle.arc_file.specs.declared.arc.Arc.{Arc};
    ghost use Rattle.arc_file.specs.declared.kind.Kind.TheVariants.{Inner, End};
    ghost use Rattle.arc_file.specs.Files.{HasArcs};
    ghost use Rattle.arc_diagrams.specs.Laws.{IsDiagramOf};
    ghost use Rattle.reduce_sweep.specs.Remaining.{Diagram, RemainsOf};
    ghost use Rattle.reduce_lists.specs.Damage.{IsDamageAtStart};
    ghost use Rattle.reduce_sweep.specs.Calls.{IsInStep, HasLists};
    ghost use Rattle.shelf_model.specs.Calls.{Told};
    ghost use Rattle.shelf_model.specs.Moments.{Ran};
    ghost use Rattle.run_tiers.specs.Faults.{OnlySortShelf};
    ghost use Rattle.run_tiers.specs.Parts.{Paid};
    ghost use Rattle.block_stream.specs.Writes.{DuringCut};
    ghost use Rattle.sweep_core.specs.Accounts.{CanBeTaken};
    ghost use Rattle.sweep_core.specs.Sweeps.{IsNoDamage};
    ghost use Rattle.reduce_sweep.specs.Sweeps.{credit_of, stock_of, out_of, arcs_of, inner_file, ends_file, parts_of, turns_left, count_in, IsSound, IsArcDamage};

    /// Begins the reduction of a diagram of `n` variables into a file, with the part numbers that its lists may take.
    ///
    /// Two thirds of the room are the queue's, and a sixth each that of the rows and of the names, but for 344 records
    /// with which files are read and written: most that waits are arcs, and the rows and names are those of one level.
    pub fn start<S: Shelf>(
        n: u32,
        made: Unreduced,
        out: FileNo,
        parts: Parts,
        room: &'r mut [Rec],
        shelf: &mut S,
    ) -> Result<ReduceSweep<'r>, SortFault>
        requires variables { n ≤ 65535 }
        requires room { 16384 ≤ length room.old }
        requires inner_few { made.inner_count ≤ 2 ^ 46 }
        requires ends_few { made.ends_count ≤ 2 ^ 46 }
        requires apart_inner { out ≢ made.inner }
        requires apart_ends { out ≢ made.ends }
        requires two_files { made.inner ≢ made.ends }
        requires past_made { 3 ≤ parts.next }
        requires out_made { ¬ CanBeTaken parts.step parts.next out }
        requires inner_made { ¬ CanBeTaken parts.step parts.next made.inner }
        requires ends_made { ¬ CanBeTaken parts.step parts.next made.ends }
        ensures ready { IfOk result IsSound }
        ensures in_step { IfOk result (λ r. IsTrue (S.tells shelf.new) → IsInStep r (S.world shelf.new)) }
        ensures trusts { IfOk result (λ r. IsTrue (S.tells shelf.new) → HasLists r (S.world shelf.new)) }
        ensures files { IfOk result (λ r. (out_of r ≡ out) × (inner_file r ≡ made.inner) × (ends_file r ≡ made.ends)) }
        ensures arcs { IfOk result (λ r. arcs_of r ≡ made) }
        ensures variables { IfOk result (λ r. r.place.variables ≡ n) }
        ensures parts { IfOk result (λ r. parts_of r ≡ parts) }
        ensures left { IfOk result (λ r. turns_left r ≤ 4 * made.inner_count + 3 * made.ends_count + 1) }
        ensures bound { IfOk result (λ r. (sources : ℕ) → made.inner_count + made.ends_count ≡ 2 * sources →
            turns_left r ≤ 8 * sources + 8) }
        ensures count { IfOk result (λ r. count_in r ≡ None) }

        // what remains
        ensures remains { IfOk result (λ r. IsTrue (S.tells shelf.new) → (d : Diagram) → (inner ends : List Arc) →
            HasArcs Inner inner made.inner_count (file (S.world shelf.old) made.inner).bytes →
            HasArcs End ends made.ends_count (file (S.world shelf.old) made.ends).bytes →
            d.arcs ≡ inner ++ ends → IsDiagramOf n made.root d.arcs d.table → RemainsOf r (S.world shelf.new) d) }
        ensures damage { IfErr result (λ e. IsTrue (S.tells shelf.new) → IsDamageAtStart made (S.world shelf.old) e) }
        ensures undamaged { IfErr result (λ e. IsTrue (S.tells shelf.new) → (inner ends : List Arc) →
            HasArcs Inner inner made.inner_count (file (S.world shelf.old) made.inner).bytes →
            HasArcs End ends made.ends_count (file (S.world shelf.old) made.ends).bytes → IsNoDamage e) }

        // what the call leaves, and what it costs
        ensures content { Told S.tells shelf.old shelf.new
            (Ran (DuringCut out 0 (now (S.world shelf.old))) (S.world shelf.old) (S.world shelf.new)) }
        ensures calls { IfOk result (λ r. IsTrue (S.tells shelf.new) →
            Paid 3 0 (credit_of r) (S.world shelf.old) (S.world shelf.new)) }
        ensures stock { IfOk result (λ r. stock_of r ≡ 0) }
        ensures few_calls { IsTrue (S.tells shelf.new) →
            (S.world shelf.new).clock ≤ (S.world shelf.old).clock + 3 }
        ensures faults { OnlySortShelf (S.faults shelf.old) (S.faults shelf.new) result }
        ensures refused { IfErr result (IsArcDamage made.inner made.ends) }
    {
        let (reading, rest) = room.split_at_mut(READING);
        let (writing, lists) = rest.split_at_mut(WRITING);
        let most = lists.len() / 3 * 2;
        let (queue, sorters) = lists.split_at_mut(most);
        let half = sorters.len() / 2;
        let (rows, names) = sorters.split_at_mut(half);
        let writer = NodeWriter::start(out, n, writing, shelf)?;
        let mut reader = ArcReader::start(made, reading);
        let arcs = reader.left_over();
        let inner = reader.next_inner(shelf)?;
        let end = reader.next_end(shelf)?;
        let known = final_from_start(arcs.root);
        Ok(ReduceSweep {
            place: Place {
                variables: n,
                arcs,
                known,
                level: n,
                phase: Phase::Between,
            },
            ahead: Ahead {
                reader,
                inner,
                end,
                queue: LevelQueue::start(queue),
            },
            lists: Lists {
                rows: Sorter::start(rows),
                names: Sorter::start(names),
            },
            writer,
            parts,
        })
    }
}

// The final pointer of a truth value, which is itself. That of a node isn't known at first, and is the truth value 0.
fn final_from_start(root: Ptr) -> Ptr
    ensures { IsTerminal root → result ≡ root }
{
    match root.value() {
        Some(value) => Ptr::terminal(value),
        None => Ptr::terminal(false),
    }
}
