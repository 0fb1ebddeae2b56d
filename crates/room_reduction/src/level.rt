//! One level of a diagram.
ghost use Rattle.std.specs.Prelude.{◌≡◌, ◌≢◌, ℕ, suc, ◌+◌, ◌-◌, ◌*◌, ◌<◌, ◌≤◌, ◌^◌, IfSome, List, length, take};
ghost use Rattle.rec_words.specs.Words.{deepest_level, level_of};
ghost use Rattle.run_files.specs.Items.{record_at};
ghost use Rattle.canon_file.specs.Canon.{numbered};
ghost use Rattle.arc_file.specs.declared.arc.Arc.{Arc};
ghost use Rattle.arc_diagrams.specs.Arcs.{IsComplete};
ghost use Rattle.arc_diagrams.specs.Reduction.{final_pointer, final_rows};
ghost use Rattle.node_file.specs.Nodes.{node_records};
ghost use Rattle.room_reduction.specs.Records.{uid_in};
ghost use Rattle.packed_records.specs.Packed.{packed};
ghost use Rattle.room_reduction.specs.Sources.{sources_in};
ghost use Rattle.room_reduction.specs.Index.{sources_of};
ghost use Rattle.room_reduction.specs.Levels.{KeepsSources, AreKnown, IsLevel, IsDone, IsPacked};

use crate::Index;
use crate::nodes::pack_nodes;
use crate::numbers::number_rows;
use crate::rows::{are_rising, collect_rows};
use crate::sources::{UID, source_word};
use rec_words::{LEVEL_NUMBERS, Rec};

/// Where the sources that are done begin, and how many nodes they have.
#[derive(Clone, Copy)]
pub(crate) struct Done {
    pub(crate) from: usize,
    pub(crate) count: usize,
}

/// Where the sources of a level begin, and how many nodes it has.
#[derive(Clone, Copy)]
pub(crate) struct Made {
    pub(crate) from: usize,
    pub(crate) count: usize,
}

/// Goes on with the sources of a level, so many in all, where the deeper ones are done: puts its nodes behind theirs,
/// and says to each source what it became. The rows are room for those of the level.
pub(crate) fn reduce_level(
    level: u16,
    sources: &mut [Rec],
    index: Index,
    nodes: &mut [Rec],
    rows: &mut [Rec],
    done: Done,
) -> Option<Done>
    requires level { level ≤ deepest_level }
    requires few { index.total ≤ 2 ^ 17 }
    requires many { index.total ≤ 4 * length sources.old }
    requires within { done.from + done.count ≤ index.total }
    ensures within { IfSome result (λ next. next.from + next.count ≤ index.entry.total) }
    ensures room { IfSome result (λ next. next.count ≤ 4 * length nodes.new) }
    ensures done { IfSome result (λ next. (n root : ℕ) (arcs : List Arc) → n ≤ 65535 → level < n →
        IsComplete n root arcs →
        IsPacked n root arcs (suc level) done.from done.count (sources_of index.entry sources.old) (packed nodes.old) →
        IsPacked n root arcs level next.from next.count (sources_of index.entry sources.new) (packed nodes.new)) }
{
    let made = nodes_of_level(level, sources, index, rows, done.from)?;
    if !pack_nodes(&rows[..made.count], nodes, done.count) {
        return None;
    }
    Some(Done {
        from: made.from,
        count: done.count + made.count,
    })
}

/// Makes the nodes of a level, whose sources end where those of the deeper ones begin, in front of the rows, which are
/// room for those of the level. Each source says then what it became.
pub(crate) fn nodes_of_level(
    level: u16,
    sources: &mut [Rec],
    index: Index,
    rows: &mut [Rec],
    end: usize,
) -> Option<Made>
    requires level { level ≤ deepest_level }
    requires few { index.total ≤ 2 ^ 17 }
    requires many { index.total ≤ 4 * length sources.old }
    requires within { end ≤ index.total }
    ensures within { IfSome result (λ made. made.from + made.count ≤ end) }
    ensures room { IfSome result (λ made. made.count ≤ length rows.new) }
    ensures done { IfSome result (λ made. (n root : ℕ) (arcs : List Arc) → n ≤ 65535 → level < n →
        IsComplete n root arcs →
        IsDone n root arcs (suc level) end (sources_of index.entry sources.old) →
        IsDone n root arcs level made.from (sources_of index.entry sources.new)) }
    ensures nodes { IfSome result (λ made. (n root : ℕ) (arcs : List Arc) → n ≤ 65535 → level < n →
        IsComplete n root arcs →
        IsDone n root arcs (suc level) end (sources_of index.entry sources.old) →
        take made.count rows.new ≡ node_records (numbered level 0 (final_rows n arcs level))) }
{
    let from = level_start(sources, index.total, end, u64::from(level));
    if end - from > rows.len() {
        return None;
    }
    let own = &mut rows[..end - from];
    let count = reduce_sources_of(level, sources, index, from, own)?;
    Some(Made { from, count })
}

// Where the sources of a level begin that end at a place.
fn level_start(sources: &[Rec], total: usize, end: usize, level: u64) -> usize
    requires many { total ≤ 4 * length sources.now }
    requires within { end ≤ total }
    ensures order { result ≤ end }
    ensures own { (k : ℕ) → result ≤ k → k < end →
        level_of (uid_in (record_at (sources_in total sources.now) k)) ≡ level }
    ensures other { 0 < result →
        level_of (uid_in (record_at (sources_in total sources.now) (result - 1))) ≢ level }
{
    let mut from = end;
    'sources: while from > 0 {
        if source_word(sources, total, from - 1, UID) / LEVEL_NUMBERS != level {
            return from;
        }
        from -= 1;
    }
    0
}

// Makes the nodes of a level in the place of its rows, says to each of its sources what it became, and answers how many
// nodes there are.
fn reduce_sources_of(
    level: u16,
    sources: &mut [Rec],
    index: Index,
    from: usize,
    rows: &mut [Rec],
) -> Option<usize>
    requires level { level ≤ deepest_level }
    requires few { length rows.old ≤ 2 ^ 17 }
    requires many { index.total ≤ 4 * length sources.old }
    requires within { from + length rows.old ≤ index.total }
    ensures within { IfSome result (λ count. count ≤ length rows.old) }
    ensures same { KeepsSources (sources_of index.entry sources.old) (sources_of index.entry sources.new) }
    ensures nodes { IfSome result (λ count. (n root : ℕ) (arcs : List Arc) →
        IsLevel n root arcs level from (from + length rows.old) (sources_of index.entry sources.old) →
        take count rows.new ≡ node_records (numbered level 0 (final_rows n arcs level))) }
    ensures known { IfSome result (λ count. (n root : ℕ) (arcs : List Arc) →
        IsLevel n root arcs level from (from + length rows.old) (sources_of index.entry sources.old) →
        AreKnown (final_pointer n arcs) from (sources_of index.entry sources.new)) }
{
    let end = from + rows.len();
    if !collect_rows(sources, index, from, end, rows) {
        return None;
    }
    rows.sort_unstable();
    if !are_rising(rows) {
        return None;
    }
    number_rows(level, rows, sources, index.total)
}
