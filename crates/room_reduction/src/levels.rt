//! All levels of a diagram.
ghost use Rattle.std.specs.Prelude.{◌≡◌, ℕ, ◌+◌, ◌*◌, ◌^◌, ◌≤◌, Bool, List, length, IsTrue, IfOk, IfErr, IfSome, IfNone};
ghost use Rattle.shelf_model.specs.World.{file};
ghost use Rattle.shelf_model.specs.File.{firm_file};
ghost use Rattle.shelf_model.specs.Calls.{Told};
ghost use Rattle.shelf_model.specs.Faults.{OnlyShelf};
ghost use Rattle.canon_file.specs.Canon.{canon_nodes, canon_bytes};
ghost use Rattle.arc_file.specs.declared.arc.Arc.{Arc};
ghost use Rattle.arc_diagrams.specs.Arcs.{IsComplete};
ghost use Rattle.arc_diagrams.specs.Laws.{IsDiagramOf};
ghost use Rattle.node_file.specs.Changes.{Changed};
ghost use Rattle.packed_records.specs.Packed.{packed};
ghost use Rattle.room_reduction.specs.Sources.{AreSources};
ghost use Rattle.room_reduction.specs.Index.{sources_of};
ghost use Rattle.room_reduction.specs.Levels.{IsPacked, IsReduced};

use crate::index::{Index, WINDOW};
use crate::level::{Done, reduce_level};
use crate::nodes::write_packed;
use crate::rows::became;
use rec_words::{Ptr, Rec};
use shelf_model::{FileNo, Shelf, StreamFault};

/// How many nodes a diagram has, and its root.
#[derive(Clone, Copy)]
pub(crate) struct Reduced {
    pub(crate) count: usize,
    pub(crate) root: Ptr,
}

/// Makes the node file of the diagram whose sources stand in the room, so many, and answers how many nodes it has. None
/// is answered, and no file is changed, where they aren't those of a diagram, where there is no room for a quarter of a
/// record for each, which the nodes get, and a window of 128, and where a level has more sources than records are left
/// for its rows.
pub fn reduce_sources<S: Shelf>(
    n: u32,
    root: Ptr,
    sources: &mut [Rec],
    index: Index,
    room: &mut [Rec],
    out: FileNo,
    shelf: &mut S,
) -> Result<Option<u64>, StreamFault>
    requires variables { n ≤ 65535 }
    requires many { index.total ≤ 4 * length sources.old }
    requires few { index.total ≤ 2 ^ 17 }
    ensures made { IfOk result (λ done. IsTrue (S.tells shelf.new) → (arcs : List Arc) → (t : List Bool) →
        length arcs ≤ 2 ^ 47 → IsDiagramOf n root arcs t → AreSources n root arcs (sources_of index.entry sources.old) →
        IfSome done (λ count.
        (file (S.world shelf.new) out ≡ firm_file (canon_bytes n t)) × (count ≡ length (canon_nodes n t)))) }
    ensures not_made { IfOk result (λ done. IfNone done (shelf.new ≡ shelf.old)) }
    ensures cause { IfErr result (λ e. e ≡ StreamFault.Shelf) }
    ensures content { Told S.tells shelf.old shelf.new
        (Changed (index.entry.total + 6) out (S.world shelf.old) (S.world shelf.new)) }
    ensures faults { OnlyShelf (S.faults shelf.old) (S.faults shelf.new) result }
{
    let packed = index.total / 4 + 1;
    if packed + WINDOW > room.len() {
        return Ok(None);
    }
    let (nodes, rest) = room.split_at_mut(packed);
    let (window, rows) = rest.split_at_mut(WINDOW);
    let Some(reduced) = reduce_nodes(n, root.word(), sources, index, nodes, rows) else {
        return Ok(None);
    };
    write_packed(out, n, nodes, reduced.count, reduced.root, window, shelf)?;
    Ok(Some(reduced.count as u64))
}

/// Makes the nodes of the diagram whose sources stand in the room, so many, and answers how many there are and what the
/// root became.
pub(crate) fn reduce_nodes(
    n: u32,
    root: u64,
    sources: &mut [Rec],
    index: Index,
    nodes: &mut [Rec],
    rows: &mut [Rec],
) -> Option<Reduced>
    requires variables { n ≤ 65535 }
    requires many { index.total ≤ 4 * length sources.old }
    requires few { index.total ≤ 2 ^ 17 }
    ensures within { IfSome result (λ r. r.count ≤ index.entry.total) }
    ensures room { IfSome result (λ r. r.count ≤ 4 * length nodes.new) }
    ensures made { IfSome result (λ r. (arcs : List Arc) → (t : List Bool) → length arcs ≤ 2 ^ 47 →
        IsDiagramOf n root arcs t → AreSources n root arcs (sources_of index.entry sources.old) →
        IsReduced n t r.root r.count (packed nodes.new)) }
{
    let count = reduce_levels(n, sources, index, nodes, rows)?;
    let word = became(sources, index, 0, root)?;
    let root = Ptr::from_word(word)?;
    Some(Reduced { count, root })
}

// Makes the nodes of all levels, the deepest first, and answers how many there are. Each source says then what it
// became.
fn reduce_levels(
    n: u32,
    sources: &mut [Rec],
    index: Index,
    nodes: &mut [Rec],
    rows: &mut [Rec],
) -> Option<usize>
    requires variables { n ≤ 65535 }
    requires many { index.total ≤ 4 * length sources.old }
    requires few { index.total ≤ 2 ^ 17 }
    ensures within { IfSome result (λ count. count ≤ index.entry.total) }
    ensures room { IfSome result (λ count. count ≤ 4 * length nodes.new) }
    ensures done { IfSome result (λ count. (root : ℕ) (arcs : List Arc) → IsComplete n root arcs →
        AreSources n root arcs (sources_of index.entry sources.old) →
        IsPacked n root arcs 0 0 count (sources_of index.entry sources.new) (packed nodes.new)) }
{
    let mut done = Done {
        from: index.total,
        count: 0,
    };
    for deeper in 0..n {
        done = reduce_level((n - 1 - deeper) as u16, sources, index, nodes, rows, done)?;
    }
    if done.from > 0 {
        return None;
    }
    Some(done.count)
}
