//! All levels of a diagram, each of which is written once it is made.
ghost use Rattle.std.specs.Prelude.{◌≡◌, ℕ, suc, ◌+◌, ◌-◌, ◌*◌, ◌^◌, ◌<◌, ◌≤◌, ◌++◌, Bool, List, length, IsTrue, OnOk, IfOk, IfErr, IfSome};
ghost use Rattle.rec_words.specs.Words.{deepest_level};
ghost use Rattle.shelf_model.specs.World.{file};
ghost use Rattle.shelf_model.specs.File.{firm_file};
ghost use Rattle.shelf_model.specs.Calls.{Told};
ghost use Rattle.shelf_model.specs.Faults.{OnlyShelf};
ghost use Rattle.block_stream.specs.Writes.{Wrote, InStep, SameFile, count_of};
ghost use Rattle.canon_file.specs.Canon.{numbered, canon_nodes, canon_bytes};
ghost use Rattle.arc_file.specs.declared.arc.Arc.{Arc};
ghost use Rattle.arc_diagrams.specs.Arcs.{IsComplete};
ghost use Rattle.arc_diagrams.specs.Laws.{IsDiagramOf};
ghost use Rattle.arc_diagrams.specs.Reduction.{final_rows};
ghost use Rattle.node_file.specs.Changes.{Changed};
ghost use Rattle.node_file.specs.Nodes.{node_records, held_nodes};
ghost use Rattle.node_file.specs.Writers.{Holds, filling_of, written_of};
ghost use Rattle.room_reduction.specs.Sources.{AreSources};
ghost use Rattle.room_reduction.specs.Index.{sources_of};
ghost use Rattle.room_reduction.specs.Levels.{IsDone, IsCounted, nodes_down_to};

use crate::index::{Index, WINDOW};
use crate::level::{Done, nodes_of_level};
use crate::rows::became;
use node_file::NodeWriter;
use rec_words::{Ptr, Rec};
use shelf_model::{FileNo, Shelf, StreamFault};

/// Makes the node file of the diagram whose sources stand in the room, so many, and answers how many nodes it has. None
/// is answered where they aren't those of a diagram, and where a level has more sources than there is room for rows
/// behind a window; what the file holds then isn't said.
pub(crate) fn write_sources<S: Shelf>(
    n: u32,
    root: Ptr,
    sources: &mut [Rec],
    index: Index,
    room: &mut [Rec],
    out: FileNo,
    shelf: &mut S,
) -> Result<Option<u64>, StreamFault>
    requires variables { n ≤ 65535 }
    requires many { index.total ≤ 4 * length sources.old }
    requires few { index.total ≤ 2 ^ 17 }
    requires window { 128 ≤ length room.old }
    ensures made { IfOk result (λ done. IsTrue (S.tells shelf.new) → (arcs : List Arc) → (t : List Bool) →
        length arcs ≤ 2 ^ 47 → IsDiagramOf n root arcs t → AreSources n root arcs (sources_of index.entry sources.old) →
        IfSome done (λ count.
        (file (S.world shelf.new) out ≡ firm_file (canon_bytes n t)) × (count ≡ length (canon_nodes n t)))) }
    ensures cause { IfErr result (λ e. e ≡ StreamFault.Shelf) }
    ensures content { Told S.tells shelf.old shelf.new
        (Changed (index.entry.total + 6) out (S.world shelf.old) (S.world shelf.new)) }
    ensures faults { OnlyShelf (S.faults shelf.old) (S.faults shelf.new) result }
{
    let (window, rows) = room.split_at_mut(WINDOW);
    let mut writer = NodeWriter::start(out, n, window, shelf)?;
    let made = write_levels(n, sources, index, rows, &mut writer, shelf)?;
    let Some(count) = made else {
        return Ok(None);
    };
    let Some(word) = became(sources, index, 0, root.word()) else {
        return Ok(None);
    };
    let Some(end) = Ptr::from_word(word) else {
        return Ok(None);
    };
    writer.finish(end, shelf)?;
    Ok(Some(count as u64))
}

// Makes and writes the nodes of all levels, the deepest first, and answers how many there are. Each source says then
// what it became.
fn write_levels<S: Shelf>(
    n: u32,
    sources: &mut [Rec],
    index: Index,
    rows: &mut [Rec],
    writer: &mut NodeWriter,
    shelf: &mut S,
) -> Result<Option<usize>, StreamFault>
    requires variables { n ≤ 65535 }
    requires many { index.total ≤ 4 * length sources.old }
    requires few { index.total ≤ 2 ^ 17 }
    requires in_step { IsTrue (S.tells shelf.old) → InStep (filling_of writer.old) (S.world shelf.old) }
    ensures within { IfOk result (λ found. IfSome found (λ count. count ≤ index.entry.total)) }
    ensures count { IfOk result (λ found. IfSome found (λ count.
        count_of (filling_of writer.new) ≡ count_of (filling_of writer.old) + count)) }
    ensures same { SameFile (filling_of writer.old) (filling_of writer.new) }
    ensures variables { writer.new.n ≡ writer.old.n }
    ensures in_step { OnOk result (IsTrue (S.tells shelf.new) → InStep (filling_of writer.new) (S.world shelf.new)) }
    ensures done { IfOk result (λ found. IfSome found (λ count. (root : ℕ) (arcs : List Arc) → IsComplete n root arcs →
        AreSources n root arcs (sources_of index.entry sources.old) →
        IsCounted n root arcs 0 0 count (sources_of index.entry sources.new))) }
    ensures bytes { IfOk result (λ found. IfSome found (λ count. IsTrue (S.tells shelf.new) →
        (root : ℕ) (arcs : List Arc) → IsComplete n root arcs →
        AreSources n root arcs (sources_of index.entry sources.old) → Holds writer.new (S.world shelf.new)
        (written_of writer.old (S.world shelf.old) ++ held_nodes (nodes_down_to 0 n arcs)))) }
    ensures cause { IfErr result (λ e. e ≡ StreamFault.Shelf) }
    ensures content { Told S.tells shelf.old shelf.new
        (Wrote index.entry.total (filling_of writer.old).file (S.world shelf.old) (S.world shelf.new)) }
    ensures faults { OnlyShelf (S.faults shelf.old) (S.faults shelf.new) result }
{
    let mut done = Done {
        from: index.total,
        count: 0,
    };
    for deeper in 0..n {
        let level = (n - 1 - deeper) as u16;
        let next = write_level(level, sources, index, rows, done, writer, shelf)?;
        let Some(next) = next else {
            return Ok(None);
        };
        done = next;
    }
    if done.from > 0 {
        return Ok(None);
    }
    Ok(Some(done.count))
}

// Makes and writes the nodes of a level, where the deeper ones are done.
fn write_level<S: Shelf>(
    level: u16,
    sources: &mut [Rec],
    index: Index,
    rows: &mut [Rec],
    done: Done,
    writer: &mut NodeWriter,
    shelf: &mut S,
) -> Result<Option<Done>, StreamFault>
    requires level { level ≤ deepest_level }
    requires few { index.total ≤ 2 ^ 17 }
    requires many { index.total ≤ 4 * length sources.old }
    requires within { done.from + done.count ≤ index.total }
    requires in_step { IsTrue (S.tells shelf.old) → InStep (filling_of writer.old) (S.world shelf.old) }
    ensures within { IfOk result (λ found. IfSome found (λ next. (done.count ≤ next.count) ×
        (next.from + next.count ≤ index.entry.total))) }
    ensures count { IfOk result (λ found. IfSome found (λ next.
        count_of (filling_of writer.new) + done.count ≡ count_of (filling_of writer.old) + next.count)) }
    ensures same { SameFile (filling_of writer.old) (filling_of writer.new) }
    ensures variables { writer.new.n ≡ writer.old.n }
    ensures in_step { OnOk result (IsTrue (S.tells shelf.new) → InStep (filling_of writer.new) (S.world shelf.new)) }
    ensures done { IfOk result (λ found. IfSome found (λ next. (n root : ℕ) (arcs : List Arc) → n ≤ 65535 → level < n →
        IsComplete n root arcs →
        IsCounted n root arcs (suc level) done.from done.count (sources_of index.entry sources.old) →
        IsCounted n root arcs level next.from next.count (sources_of index.entry sources.new))) }
    ensures bytes { IfOk result (λ found. IfSome found (λ next. IsTrue (S.tells shelf.new) →
        (n root : ℕ) (arcs : List Arc) → n ≤ 65535 → level < n → IsComplete n root arcs →
        IsDone n root arcs (suc level) done.from (sources_of index.entry sources.old) →
        Holds writer.new (S.world shelf.new) (written_of writer.old (S.world shelf.old)
        ++ held_nodes (node_records (numbered level 0 (final_rows n arcs level)))))) }
    ensures cause { IfErr result (λ e. e ≡ StreamFault.Shelf) }
    ensures content { Told S.tells shelf.old shelf.new
        (Wrote done.from (filling_of writer.old).file (S.world shelf.old) (S.world shelf.new)) }
    ensures paid { IfOk result (λ found. IfSome found (λ next. Told S.tells shelf.old shelf.new
        (Wrote (next.count - done.count) (filling_of writer.old).file (S.world shelf.old) (S.world shelf.new)))) }
    ensures faults { OnlyShelf (S.faults shelf.old) (S.faults shelf.new) result }
{
    let Some(made) = nodes_of_level(level, sources, index, rows, done.from) else {
        return Ok(None);
    };
    writer.put_all(&rows[..made.count], shelf)?;
    Ok(Some(Done {
        from: made.from,
        count: done.count + made.count,
    }))
}
