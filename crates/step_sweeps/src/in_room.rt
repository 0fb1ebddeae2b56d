//! The reduction of a step's arcs in the room, where they are few.
ghost use Rattle.std.specs.Prelude.{◌≡◌, ◌+◌, ◌*◌, ◌/◌, ◌^◌, ◌<◌, ◌≤◌, min, Bool, IsTrue, List, IfOk, IfErr, IfSome};
ghost use Rattle.std.specs.Prelude.{length};
ghost use Rattle.shelf_model.specs.Calls.{Told};
ghost use Rattle.shelf_model.specs.Faults.{OnlyShelf};
ghost use Rattle.node_file.specs.Changes.{Changed};
ghost use Rattle.node_file.specs.Canonical.{IsMade};
ghost use Rattle.top_down_sweep.specs.Tasks.{AreArcFiles};
ghost use Rattle.step_sweeps.specs.Made.{HasArcFiles, node_file, arc_count};

use arc_diagrams::laws::reducing_gives_the_canonical_form;
use arc_file::Unreduced;
use file_numbers::NODES_PART;
use rec_words::Rec;
use room_reduction::reduce_in_room;
use shelf_model::{FileNo, Shelf, StreamFault};

/// What a reduction in the room made: how many nodes the diagram has, and the turns that it took.
#[derive(Clone, Copy)]
pub(crate) struct Reduced {
    pub(crate) nodes: u64,
    pub(crate) turns: u64,
}

/// Reduces the arcs of a diagram of `n` variables to the step's node file in the room, with a turn for each two sources
/// and one, which are fewer than the room has records and a checkpoint's interval has turns; or leaves them to a sweep.
pub(crate) fn reduce_few<S: Shelf>(
    n: u32,
    arcs: &Unreduced,
    number: u32,
    room: &mut [Rec],
    shelf: &mut S,
) -> Result<Option<Reduced>, StreamFault>
    requires variables { n ≤ 65535 }
    requires room { 16384 ≤ length room.old }
    requires files { HasArcFiles number arcs.now }
    requires few { arc_count arcs.now + 8 ≤ 2 ^ 18 }
    ensures turns { IfOk result (λ done. IfSome done (λ r. r.turns ≡ arc_count arcs.now / 4 + 1)) }
    ensures short { IfOk result (λ done. IfSome done (λ r. r.turns < min (length room.old) 65536)) }
    ensures reduced { IfOk result (λ done. IfSome done (λ r. IsTrue (S.tells shelf.new) → (table : List Bool) →
        AreArcFiles n table arcs.now (S.world shelf.old) →
        IsMade n table (node_file number) r.nodes (S.world shelf.new))) }
    ensures cause { IfErr result (λ e. e ≡ StreamFault.Shelf) }
    ensures content { Told S.tells shelf.old shelf.new
        (Changed (2 * arc_count arcs.now + 8) (node_file number) (S.world shelf.old) (S.world shelf.new)) }
    ensures faults { OnlyShelf (S.faults shelf.old) (S.faults shelf.new) result }
{
    // A diagram of so few arcs has a canonical form.
    reducing_gives_the_canonical_form();
    let turns = (arcs.inner_count + arcs.ends_count) / 4 + 1;
    // No more sources than so fit into the room beside a window.
    if turns >= room.len() as u64 {
        return Ok(None);
    }
    let out = FileNo {
        step: number,
        part: NODES_PART,
    };
    let Some(nodes) = reduce_in_room(n, arcs, out, room, shelf)? else {
        return Ok(None);
    };
    Ok(Some(Reduced { nodes, turns }))
}
