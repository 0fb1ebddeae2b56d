//! The reduction in the room.
ghost use Rattle.std.specs.Prelude.{◌≡◌, ◌≢◌, ◌+◌, ◌*◌, ◌^◌, ◌≤◌, Bool, List, ◌++◌, length, IsTrue, IfOk, IfErr, IfSome};
ghost use Rattle.shelf_model.specs.World.{file};
ghost use Rattle.shelf_model.specs.File.{firm_file};
ghost use Rattle.shelf_model.specs.Calls.{Told};
ghost use Rattle.shelf_model.specs.Faults.{OnlyShelf};
ghost use Rattle.canon_file.specs.Canon.{canon_nodes, canon_bytes};
ghost use Rattle.arc_file.specs.declared.arc.Arc.{Arc};
ghost use Rattle.arc_file.specs.declared.kind.Kind.TheVariants.{Inner, End};
ghost use Rattle.arc_file.specs.Files.{HasArcs};
ghost use Rattle.arc_diagrams.specs.Laws.{IsDiagramOf};
ghost use Rattle.node_file.specs.Changes.{Changed};

use crate::filling::read_sources;
use crate::index::{Index, WINDOW};
use crate::writing::write_sources;
use arc_file::Unreduced;
use rec_words::Rec;
use shelf_model::{FileNo, Shelf, StreamFault};

/// Up to so many variables, and for each source so many more, the room is used: a level takes time there whether it has
/// sources or not, and none in a sweep.
const VARIABLES: usize = 1_024;

const VARIABLES_A_SOURCE: usize = 32;

/// The widest level of a large diagram has mostly more than one of so many sources. Where its rows would hardly fit no
/// arc is read.
const WIDEST: usize = 4;

/// Makes the node file of the canonical form of a diagram that isn't reduced, and answers how many nodes it has. None
/// is answered where the room has fewer records than that takes: one for each variable, a quarter of one for each
/// source, one for each source of the widest level, and a window; where the variables are far more than the arcs, and
/// where the two files aren't those of a diagram's arcs; what the node file holds then isn't said.
pub fn reduce_in_room<S: Shelf>(
    n: u32,
    made: &Unreduced,
    out: FileNo,
    room: &mut [Rec],
    shelf: &mut S,
) -> Result<Option<u64>, StreamFault>
    requires variables { n ≤ 65535 }
    requires few { made.now.inner_count + made.now.ends_count ≤ 2 ^ 18 }
    requires room { 16384 ≤ length room.old }
    requires apart_inner { out ≢ made.now.inner }
    requires apart_ends { out ≢ made.now.ends }
    ensures made { IfOk result (λ done. IsTrue (S.tells shelf.new) → (inner ends : List Arc) → (t : List Bool) →
        HasArcs Inner inner made.now.inner_count (file (S.world shelf.old) made.now.inner).bytes →
        HasArcs End ends made.now.ends_count (file (S.world shelf.old) made.now.ends).bytes →
        IsDiagramOf n made.now.root (inner ++ ends) t → IfSome done (λ count.
        (file (S.world shelf.new) out ≡ firm_file (canon_bytes n t)) × (count ≡ length (canon_nodes n t)))) }
    ensures cause { IfErr result (λ e. e ≡ StreamFault.Shelf) }
    ensures content { Told S.tells shelf.old shelf.new
        (Changed (2 * (made.now.inner_count + made.now.ends_count) + 8) out (S.world shelf.old) (S.world shelf.new)) }
    ensures faults { OnlyShelf (S.faults shelf.old) (S.faults shelf.new) result }
{
    let most = ((made.inner_count + made.ends_count) / 2) as usize;
    let packed = most / 4 + 1;
    if n as usize > VARIABLES + VARIABLES_A_SOURCE * most
        || n as usize + packed + WINDOW + most / WIDEST > room.len()
    {
        return Ok(None);
    }
    let (firsts, rest) = room.split_at_mut(n as usize);
    let (sources, rest) = rest.split_at_mut(packed);
    let Some(count) = read_sources(n, made, sources, firsts, rest, shelf)? else {
        return Ok(None);
    };
    if count > most {
        return Ok(None);
    }
    let index = Index {
        levels: firsts,
        total: count,
    };
    write_sources(n, made.root, sources, index, rest, out, shelf)
}
