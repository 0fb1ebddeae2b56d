//! The records of a file's nodes, as they stand.
ghost use Rattle.std.specs.Prelude.{◌≤◌, IsTrue, IfOk, length};
ghost use Rattle.shelf_model.specs.World.{file};
ghost use Rattle.shelf_model.specs.Calls.{Told};
ghost use Rattle.shelf_model.specs.Faults.{OnlyFolder};
ghost use Rattle.block_stream.specs.Records.{most_words};
ghost use Rattle.block_stream.specs.Reads.{Looked};
ghost use Rattle.node_file.specs.Nodes.{piece_nodes, DidLoadNodes};

use block_stream::load;
use rec_words::{Node, Rec, Spill};
use shelf_model::{Failed, FileNo, Shelf};

/// How many nodes one call of the folder moves at most.
pub const PIECE_NODES: usize = 85;

/// Reads the records of nodes from a place on into the front of a window, with one call, and answers how many whole
/// ones there are. What they hold isn't looked at.
pub fn load_nodes<S: Shelf>(
    f: FileNo,
    place: u64,
    wanted: usize,
    window: &mut [Rec],
    shelf: &mut S,
) -> Result<usize, Failed>
    requires place { place ≤ most_words }
    requires some { 1 ≤ wanted }
    requires piece { wanted ≤ piece_nodes }
    requires room { wanted ≤ length window.old }
    ensures within { IfOk result (λ n. n ≤ wanted) }
    ensures loaded { IfOk result (λ n. IsTrue (S.tells shelf.new) →
        DidLoadNodes place wanted n window.new (file (S.world shelf.old) f).bytes) }
    ensures content { Told S.tells shelf.old shelf.new (Looked 1 (S.world shelf.old) (S.world shelf.new)) }
    ensures faults { OnlyFolder (S.faults shelf.old) (S.faults shelf.new) result }
{
    load(f, Node::WORDS, place, wanted, window, shelf)
}
