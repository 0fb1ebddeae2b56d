//! The reading of a node file within a turn.
ghost use Rattle.std.specs.Prelude.{IsTrue};
ghost use Rattle.node_reading.specs.Reading.{IsBegun, IsReading, GivesNode};

use node_file::NodeReader;
use rec_words::Node;
use shelf_model::{Shelf, SortFault};

/// The next node of a file, from the root on.
pub fn next_node<'r, S: Shelf>(
    nodes: &mut NodeReader<'r>,
    shelf: &mut S,
) -> Result<Option<Node>, SortFault>
    requires begun { IsBegun nodes.old }
    requires reads { IsTrue (S.tells shelf.old) → IsReading nodes.old (S.world shelf.old) }
    ensures gives { GivesNode S.tells S.world S.faults shelf.old shelf.new nodes.old nodes.new result }
{
    Ok(nodes.next(shelf)?)
}
