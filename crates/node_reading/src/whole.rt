//! Whether a file is one of nodes, from its first one to its last.
ghost use Rattle.std.specs.Prelude.{◌≡◌, ◌≢◌, ◌≤◌, IsTrue, OnOk, IfErr, length};
ghost use Rattle.shelf_model.specs.Calls.{Told};
ghost use Rattle.shelf_model.specs.Moments.{Ran, Stays};
ghost use Rattle.shelf_model.specs.World.{file, now};
ghost use Rattle.run_tiers.specs.Faults.{OnlySortShelf};
ghost use Rattle.node_reading.specs.Missing.{IsWhole, IsWholeFault};

use crate::reading::next_node;
use node_file::NodeReader;
use rec_words::Rec;
use shelf_model::{FileNo, Shelf, SortFault};

/// Reads all nodes of a file from the root on, and tells whether it is one of `n` variables whose nodes stand in order.
pub fn read_whole<S: Shelf>(
    f: FileNo,
    n: u32,
    window: &mut [Rec],
    shelf: &mut S,
) -> Result<(), SortFault>
    requires enough { 8 ≤ length window.old }
    ensures whole { OnOk result (IsTrue (S.tells shelf.new) → IsWhole n (file (S.world shelf.old) f).bytes) }
    ensures damaged { IfErr result (λ e. IsTrue (S.tells shelf.new) → IsWholeFault n f (S.world shelf.old) e) }
    ensures kind { IfErr result (λ e. e ≢ SortFault.RunsSpent) }
    ensures content { Told S.tells shelf.old shelf.new
        (Ran (Stays (now (S.world shelf.old))) (S.world shelf.old) (S.world shelf.new)) }
    ensures faults { OnlySortShelf (S.faults shelf.old) (S.faults shelf.new) result }
{
    let mut nodes = NodeReader::start(f, n, window, shelf)?;
    'read: while nodes.place() > 0 {
        next_node(&mut nodes, shelf)?;
    }
    Ok(())
}
