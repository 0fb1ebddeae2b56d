//! The file of a constant.
ghost use Rattle.std.specs.Prelude.{◌≡◌, ◌≤◌, IsTrue, OnOk, IfErr, length};
ghost use Rattle.canon_file.specs.Constants.{const_table};
ghost use Rattle.shelf_model.specs.Calls.{Told};
ghost use Rattle.shelf_model.specs.Faults.{OnlyShelf};
ghost use Rattle.node_file.specs.Changes.{Changed};
ghost use Rattle.node_file.specs.Canonical.{IsMade};

use node_file::NodeWriter;
use rec_words::{Ptr, Rec};
use shelf_model::{FileNo, Shelf, StreamFault};

/// Makes the node file of a constant of `n` variables.
pub fn make_constant<S: Shelf>(
    value: bool,
    n: u32,
    to: FileNo,
    window: &mut [Rec],
    shelf: &mut S,
) -> Result<(), StreamFault>
    requires variables { n ≤ 65535 }
    requires window { 8 ≤ length window.old }
    ensures made { OnOk result (IsTrue (S.tells shelf.new) →
        IsMade n (const_table n value) to 0 (S.world shelf.new)) }
    ensures cause { IfErr result (λ e. e ≡ StreamFault.Shelf) }
    ensures content { Told S.tells shelf.old shelf.new
        (Changed 4 to (S.world shelf.old) (S.world shelf.new)) }
    ensures faults { OnlyShelf (S.faults shelf.old) (S.faults shelf.new) result }
{
    let writer = NodeWriter::start(to, n, window, shelf)?;
    writer.finish(Ptr::terminal(value), shelf)?;
    Ok(())
}
