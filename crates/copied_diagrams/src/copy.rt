//! The copy of an operand's diagram.
ghost use Rattle.std.specs.Prelude.{◌≢◌, ℕ, ◌+◌, ◌*◌, ◌<◌, Bool, List, IsTrue, OnOk};
ghost use Rattle.shelf_model.specs.Calls.{Told};
ghost use Rattle.shelf_model.specs.Faults.{OnlyFolder};
ghost use Rattle.node_file.specs.Canonical.{IsMade};
ghost use Rattle.node_file.specs.Changes.{Changed};
ghost use Rattle.copied_diagrams.specs.Pairs.{IsSourceOf};

use crate::Source;
use node_file::{copy_file, node_pieces};
use shelf_model::{Failed, FileNo, Shelf};

/// Makes the node file of a diagram a copy of another one, which has that trailer.
pub fn copy_diagram<S: Shelf>(source: Source, to: FileNo, shelf: &mut S) -> Result<(), Failed>
    requires apart { source.from ≢ to }
    requires few { source.trailer.count < 65536 }
    ensures made { OnOk result (IsTrue (S.tells shelf.new) → (n : ℕ) → (table : List Bool) → (most : ℕ) →
        IsSourceOf n table most source (S.world shelf.old) →
        IsMade n table to source.trailer.count (S.world shelf.new)) }
    ensures content { Told S.tells shelf.old shelf.new
        (Changed (2 * source.trailer.count + 4) to (S.world shelf.old) (S.world shelf.new)) }
    ensures faults { OnlyFolder (S.faults shelf.old) (S.faults shelf.new) result }
{
    let pieces = node_pieces(source.trailer.count);
    copy_file(source.from, to, pieces, shelf)
}
