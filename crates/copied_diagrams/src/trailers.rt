//! The trailer of an operand's file.
ghost use Rattle.std.specs.Prelude.{◌≡◌, ◌≤◌, Bool, List, IsTrue, IfOk, IfErr, length};
ghost use Rattle.shelf_model.specs.Calls.{Told};
ghost use Rattle.shelf_model.specs.Faults.{OnlyShelf};
ghost use Rattle.block_stream.specs.Reads.{Looked};
ghost use Rattle.node_file.specs.Canonical.{IsCanonicalFile};
ghost use Rattle.copied_diagrams.specs.Pairs.{IsTrailerOf, IsOperandDamage};

use node_file::laws::canonical_files_are_read;
use node_file::{NodeReader, Trailer};
use rec_words::Rec;
use shelf_model::{FileNo, Shelf, StreamFault};

/// Reads the trailer of an operand's file. The room is used for it.
pub(crate) fn read_trailer<S: Shelf>(
    f: FileNo,
    n: u32,
    room: &mut [Rec],
    shelf: &mut S,
) -> Result<Trailer, StreamFault>
    requires room { 8 ≤ length room.old }
    requires variables { n ≤ 65535 }
    ensures variables { IfOk result (λ r. r.n ≡ n) }
    ensures of { IfOk result (λ r. IsTrue (S.tells shelf.new) → (t : List Bool) →
        IsCanonicalFile n t f (S.world shelf.old) → IsTrailerOf n t r) }
    ensures sound { IfErr result (λ e. IsTrue (S.tells shelf.new) → (t : List Bool) →
        IsCanonicalFile n t f (S.world shelf.old) → e ≡ StreamFault.Shelf) }
    ensures damaged { IfErr result (λ e. IsTrue (S.tells shelf.new) → IsOperandDamage n f (S.world shelf.old) e) }
    ensures content { Told S.tells shelf.old shelf.new (Looked 2 (S.world shelf.old) (S.world shelf.new)) }
    ensures faults { OnlyShelf (S.faults shelf.old) (S.faults shelf.new) result }
{
    canonical_files_are_read();
    let reader = NodeReader::start(f, n, room, shelf)?;
    Ok(reader.trailer())
}
