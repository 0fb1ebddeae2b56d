//! Two operands with their trailers.
ghost use Rattle.std.specs.Prelude.{◌≡◌, ◌≤◌, Bool, List, IsTrue, IfOk, IfErr, length};
ghost use Rattle.shelf_model.specs.Calls.{Told};
ghost use Rattle.shelf_model.specs.Faults.{OnlyShelf};
ghost use Rattle.block_stream.specs.Reads.{Looked};
ghost use Rattle.copied_diagrams.specs.Pairs.{ArePair, AreTrailersOf, IsOf, IsPairDamage};

use crate::Source;
use crate::trailers::read_trailer;
use rec_words::Rec;
use shelf_model::{FileNo, Shelf, StreamFault};

/// The files of two operands, with their trailers.
#[derive(Clone, Copy, Debug, PartialEq, Eq)]
pub struct Pair {
    pub left: Source,
    pub right: Source,
}

/// Reads the trailers of two diagrams of `n` variables. The room is used for it.
pub fn read_pair<S: Shelf>(
    n: u32,
    left: FileNo,
    right: FileNo,
    room: &mut [Rec],
    shelf: &mut S,
) -> Result<Pair, StreamFault>
    requires variables { n ≤ 65535 }
    requires room { 8 ≤ length room.old }
    ensures operands { IfOk result (λ pair. IsOf n left pair.left × IsOf n right pair.right) }

    // of canonical files
    ensures trailers { IfOk result (λ pair. IsTrue (S.tells shelf.new) → (t u : List Bool) →
        ArePair n left right t u (S.world shelf.old) → AreTrailersOf n t u pair) }
    ensures sound { IfErr result (λ e. IsTrue (S.tells shelf.new) → (t u : List Bool) →
        ArePair n left right t u (S.world shelf.old) → e ≡ StreamFault.Shelf) }

    // whatever the files hold
    ensures damaged { IfErr result (λ e. IsTrue (S.tells shelf.new) →
        IsPairDamage n left right (S.world shelf.old) e) }
    ensures content { Told S.tells shelf.old shelf.new (Looked 4 (S.world shelf.old) (S.world shelf.new)) }
    ensures faults { OnlyShelf (S.faults shelf.old) (S.faults shelf.new) result }
{
    let first = read_trailer(left, n, room, shelf)?;
    let second = read_trailer(right, n, room, shelf)?;
    Ok(Pair {
        left: Source {
            from: left,
            trailer: first,
        },
        right: Source {
            from: right,
            trailer: second,
        },
    })
}
