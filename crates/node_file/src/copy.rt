//! The copy of a node file, piece by piece: its nodes and its trailer as they stand.
ghost use Rattle.std.specs.Prelude.{◌≡◌, ◌≢◌, ◌+◌, ◌*◌, ◌^◌, ◌<◌, ◌≤◌, [], ◌++◌, IsTrue, OnOk, length, take, drop};
ghost use Rattle.shelf_model.specs.File.{firm_file};
ghost use Rattle.shelf_model.specs.World.{file};
ghost use Rattle.shelf_model.specs.Calls.{Told, longest, most_piece};
ghost use Rattle.shelf_model.specs.Faults.{OnlyFolder};
ghost use Rattle.block_stream.specs.Writes.{Wrote};
ghost use Rattle.rec_words.specs.Words.{node_size};
ghost use Rattle.node_file.specs.Changes.{Changed};

use rec_words::NODE_SIZE;
use shelf_model::{Failed, FileNo, PIECE, Shelf};

/// How many pieces of 2,048 bytes the file of a diagram of so many nodes has.
pub fn node_pieces(count: u64) -> u64
    requires few { count < 2 ^ 40 }
    ensures enough { (count + 1) * node_size ≤ result * most_piece }
    ensures no_more { result * most_piece < (count + 1) * node_size + most_piece }
{
    ((count + 1) * NODE_SIZE).div_ceil(PIECE as u64)
}

/// Makes a file that of the first pieces of another one, 2,048 bytes each: of all of it where it has no more.
/// It stands there whatever a stop leaves.
pub fn copy_file<S: Shelf>(
    from: FileNo,
    to: FileNo,
    pieces: u64,
    shelf: &mut S,
) -> Result<(), Failed>
    requires apart { from ≢ to }
    requires few { pieces * most_piece ≤ longest }
    ensures made { OnOk result (IsTrue (S.tells shelf.new) → file (S.world shelf.new) to
        ≡ firm_file (take (pieces * most_piece) (file (S.world shelf.old) from).bytes)) }
    ensures content { Told S.tells shelf.old shelf.new
        (Changed (2 * pieces + 2) to (S.world shelf.old) (S.world shelf.new)) }
    ensures faults { OnlyFolder (S.faults shelf.old) (S.faults shelf.new) result }
{
    shelf.cut(to, 0)?;
    copy_pieces(from, to, pieces, shelf)?;
    shelf.sync(to)
}

// Puts the first pieces of a file into an empty one.
fn copy_pieces<S: Shelf>(from: FileNo, to: FileNo, pieces: u64, shelf: &mut S) -> Result<(), Failed>
    requires apart { from ≢ to }
    requires few { pieces * most_piece ≤ longest }
    requires empty { IsTrue (S.tells shelf.old) → (file (S.world shelf.old) to).bytes ≡ [] }
    ensures made { OnOk result (IsTrue (S.tells shelf.new) → (file (S.world shelf.new) to).bytes
        ≡ take (pieces * most_piece) (file (S.world shelf.old) from).bytes) }
    ensures content { Told S.tells shelf.old shelf.new
        (Changed (2 * pieces) to (S.world shelf.old) (S.world shelf.new)) }
    ensures faults { OnlyFolder (S.faults shelf.old) (S.faults shelf.new) result }
{
    for piece in 0..pieces {
        copy_piece(from, to, piece * PIECE as u64, shelf)?;
    }
    Ok(())
}

/// Puts the piece of a file from a place on behind what stands in another one, which ends at that place. Behind the
/// file's end there is none.
pub fn copy_piece<S: Shelf>(from: FileNo, to: FileNo, at: u64, shelf: &mut S) -> Result<(), Failed>
    requires apart { from ≢ to }
    requires at_end { IsTrue (S.tells shelf.old) → at < length (file (S.world shelf.old) from).bytes →
        length (file (S.world shelf.old) to).bytes ≡ at }
    ensures put { OnOk result (IsTrue (S.tells shelf.new) → (file (S.world shelf.new) to).bytes
        ≡ (file (S.world shelf.old) to).bytes ++ take most_piece (drop at (file (S.world shelf.old) from).bytes)) }
    ensures content { Told S.tells shelf.old shelf.new
        (Wrote 2 to (S.world shelf.old) (S.world shelf.new)) }
    ensures faults { OnlyFolder (S.faults shelf.old) (S.faults shelf.new) result }
{
    let mut piece = [0; PIECE];
    let len = shelf.read_at(from, at, &mut piece)?;
    if len == 0 {
        return Ok(());
    }
    shelf.append(to, at, &piece[..len])
}
