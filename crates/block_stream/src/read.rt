//! One read of records into a window.
ghost use Rattle.std.specs.Prelude.{◌≡◌, ◌+◌, ◌*◌, ◌≤◌, IsTrue, IfOk, length};
ghost use Rattle.shelf_model.specs.World.{file};
ghost use Rattle.shelf_model.specs.Calls.{Told, most_piece};
ghost use Rattle.shelf_model.specs.Faults.{OnlyFolder};
ghost use Rattle.block_stream.specs.Records.{most_words};
ghost use Rattle.block_stream.specs.Reads.{Looked, DidLoad};

use crate::reading::byte_place;
use crate::record::read_records;
use rec_words::Rec;
use shelf_model::{Failed, FileNo, PIECE, Shelf};

/// Reads records from a place on into the front of the window, with one call, and answers how many whole
/// ones there are. What they hold isn't looked at.
pub fn load<S: Shelf>(
    f: FileNo,
    words: usize,
    place: u64,
    wanted: usize,
    window: &mut [Rec],
    shelf: &mut S,
) -> Result<usize, Failed>
    requires words { (1 ≤ words) × (words ≤ 8) }
    requires place { place ≤ most_words }
    requires some { 1 ≤ wanted }
    requires room { wanted ≤ length window.old }
    requires piece { wanted * (8 * words) ≤ most_piece }
    ensures within { IfOk result (λ n. n ≤ wanted) }
    ensures loaded { IfOk result (λ n. IsTrue (S.tells shelf.new) →
        DidLoad words place wanted n window.new (file (S.world shelf.old) f).bytes) }
    ensures content { Told S.tells shelf.old shelf.new (Looked 1 (S.world shelf.old) (S.world shelf.new)) }
    ensures faults { OnlyFolder (S.faults shelf.old) (S.faults shelf.new) result }
{
    let width = 8 * words;
    let mut piece = [0; PIECE];
    let got = shelf.read_at(f, byte_place(place, words), &mut piece[..wanted * width])?;
    let whole = got / width;
    read_records(&piece, words, whole, window);
    Ok(whole)
}
