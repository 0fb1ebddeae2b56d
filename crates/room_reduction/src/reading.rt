//! The reading of a file's nodes into packed records.
ghost use Rattle.std.specs.Prelude.{◌≡◌, ℕ, ◌+◌, ◌*◌, ◌<◌, ◌≤◌, min, List, IsTrue, IfOk, length};
ghost use Rattle.shelf_model.specs.World.{file};
ghost use Rattle.shelf_model.specs.Calls.{Told};
ghost use Rattle.shelf_model.specs.Faults.{OnlyFolder};
ghost use Rattle.rec_words.specs.declared.rec.Rec.{Rec};
ghost use Rattle.run_files.specs.Items.{record_at};
ghost use Rattle.block_stream.specs.Reads.{Looked};
ghost use Rattle.node_file.specs.Nodes.{piece_nodes, records_in};
ghost use Rattle.packed_records.specs.Packed.{packed};
ghost use Rattle.room_reduction.specs.Records.{word};
ghost use Rattle.room_reduction.specs.Reading.{HoldNodes};

use node_file::{PIECE_NODES, load_nodes};
use packed_records::put_record;
use rec_words::Rec;
use shelf_model::{Failed, FileNo, Shelf};

/// Reads the first so many records of a file into packed ones, through a window, and answers whether there are as many
/// and each word has a number.
pub fn read_nodes<S: Shelf>(
    f: FileNo,
    count: usize,
    nodes: &mut [Rec],
    window: &mut [Rec],
    shelf: &mut S,
) -> Result<bool, Failed>
    requires few { count < 65536 }
    requires room { count ≤ 4 * length nodes.old }
    requires window { min piece_nodes count ≤ length window.old }
    ensures read { IfOk result (λ whole. IsTrue whole → IsTrue (S.tells shelf.new) →
        HoldNodes count (records_in count (file (S.world shelf.old) f).bytes) (packed nodes.new)) }
    ensures content { Told S.tells shelf.old shelf.new (Looked count (S.world shelf.old) (S.world shelf.new)) }
    ensures faults { OnlyFolder (S.faults shelf.old) (S.faults shelf.new) result }
{
    let mut done = 0;
    'pieces: while done < count {
        let wanted = PIECE_NODES.min(count - done);
        let read = load_nodes(f, done as u64, wanted, window, shelf)?;
        if read < wanted || !pack_piece(&window[..wanted], nodes, done) {
            return Ok(false);
        }
        done += wanted;
    }
    Ok(true)
}

// Packs records behind so many others, where each word has a number.
fn pack_piece(records: &[Rec], nodes: &mut [Rec], done: usize) -> bool
    requires room { done + length records.now ≤ 4 * length nodes.old }
    ensures held { IsTrue result → (these : List Rec) → HoldNodes done these (packed nodes.old) →
        ((k c : ℕ) → k < length records.now → c < 3 →
        word c (record_at records.now k) ≡ word c (record_at these (done + k))) →
        HoldNodes (done + length records.now) these (packed nodes.new) }
{
    for place in 0..records.len() {
        let node = records[place];
        if !put_record(nodes, done + place, [node.w[0], node.w[1], node.w[2], 0]) {
            return false;
        }
    }
    true
}
