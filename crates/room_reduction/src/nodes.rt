//! The nodes of a diagram, as packed records in the room.
ghost use Rattle.std.specs.Prelude.{◌≡◌, ◌+◌, ◌*◌, ◌≤◌, ◌++◌, List, IsTrue, OnOk, IfErr, length, take};
ghost use Rattle.rec_words.specs.declared.node.Node.{Node};
ghost use Rattle.shelf_model.specs.File.{firm_file};
ghost use Rattle.shelf_model.specs.World.{file};
ghost use Rattle.shelf_model.specs.Calls.{Told};
ghost use Rattle.shelf_model.specs.Faults.{OnlyShelf};
ghost use Rattle.canon_file.specs.Canon.{trailer_bytes};
ghost use Rattle.block_stream.specs.Writes.{Wrote, InStep, SameFile, count_of};
ghost use Rattle.node_file.specs.Changes.{Changed};
ghost use Rattle.node_file.specs.Writers.{Holds, filling_of, written_of};
ghost use Rattle.node_file.specs.Nodes.{node_records, held_nodes};
ghost use Rattle.packed_records.specs.Packed.{packed};

use node_file::NodeWriter;
use packed_records::{put_record, record_of};
use rec_words::{Ptr, Rec};
use shelf_model::{FileNo, Shelf, StreamFault};

/// Puts nodes behind so many others, where there is room for them.
pub(crate) fn pack_nodes(records: &[Rec], nodes: &mut [Rec], count: usize) -> bool
    ensures within { IsTrue result → count + length records.now ≤ 4 * length nodes.new }
    ensures behind { IsTrue result → (xs : List Node) → records.now ≡ node_records xs →
        take (count + length records.now) (packed nodes.new) ≡ take count (packed nodes.old) ++ records.now }
{
    let room = 4 * nodes.len();
    if count > room || records.len() > room - count {
        return false;
    }
    for place in 0..records.len() {
        let node = records[place];
        if !put_record(nodes, count + place, [node.w[0], node.w[1], node.w[2], 0]) {
            return false;
        }
    }
    true
}

/// Makes a file that of so many nodes and of a trailer with that root. It stands there whatever a stop leaves.
pub(crate) fn write_packed<S: Shelf>(
    f: FileNo,
    n: u32,
    nodes: &[Rec],
    count: usize,
    root: Ptr,
    window: &mut [Rec],
    shelf: &mut S,
) -> Result<(), StreamFault>
    requires within { count ≤ 4 * length nodes.now }
    requires window { 8 ≤ length window.old }
    ensures made { OnOk result (IsTrue (S.tells shelf.new) → file (S.world shelf.new) f
        ≡ firm_file (held_nodes (take count (packed nodes.now)) ++ trailer_bytes root count n)) }
    ensures cause { IfErr result (λ e. e ≡ StreamFault.Shelf) }
    ensures content { Told S.tells shelf.old shelf.new
        (Changed (count + 4) f (S.world shelf.old) (S.world shelf.new)) }
    ensures faults { OnlyShelf (S.faults shelf.old) (S.faults shelf.new) result }
{
    let mut writer = NodeWriter::start(f, n, window, shelf)?;
    put_packed(nodes, count, &mut writer, shelf)?;
    writer.finish(root, shelf)?;
    Ok(())
}

// Puts so many nodes behind one another.
fn put_packed<S: Shelf>(
    nodes: &[Rec],
    count: usize,
    writer: &mut NodeWriter,
    shelf: &mut S,
) -> Result<(), StreamFault>
    requires within { count ≤ 4 * length nodes.now }
    requires in_step { IsTrue (S.tells shelf.old) → InStep (filling_of writer.old) (S.world shelf.old) }
    ensures same { SameFile (filling_of writer.old) (filling_of writer.new) }
    ensures variables { writer.new.n ≡ writer.old.n }
    ensures count { OnOk result (count_of (filling_of writer.new) ≡ count_of (filling_of writer.old) + count) }
    ensures holds { OnOk result (IsTrue (S.tells shelf.new) → Holds writer.new (S.world shelf.new)
        (written_of writer.old (S.world shelf.old) ++ held_nodes (take count (packed nodes.now)))) }
    ensures cause { IfErr result (λ e. e ≡ StreamFault.Shelf) }
    ensures content { Told S.tells shelf.old shelf.new
        (Wrote count (filling_of writer.old).file (S.world shelf.old) (S.world shelf.new)) }
    ensures faults { OnlyShelf (S.faults shelf.old) (S.faults shelf.new) result }
{
    for place in 0..count {
        writer.put_held(record_of(nodes, place), shelf)?;
    }
    Ok(())
}
