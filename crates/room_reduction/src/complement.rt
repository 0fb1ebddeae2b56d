//! The file of a complement.
ghost use Rattle.std.specs.Prelude.{◌≡◌, ◌≢◌, ℕ, ◌+◌, ◌-◌, ◌*◌, ◌<◌, ◌≤◌, Bool, List, IsTrue, IfOk, IfErr, length};
ghost use Rattle.shelf_model.specs.Calls.{Told};
ghost use Rattle.shelf_model.specs.Faults.{OnlyShelf};
ghost use Rattle.block_stream.specs.Reads.{Looked};
ghost use Rattle.canon_file.specs.Canon.{canon_nodes, canon_root};
ghost use Rattle.node_file.specs.Canonical.{IsCanonicalFile, IsMade};
ghost use Rattle.packed_records.specs.Packed.{packed};
ghost use Rattle.node_file.specs.Changes.{Changed};
ghost use Rattle.room_reduction.specs.Complements.{complement, other_end, AreOthers};

use crate::index::{Index, put_begin};
use crate::levels::reduce_nodes;
use crate::nodes::write_packed;
use crate::reading::read_nodes;
use crate::sources::{HIGH, LOW, UID};
use node_file::Trailer;
use packed_records::{put_record, word_at};
use rec_words::{LEVEL_NUMBERS, Rec};
use shelf_model::{FileNo, Shelf, StreamFault};

/// The word of the truth value 0. That of 1 is the next one.
const ZERO: u64 = 1 << 63;

/// The fewest records through which a file is written.
const WINDOW: usize = 8;

/// Makes the node file of the complement of a diagram, which is in another file with that trailer. It is left as it
/// was, and false is answered, where that file's nodes aren't in order.
///
/// The nodes are read as the sources of the complement, with the truth values exchanged, and reduced. Half a record for
/// each node is taken, one for each node of the widest level, and one for each variable where the room has them: then a
/// node is found by its number, and else by halves.
pub fn complement_file<S: Shelf>(
    from: FileNo,
    to: FileNo,
    trailer: Trailer,
    room: &mut [Rec],
    shelf: &mut S,
) -> Result<bool, StreamFault>
    requires apart { from ≢ to }
    requires variables { trailer.n ≤ 65535 }
    requires few { trailer.count < 65536 }
    requires room { 2 * trailer.count + 8 ≤ length room.old }
    ensures made { IfOk result (λ made. IsTrue made → IsTrue (S.tells shelf.new) → (t : List Bool) →
        IsCanonicalFile trailer.n t from (S.world shelf.old) →
        trailer.root ≡ canon_root trailer.n t → trailer.count ≡ length (canon_nodes trailer.n t) →
        IsMade trailer.n (complement t) to trailer.count (S.world shelf.new)) }
    ensures cause { IfErr result (λ e. e ≡ StreamFault.Shelf) }
    ensures left { IfOk result (λ made. ¬ (IsTrue made) → Told S.tells shelf.old shelf.new
        (Looked trailer.count (S.world shelf.old) (S.world shelf.new))) }
    ensures content { Told S.tells shelf.old shelf.new
        (Changed (2 * trailer.count + 4) to (S.world shelf.old) (S.world shelf.new)) }
    ensures faults { OnlyShelf (S.faults shelf.old) (S.faults shelf.new) result }
{
    let n = trailer.n;
    let count = trailer.count as usize;
    let (sources, rest) = room.split_at_mut((count + 3) / 4);
    let (nodes, rest) = rest.split_at_mut((count + 3) / 4);
    let (firsts, rows) = rest.split_at_mut(levels_kept(n, count, rest.len()));
    if !read_nodes(from, count, nodes, rows, shelf)? {
        return Ok(false);
    }
    if !exchange_nodes(nodes, count, sources, firsts) {
        return Ok(false);
    }
    let root = exchanged(trailer.root.word());
    let index = Index {
        levels: firsts,
        total: count,
    };
    let Some(reduced) = reduce_nodes(n, root, sources, index, nodes, rows) else {
        return Ok(false);
    };
    if reduced.count != count {
        return Ok(false);
    }
    write_packed(to, n, nodes, count, reduced.root, rows, shelf)?;
    Ok(true)
}

// Of how many levels it is kept where their sources stand: of all, where the room has a record for each beside those
// for the rows of the widest one.
fn levels_kept(n: u32, count: usize, room: usize) -> usize
    requires rows { count ≤ room }
    requires window { 8 ≤ room }
    ensures rows { result + count ≤ room }
    ensures window { result + 8 ≤ room }
{
    let levels = n as usize;
    if levels + WINDOW <= room - count {
        levels
    } else {
        0
    }
}

// Puts so many nodes among the sources, the other way round, so that they ascend, each with its truth values
// exchanged. It ends where a word has no number.
fn exchange_nodes(nodes: &[Rec], count: usize, sources: &mut [Rec], firsts: &mut [Rec]) -> bool
    requires nodes { count ≤ 4 * length nodes.now }
    requires sources { count ≤ 4 * length sources.old }
    ensures { IsTrue result → AreOthers count (packed nodes.now) (packed sources.new) }
{
    for place in 0..count {
        let node = count - 1 - place;
        let uid = word_at(nodes, node, UID);
        let first = word_at(nodes, node, LOW);
        let second = word_at(nodes, node, HIGH);
        let low = exchanged(first);
        let high = exchanged(second);
        if !put_record(sources, place, [uid, low, high, 0]) {
            return false;
        }
        keep_level(uid, place, firsts);
    }
    true
}

// Of the word of a truth value that of the other one, and any other word.
fn exchanged(word: u64) -> u64
    ensures { result ≡ other_end word }
{
    if word == ZERO {
        ZERO + 1
    } else if word == ZERO + 1 {
        ZERO
    } else {
        word
    }
}

// Keeps of the level of a source at a place where its first number would stand.
fn keep_level(source: u64, place: usize, firsts: &mut [Rec]) {
    let level = (source / LEVEL_NUMBERS) as usize;
    if level < firsts.len() {
        put_begin(
            &mut firsts[level],
            (place as u64).wrapping_sub(source % LEVEL_NUMBERS),
        );
    }
}
