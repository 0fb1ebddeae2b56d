//! The node file of an operator's diagram.
ghost use Rattle.std.specs.Prelude.{◌≡◌, ◌≢◌, ◌+◌, ◌*◌, ◌/◌, ◌<◌, ◌≤◌, ◌^◌, ℕ, Bool, List, IsTrue, length};
ghost use Rattle.std.specs.Prelude.{IfOk, IfErr, IfSome, IfNone};
ghost use Rattle.shelf_model.specs.Calls.{Told};
ghost use Rattle.shelf_model.specs.Faults.{OnlyShelf};
ghost use Rattle.block_stream.specs.Reads.{Looked};
ghost use Rattle.node_file.specs.Changes.{Changed};
ghost use Rattle.copied_diagrams.specs.Operands.{pair_table};
ghost use Rattle.room_reduction.specs.Sources.{sources_in};
ghost use Rattle.node_file.specs.Canonical.{IsMade};
ghost use Rattle.room_products.specs.Joined.{IsOperandOf, AreOfTable};

use crate::operands::Nodes;
use crate::tables::{Asked, Tabled, join_nodes};
use bool_tables::Bin;
use copied_diagrams::{Pair, Source};
use rec_words::{Ptr, Rec};
use room_reduction::{Index, read_nodes, reduce_sources};
use shelf_model::{FileNo, Shelf, StreamFault};

/// The records through which nodes are read and written: no fewer than a piece has.
const WINDOW: usize = 128;

/// How many turns a sweep makes from one checkpoint to the next at most, in a room that has no fewer records.
const INTERVAL: usize = 65_536;

/// Up to so many variables, and for each node of the operands so many more, the room is used: a level takes time there
/// whether it has pairs or not, and none in a sweep.
const VARIABLES: usize = 1_024;

const VARIABLES_A_NODE: usize = 32;

/// What was made: how many nodes the diagram has, and the turns that it took: one for each two pairs of pointers, which
/// take no longer than a turn of a sweep, one for each eight nodes of the operands, and one more.
#[derive(Clone, Copy, Debug, PartialEq, Eq)]
pub struct Joined {
    pub nodes: u64,
    pub turns: u64,
}

// What was made, before its turns are counted: how many nodes the diagram has, and how many pairs were answered.
#[derive(Clone, Copy)]
struct Made {
    nodes: u64,
    pairs: usize,
}

/// Makes the node file of an operator on two diagrams of `n` variables, which are in other files with these trailers.
/// None is answered, and no file is changed, where the room doesn't hold what that takes: a quarter of a record for
/// each node of both, three fifths of one for each pair of pointers that is met, one for each variable, and a window;
/// where a level has more pairs than records are left beside the sources and the nodes; where there are more than
/// fourteen pairs for each node and as many more, or as many turns as a checkpoint's interval has; where the variables
/// are far more than the nodes; where the operator's value hangs on no node; and where the nodes aren't those of
/// diagrams.
pub fn join_in_room<S: Shelf>(
    op: Bin,
    n: u32,
    left: Source,
    right: Source,
    out: FileNo,
    room: &mut [Rec],
    shelf: &mut S,
) -> Result<Option<Joined>, StreamFault>
    requires variables { n ≤ 65535 }
    requires apart_left { left.from ≢ out }
    requires apart_right { right.from ≢ out }

    // of canonical files
    ensures made { IfOk result (λ done. IsTrue (S.tells shelf.new) → (t u : List Bool) →
        IsOperandOf n t left (S.world shelf.old) → IsOperandOf n u right (S.world shelf.old) →
        IfSome done (λ j. IsMade n (pair_table n op t u) out j.nodes (S.world shelf.new))) }

    // whatever the files hold
    ensures few { IfOk result (λ done. IfSome done (λ j. (0 < j.turns) × ((j.turns < 65536)
        × (j.turns ≤ 15 * (left.trailer.count + right.trailer.count + 1))))) }
    ensures short { IfOk result (λ done. IfSome done (λ j. j.turns < length room.old)) }
    ensures paid { IfOk result (λ done. IfSome done (λ j. IsTrue (S.tells shelf.new) →
        (S.world shelf.new).clock ≤ (S.world shelf.old).clock + (8 * j.turns + 6))) }
    ensures not_made { IfOk result (λ done. IfNone done (Told S.tells shelf.old shelf.new
        (Looked (left.trailer.count + right.trailer.count) (S.world shelf.old) (S.world shelf.new)))) }
    ensures few_calls { IsTrue (S.tells shelf.new) →
        (S.world shelf.new).clock ≤ (S.world shelf.old).clock + (2 ^ 18 + 6) }
    ensures cause { IfErr result (λ e. e ≡ StreamFault.Shelf) }
    ensures content { Told S.tells shelf.old shelf.new
        (Changed (16 * (left.trailer.count + right.trailer.count) + 21) out (S.world shelf.old) (S.world shelf.new)) }
    ensures faults { OnlyShelf (S.faults shelf.old) (S.faults shelf.new) result }
{
    let (left_nodes, right_nodes) = (left.trailer.count, right.trailer.count);
    let Some(most) = most_pairs(n, left_nodes, right_nodes, room.len()) else {
        return Ok(None);
    };
    let made = join_parts(op, n, Pair { left, right }, most, out, room, shelf)?;
    let Some(made) = made else {
        return Ok(None);
    };
    let turns = made.pairs as u64 / 2 + (left_nodes + right_nodes) / 8 + 1;
    Ok(Some(Joined {
        nodes: made.nodes,
        turns,
    }))
}

// Splits the room, which holds both operands and so many pairs, and joins them there.
fn join_parts<S: Shelf>(
    op: Bin,
    n: u32,
    pair: Pair,
    most: usize,
    out: FileNo,
    room: &mut [Rec],
    shelf: &mut S,
) -> Result<Option<Made>, StreamFault>
    requires variables { n ≤ 65535 }
    requires left_few { pair.left.trailer.count < 65536 }
    requires right_few { pair.right.trailer.count < 65536 }
    requires most { most < 131072 }
    requires fits { n + 2 * (most / 4) + 128 + (pair.left.trailer.count / 4 + 1) + (pair.right.trailer.count / 4 + 1)
        + (most / 10 + 1) ≤ length room.old }
    ensures made { IfOk result (λ done. IsTrue (S.tells shelf.new) → (t u : List Bool) →
        IsOperandOf n t pair.left (S.world shelf.old) → IsOperandOf n u pair.right (S.world shelf.old) →
        IfSome done (λ m. IsMade n (pair_table n op t u) out m.nodes (S.world shelf.new))) }
    ensures pairs { IfOk result (λ done. IfSome done (λ m. m.pairs ≤ most)) }
    ensures paid { IfOk result (λ done. IfSome done (λ m. IsTrue (S.tells shelf.new) → (S.world shelf.new).clock
        ≤ (S.world shelf.old).clock + (pair.left.trailer.count + pair.right.trailer.count + (m.pairs + 6)))) }
    ensures not_made { IfOk result (λ done. IfNone done (Told S.tells shelf.old shelf.new
        (Looked (pair.left.trailer.count + pair.right.trailer.count) (S.world shelf.old) (S.world shelf.new)))) }
    ensures cause { IfErr result (λ e. e ≡ StreamFault.Shelf) }
    ensures content { Told S.tells shelf.old shelf.new
        (Changed (pair.left.trailer.count + pair.right.trailer.count + (most + 6)) out (S.world shelf.old)
        (S.world shelf.new)) }
    ensures faults { OnlyShelf (S.faults shelf.old) (S.faults shelf.new) result }
{
    let (firsts, area) = room.split_at_mut(n as usize);
    let joined = join_operands(op, pair, most, firsts, area, shelf)?;
    let Some(joined) = joined else {
        return Ok(None);
    };
    reduce_joined(n, &joined, firsts, area, out, shelf)
}

// Reads both operands, and puts the sources of the operator's diagram into the front of the area. The slots, the
// operands' nodes, the buckets and a window stand behind them.
fn join_operands<S: Shelf>(
    op: Bin,
    pair: Pair,
    most: usize,
    firsts: &mut [Rec],
    area: &mut [Rec],
    shelf: &mut S,
) -> Result<Option<Tabled>, StreamFault>
    requires left_few { pair.left.trailer.count < 65536 }
    requires right_few { pair.right.trailer.count < 65536 }
    requires fits { 2 * (most / 4) + (pair.left.trailer.count / 4 + 1) + (pair.right.trailer.count / 4 + 1)
        + (most / 10 + 1) + 128 ≤ length area.old }
    ensures joined { IfOk result (λ found. IsTrue (S.tells shelf.new) → (n : ℕ) (t u : List Bool) → n ≤ 65535 →
        IsOperandOf n t pair.left (S.world shelf.old) → IsOperandOf n u pair.right (S.world shelf.old) →
        IfSome found (λ j. AreOfTable n j.root (pair_table n op t u) (sources_in j.count area.new))) }
    ensures few { IfOk result (λ found. IfSome found (λ j. j.count ≤ 4 * (most / 4))) }
    ensures cause { IfErr result (λ e. e ≡ StreamFault.Shelf) }
    ensures content { Told S.tells shelf.old shelf.new
        (Looked (pair.left.trailer.count + pair.right.trailer.count) (S.world shelf.old) (S.world shelf.new)) }
    ensures faults { OnlyShelf (S.faults shelf.old) (S.faults shelf.new) result }
{
    let (left, right) = (pair.left, pair.right);
    let (left_count, right_count) = (left.trailer.count as usize, right.trailer.count as usize);
    let (first, second) = (left.trailer.root.word(), right.trailer.root.word());
    let (sources, rest) = area.split_at_mut(most / 4);
    let (slots, rest) = rest.split_at_mut(most / 4);
    let (lefts, rest) = rest.split_at_mut(left_count / 4 + 1);
    let (rights, rest) = rest.split_at_mut(right_count / 4 + 1);
    let (buckets, rest) = rest.split_at_mut(most / 10 + 1);
    let (window, _spare) = rest.split_at_mut(WINDOW);
    if !read_nodes(left.from, left_count, lefts, window, shelf)? {
        return Ok(None);
    }
    if !read_nodes(right.from, right_count, rights, window, shelf)? {
        return Ok(None);
    }
    let left_nodes = Nodes {
        records: lefts,
        count: left_count,
    };
    let right_nodes = Nodes {
        records: rights,
        count: right_count,
    };
    let asked = Asked { op, first, second };
    Ok(join_nodes(
        asked,
        left_nodes,
        right_nodes,
        firsts,
        buckets,
        slots,
        sources,
    ))
}

// Makes the node file of the diagram whose sources stand in the front of an area, and answers what was made. Its nodes,
// a window and the rows of a level stand behind them.
fn reduce_joined<S: Shelf>(
    n: u32,
    tabled: &Tabled,
    firsts: &[Rec],
    area: &mut [Rec],
    out: FileNo,
    shelf: &mut S,
) -> Result<Option<Made>, StreamFault>
    requires variables { n ≤ 65535 }
    requires few { tabled.now.count ≤ 2 ^ 17 }
    ensures made { IfOk result (λ done. IsTrue (S.tells shelf.new) → (t : List Bool) →
        AreOfTable n tabled.now.root t (sources_in tabled.now.count area.old) →
        IfSome done (λ m. IsMade n t out m.nodes (S.world shelf.new))) }
    ensures pairs { IfOk result (λ done. IfSome done (λ m. m.pairs ≡ tabled.now.count)) }
    ensures not_made { IfOk result (λ done. IfNone done (shelf.new ≡ shelf.old)) }
    ensures cause { IfErr result (λ e. e ≡ StreamFault.Shelf) }
    ensures content { Told S.tells shelf.old shelf.new
        (Changed (tabled.now.count + 6) out (S.world shelf.old) (S.world shelf.new)) }
    ensures faults { OnlyShelf (S.faults shelf.old) (S.faults shelf.new) result }
{
    let Some(root) = Ptr::from_word(tabled.root) else {
        return Ok(None);
    };
    let count = tabled.count;
    let packed = count / 4 + 1;
    if packed > area.len() {
        return Ok(None);
    }
    let (sources, rest) = area.split_at_mut(packed);
    let index = Index {
        levels: firsts,
        total: count,
    };
    let made = reduce_sources(n, root, sources, index, rest, out, shelf)?;
    let Some(nodes) = made else {
        return Ok(None);
    };
    Ok(Some(Made {
        nodes,
        pairs: count,
    }))
}

// How many pairs of pointers are answered at most, where both operands have so many nodes and the room so many records.
// None is given where there is no room for one, where neither has a node, where the variables are far more, and where
// there are so many nodes that all pairs would hardly fit: mostly there are no fewer than the larger operand has nodes.
fn most_pairs(n: u32, left: u64, right: u64, room: usize) -> Option<usize>
    ensures some { IfSome result (λ most. 0 < left + right) }
    ensures left { IfSome result (λ most. left < 65536) }
    ensures right { IfSome result (λ most. right < 65536) }
    ensures turns { IfSome result (λ most. most / 2 + (left + right) / 8 + 1 < 65536) }
    ensures short { IfSome result (λ most. most / 2 + (left + right) / 8 + 1 < room) }
    ensures few { IfSome result (λ most. most ≤ 14 * (left + right + 1)) }
    ensures fits { IfSome result (λ most. n + 2 * (most / 4) + 128 + (left / 4 + 1) + (right / 4 + 1)
        + (most / 10 + 1) ≤ room) }
{
    if left >= 65_536 || right >= 65_536 || left + right == 0 {
        return None;
    }
    let nodes = (left + right) as usize;
    let taken = n as usize + nodes / 4 + WINDOW + 3;
    if taken >= room || n as usize > VARIABLES + VARIABLES_A_NODE * nodes {
        return None;
    }
    let fits = ((room - taken) / 6).min(INTERVAL) * 10;
    if fits < left.max(right) as usize / 2 {
        return None;
    }
    let turns = INTERVAL.min(room).saturating_sub(nodes / 8 + 2);
    Some(fits.min(2 * turns).min(14 * (nodes + 1)))
}
