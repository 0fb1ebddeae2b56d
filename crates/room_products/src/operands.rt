//! The nodes of both operands in the room.
ghost use Rattle.std.specs.Prelude.{◌≡◌, ℕ, ◌≤◌, ◌<◌, false, true, IsTrue, IfSome};
ghost use Rattle.rec_words.specs.Words.{deepest_level, level_of};
ghost use Rattle.canon_file.specs.declared.row.Row.{Row};
ghost use Rattle.arc_diagrams.specs.Arcs.{onward};
ghost use Rattle.room_products.specs.Goals.{GivesRows};
ghost use Rattle.room_products.specs.Operands.{nodes_of};

use crate::goals::ZERO;
use crate::level::Level;
use bool_tables::Bin;
use packed_records::word_at;
use rec_words::{LEVEL_NUMBERS, Rec};
use room_reduction::{HIGH, LOW, UID};

/// The nodes of an operand: so many packed records, each with a node's identifier and its two pointers.
#[derive(Clone, Copy)]
pub(crate) struct Nodes<'a> {
    pub(crate) records: &'a [Rec],
    pub(crate) count: usize,
}

/// An operator, and the nodes of its two operands.
#[derive(Clone, Copy)]
pub(crate) struct Operands<'a> {
    pub(crate) op: Bin,
    pub(crate) left: Nodes<'a>,
    pub(crate) right: Nodes<'a>,
}

/// The words to which a word leads on both sides of a level: those of its node, where it is of the level, and else
/// itself. None is given where its node isn't found. The nodes of the level begin at a place.
pub(crate) fn sides_of(nodes: Nodes, begin: u64, level: u16, word: u64) -> Option<(u64, u64)>
    requires level { level ≤ deepest_level }
    ensures { IfSome result (λ sides. (targets : ℕ → Row) → GivesRows targets (nodes_of nodes.entry) →
        (sides.0 ≡ onward targets level false word) × (sides.1 ≡ onward targets level true word)) }
{
    let end = (u64::from(level) + 1) * LEVEL_NUMBERS;
    if word >= end {
        return Some((word, word));
    }
    let place = begin.saturating_add(end - 1 - word);
    if place >= nodes.count as u64 || place >= 4 * nodes.records.len() as u64 {
        return None;
    }
    let place = place as usize;
    if word_at(nodes.records, place, UID) != word {
        return None;
    }
    let low = word_at(nodes.records, place, LOW);
    let high = word_at(nodes.records, place, HIGH);
    Some((low, high))
}

/// Says of each level where the nodes of both operands begin. Answers whether all records are those of nodes in the
/// order of their files.
pub(crate) fn index_nodes(left: Nodes, right: Nodes, firsts: &mut [Rec]) -> bool {
    firsts.fill(Rec { w: [0; 8] });
    index_side(left, false, firsts) && index_side(right, true, firsts)
}

// Says of each level of the one operand, or of the other one, where its nodes begin.
fn index_side(nodes: Nodes, other: bool, firsts: &mut [Rec]) -> bool {
    let mut last = u64::MAX;
    for place in 0..nodes.count.min(4 * nodes.records.len()) {
        let word = word_at(nodes.records, place, UID);
        let low = word_at(nodes.records, place, LOW);
        let high = word_at(nodes.records, place, HIGH);
        if word >= last || !is_node(word, low, high, firsts.len() as u64) {
            return false;
        }
        let level = word / LEVEL_NUMBERS;
        if last / LEVEL_NUMBERS != level {
            put_nodes_begin(&mut firsts[level as usize], other, place as u64);
        }
        last = word;
    }
    true
}

// Says in the record of a level where the nodes of the one operand begin, or those of the other one.
fn put_nodes_begin(record: &mut Rec, other: bool, place: u64) {
    let mut level = Level::of(record);
    if other {
        level.right_nodes = place;
    } else {
        level.left_nodes = place;
    }
    *record = level.to_rec();
}

// Whether the words are those of a node of so many variables: two different ones, which lead below it.
fn is_node(word: u64, low: u64, high: u64, n: u64) -> bool
    ensures { IsTrue result → level_of word < n }
{
    let level = word / LEVEL_NUMBERS;
    level < n && low != high && leads_below(level, low, n) && leads_below(level, high, n)
}

// Whether a word is a truth value, or that of a node on a deeper level of so many.
fn leads_below(level: u64, word: u64, n: u64) -> bool {
    let to = word / LEVEL_NUMBERS;
    word == ZERO || word == ZERO + 1 || (to > level && to < n)
}
