//! Complements of diagrams that have too many nodes for the room, or whose files no program wrote: products make them,
//! or tell where the file is damaged.
use crate::copies::{complement_calls, is_unswept};
use crate::failing::NEITHER;
use crate::given::Given;
use crate::judged::{is_damaged_at, word_at};
use crate::steps::{LARGE_ROOM, LEAST_ROOM, ONE, Task, holds, operator_on};
use case_tables::{FIRST, put_bytes};
use rec_words::Ptr;
use shelf_memory::Bench;
use shelf_model::SortFault;
use std::alloc::{AllocError, Global};
use std::test::Fail;

/// So many variables that a random table's nodes are fewer than the least room has records, and more than half of them.
const MANY: u32 = 16;

// The complement of the first file.
fn complement() -> Task {
    operator_on(NEITHER, ONE)
}

// The least room doesn't hold two records for each node, so it is made as any product is. More room does.
fn makes_with_more_room(given: &mut Given) -> Result<bool, Fail> {
    given.take_one(MANY, 3)?;
    let is_product = match given.make_right(complement())? {
        Some(made) => made.turns != made.nodes.wrapping_add(1),
        None => false,
    };
    given.take_room(LARGE_ROOM)?;
    let calls = complement_calls(&given.bench);
    Ok(is_unswept(complement(), calls, given)? && is_product)
}

#[test]
fn a_complement_that_the_room_does_not_hold_is_made_as_a_product(
    rt: HostRuntime,
) -> Result<(), Fail> {
    let mut given = Given::room_of(rt.alloc(), LEAST_ROOM)?;
    holds(&rt, makes_with_more_room(&mut given))
}

/// What is changed in the first file.
#[derive(Clone, Copy)]
enum Change {
    /// Its nodes come in the other order, but for the root, which the trailer names.
    TurnedRound,
    /// Its root points to a node that isn't there.
    PointingNowhere,
}

// The words of the first file.
fn words_of(alloc: Global, bench: &Bench) -> Result<Vec<u64>, AllocError> {
    let bytes = bench.file(FIRST);
    let mut words = Vec::new(alloc);
    for word in 0..bytes.len() / 8 {
        words.push(word_at(bytes, word.saturating_mul(8)))?;
    }
    Ok(words)
}

// The bytes of words.
fn bytes_of(alloc: Global, words: &[u64]) -> Result<Vec<u8>, AllocError> {
    let mut bytes = Vec::new(alloc);
    for word in words {
        bytes.extend_from_slice(&word.to_be_bytes())?;
    }
    Ok(bytes)
}

// The word of the node of a row of a level, or 0 where there is no such row.
fn node_word(level: u32, row: u64) -> u64 {
    if level > 65_534 || row > 1_000 {
        return 0;
    }
    Ptr::of_row(level as u16, row).word()
}

// The word of a node that no diagram of so many variables has: the deepest level has two at most.
fn absent(n: u32) -> u64 {
    node_word(n.saturating_sub(1), 7)
}

// A complement over a first file of these bytes is refused, for that file is damaged.
fn is_damaged(bytes: &[u8], given: &mut Given) -> Result<bool, Fail> {
    put_bytes(&mut given.bench, FIRST, bytes)?;
    Ok(match given.make(complement()) {
        Err(SortFault::Damaged { file, at }) => file == FIRST && is_damaged_at(given.n, bytes, at),
        _ => false,
    })
}

// The words of the nodes in the other order, but for the root, which the trailer names.
fn turned_round(alloc: Global, words: &[u64]) -> Result<Vec<u64>, AllocError> {
    let (nodes, last) = words.split_at(words.len().saturating_sub(6));
    let mut turned = Vec::new(alloc);
    for node in nodes.chunks_exact(3).rev() {
        turned.extend_from_slice(node)?;
    }
    turned.extend_from_slice(last)?;
    Ok(turned)
}

// The root points to a node that isn't there.
fn pointing_nowhere(alloc: Global, n: u32, words: &[u64]) -> Result<Vec<u64>, AllocError> {
    let mut pointing = Vec::new(alloc);
    pointing.extend_from_slice(words)?;
    let low = words.len().saturating_sub(5);
    if let Some(word) = pointing.as_mut_slice().get_mut(low) {
        *word = absent(n);
    }
    Ok(pointing)
}

// The bytes of a file of these words that is changed so.
fn changed_bytes(
    alloc: Global,
    change: Change,
    n: u32,
    words: &[u64],
) -> Result<Vec<u8>, AllocError> {
    let changed = match change {
        Change::TurnedRound => turned_round(alloc, words)?,
        Change::PointingNowhere => pointing_nowhere(alloc, n, words)?,
    };
    bytes_of(alloc, changed.as_slice())
}

// Whether damage is told where the first file, of these words, is changed so.
fn change_is_told(change: Change, words: &[u64], given: &mut Given) -> Result<bool, Fail> {
    let bytes = changed_bytes(given.alloc, change, given.n, words)?;
    is_damaged(bytes.as_slice(), given)
}

// So it is with both changes of the file of a table of so many variables.
fn damage_is_told_of(n: u32, given: &mut Given) -> Result<bool, Fail> {
    given.take_one(n, 11)?;
    let words = words_of(given.alloc, &given.bench)?;
    for change in &[Change::TurnedRound, Change::PointingNowhere] {
        if !change_is_told(*change, words.as_slice(), given)? {
            return Ok(false);
        }
    }
    Ok(true)
}

fn damage_is_told(alloc: Global) -> Result<bool, Fail> {
    let mut given = Given::room_of(alloc, LEAST_ROOM)?;
    for n in 4..10 {
        if !damage_is_told_of(n, &mut given)? {
            return Ok(false);
        }
    }
    Ok(true)
}

#[test]
fn damage_of_a_diagram_whose_complement_is_asked_for_is_told(rt: HostRuntime) -> Result<(), Fail> {
    holds(&rt, damage_is_told(rt.alloc()))
}

// How many words stand in front of the first node that has a lesser word.
fn words_before(words: &[u64], lesser: u64) -> usize {
    let mut before = 0usize;
    for node in words.chunks_exact(3) {
        match node.first() {
            Some(word) if *word >= lesser => before = before.saturating_add(3),
            _ => return before,
        }
    }
    before
}

// One node more on the last but one level, which points to one that isn't there. No node points to it.
fn with_a_stray_node(alloc: Global, n: u32, words: &[u64]) -> Result<Vec<u64>, AllocError> {
    let stray = node_word(n.saturating_sub(2), 100);
    let before = words_before(words, stray);
    let (front, back) = words.split_at(before.min(words.len()));
    let mut more = Vec::new(alloc);
    more.extend_from_slice(front)?;
    more.extend_from_slice(&[stray, absent(n), Ptr::terminal(true).word()])?;
    more.extend_from_slice(back)?;
    let count = more.len().saturating_sub(2);
    if let Some(word) = more.as_mut_slice().get_mut(count) {
        *word = word.wrapping_add(1);
    }
    Ok(more)
}

// Puts a node that nobody asks for into the first file, and answers how many nodes it had.
fn put_stray_node(alloc: Global, n: u32, bench: &mut Bench) -> Result<u64, Fail> {
    let words = words_of(alloc, bench)?;
    let more = with_a_stray_node(alloc, n, words.as_slice())?;
    let bytes = bytes_of(alloc, more.as_slice())?;
    put_bytes(bench, FIRST, bytes.as_slice())?;
    Ok((words.len() as u64 / 3).saturating_sub(1))
}

// Such a node keeps the complement from being made of the nodes alone: it is made as any product is, and a turn is
// counted for each node that was read before.
fn stray_node_is_passed(n: u32, given: &mut Given) -> Result<bool, Fail> {
    given.take_one(n, 5)?;
    let nodes = put_stray_node(given.alloc, n, &mut given.bench)?;
    let read = nodes.wrapping_add(2);
    Ok(match given.make_right(complement())? {
        Some(made) => made.turns > read,
        None => false,
    })
}

fn stray_nodes_are_passed(alloc: Global) -> Result<bool, Fail> {
    let mut given = Given::room_of(alloc, LEAST_ROOM)?;
    for n in 4..10 {
        if !stray_node_is_passed(n, &mut given)? {
            return Ok(false);
        }
    }
    Ok(true)
}

#[test]
fn a_stray_node_leaves_the_complement_to_a_product(rt: HostRuntime) -> Result<(), Fail> {
    holds(&rt, stray_nodes_are_passed(rt.alloc()))
}
