//! Whether the checkpoint of a comparison, of an evaluation or of a copy stands for the answer of its step.
use crate::diagrams::{Assignment, NodeList, truth_of};
use crate::words::{Form, Point, Wrong, ask_for, check_equal};
use case_lives::{MADE, TEXT_AT};
use case_tables::{FIRST, SECOND};

/// The bytes of a node and of a piece of a copy.
const NODE: usize = 24;

const PIECE: u64 = 2048;

/// The forms of a comparison, of an evaluation and of a copy.
const COMPARISON: &Form = &Form {
    sweep: 0,
    tables: 0,
    files: &[(1, FIRST), (4, SECOND)],
    flags: &[(7, 0), (8, 1)],
    words: 10,
};

const EVALUATION: &Form = &Form {
    sweep: 0,
    tables: 0,
    files: &[(2, FIRST)],
    flags: &[(5, 1), (7, 1), (9, 1)],
    words: 11,
};

const COPY: &Form = &Form {
    sweep: 0,
    tables: 0,
    files: &[(0, FIRST), (2, MADE)],
    flags: &[],
    words: 7,
};

// The bytes from a place to the end, or none where they end before.
fn rest_of(bytes: &[u8], from: usize) -> Option<&[u8]> {
    bytes.get(from..bytes.len())
}

// Whether both are there, with the same bytes.
fn are_same(a: Option<&[u8]>, b: Option<&[u8]>) -> bool {
    match (a, b) {
        (Some(a), Some(b)) => a == b,
        _ => false,
    }
}

// Whether what is left of two files is equal, so many nodes of each; none where what they gave differs.
fn left_equal(first: &[u8], second: &[u8], left: u64, second_left: u64) -> Option<bool> {
    let end = (left as usize).saturating_mul(NODE);
    let second_end = (second_left as usize).saturating_mul(NODE);
    if are_same(rest_of(first, end), rest_of(second, second_end)) {
        Some(are_same(first.get(0..end), second.get(0..second_end)))
    } else {
        None
    }
}

// The answer of a comparison, or that which is left to be given.
fn same_answer(first: &[u8], second: &[u8], point: Point<'_>) -> Option<bool> {
    let ahead = u64::from(point.has(7));
    let left = point.carried(3).saturating_add(ahead);
    match point.maybe(8) {
        Some(0) => Some(false),
        Some(1) => Some(true),
        Some(_) => None,
        None => left_equal(first, second, left, point.carried(6)),
    }
}

/// Refuses a comparison whose answer isn't that one; while it isn't known, where nodes were given that differ, or what
/// is left doesn't give it. The two files have these nodes, without their trailers.
pub(crate) fn check_same(
    n: u32,
    first: &[u8],
    second: &[u8],
    wanted: bool,
    point: Point<'_>,
) -> Result<(), Wrong> {
    let right = same_answer(first, second, point) == Some(wanted);
    point
        .check_form(COMPARISON)
        .and(point.check_word(0, u64::from(n)))
        .and(ask_for(right, Wrong::Value))
}

// Whether the path of an assignment meets that pointer.
fn meets(list: &NodeList, pointer: u64, at: Assignment) -> bool {
    let mut here = list.root;
    for _level in 0..at.variables {
        if here == pointer {
            return true;
        }
        here = list.next(here, at);
    }
    here == pointer
}

// Whether a pointer is a truth value or one of the first nodes, so many.
fn is_left(list: &NodeList, pointer: u64, left: u64) -> bool {
    let mut place = 0u64;
    for node in list.nodes.as_slice() {
        if node.uid == pointer && place < left {
            return true;
        }
        place = place.saturating_add(1);
    }
    truth_of(pointer).is_some()
}

// Refuses a pointer that has another value, isn't on the path, or whose node isn't among those that weren't given.
fn check_pointer(
    list: &NodeList,
    at: Assignment,
    wanted: bool,
    pointer: u64,
    left: u64,
) -> Result<(), Wrong> {
    let few = left <= list.nodes.len() as u64;
    ask_for(few && is_left(list, pointer, left), Wrong::Hand)
        .and(check_equal(list.value(pointer, at), Ok(wanted)))
        .and(ask_for(meets(list, pointer, at), Wrong::Value))
}

// Refuses another answer of an evaluation, or a pointer that doesn't lead to it.
fn check_answer(
    list: &NodeList,
    at: Assignment,
    wanted: bool,
    point: Point<'_>,
) -> Result<(), Wrong> {
    match (point.maybe(5), point.maybe(9)) {
        (Some(pointer), None) => check_pointer(list, at, wanted, pointer, point.carried(4)),
        (None, Some(answer)) => ask_for(answer == u64::from(wanted), Wrong::Value),
        _ => Err(Wrong::Flag),
    }
}

/// Refuses an evaluation whose answer isn't that one; while it isn't known, where the pointer isn't on the path, or its
/// node isn't among those that weren't given.
pub(crate) fn check_value(
    list: &NodeList,
    at: Assignment,
    wanted: bool,
    point: Point<'_>,
) -> Result<(), Wrong> {
    point
        .check_form(EVALUATION)
        .and(point.check_word(0, u64::from(at.variables)))
        .and(point.check_word(1, u64::from(TEXT_AT)))
        .and(point.check_word(7, 0))
        .and(check_answer(list, at, wanted, point))
}

// Whether so many pieces stand of a file, or all of it, which have so many of its bytes.
fn stands(read: &[u8], made: &[u8], pieces: u64, count: u64) -> bool {
    let end = count as usize;
    let whole = count == pieces.saturating_mul(PIECE).min(read.len() as u64);
    whole && are_same(read.get(0..end), made.get(0..end))
}

/// Refuses a copy of which other bytes stand than those of the file that is read.
pub(crate) fn check_copy(
    read: &[u8],
    made: &[u8],
    pieces: u64,
    point: Point<'_>,
) -> Result<(), Wrong> {
    let (done, count) = (point.carried(5), point.carried(6));
    let right = done <= pieces && stands(read, made, done, count);
    point
        .check_form(COPY)
        .and(point.check_word(4, pieces))
        .and(ask_for(right, Wrong::Nodes))
}
