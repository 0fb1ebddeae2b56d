//! Answers that steps find in diagrams of random tables, beside those of the tables.
use crate::given::Given;
use crate::steps::{LARGE_ROOM, LEAST_ROOM, compared, evaluated, holds, implied};
use std::alloc::Global;
use std::test::Fail;

/// How many triples of tables are compared and evaluated.
const SEEDS: u64 = 60;

/// Where the bits of an assignment stand in a text.
const AT: u32 = 5;

/// What is asked of three files.
#[derive(Clone, Copy)]
enum Asked {
    /// Whether two are those of one function.
    Same,
    /// Whether the function of one implies that of another.
    Leq,
    /// The values of the first one's function.
    Values,
}

// Whether a table is nowhere 1 where another is 0.
fn is_leq(left: &[bool], right: &[bool]) -> bool {
    let mut place = 0usize;
    for value in left {
        if *value && right.get(place).copied() != Some(true) {
            return false;
        }
        place = place.saturating_add(1);
    }
    true
}

// Whether two of three files are told to be those of one function, or of two.
fn tells_same(left: u32, right: u32, given: &mut Given) -> bool {
    let same = given.tables.table(left) == given.tables.table(right);
    match compared(
        given.n,
        left,
        right,
        given.room.as_mut_slice(),
        &mut given.bench,
    ) {
        Ok(answered) => answered.answer == same && answered.next == 3,
        Err(_) => false,
    }
}

// Whether the function of one of three files is told to imply that of another, or not to.
fn tells_leq(left: u32, right: u32, given: &mut Given) -> bool {
    let is_implied = is_leq(given.tables.table(left), given.tables.table(right));
    match implied(
        given.n,
        left,
        right,
        given.room.as_mut_slice(),
        &mut given.bench,
    ) {
        Ok(answered) => answered.answer == is_implied,
        Err(_) => false,
    }
}

// Writes the digits of a place into a text.
fn write_bits(n: u32, place: usize, text: &mut [u8]) {
    let mut rest = place;
    for level in (0..n).rev() {
        if let Some(digit) = text.get_mut(AT.saturating_add(level) as usize) {
            *digit = if rest % 2 == 1 { b'1' } else { b'0' };
        }
        rest /= 2;
    }
}

// Whether the value of the first table at a place is found where the variables have the values of its digits.
fn finds_value(place: usize, given: &mut Given) -> bool {
    let mut text = *b"eval 00000000\n";
    write_bits(given.n, place, &mut text);
    let value = given.tables.table(0).get(place).copied();
    match evaluated(
        given.n,
        &text,
        AT,
        given.room.as_mut_slice(),
        &mut given.bench,
    ) {
        Ok(answered) => value == Some(answered.answer) && answered.next == 3,
        Err(_) => false,
    }
}

// Whether each pair of three files is told so, and each file with itself.
fn tells_pairs(asked: Asked, given: &mut Given) -> bool {
    for pair in 0..9u32 {
        let (left, right) = (pair / 3, pair % 3);
        let told = match asked {
            Asked::Leq => tells_leq(left, right, given),
            _ => tells_same(left, right, given),
        };
        if !told {
            return false;
        }
    }
    true
}

// Whether the value at each place is found.
fn finds_values(given: &mut Given) -> bool {
    for place in 0..given.tables.table(0).len() {
        if !finds_value(place, given) {
            return false;
        }
    }
    true
}

fn answers(asked: Asked, given: &mut Given) -> bool {
    match asked {
        Asked::Values => finds_values(given),
        _ => tells_pairs(asked, given),
    }
}

// Whether the answers are those of the tables of a seed, and those with one of them between a conjunction and a
// disjunction.
fn answers_tables_of(asked: Asked, seed: u64, given: &mut Given) -> Result<bool, Fail> {
    given.take_seed((seed % 9) as u32, seed)?;
    let apart = answers(asked, given);
    let ascending = given.ascending()?;
    given.take(given.n, ascending)?;
    Ok(apart && answers(asked, given))
}

// Whether they are in a room of so many records.
fn answers_in(alloc: Global, asked: Asked, records: usize) -> Result<bool, Fail> {
    let mut given = Given::room_of(alloc, records)?;
    for seed in 0..SEEDS {
        if !answers_tables_of(asked, seed, &mut given)? {
            return Ok(false);
        }
    }
    Ok(true)
}

// Whether they are in the least room, and in a larger one.
fn answers_in_each_room(alloc: Global, asked: Asked) -> Result<bool, Fail> {
    Ok(answers_in(alloc, asked, LEAST_ROOM)? && answers_in(alloc, asked, LARGE_ROOM)?)
}

#[test]
fn tells_which_diagrams_are_the_same(rt: HostRuntime) -> Result<(), Fail> {
    holds(&rt, answers_in_each_room(rt.alloc(), Asked::Same))
}

#[test]
fn tells_which_functions_imply_another(rt: HostRuntime) -> Result<(), Fail> {
    holds(&rt, answers_in_each_room(rt.alloc(), Asked::Leq))
}

#[test]
fn gives_the_value_at_each_assignment(rt: HostRuntime) -> Result<(), Fail> {
    holds(&rt, answers_in_each_room(rt.alloc(), Asked::Values))
}
