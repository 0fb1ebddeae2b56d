//! Diagrams whose arcs are reduced in the room, where it holds what that takes.
use crate::given::Given;
use crate::steps::{CHOICE, LARGE_ROOM, LEAST_ROOM, NUMBER, holds};
use file_numbers::{ends_file, inner_file};
use shelf_memory::Bench;
use std::test::Fail;

/// So many variables that the least room doesn't hold the sources, and a record for each of the widest level.
const MANY: u32 = 17;

// How many sources have the arcs that a step left: each has two, of 16 bytes.
fn source_count(bench: &Bench) -> u64 {
    let inner = bench.file(inner_file(NUMBER)).len() as u64 / 16;
    let ends = bench.file(ends_file(NUMBER)).len() as u64 / 16;
    inner.wrapping_add(ends) / 2
}

// At the least room a sweep reduces the arcs, which are two for each source, with more than two turns for each source.
// More room reduces them with a turn for each two sources and one. Both make the right file, and the arcs take the same
// turns.
fn reduces_with_more_room(given: &mut Given) -> Result<bool, Fail> {
    given.take_seed(MANY, 0)?;
    let swept = given.make_right(CHOICE)?;
    given.take_room(LARGE_ROOM)?;
    let made = given.make_right(CHOICE)?;
    let sources = source_count(&given.bench);
    Ok(match (swept, made) {
        (Some(swept), Some(made)) => {
            sources > 0 && made.turns.wrapping_add(sources) < swept.turns
        }
        _ => false,
    })
}

#[test]
fn arcs_are_reduced_in_a_room_that_holds_their_sources(rt: HostRuntime) -> Result<(), Fail> {
    let mut given = Given::room_of(rt.alloc(), LEAST_ROOM)?;
    holds(&rt, reduces_with_more_room(&mut given))
}
