//! How many turns an implication between two large functions takes.
ghost use Rattle.std.specs.Prelude.{◌≤◌, length};
ghost use Rattle.operation_cases.specs.declared.reducing.TheConstants.{LEAST_ROOM};

use crate::reducing::{EMPTY, FIRST, LEAST_ROOM, PARTS, SECOND};
use canon_file::plain_canon;
use product_sweep::LeqSweep;
use rec_words::Rec;
use shelf_memory::Bench;
use shelf_model::{FileNo, Shelf, SortFault};
use std::alloc::Global;
use std::test::Fail;
use sweep_core::run_to_end;

/// The variables are three in front, and then two words of five.
const VARIABLES: u32 = 13;

const PLACES: usize = 8_192;

/// How many levels stand above the words.
const FRONT: u64 = 3;

/// How many nodes each of the two diagrams has: one on each level of the front, and those of "the words are equal",
/// which are 1, 2, 4, 8 and 16 for the bits of the first word, and 32, 16, 8, 4 and 2 for those of the second one.
const NODES: u64 = FRONT + 31 + 62;

/// The table that has one value where all variables of the front are 1, and else tells whether the words are equal.
fn table_of(at_front: bool) -> [bool; PLACES] {
    let mut table = [false; PLACES];
    for place in 0..PLACES {
        let equal = place >> 5 & 31 == place & 31;
        table[place] = if place >> 10 == 7 { at_front } else { equal };
    }
    table
}

fn put_table(
    alloc: Global,
    file: FileNo,
    table: &[bool; PLACES],
    bench: &mut Bench,
) -> Result<(), Fail> {
    let bytes = plain_canon(alloc, VARIABLES, table)?;
    if bytes.len() <= 1 << 40 {
        bench.put_file(file, bytes.as_slice())?;
    }
    Ok(())
}

// The first one is 1 where the whole front is, and the second one is 0 there. They are the same elsewhere.
fn large_bench(alloc: Global) -> Result<Bench, Fail> {
    let mut bench = Bench::empty(alloc);
    put_table(alloc, FIRST, &table_of(true), &mut bench)?;
    put_table(alloc, SECOND, &table_of(false), &mut bench)?;
    Ok(bench)
}

// The turns, and the answer.
fn turns_of<S: Shelf>(
    f: FileNo,
    g: FileNo,
    room: &mut [Rec],
    shelf: &mut S,
) -> Result<(u64, Option<bool>), SortFault>
    requires enough { LEAST_ROOM ≤ length room.old }
{
    let mut sweep = LeqSweep::start(VARIABLES, f, g, PARTS, room, shelf)?;
    let turns = run_to_end(&mut sweep, shelf)?;
    Ok((turns, sweep.answer()))
}

// On each level of the front there is one pair of nodes, which takes at most six turns and is read of both files. The
// last of them has the arc that refutes. Five turns more are the root's ask, the first turn and the last one.
fn refuted_early(rt: HostRuntime) -> Result<bool, Fail> {
    let mut bench = large_bench(rt.alloc())?;
    let mut room = vec![in rt.alloc(); EMPTY; LEAST_ROOM]?;
    match turns_of(FIRST, SECOND, room.as_mut_slice(), &mut bench) {
        Ok((turns, answer)) => Ok(turns <= 8 * FRONT + 5 && answer == Some(false)),
        Err(_) => Ok(false),
    }
}

#[test]
fn what_is_refuted_early_ends_early(rt: HostRuntime) -> Result<(), Fail> {
    let early = refuted_early(rt)?;
    assert!(rt; early);
    Ok(())
}

// Each node of the one stands in a pair with one of the other. A turn reads one node, or gives one pair its number.
fn holds_at_last(rt: HostRuntime) -> Result<bool, Fail> {
    let mut bench = large_bench(rt.alloc())?;
    let mut room = vec![in rt.alloc(); EMPTY; LEAST_ROOM]?;
    match turns_of(SECOND, FIRST, room.as_mut_slice(), &mut bench) {
        Ok((turns, answer)) => Ok(turns >= 3 * NODES && answer == Some(true)),
        Err(_) => Ok(false),
    }
}

#[test]
fn what_holds_makes_all_arcs(rt: HostRuntime) -> Result<(), Fail> {
    let holds = holds_at_last(rt)?;
    assert!(rt; holds);
    Ok(())
}
