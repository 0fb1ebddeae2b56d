//! A sweep of which more asks wait than its room has records for.
ghost use Rattle.std.specs.Prelude.{◌≤◌, length};
ghost use Rattle.top_down_cases.specs.declared.sweeping.TheConstants.{LEAST_ROOM};

use crate::sweeping::{EMPTY, LEAST_ROOM, PARTS, THREE, has_canon_of, reduce, swept};
use case_tables::{Random, bench_of, operator, product_of};
use rec_words::Rec;
use shelf_memory::Bench;
use std::alloc::Global;
use std::test::Fail;
use top_down_sweep::Product;

const VARIABLES: u32 = 16;

/// The exclusive or.
const DIFFER: u32 = 0b0110;

// Whether the exclusive or of the first two files takes parts, and leaves the canonical file of a table.
fn leaves_with_runs(
    alloc: Global,
    wanted: &[bool],
    room: &mut [Rec],
    bench: &mut Bench,
) -> Result<bool, Fail>
    requires { LEAST_ROOM ≤ length room.old }
{
    let op = operator(DIFFER);
    let Some(arcs) = swept(Product { op }, VARIABLES, THREE, 0, room, bench)? else {
        return Ok(false);
    };
    let count = reduce(VARIABLES, &arcs, room, bench)?;
    let is_canon = has_canon_of(alloc, VARIABLES, wanted, count, bench)?;
    Ok(is_canon && PARTS.next < arcs.parts.next)
}

// The exclusive or of two random functions takes parts, and leaves the canonical file.
//
// It has 2^13 pairs of functions of the last three variables. Of these 7,701 differ and have a node of the level, and
// they ask for 15,164 pairs of the next level, before the first of those is answered. Of the least room the queue has
// 15,864 records: 2,080 for the windows of its runs, and 13,784 for asks.
fn random_functions_leave(alloc: Global) -> Result<bool, Fail> {
    let mut random = Random::new(1);
    let first = random.table(alloc, VARIABLES, usize::MAX)?;
    let second = random.table(alloc, VARIABLES, usize::MAX)?;
    let (f, g) = (first.as_slice(), second.as_slice());
    let wanted = product_of(alloc, DIFFER, f, g)?;
    let mut bench = bench_of(alloc, VARIABLES, [f, g, f])?;
    let mut room = vec![in alloc; EMPTY; LEAST_ROOM]?;
    leaves_with_runs(alloc, wanted.as_slice(), room.as_mut_slice(), &mut bench)
}

#[test]
fn a_sweep_with_runs_leaves_the_canonical_file(rt: HostRuntime) -> Result<(), Fail> {
    let leaves = random_functions_leave(rt.alloc())?;
    assert!(rt; leaves);
    Ok(())
}
