//! Diagrams of random tables, beside the canonical files that the tables have.
ghost use Rattle.std.specs.Prelude.{◌≤◌};

use crate::diagrams::{Sharing, diagram_of};
use crate::reducing::{LEAST_ROOM, OUT, reduce, write_arcs};
use canon_file::plain_canon;
use case_tables::Random;
use rec_words::Rec;
use shelf_memory::Bench;
use std::test::Fail;

const EMPTY: Rec = Rec { w: [0; 8] };

/// How many tables of each number of variables are reduced.
const TABLES: u64 = 40;

// A diagram of a random table is reduced to the canonical file of the table.
fn leaves_the_file_of(rt: HostRuntime, n: u32, seed: u64) -> Result<bool, Fail>
    requires { n ≤ 20 }
{
    let mut random = Random::new(seed);
    let variables = random.variables();
    let table = random.table(rt.alloc(), n, variables)?;
    let wanted = plain_canon(rt.alloc(), n, table.as_slice())?;
    let (root, arcs) = diagram_of(rt.alloc(), table.as_slice(), Sharing::Random, random)?;
    let mut bench = Bench::empty(rt.alloc());
    let made = write_arcs(root, arcs.as_slice(), &mut bench)?;
    let mut room = vec![in rt.alloc(); EMPTY; LEAST_ROOM]?;
    let count = reduce(n, made, room.as_mut_slice(), &mut bench)?;
    Ok(
        bench.file(OUT) == wanted.as_slice()
            && count == Some((wanted.len() as u64 / 24).saturating_sub(1)),
    )
}

// So are all tables of up to ten variables.
fn leaves_each_file(rt: HostRuntime) -> Result<bool, Fail> {
    for n in 0..11 {
        for seed in 0..TABLES {
            if !leaves_the_file_of(rt, n, 1 + 64 * u64::from(n) + seed)? {
                return Ok(false);
            }
        }
    }
    Ok(true)
}

#[test]
fn leaves_the_canonical_file_of_each_table(rt: HostRuntime) -> Result<(), Fail> {
    let leaves = leaves_each_file(rt)?;
    assert!(rt; leaves);
    Ok(())
}
