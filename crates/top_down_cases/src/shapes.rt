//! Operands that are equal, constant, or of different variables.
ghost use Rattle.std.specs.Prelude.{◌≤◌, length};
ghost use Rattle.top_down_cases.specs.declared.sweeping.TheConstants.{LEAST_ROOM};

use crate::meant::Meant;
use crate::sweeping::{EMPTY, LEAST_ROOM, ONE, THREE};
use case_tables::{Random, bench_of};
use rec_words::Rec;
use shelf_model::FileNo;
use std::alloc::Global;
use std::test::Fail;

const VARIABLES: u32 = 6;

/// Which variables two tables depend on, as bits of their places: those of every second level, those of the last
/// levels and of the first ones, and none.
const PAIRS: &[(usize, usize)] = &[
    (0b101010, 0b010101),
    (0b000111, 0b111000),
    (0b111111, 0b100000),
    (0b000001, 0b111111),
    (0b000000, 0b111111),
    (0b000000, 0b000000),
];

// All operators on the first two of three tables, and the choice between them, leave the canonical files.
fn leave_files(
    alloc: Global,
    operands: [FileNo; 3],
    tables: [&[bool]; 3],
    room: &mut [Rec],
) -> Result<bool, Fail>
    requires enough { LEAST_ROOM ≤ length room.old }
{
    let mut bench = bench_of(alloc, VARIABLES, tables)?;
    for digits in 0..16 {
        let meant = Meant::Operator(digits);
        if !meant.leaves(alloc, VARIABLES, operands, tables, room, &mut bench)? {
            return Ok(false);
        }
    }
    Meant::Choice.leaves(alloc, VARIABLES, operands, tables, room, &mut bench)
}

// So do those on two random tables of a seed that depend on these variables, and on one table that stands three times.
fn leave_files_of(
    alloc: Global,
    left: usize,
    right: usize,
    seed: u64,
    room: &mut [Rec],
) -> Result<bool, Fail>
    requires enough { LEAST_ROOM ≤ length room.old }
{
    let mut random = Random::new(seed);
    let first = random.table(alloc, VARIABLES, left)?;
    let second = random.table(alloc, VARIABLES, right)?;
    let (f, g) = (first.as_slice(), second.as_slice());
    let two = leave_files(alloc, THREE, [f, g, f], room)?;
    Ok(two && leave_files(alloc, ONE, [f, f, f], room)?)
}

// The variables and the seed of the first tables whose operations don't leave the canonical files.
fn first_wrong(alloc: Global) -> Result<Option<(usize, usize, u64)>, Fail> {
    let mut records = vec![in alloc; EMPTY; LEAST_ROOM]?;
    let room = records.as_mut_slice();
    for (left, right) in PAIRS {
        for seed in 0..8 {
            if !leave_files_of(alloc, *left, *right, seed, room)? {
                return Ok(Some((*left, *right, seed)));
            }
        }
    }
    Ok(None)
}

#[test]
fn operands_of_each_shape_leave_the_canonical_files(rt: HostRuntime) -> Result<(), Fail> {
    let wrong = first_wrong(rt.alloc())?;
    assert!(rt; wrong.is_none(), "{wrong:?}");
    Ok(())
}
