//! The canonical files of tables, as operands and as what is left once arcs are reduced.
ghost use Rattle.std.specs.Prelude.{◌≤◌, length};
ghost use Rattle.operation_cases.specs.declared.reducing.TheConstants.{LEAST_ROOM};

use arc_file::Unreduced;
use canon_file::plain_canon;
use rec_words::Rec;
use reduce_sweep::ReduceSweep;
use run_merge::Parts;
use shelf_memory::Bench;
use shelf_model::{FileNo, SortFault};
use std::alloc::Global;
use std::test::Fail;
use sweep_core::{Turn, drive};

/// How many variables there are.
pub(crate) const VARIABLES: u32 = 3;

pub(crate) const FIRST: FileNo = FileNo { step: 0, part: 0 };

pub(crate) const SECOND: FileNo = FileNo { step: 1, part: 0 };

pub(crate) const THIRD: FileNo = FileNo { step: 2, part: 0 };

/// The part numbers of the step, of which the first two are the files of arcs.
pub(crate) const PARTS: Parts = Parts { step: 3, next: 3 };

const INNER: FileNo = FileNo { step: 3, part: 3 };

const ENDS: FileNo = FileNo { step: 3, part: 4 };

const OUT: FileNo = FileNo { step: 3, part: 0 };

/// The part numbers of another step, for the lists of the reduction.
const OTHER_PARTS: Parts = Parts { step: 4, next: 3 };

/// More arcs and more turns than there are.
const MANY: u64 = 1_000;

/// How many records a sweep needs at least.
pub(crate) const LEAST_ROOM: usize = 16_384;

pub(crate) const EMPTY: Rec = Rec { w: [0; 8] };

/// Puts the canonical file of a table, which has eight places.
fn put_table(
    alloc: Global,
    file: FileNo,
    table: &[bool; 8],
    bench: &mut Bench,
) -> Result<(), Fail> {
    let bytes = plain_canon(alloc, VARIABLES, table)?;
    if bytes.len() <= 1 << 40 {
        bench.put_file(file, bytes.as_slice())?;
    }
    Ok(())
}

/// A bench whose files are the canonical ones of three tables.
pub(crate) fn bench_of(alloc: Global, tables: &[[bool; 8]; 3]) -> Result<Bench, Fail> {
    let mut bench = Bench::empty(alloc);
    put_table(alloc, FIRST, &tables[0], &mut bench)?;
    put_table(alloc, SECOND, &tables[1], &mut bench)?;
    put_table(alloc, THIRD, &tables[2], &mut bench)?;
    Ok(bench)
}

/// Whether arcs, once they are reduced, leave the canonical file of a table.
pub(crate) fn leaves(
    alloc: Global,
    wanted: &[bool; 8],
    made: Option<Unreduced>,
    room: &mut [Rec],
    bench: &mut Bench,
) -> Result<bool, Fail>
    requires enough { LEAST_ROOM ≤ length room.old }
{
    let bytes = plain_canon(alloc, VARIABLES, wanted)?;
    match reduced(made, room, bench) {
        Ok(true) => Ok(bench.file(OUT) == bytes.as_slice()),
        Ok(false) => Ok(false),
        Err(_) => Ok(false),
    }
}

// Whether arcs that stand in the first two parts are reduced in time.
fn reduced(made: Option<Unreduced>, room: &mut [Rec], bench: &mut Bench) -> Result<bool, SortFault>
    requires enough { LEAST_ROOM ≤ length room.old }
{
    let Some(made) = made else {
        return Ok(false);
    };
    if made.inner != INNER
        || made.ends != ENDS
        || made.inner_count > MANY
        || made.ends_count > MANY
    {
        return Ok(false);
    }
    let mut sweep = ReduceSweep::start(VARIABLES, made, OUT, OTHER_PARTS, room, bench)?;
    Ok(drive(&mut sweep, MANY, bench)? == Turn::Ended)
}
