//! Sweeps over the canonical files of tables, whose arcs are reduced.
ghost use Rattle.std.specs.Prelude.{◌≤◌, length};
ghost use Rattle.top_down_cases.specs.declared.sweeping.TheConstants.{LEAST_ROOM};

use arc_file::Unreduced;
use case_tables::{FIRST, SECOND, THIRD, canon_of};
use rec_words::Rec;
use reduce_sweep::ReduceSweep;
use run_merge::Parts;
use shelf_memory::Bench;
use shelf_model::{FileNo, SortFault};
use std::alloc::Global;
use std::test::Fail;
use sweep_core::{Made, Turn, drive, run_some};
use top_down_sweep::{Files, Operation, TopDownSweep};

const INNER: FileNo = FileNo { step: 3, part: 3 };

const ENDS: FileNo = FileNo { step: 3, part: 4 };

const OUT: FileNo = FileNo { step: 3, part: 0 };

/// How many records a sweep needs at least.
pub(crate) const LEAST_ROOM: usize = 16_384;

/// More turns than any sweep of these cases makes.
const MOST_TURNS: u64 = 1_000_000;

pub(crate) const EMPTY: Rec = Rec { w: [0; 8] };

/// The operands of an operation on three diagrams.
pub(crate) const THREE: [FileNo; 3] = [FIRST, SECOND, THIRD];

/// Those of an operation on one.
pub(crate) const ONE: [FileNo; 3] = [FIRST, FIRST, FIRST];

/// The part numbers that are left for a sweep.
pub(crate) const PARTS: Parts = Parts { step: 3, next: 5 };

/// The arcs that a sweep made, how many turns it took, and the part numbers that are left.
#[derive(Clone, Copy)]
pub(crate) struct Arcs {
    pub(crate) made: Unreduced,
    pub(crate) turns: u64,
    pub(crate) parts: Parts,
}

// What a sweep has made behind its turns, where they ended it. One that has ended ends with each further turn.
fn arcs_of(first: Made, rest: Made, made: Option<Unreduced>, parts: Parts) -> Option<Arcs> {
    let more = if first.turn == Turn::More {
        rest.turns
    } else {
        0
    };
    match made {
        Some(made) if rest.turn == Turn::Ended => Some(Arcs {
            made,
            turns: first.turns.saturating_add(more),
            parts,
        }),
        _ => None,
    }
}

/// Drives a sweep to its end, with a pause behind its first turns, so many. None is answered where it takes too many
/// turns.
pub(crate) fn swept<O: Operation>(
    operation: O,
    n: u32,
    operands: [FileNo; 3],
    pause: u64,
    room: &mut [Rec],
    bench: &mut Bench,
) -> Result<Option<Arcs>, SortFault>
    requires enough { LEAST_ROOM ≤ length room.old }
{
    let [first, second, third] = operands;
    let files = Files {
        first,
        second,
        third,
        inner: INNER,
        ends: ENDS,
    };
    let mut sweep = TopDownSweep::start(operation, n, files, PARTS, room, bench)?;
    let first = run_some(&mut sweep, pause, bench)?;
    let rest = run_some(&mut sweep, MOST_TURNS, bench)?;
    Ok(arcs_of(first, rest, sweep.made(), sweep.parts()))
}

/// How many nodes are left of the arcs that a sweep made. None is answered where they or the parts aren't those of the
/// step, or where that takes too many turns.
pub(crate) fn reduce(
    n: u32,
    arcs: &Arcs,
    room: &mut [Rec],
    bench: &mut Bench,
) -> Result<Option<u64>, SortFault>
    requires levels { n ≤ 65535 }
    requires enough { LEAST_ROOM ≤ length room.old }
{
    let (made, parts) = (arcs.made, arcs.parts);
    if made.inner != INNER || made.ends != ENDS || parts.step != PARTS.step {
        return Ok(None);
    }
    if made.inner_count > 1 << 46 || made.ends_count > 1 << 46 || parts.next < PARTS.next {
        return Ok(None);
    }
    let mut sweep = ReduceSweep::start(n, made, OUT, parts, room, bench)?;
    match drive(&mut sweep, MOST_TURNS, bench)? {
        Turn::Ended => Ok(sweep.count()),
        Turn::More => Ok(None),
    }
}

/// How many nodes are left once a sweep's arcs are reduced. None is answered where that takes too many turns.
pub(crate) fn reduced<O: Operation>(
    operation: O,
    n: u32,
    operands: [FileNo; 3],
    room: &mut [Rec],
    bench: &mut Bench,
) -> Result<Option<u64>, SortFault>
    requires levels { n ≤ 65535 }
    requires enough { LEAST_ROOM ≤ length room.old }
{
    match swept(operation, n, operands, 0, room, bench)? {
        Some(arcs) => reduce(n, &arcs, room, bench),
        None => Ok(None),
    }
}

/// Whether the file that was reduced is the canonical one of a table, with that count of its nodes.
pub(crate) fn has_canon_of(
    alloc: Global,
    n: u32,
    wanted: &[bool],
    count: Option<u64>,
    bench: &Bench,
) -> Result<bool, Fail>
    requires few { n ≤ 20 }
{
    let bytes = canon_of(alloc, n, wanted)?;
    let nodes = (bytes.len() as u64 / 24).saturating_sub(1);
    Ok(bench.file(OUT) == bytes.as_slice() && count == Some(nodes))
}
