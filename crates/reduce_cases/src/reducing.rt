//! The writing of arcs, and their reduction in so many turns.
ghost use Rattle.std.specs.Prelude.{◌≡◌, ◌≤◌, ◌^◌, IfOk, length};
ghost use Rattle.reduce_cases.specs.declared.reducing.TheConstants.{INNER, ENDS, LEAST_ROOM};

use arc_file::{Arc, ArcWriter, Unreduced};
use rec_words::{Ptr, Rec};
use reduce_sweep::ReduceSweep;
use run_merge::Parts;
use shelf_model::{FileNo, Shelf, SortFault, StreamFault};
use sweep_core::{Turn, drive};

pub(crate) const INNER: FileNo = FileNo { step: 2, part: 3 };

pub(crate) const ENDS: FileNo = FileNo { step: 2, part: 4 };

pub(crate) const OUT: FileNo = FileNo { step: 2, part: 0 };

/// How many records a reduction needs at least.
pub(crate) const LEAST_ROOM: usize = 16_384;

const EMPTY: Rec = Rec { w: [0; 8] };

/// Writes arcs into two files. Arcs in the order of both may be reduced.
pub(crate) fn write_arcs<S: Shelf>(
    root: Ptr,
    arcs: &[Arc],
    shelf: &mut S,
) -> Result<Unreduced, StreamFault>
    ensures files { IfOk result (λ made. (made.inner ≡ INNER) × (made.ends ≡ ENDS)) }
    ensures few { IfOk result (λ made. (made.inner_count ≤ 2 ^ 46) × (made.ends_count ≤ 2 ^ 46)) }
{
    let mut window = [EMPTY; 32];
    let mut writer = ArcWriter::start(INNER, ENDS, &mut window, shelf)?;
    for arc in arcs {
        writer.put(*arc, shelf)?;
    }
    writer.settle(root, shelf)
}

/// Reduces a diagram of `n` variables, and answers how many nodes are left. None is answered where that takes more
/// than eight turns for each source, and eight.
pub(crate) fn reduce<S: Shelf>(
    n: u32,
    made: Unreduced,
    room: &mut [Rec],
    shelf: &mut S,
) -> Result<Option<u64>, SortFault>
    requires levels { n ≤ 65535 }
    requires enough { LEAST_ROOM ≤ length room.old }
    requires files { (made.inner ≡ INNER) × (made.ends ≡ ENDS) }
    requires few { (made.inner_count ≤ 2 ^ 46) × (made.ends_count ≤ 2 ^ 46) }
{
    let (count, _taken) = reduce_and_tell(n, made, room, shelf)?;
    Ok(count)
}

/// The same, and how many parts were taken.
pub(crate) fn reduce_and_tell<S: Shelf>(
    n: u32,
    made: Unreduced,
    room: &mut [Rec],
    shelf: &mut S,
) -> Result<(Option<u64>, u64), SortFault>
    requires levels { n ≤ 65535 }
    requires enough { LEAST_ROOM ≤ length room.old }
    requires files { (made.inner ≡ INNER) × (made.ends ≡ ENDS) }
    requires few { (made.inner_count ≤ 2 ^ 46) × (made.ends_count ≤ 2 ^ 46) }
{
    let sources = (made.inner_count + made.ends_count) / 2;
    let parts = Parts { step: 2, next: 5 };
    let mut sweep = ReduceSweep::start(n, made, OUT, parts, room, shelf)?;
    let turn = drive(&mut sweep, 8 * sources + 8, shelf)?;
    let taken = sweep.parts().next.saturating_sub(5);
    match turn {
        Turn::Ended => Ok((sweep.count(), taken)),
        Turn::More => Ok((None, taken)),
    }
}
