//! Lives of sweeps that make arcs, and of those that reduce them.
ghost use Rattle.std.specs.Prelude.{◌≡◌, ◌≤◌, ◌^◌, length};

use crate::driven::live;
use crate::life::{ENDS, INNER, Lived, OUT, PARTS, STEP, Way, life_end};
use arc_file::Unreduced;
use case_tables::{FIRST, SECOND, THIRD};
use product_sweep::LeqSweep;
use rec_words::Rec;
use reduce_sweep::ReduceSweep;
use run_tiers::Parts;
use shelf_memory::Bench;
use shelf_model::SortFault;
use sweep_checkpoint::Going;
use sweep_core::Sweep;
use top_down_sweep::{Files, Operation, Product, TopDownSweep};

const FILES: Files = Files {
    first: FIRST,
    second: SECOND,
    third: THIRD,
    inner: INNER,
    ends: ENDS,
};

/// The parts from the files of arcs on, which an implication takes itself.
const FROM_ARCS: Parts = Parts { step: 7, next: 3 };

/// An operation on tables of n variables. None is answered where the checkpoint isn't one of such an operation.
pub fn operate<O: Operation>(
    operation: O,
    n: u32,
    way: Way,
    going: &mut Going,
    room: &mut [Rec],
    bench: &mut Bench,
) -> Result<Option<Lived>, SortFault>
    requires room { 16384 ≤ length room.old }
    requires step { going.old.step ≡ 7 }
    requires sweep { going.old.sweep ≤ 1 }
{
    let Some(point) = going.last else {
        let mut sweep = TopDownSweep::start(operation, n, FILES, PARTS, room, bench)?;
        let turn = live(&mut sweep, way, going, bench)?;
        return life_end(turn, None, going);
    };
    if !TopDownSweep::<O>::fits(&point) || point.step != STEP {
        return Ok(None);
    }
    let mut sweep = TopDownSweep::<O>::rebuild(&point, &[], room, bench)?;
    let turn = live(&mut sweep, way, going, bench)?;
    life_end(turn, None, going)
}

/// Whether the first table implies the second one. None is answered where the checkpoint isn't one of an operator.
pub fn imply(
    n: u32,
    way: Way,
    going: &mut Going,
    room: &mut [Rec],
    bench: &mut Bench,
) -> Result<Option<Lived>, SortFault>
    requires room { 16384 ≤ length room.old }
    requires step { going.old.step ≡ 7 }
    requires sweep { going.old.sweep ≤ 1 }
{
    let Some(point) = going.last else {
        let mut sweep = LeqSweep::start(n, FIRST, SECOND, FROM_ARCS, room, bench)?;
        let turn = live(&mut sweep, way, going, bench)?;
        return life_end(turn, sweep.answer(), going);
    };
    if !TopDownSweep::<Product>::fits(&point) || point.step != STEP {
        return Ok(None);
    }
    let mut sweep = LeqSweep::rebuild(&point, &[], room, bench)?;
    let turn = live(&mut sweep, way, going, bench)?;
    life_end(turn, sweep.answer(), going)
}

/// A reduction of arcs of n levels. None is answered where the checkpoint isn't one of a reduction.
pub fn reduce(
    n: u32,
    made: Unreduced,
    way: Way,
    going: &mut Going,
    room: &mut [Rec],
    bench: &mut Bench,
) -> Result<Option<Lived>, SortFault>
    requires room { 16384 ≤ length room.old }
    requires step { going.old.step ≡ 7 }
    requires sweep { going.old.sweep ≤ 1 }
    requires levels { n ≤ 16 }
    requires files { (made.inner ≡ INNER) × (made.ends ≡ ENDS) }
    requires few { (made.inner_count ≤ 2 ^ 46) × (made.ends_count ≤ 2 ^ 46) }
{
    let Some(point) = going.last else {
        let mut sweep = ReduceSweep::start(n, made, OUT, PARTS, room, bench)?;
        let turn = live(&mut sweep, way, going, bench)?;
        return life_end(turn, None, going);
    };
    if !ReduceSweep::fits(&point) || point.step != STEP {
        return Ok(None);
    }
    let mut sweep = ReduceSweep::rebuild(&point, &[], room, bench)?;
    let turn = live(&mut sweep, way, going, bench)?;
    life_end(turn, None, going)
}
