//! Lives of sweeps that answer or copy, and keep no runs.
ghost use Rattle.std.specs.Prelude.{◌≡◌, ◌≤◌, length};

use crate::driven::live;
use crate::life::{Lived, MADE, PARTS, STEP, Way, life_end};
use case_tables::{FIRST, SECOND};
use copy_sweep::{CopySweep, CopyTask};
use rec_words::Rec;
use restrict_eval::{EvalSweep, SameSweep};
use shelf_memory::Bench;
use shelf_model::SortFault;
use sweep_checkpoint::Going;
use sweep_core::{Sweep, Turn};

/// Where the bits of an evaluation stand in its text.
pub const TEXT_AT: u32 = 5;

/// A comparison of the first two tables. None is answered where the checkpoint isn't one of a comparison.
pub fn compare(
    n: u32,
    way: Way,
    going: &mut Going,
    room: &mut [Rec],
    bench: &mut Bench,
) -> Result<Option<Lived>, SortFault>
    requires room { 16384 ≤ length room.old }
    requires step { going.old.step ≡ 7 }
    requires sweep { going.old.sweep ≤ 1 }
{
    let Some(point) = going.last else {
        let mut sweep = SameSweep::start(n, FIRST, SECOND, PARTS, room, bench)?;
        let turn = live(&mut sweep, way, going, bench)?;
        return life_end(turn, sweep.answer(), going);
    };
    if !SameSweep::fits(&point) || point.step != STEP {
        return Ok(None);
    }
    let mut sweep = SameSweep::rebuild(&point, &[], room, bench)?;
    let turn = live(&mut sweep, way, going, bench)?;
    life_end(turn, sweep.answer(), going)
}

/// An evaluation of the first table. None is answered where the checkpoint isn't one of an evaluation over that text.
pub fn evaluate(
    n: u32,
    text: &[u8],
    way: Way,
    going: &mut Going,
    room: &mut [Rec],
    bench: &mut Bench,
) -> Result<Option<Lived>, SortFault>
    requires room { 16384 ≤ length room.old }
    requires step { going.old.step ≡ 7 }
    requires sweep { going.old.sweep ≤ 1 }
    requires few { n ≤ 12 }
{
    if text.len() < 5 + n as usize {
        return Ok(None);
    }
    let Some(point) = going.last else {
        let mut sweep = EvalSweep::start(n, FIRST, text, TEXT_AT, PARTS, room, bench)?;
        let turn = live(&mut sweep, way, going, bench)?;
        return life_end(turn, sweep.answer(), going);
    };
    if !EvalSweep::fits(&point, text) || point.step != STEP {
        return Ok(None);
    }
    let mut sweep = EvalSweep::rebuild(&point, text, room, bench)?;
    let turn = live(&mut sweep, way, going, bench)?;
    life_end(turn, sweep.answer(), going)
}

// Whether a copy that has ended has made the bytes that it has to make.
fn copied(turn: Turn, bench: &Bench) -> Option<bool> {
    if turn == Turn::Ended {
        Some(bench.file(MADE) == bench.file(SECOND))
    } else {
        None
    }
}

/// A copy of the first file. Its answer is whether it made the bytes of the second one. None is answered where the
/// checkpoint isn't one of a copy.
pub fn copy(
    pieces: u64,
    way: Way,
    going: &mut Going,
    room: &mut [Rec],
    bench: &mut Bench,
) -> Result<Option<Lived>, SortFault>
    requires room { 16384 ≤ length room.old }
    requires step { going.old.step ≡ 7 }
    requires sweep { going.old.sweep ≤ 1 }
{
    let Some(point) = going.last else {
        let task = CopyTask {
            from: FIRST,
            to: MADE,
            pieces: pieces.min(100),
        };
        let mut sweep = CopySweep::start(task, PARTS, bench)?;
        let turn = live(&mut sweep, way, going, bench)?;
        return life_end(turn, copied(turn, bench), going);
    };
    if !CopySweep::fits(&point) || point.step != STEP {
        return Ok(None);
    }
    let mut sweep = CopySweep::rebuild(&point, &[], room, bench)?;
    let turn = live(&mut sweep, way, going, bench)?;
    life_end(turn, copied(turn, bench), going)
}
