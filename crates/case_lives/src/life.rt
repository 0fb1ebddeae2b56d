//! What is done in a life, how it ends, and what it begins with.
ghost use Rattle.std.specs.Prelude.{◌≡◌, ◌≤◌};

use rec_words::Rec;
use run_tiers::{Parts, Run};
use shelf_model::{FileNo, SortFault};
use sweep_checkpoint::Going;
use sweep_core::{Checkpoint, Turn};

/// The step whose sweeps these are.
pub const STEP: u32 = 7;

/// The files that its sweeps make: of nodes, of arcs to nodes, of those to truth values, and of what is copied.
pub const OUT: FileNo = FileNo { step: 7, part: 0 };

pub const INNER: FileNo = FileNo { step: 7, part: 3 };

pub const ENDS: FileNo = FileNo { step: 7, part: 4 };

pub const MADE: FileNo = FileNo { step: 7, part: 3 };

/// The parts behind the files of arcs.
pub(crate) const PARTS: Parts = Parts { step: 7, next: 5 };

/// A record of a room.
pub const EMPTY: Rec = Rec { w: [0; 8] };

/// How many records a room has: as many as any sweep may want, and so many more.
pub fn room_len(more: usize) -> usize
    requires { more ≤ 1000 }
    ensures { 16384 ≤ result }
{
    16_384 + more
}

const NO_RUN: Run = Run {
    part: 0,
    next: 0,
    end: 0,
};

/// What is done in a life.
#[derive(Clone, Copy, Debug, PartialEq, Eq)]
pub enum Way {
    /// At most so many turns, behind which the sweep is saved.
    Saved(u64),
    /// At most so many turns.
    Unsaved(u64),
    /// All turns, with checkpoints at times.
    ToEnd,
}

/// How a life ended: its last turn, the answer if there is one, and the turns that were made in all.
#[derive(Clone, Copy, Debug, PartialEq, Eq)]
pub struct Lived {
    pub turn: Turn,
    pub answer: Option<bool>,
    pub turns: u64,
}

/// How far the sweep of that number has come whose last checkpoint is that one, in a run with that budget.
pub fn going_from(sweep: u32, budget: u32, last: Option<Checkpoint>) -> Going
    ensures step { result.step ≡ 7 }
    ensures sweep { result.sweep ≡ sweep }
{
    let turns = match &last {
        Some(point) => point.turns,
        None => 0,
    };
    Going {
        step: STEP,
        sweep,
        budget,
        turns,
        shown: turns,
        last,
    }
}

// A checkpoint of that moment, which the sweep fills.
pub(crate) fn unfilled(going: &Going) -> Checkpoint
    ensures { result.step ≡ going.now.step }
{
    Checkpoint {
        step: going.step,
        sweep: going.sweep,
        turns: going.turns,
        next_part: 0,
        budget: going.budget,
        tables: 1,
        carry: [1; 250],
        runs: [[NO_RUN; 64]; 9],
    }
}

// How a life ended.
pub(crate) fn life_end(
    turn: Turn,
    answer: Option<bool>,
    going: &Going,
) -> Result<Option<Lived>, SortFault> {
    Ok(Some(Lived {
        turn,
        answer,
        turns: going.turns,
    }))
}
