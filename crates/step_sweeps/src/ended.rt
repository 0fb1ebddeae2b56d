//! The checkpoint of a diagram that the room made.
ghost use Rattle.std.specs.Prelude.{◌≡◌, ◌-◌, ◌^◌, ◌≤◌, IsTrue};
ghost use Rattle.step_sweeps.specs.Ended.{MayBeKept, KeepsMade};

use crate::task::Making;
use file_numbers::node_file;
use reduce_sweep::ended_point;
use run_tiers::Run;
use shelf_model::{Shelf, StreamFault};
use sweep_checkpoint::{Going, save};
use sweep_core::Checkpoint;

/// How many arcs a turn of the room stands for: those of two sources, and a sweep reads each in a turn of its own.
const ARCS_A_TURN: u64 = 4;

/// A checkpoint tells of fewer nodes.
const NODES_END: u64 = 1 << 46;

/// From so many turns on a step isn't saved any more.
const TURNS_END: u64 = 1 << 61;

// A slot without a run.
const NO_RUN: Run = Run {
    part: 0,
    next: 0,
    end: 0,
};

/// Saves that the step's diagram has so many nodes, for which the room took so many turns, and that part numbers are
/// taken from that one on, as a reduction that has ended, where this is due. The step's node file has to be sure.
pub(crate) fn keep_if_due<S: Shelf>(
    making: Making,
    turns: u64,
    nodes: u64,
    next_part: u64,
    going: &Going,
    shelf: &mut S,
) -> Result<(), StreamFault>
    requires parts { (3 ≤ next_part) × (next_part ≤ 2 ^ 32) }
    ensures keeps { KeepsMade S.tells S.world S.faults making nodes next_part going.now
        shelf.old shelf.new result }
{
    if !is_due(turns, nodes, next_part, going) {
        return Ok(());
    }
    keep_made(making, nodes, next_part, going, shelf)
}

// Whether that is saved: where a sweep would have reduced as many arcs in no fewer turns than an interval has, or so
// many turns are behind the last checkpoint; and where few part numbers were taken for the turns, as each checkpoint
// has to show.
fn is_due(turns: u64, nodes: u64, next_part: u64, going: &Going) -> bool
    ensures { IsTrue result → MayBeKept nodes next_part going.now }
{
    let interval = going.interval();
    (turns.saturating_mul(ARCS_A_TURN) >= interval || going.since() >= interval)
        && nodes < NODES_END
        && next_part <= 512 + shown(going) / 16
        && going.turns < TURNS_END
}

// The turns that it shows: the last one ends the reduction, and whoever goes on makes it again.
fn shown(going: &Going) -> u64
    ensures { result ≡ going.now.turns - 1 }
{
    going.turns.saturating_sub(1)
}

// Saves it.
fn keep_made<S: Shelf>(
    making: Making,
    nodes: u64,
    next_part: u64,
    going: &Going,
    shelf: &mut S,
) -> Result<(), StreamFault>
    requires parts { (3 ≤ next_part) × (next_part ≤ 2 ^ 32) }
    requires may { MayBeKept nodes next_part going.now }
    ensures keeps { KeepsMade S.tells S.world S.faults making nodes next_part going.now
        shelf.old shelf.new result }
{
    let mut point = Checkpoint {
        step: making.number,
        sweep: 1,
        turns: shown(going),
        next_part: 0,
        budget: going.records(),
        tables: 0,
        carry: [0; 250],
        runs: [[NO_RUN; 64]; 9],
    };
    let out = node_file(making.number);
    ended_point(&mut point, out, making.n, nodes, next_part);
    save(&point, shelf)
}
