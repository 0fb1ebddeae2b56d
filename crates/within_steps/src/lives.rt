//! Lives of a step: it begins or goes on, and ends or is stopped.
use crate::folders::stop;
use crate::steps::Request;
use catalogue::{Entry, look};
use file_numbers::{STEP_GATE, checkpoint_gate, node_file};
use rec_words::Rec;
use shelf_memory::{Bench, Choice};
use shelf_model::SortFault;
use std::alloc::Global;
use std::test::Fail;
use step_engine::run_step;

/// How many records a room has at least, and at most.
pub(crate) const LEAST_ROOM: usize = 16_384;

pub(crate) const MOST_ROOM: usize = 4_194_304;

pub(crate) const EMPTY: Rec = Rec { w: [0; 8] };

/// What a life came to: the step's entry, and how many calls it made.
#[derive(Clone, Copy, PartialEq)]
pub(crate) struct Lived {
    pub(crate) entry: Entry,
    pub(crate) calls: u64,
}

/// Runs a step, behind those that are committed. Where a number of calls is given, all calls behind that many fail. A
/// room that no run has is refused here, so that no case has to show that it has another one.
pub(crate) fn live(
    request: &Request,
    most: Option<u64>,
    room: &mut [Rec],
    bench: &mut Bench,
) -> Result<Lived, SortFault> {
    if room.len() < LEAST_ROOM || room.len() > MOST_ROOM {
        return Err(SortFault::RunsSpent);
    }
    // A step is run behind those that are committed.
    let standing = look(bench)?;
    if standing.done < request.number {
        return Err(SortFault::Damaged {
            file: STEP_GATE,
            at: u64::from(standing.done),
        });
    }
    let before = bench.clock();
    if let Some(calls) = most {
        bench.fail_from(before.saturating_add(calls));
    }
    let number = request.number;
    let entry = run_step(
        request.n,
        request.text,
        &request.planned,
        number,
        room,
        bench,
    )?;
    Ok(Lived {
        entry,
        calls: bench.clock().wrapping_sub(before),
    })
}

/// A step that nothing stopped: what its life came to, and the folder.
#[derive(Drop)]
pub(crate) struct Whole {
    pub(crate) lived: Lived,
    pub(crate) bench: Bench,
}

/// The step in that folder, where nothing stops it.
pub(crate) fn whole_in(request: &Request, room: &mut [Rec], bench: Bench) -> Result<Whole, Fail> {
    let mut bench = bench;
    let lived = live(request, None, room, &mut bench)?;
    Ok(Whole { lived, bench })
}

/// Whether a life of the step in that folder is stopped for the folder, where all calls behind so many fail.
pub(crate) fn is_stopped(
    request: &Request,
    calls: u64,
    room: &mut [Rec],
    bench: &mut Bench,
) -> bool {
    matches!(
        live(request, Some(calls), room, bench),
        Err(SortFault::Shelf)
    )
}

/// Whether the step in that folder is stopped once its gate counts so many checkpoints, and the stop leaves as many of
/// them. From here on the folder is what the stop leaves.
pub(crate) fn is_saved(
    alloc: Global,
    request: &Request,
    saves: u64,
    choice: Choice,
    room: &mut [Rec],
    bench: &mut Bench,
) -> Result<bool, Fail> {
    let gate = checkpoint_gate(request.number);
    bench.fail_when(gate, saves);
    let stopped = live(request, None, room, bench).err() == Some(SortFault::Shelf);
    stop(alloc, choice, bench)?;
    Ok(stopped && bench.file(gate).len() as u64 == saves)
}

/// What a life of the step in that folder came to, where it ends with the entry and the file of one that nothing
/// stopped.
pub(crate) fn ends_like(
    request: &Request,
    whole: &Whole,
    room: &mut [Rec],
    bench: &mut Bench,
) -> Option<Lived> {
    let Ok(lived) = live(request, None, room, bench) else {
        return None;
    };
    let f = node_file(request.number);
    if lived.entry == whole.lived.entry && bench.file(f) == whole.bench.file(f) {
        Some(lived)
    } else {
        None
    }
}
