//! Sweeps that run to their end with checkpoints at times, where each call fails in turn, and a stop comes behind it.
ghost use Rattle.std.specs.Prelude.{◌≤◌, length};

use crate::lives::live_on;
use crate::plans::{Case, FEW, PLANS, Plan};
use crate::saved::turns_of;
use case_lives::{EMPTY, Lived, Way, room_len};
use rec_words::Rec;
use shelf_memory::Choice;
use shelf_model::SortFault;
use std::alloc::Global;
use std::test::Fail;
use sweep_core::Turn;

/// Each sweep here makes fewer calls.
const MOST_CALLS: u64 = 2000;

/// Behind how many turns a checkpoint is due, and behind how many in the life that goes on behind a stop.
const INTERVALS: [(u32, u32); 3] = [(1, 3), (3, 5), (5, 1)];

// How a sweep ends that nothing stops any more.
fn ended(case: &Case, turns: u64) -> Lived {
    Lived {
        turn: Turn::Ended,
        answer: Some(case.wanted),
        turns,
    }
}

// Whether a sweep runs to its end with each interval.
fn runs(alloc: Global, plan: Plan) -> Result<bool, Fail> {
    let case = plan.case(alloc)?;
    let mut records = vec![in alloc; EMPTY; room_len(0)]?;
    let room = records.as_mut_slice();
    let wanted = ended(&case, turns_of(alloc, &case, room)?);
    for interval in [1, 3, 5] {
        let mut bench = case.bench(alloc)?;
        let lived = live_on(&case, Way::ToEnd, interval, room, &mut bench)?;
        if lived != Some(wanted) {
            return Ok(false);
        }
    }
    Ok(true)
}

#[test]
fn a_sweep_with_checkpoints_runs_to_its_end(rt: HostRuntime) -> Result<(), Fail> {
    for plan in PLANS {
        let runs = runs(rt.alloc(), plan)?;
        assert!(rt; runs, "{plan:?}");
    }
    Ok(())
}

/// What comes of a run in which a call may fail.
#[derive(Clone, Copy, Debug, PartialEq, Eq)]
enum Outcome {
    /// No call failed, and it ended as it has to.
    Through,
    /// A call failed, and what a stop left behind it ended as it has to.
    CutShort,
    /// Anything else.
    Wrong,
}

// What comes of it where the call of that number fails. What a stop leaves goes on in the other room, with the other
// interval.
fn run_with(
    alloc: Global,
    case: &Case,
    intervals: (u32, u32),
    wanted: Lived,
    failing: (u64, Choice),
    room: &mut [Rec],
    other: &mut [Rec],
) -> Result<Outcome, Fail>
    requires room { 16384 ≤ length room.old }
    requires other { 16384 ≤ length other.old }
{
    let (call, choice) = failing;
    let mut bench = case.bench(alloc)?;
    bench.fail_at(call)?;
    match live_on(case, Way::ToEnd, intervals.0, room, &mut bench) {
        Ok(lived) if lived == Some(wanted) && bench.clock() <= call => return Ok(Outcome::Through),
        Err(SortFault::Shelf) => {}
        _ => return Ok(Outcome::Wrong),
    }
    let mut next = bench.stop(choice)?;
    let lived = live_on(case, Way::ToEnd, intervals.1, other, &mut next)?;
    if lived == Some(wanted) {
        Ok(Outcome::CutShort)
    } else {
        Ok(Outcome::Wrong)
    }
}

// The first call and stop behind which a sweep doesn't end as it has to; or the call behind the last one.
fn wrong_call(
    alloc: Global,
    case: &Case,
    intervals: (u32, u32),
    room: &mut [Rec],
    other: &mut [Rec],
) -> Result<Option<(u64, Choice)>, Fail>
    requires room { 16384 ≤ length room.old }
    requires other { 16384 ≤ length other.old }
{
    let wanted = ended(case, turns_of(alloc, case, room)?);
    for call in 0..MOST_CALLS {
        for choice in [Choice::Firm, Choice::Present, Choice::Mixed(call)] {
            match run_with(alloc, case, intervals, wanted, (call, choice), room, other)? {
                Outcome::CutShort => {}
                Outcome::Through if call > 2 => return Ok(None),
                _ => return Ok(Some((call, choice))),
            }
        }
    }
    Ok(Some((MOST_CALLS, Choice::Firm)))
}

// The same with each pair of intervals.
fn wrong_interval(alloc: Global, plan: Plan) -> Result<Option<(u64, Choice)>, Fail> {
    let case = plan.case(alloc)?;
    let mut records = vec![in alloc; EMPTY; room_len(0)]?;
    let room = records.as_mut_slice();
    let mut more = vec![in alloc; EMPTY; room_len(116)]?;
    let other = more.as_mut_slice();
    for intervals in INTERVALS {
        let wrong = wrong_call(alloc, &case, intervals, room, other)?;
        if wrong.is_some() {
            return Ok(wrong);
        }
    }
    Ok(None)
}

#[test]
fn a_sweep_goes_on_behind_each_call_that_fails(rt: HostRuntime) -> Result<(), Fail> {
    for plan in FEW {
        let wrong = wrong_interval(rt.alloc(), plan)?;
        assert!(rt; wrong.is_none(), "{plan:?}, {wrong:?}");
    }
    Ok(())
}
