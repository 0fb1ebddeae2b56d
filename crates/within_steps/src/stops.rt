//! Steps that are stopped at many of their calls.
ghost use Rattle.std.specs.Prelude.{◌<◌};

use crate::folders::{copied, folder_of, stop};
use crate::lives::{EMPTY, LEAST_ROOM, Whole, ends_like, is_stopped, whole_in};
use crate::steps::{NUMBER, Request, Tried};
use rec_words::Rec;
use shelf_memory::{Bench, Choice};
use std::alloc::Global;
use std::process::Abort;
use std::test::Fail;

/// Which image a stop leaves, and which one the next stop does.
pub(crate) const STOPS: [(Choice, Choice); 6] = [
    (Choice::Firm, Choice::Present),
    (Choice::Present, Choice::Fill(255)),
    (Choice::Fill(255), Choice::Mixed(0)),
    (Choice::Mixed(0), Choice::Mixed(1)),
    (Choice::Mixed(1), Choice::Mixed(2)),
    (Choice::Mixed(2), Choice::Firm),
];

/// How many calls lie between two stops of the conjunction, and of the other steps. `checks/every_stop` tries fewer.
const FAR_APART: usize = 500;

const APART: usize = 100;

// Whether a step in that folder, behind a stop, ends as one that nothing stops behind one more stop, which comes behind
// so many calls.
fn outlives_another(
    alloc: Global,
    request: &Request,
    whole: &Whole,
    calls: u64,
    choice: Choice,
    room: &mut [Rec],
    bench: &mut Bench,
) -> Result<bool, Fail> {
    let stopped = is_stopped(request, calls, room, bench);
    stop(alloc, choice, bench)?;
    Ok(stopped && ends_like(request, whole, room, bench).is_some())
}

// Whether a step in that folder that is stopped behind so many calls ends as one that nothing stops: where it goes on to
// its end, and where a second stop comes behind half of the calls that were left.
fn outlives(
    alloc: Global,
    request: &Request,
    whole: &Whole,
    calls: u64,
    stops: (Choice, Choice),
    room: &mut [Rec],
    bench: &mut Bench,
) -> Result<bool, Fail> {
    if !is_stopped(request, calls, room, bench) {
        return Ok(false);
    }
    stop(alloc, stops.0, bench)?;
    let mut other = copied(alloc, request.number, bench)?;
    if ends_like(request, whole, room, bench).is_none() {
        return Ok(false);
    }
    let rest = whole.lived.calls.saturating_sub(calls) / 2;
    outlives_another(alloc, request, whole, rest, stops.1, room, &mut other)
}

// The first of a step's calls, from one on and so many apart, at which a stop isn't outlived; or the number of its calls
// where there is none from that one on.
fn first_loss_in(
    alloc: Global,
    request: &Request,
    first: u64,
    apart: usize,
    stops: (Choice, Choice),
    room: &mut [Rec],
    folder: &Bench,
) -> Result<Option<u64>, Fail>
    requires apart { 0 < apart }
{
    let whole = whole_in(request, room, copied(alloc, NUMBER, folder)?)?;
    let calls = whole.lived.calls;
    if calls <= first {
        return Ok(Some(calls));
    }
    for call in (first..calls).step_by(apart) {
        let mut bench = copied(alloc, NUMBER, folder)?;
        if !outlives(alloc, request, &whole, call, stops, room, &mut bench)? {
            return Ok(Some(call));
        }
    }
    Ok(None)
}

// So it is of a step in the least room.
fn first_loss(
    alloc: Global,
    tried: Tried,
    first: u64,
    apart: usize,
    stops: (Choice, Choice),
) -> Result<Option<u64>, Fail>
    requires apart { 0 < apart }
{
    let request = tried.request();
    let folder = folder_of(alloc, tried)?;
    let mut records = vec![in alloc; EMPTY; LEAST_ROOM]?;
    let room = records.as_mut_slice();
    first_loss_in(alloc, &request, first, apart, stops, room, &folder)
}

// The conjunction loses nothing at a stop at one call in each five hundred.
fn conjunction_goes_on(
    rt: &impl Abort,
    alloc: Global,
    first: u64,
    stops: (Choice, Choice),
) -> Result<(), Fail> {
    let first = first % FAR_APART as u64;
    let lost = first_loss(alloc, Tried::Both, first, FAR_APART, stops)?;
    assert!(rt; lost.is_none(), "call {lost:?}");
    Ok(())
}

#[test]
fn a_conjunction_goes_on_from_what_is_sure(rt: HostRuntime) -> Result<(), Fail> {
    conjunction_goes_on(&rt, rt.alloc(), 83, STOPS[0])
}

#[test]
fn a_conjunction_goes_on_from_what_is_read(rt: HostRuntime) -> Result<(), Fail> {
    conjunction_goes_on(&rt, rt.alloc(), 166, STOPS[1])
}

#[test]
fn a_conjunction_goes_on_from_other_bytes(rt: HostRuntime) -> Result<(), Fail> {
    conjunction_goes_on(&rt, rt.alloc(), 249, STOPS[2])
}

#[test]
fn a_conjunction_goes_on_from_a_first_mixture(rt: HostRuntime) -> Result<(), Fail> {
    conjunction_goes_on(&rt, rt.alloc(), 332, STOPS[3])
}

#[test]
fn a_conjunction_goes_on_from_a_second_mixture(rt: HostRuntime) -> Result<(), Fail> {
    conjunction_goes_on(&rt, rt.alloc(), 415, STOPS[4])
}

#[test]
fn a_conjunction_goes_on_from_a_third_mixture(rt: HostRuntime) -> Result<(), Fail> {
    conjunction_goes_on(&rt, rt.alloc(), 498, STOPS[5])
}

/// A step loses nothing at a stop at one call in each hundred, whichever image the stop leaves.
pub(crate) fn goes_on(rt: &impl Abort, alloc: Global, tried: Tried) -> Result<(), Fail> {
    let mut first = 17u64;
    for stops in STOPS {
        let lost = first_loss(alloc, tried, first % APART as u64, APART, stops)?;
        assert!(rt; lost.is_none(), "{tried:?}, {stops:?}, call {lost:?}");
        first = first.saturating_add(13);
    }
    Ok(())
}

#[test]
fn a_quantifier_goes_on_behind_a_stop(rt: HostRuntime) -> Result<(), Fail> {
    goes_on(&rt, rt.alloc(), Tried::Some)
}

#[test]
fn an_implication_goes_on_behind_a_stop(rt: HostRuntime) -> Result<(), Fail> {
    goes_on(&rt, rt.alloc(), Tried::Implies)
}
