//! Steps of the example script, and whole runs of it.
use crate::folders::stop;
use crate::lives::{EMPTY, LEAST_ROOM, Lived, Whole, ends_like, is_stopped, whole_in};
use crate::steps::{AND, Request};
use bool_tables::{Planned, Step};
use case_runs::{SMALL, bench_with, run};
use example_script::gen_script;
use file_numbers::{CATALOGUE, JOB, JOB_GATE, STEP_GATE, checkpoint_gate, node_file};
use rec_words::Rec;
use script_reader::read_script;
use shelf_memory::{Bench, Choice};
use shelf_model::FileNo;
use std::alloc::Global;
use std::process::Abort;
use std::test::Fail;

/// The step that tells whether two words of fifteen bits are equal.
pub(crate) const EQUAL: u32 = 60;

/// How many nodes its diagram has.
pub(crate) const NODES: u64 = 98_301;

/// Step 60 of the script of size 15, a conjunction of steps 56 and 59.
pub(crate) fn equality() -> Request {
    Request {
        n: 30,
        text: b"p15",
        number: EQUAL,
        planned: Planned {
            step: Step::Pair {
                op: AND,
                left: 56,
                right: 59,
            },
            name_at: 0,
            name_len: 3,
        },
    }
}

// Whether the script has that step.
fn has_step(alloc: Global, script: &[u8], request: &Request) -> Result<bool, Fail> {
    let plan = read_script(alloc, script, None)?;
    let planned = plan.steps.items().get(request.number as usize);
    Ok(plan.n == request.n && planned.is_some_and(|p| p.step == request.planned.step))
}

/// Whether a run is stopped, where each call fails once a file has so many bytes.
pub(crate) fn is_run_stopped(alloc: Global, file: FileNo, size: u64, bench: &mut Bench) -> bool {
    bench.fail_when(file, size);
    run(alloc, &SMALL, bench) == 7
}

/// A folder in which a run of the script has committed all steps before that one, as it is read.
pub(crate) fn committed_to(alloc: Global, script: &[u8], step: u32) -> Result<Bench, Fail> {
    let mut bench = bench_with(alloc, script, None)?;
    if !is_run_stopped(alloc, STEP_GATE, u64::from(step), &mut bench) {
        return Err(Fail::from("the run isn't stopped"));
    }
    stop(alloc, Choice::Present, &mut bench)?;
    Ok(bench)
}

/// A folder in which a run of the script ended, that nothing stopped.
pub(crate) fn whole_run(alloc: Global, script: &[u8]) -> Result<Bench, Fail> {
    let mut bench = bench_with(alloc, script, None)?;
    if run(alloc, &SMALL, &mut bench) != 0 {
        return Err(Fail::from("the run isn't done"));
    }
    Ok(bench)
}

// What the life of a step in that folder came to behind a stop that comes behind so many calls, if it ends like one that
// nothing stops.
fn life_behind(
    alloc: Global,
    request: &Request,
    whole: &Whole,
    calls: u64,
    room: &mut [Rec],
    bench: &mut Bench,
) -> Result<Option<Lived>, Fail> {
    if !is_stopped(request, calls, room, bench) {
        return Ok(None);
    }
    stop(alloc, Choice::Present, bench)?;
    Ok(ends_like(request, whole, room, bench))
}

// Where the last call of a step and all behind it fail: how many calls the step makes that nothing stops, and what the
// life behind the stop came to, if it ends like it.
fn stopped_at_its_end(
    alloc: Global,
    script: &[u8],
    request: &Request,
) -> Result<(u64, Option<Lived>), Fail> {
    let mut records = vec![in alloc; EMPTY; LEAST_ROOM]?;
    let room = records.as_mut_slice();
    let whole = whole_in(request, room, committed_to(alloc, script, request.number)?)?;
    let calls = whole.lived.calls;
    let mut bench = committed_to(alloc, script, request.number)?;
    let last = calls.saturating_sub(1);
    let lived = life_behind(alloc, request, &whole, last, room, &mut bench)?;
    Ok((calls, lived))
}

// So the largest step of the script of size 15 goes on with less than half of its calls.
fn half_is_saved(alloc: Global) -> Result<bool, Fail> {
    let script = gen_script(alloc, 15)?;
    let script = script.as_slice();
    let request = equality();
    let (calls, lived) = stopped_at_its_end(alloc, script, &request)?;
    Ok(match lived {
        Some(lived) => {
            lived.entry.count == NODES
                && lived.calls < calls / 2
                && has_step(alloc, script, &request)?
        }
        None => false,
    })
}

#[test]
fn a_step_that_is_stopped_at_its_last_call_makes_less_than_half_of_its_calls_again(
    rt: HostRuntime,
) -> Result<(), Fail> {
    let saved = half_is_saved(rt.alloc())?;
    assert!(rt; saved);
    Ok(())
}

// Whether a step whose diagram has so many nodes goes on so with fewer calls than its node file has pieces of 2,048
// bytes: none of it is made again.
fn made_is_saved(
    alloc: Global,
    script: &[u8],
    request: &Request,
    nodes: u64,
) -> Result<bool, Fail> {
    let (calls, lived) = stopped_at_its_end(alloc, script, request)?;
    let pieces = nodes.saturating_add(1).saturating_mul(24) / 2048;
    Ok(match lived {
        Some(lived) => lived.entry.count == nodes && lived.calls < calls.min(pieces),
        None => false,
    })
}

/// The step that tells whether two words of twelve bits are equal.
const SHORTER: u32 = 48;

/// How many nodes its diagram has.
const SHORTER_NODES: u64 = 12_285;

// Step 48 of the script of size 12, a conjunction of steps 44 and 47. The room holds both operands and the pairs that
// are met, and a sweep would have as many arcs to reduce as an interval has turns, and more.
fn shorter_equality() -> Request {
    Request {
        n: 24,
        text: b"p12",
        number: SHORTER,
        planned: Planned {
            step: Step::Pair {
                op: AND,
                left: 44,
                right: 47,
            },
            name_at: 0,
            name_len: 3,
        },
    }
}

fn joined_is_saved(alloc: Global) -> Result<bool, Fail> {
    let script = gen_script(alloc, 12)?;
    let script = script.as_slice();
    let request = shorter_equality();
    Ok(has_step(alloc, script, &request)? && made_is_saved(alloc, script, &request, SHORTER_NODES)?)
}

#[test]
fn a_step_that_the_room_joined_is_not_joined_again(rt: HostRuntime) -> Result<(), Fail> {
    let saved = joined_is_saved(rt.alloc())?;
    assert!(rt; saved);
    Ok(())
}

/// The step behind those of the script of size 13 that make its largest diagram.
const RESTRICTED: u32 = 53;

/// How many nodes its diagram has.
const RESTRICTED_NODES: u64 = 16_381;

// That diagram where its first variable is 1, which is none of the script's: its arcs are as many as an interval has
// turns, and more, but few enough for the room.
fn restriction() -> Request {
    Request {
        n: 26,
        text: b"d",
        number: RESTRICTED,
        planned: Planned {
            step: Step::Restrict {
                of: 52,
                level: 0,
                value: true,
            },
            name_at: 0,
            name_len: 1,
        },
    }
}

fn reduced_is_saved(alloc: Global) -> Result<bool, Fail> {
    let script = gen_script(alloc, 13)?;
    made_is_saved(alloc, script.as_slice(), &restriction(), RESTRICTED_NODES)
}

#[test]
fn a_step_whose_arcs_the_room_reduced_does_not_reduce_them_again(
    rt: HostRuntime,
) -> Result<(), Fail> {
    let saved = reduced_is_saved(rt.alloc())?;
    assert!(rt; saved);
    Ok(())
}

/// How many steps the script of size 14 has.
const STEPS: u32 = 74;

/// The bytes of an entry, and the word of it that is the next part number.
const ENTRY_SIZE: usize = 128;

const NEXT_PART: usize = 3;

/// The last conjunctions of both ways, and the comparison of the two.
const FIRST_WAY: u32 = 56;

const SECOND_WAY: u32 = 71;

const COMPARISON: u32 = 72;

// Whether two catalogues have the same entries but for next part numbers: a sweep that was rebuilt may take fewer
// parts.
fn same_entries(a: &[u8], b: &[u8]) -> bool {
    if a.len() != b.len() {
        return false;
    }
    for at in 0..a.len() {
        if at % ENTRY_SIZE / 8 != NEXT_PART && a[at] != b[at] {
            return false;
        }
    }
    true
}

/// Whether two folders have the same job, as many committed steps with the same entries, and the same diagrams.
pub(crate) fn are_alike(a: &Bench, b: &Bench) -> bool {
    let stored = a.file(JOB) == b.file(JOB) && a.file(JOB_GATE).len() == b.file(JOB_GATE).len();
    if !stored || a.file(STEP_GATE).len() != b.file(STEP_GATE).len() {
        return false;
    }
    for step in 0..STEPS {
        if a.file(node_file(step)) != b.file(node_file(step)) {
            return false;
        }
    }
    same_entries(a.file(CATALOGUE), b.file(CATALOGUE))
}

// Whether a run of the script that is stopped once a file has so many bytes goes on, in the next run, to the same
// entries and the same diagrams as a run that nothing stops.
fn run_goes_on(
    alloc: Global,
    script: &[u8],
    whole: &Bench,
    moment: (FileNo, u64, Choice),
) -> Result<bool, Fail> {
    let (file, size, choice) = moment;
    let mut bench = bench_with(alloc, script, None)?;
    let stopped = is_run_stopped(alloc, file, size, &mut bench);
    stop(alloc, choice, &mut bench)?;
    let ended = run(alloc, &SMALL, &mut bench) == 0;
    Ok(stopped && ended && are_alike(&bench, whole))
}

// So it is at each of these moments.
fn runs_go_on(
    rt: &impl Abort,
    alloc: Global,
    moments: &[(FileNo, u64, Choice)],
) -> Result<(), Fail> {
    let script = gen_script(alloc, 14)?;
    let script = script.as_slice();
    let whole = whole_run(alloc, script)?;
    for moment in moments {
        let goes_on = run_goes_on(alloc, script, &whole, *moment)?;
        assert!(rt; goes_on, "{moment:?}");
    }
    Ok(())
}

#[test]
fn a_run_goes_on_within_a_conjunction(rt: HostRuntime) -> Result<(), Fail> {
    let arcs = (checkpoint_gate(FIRST_WAY), 2, Choice::Firm);
    let nodes = (node_file(SECOND_WAY), 600_000, Choice::Mixed(1));
    runs_go_on(&rt, rt.alloc(), &[arcs, nodes])
}

#[test]
fn a_run_goes_on_within_a_comparison(rt: HostRuntime) -> Result<(), Fail> {
    let first = (checkpoint_gate(COMPARISON), 1, Choice::Present);
    let third = (checkpoint_gate(COMPARISON), 3, Choice::Fill(255));
    runs_go_on(&rt, rt.alloc(), &[first, third])
}
