//! Runs that are stopped once a step that swept is committed, before what it leaves behind is cut: the next run cuts
//! that.
use crate::folders::stop;
use crate::words::{are_alike, is_run_stopped, whole_run};
use case_runs::{SMALL, bench_with, run};
use example_script::gen_script;
use file_numbers::{CHECKPOINT_PART, STEP_GATE, checkpoint_gate};
use shelf_memory::{Bench, Choice};
use shelf_model::FileNo;
use std::alloc::Global;
use std::test::Fail;

/// The size of the example script.
const SIZE: u32 = 13;

/// Its conjunction of the first way.
const AT_WORK: u32 = 52;

/// More part numbers than that step takes.
const PARTS: u64 = 80;

/// What the run says that goes on behind that step.
const RESUMED: &[u8] = b"resume 53 of 69\n";

// How many files of the step aren't empty, but for its node file.
fn left_behind(bench: &Bench) -> u64 {
    let mut count = 0u64;
    for part in CHECKPOINT_PART..PARTS {
        let f = FileNo {
            step: AT_WORK,
            part,
        };
        if !bench.file(f).is_empty() {
            count = count.saturating_add(1);
        }
    }
    count
}

// Stops a run in that folder once the file has so many bytes. From here on the folder is what the stop leaves.
fn stop_when(alloc: Global, f: FileNo, size: u64, bench: &mut Bench) -> Result<(), Fail> {
    if !is_run_stopped(alloc, f, size, bench) || bench.file(f).len() as u64 != size {
        return Err(Fail::from("the run isn't stopped"));
    }
    stop(alloc, Choice::Present, bench)
}

// How many of these files there are behind a stop that comes once the step is committed, and behind the next run, where
// this one ends as one that nothing stops.
fn counts_in(
    alloc: Global,
    goes_on: bool,
    whole: &Bench,
    bench: &mut Bench,
) -> Result<(u64, Option<u64>), Fail> {
    if goes_on {
        stop_when(alloc, checkpoint_gate(AT_WORK), 2, bench)?;
    }
    stop_when(alloc, STEP_GATE, u64::from(AT_WORK) + 1, bench)?;
    let before = left_behind(bench);
    let ends = run(alloc, &SMALL, bench) == 0
        && bench.said().starts_with(RESUMED)
        && are_alike(bench, whole);
    let behind = left_behind(bench);
    Ok((before, if ends { Some(behind) } else { None }))
}

fn counts(alloc: Global, goes_on: bool) -> Result<(u64, Option<u64>), Fail> {
    let script = gen_script(alloc, SIZE)?;
    let whole = whole_run(alloc, script.as_slice())?;
    let mut bench = bench_with(alloc, script.as_slice(), None)?;
    counts_in(alloc, goes_on, &whole, &mut bench)
}

#[test]
fn what_a_step_left_that_a_stop_kept_from_being_tidied_up_is_cut(
    rt: HostRuntime,
) -> Result<(), Fail> {
    let (before, behind) = counts(rt.alloc(), false)?;
    assert!(rt; before > 0 && behind == Some(0), "{before}, {behind:?}");
    Ok(())
}

#[test]
fn so_is_what_a_step_left_that_went_on(rt: HostRuntime) -> Result<(), Fail> {
    let (before, behind) = counts(rt.alloc(), true)?;
    assert!(rt; before > 0 && behind == Some(0), "{before}, {behind:?}");
    Ok(())
}
