//! Runs that would go on with a step from files that aren't as its checkpoint left them: the step is run once more from
//! its beginning.
use crate::folders::{copied_with, stop, with_bytes};
use crate::words::{are_alike, is_run_stopped, whole_run};
use case_runs::{SMALL, bench_with, gives, run};
use case_tables::put_bytes;
use example_script::gen_script;
use file_numbers::{FIRST_RUN_PART, INNER_PART, checkpoint_gate, node_file};
use shelf_memory::{Bench, Choice};
use shelf_model::FileNo;
use std::alloc::{AllocError, Global};
use std::process::Abort;
use std::test::Fail;

/// The size of the example script.
const SIZE: u32 = 13;

/// Its conjunction of the first way, and the larger of the two diagrams of which that is made.
const AT_WORK: u32 = 52;

const OPERAND: u32 = 48;

/// More part numbers than that step takes.
const PARTS: u64 = 80;

/// What a run says that finds the first record of that operand's file damaged.
const DAMAGED: &[u8] = b"resume 52 of 69\ndamaged 48 0 0\n";

/// A truth value, in place of the second pointer of a node's record.
const SECOND_POINTER: usize = 16;

const ZERO: [u8; 8] = [128, 0, 0, 0, 0, 0, 0, 0];

/// Files of a step: its arcs, or its runs.
#[derive(Clone, Copy, Debug)]
enum Kind {
    Arcs,
    Runs,
}

// The bytes, each of which is 255, so that no record is that of an item.
fn spoiled(alloc: Global, bytes: &[u8]) -> Result<Vec<u8>, AllocError> {
    let mut changed = Vec::from_slice(alloc, bytes)?;
    for byte in changed.as_mut_slice() {
        *byte = 255;
    }
    Ok(changed)
}

// Spoils the files of that kind of the step at work, and answers whether it has one that isn't empty.
fn spoil(alloc: Global, kind: Kind, bench: &mut Bench) -> Result<bool, Fail> {
    let parts = match kind {
        Kind::Arcs => INNER_PART..FIRST_RUN_PART,
        Kind::Runs => FIRST_RUN_PART..PARTS,
    };
    let mut some = false;
    for part in parts {
        let f = FileNo {
            step: AT_WORK,
            part,
        };
        if !bench.file(f).is_empty() {
            let bytes = spoiled(alloc, bench.file(f))?;
            put_bytes(bench, f, bytes.as_slice())?;
            some = true;
        }
    }
    Ok(some)
}

// A folder in which a run of the script was stopped once the step at work had two checkpoints.
fn stopped(alloc: Global, script: &[u8]) -> Result<Bench, Fail> {
    let gate = checkpoint_gate(AT_WORK);
    let mut bench = bench_with(alloc, script, None)?;
    if !is_run_stopped(alloc, gate, 2, &mut bench) || bench.file(gate).len() != 2 {
        return Err(Fail::from("the run isn't stopped"));
    }
    stop(alloc, Choice::Present, &mut bench)?;
    Ok(bench)
}

// How many calls the next run makes, if it ends as one that nothing stops.
fn next_run(alloc: Global, whole: &Bench, bench: &mut Bench) -> Option<u64> {
    let ended = run(alloc, &SMALL, bench) == 0;
    if ended && are_alike(bench, whole) {
        Some(bench.clock())
    } else {
        None
    }
}

// A copy of the folder with changed files of that kind.
fn spoiled_copy(alloc: Global, kind: Kind, script: &[u8], found: &Bench) -> Result<Bench, Fail> {
    let mut copy = copied_with(alloc, script, AT_WORK, found)?;
    if !spoil(alloc, kind, &mut copy)? {
        return Err(Fail::from("the step has no such file"));
    }
    Ok(copy)
}

// How many calls the runs behind that stop make that end as one that nothing stops: where nothing was changed, and
// where a file of that kind was.
fn runs_behind(alloc: Global, kind: Kind) -> Result<(Option<u64>, Option<u64>), Fail> {
    let script = gen_script(alloc, SIZE)?;
    let whole = whole_run(alloc, script.as_slice())?;
    let mut found = stopped(alloc, script.as_slice())?;
    let mut changed = spoiled_copy(alloc, kind, script.as_slice(), &found)?;
    Ok((
        next_run(alloc, &whole, &mut found),
        next_run(alloc, &whole, &mut changed),
    ))
}

// A run whose step finds such files damaged makes the step from its beginning, with more calls, and ends well.
fn begins_anew(rt: &impl Abort, alloc: Global, kind: Kind) -> Result<(), Fail> {
    let (found, spoiled) = runs_behind(alloc, kind)?;
    let more = found.is_some_and(|own| spoiled.is_some_and(|calls| own < calls));
    assert!(rt; more, "{kind:?}: {found:?}, {spoiled:?}");
    Ok(())
}

#[test]
fn a_step_whose_arcs_were_changed_is_made_from_its_beginning(rt: HostRuntime) -> Result<(), Fail> {
    begins_anew(&rt, rt.alloc(), Kind::Arcs)
}

#[test]
fn a_step_whose_runs_were_changed_is_made_from_its_beginning(rt: HostRuntime) -> Result<(), Fail> {
    begins_anew(&rt, rt.alloc(), Kind::Runs)
}

// Damages the first record of that operand's file.
fn damage_operand(alloc: Global, bench: &mut Bench) -> Result<(), Fail> {
    let f = node_file(OPERAND);
    let bytes = with_bytes(alloc, bench.file(f), SECOND_POINTER, &ZERO)?;
    put_bytes(bench, f, bytes.as_slice())
}

// Whether a run names the operand's place where that is damaged too.
fn names_operand(alloc: Global) -> Result<bool, Fail> {
    let script = gen_script(alloc, SIZE)?;
    let mut bench = stopped(alloc, script.as_slice())?;
    if !spoil(alloc, Kind::Runs, &mut bench)? {
        return Ok(false);
    }
    damage_operand(alloc, &mut bench)?;
    Ok(gives(alloc, &SMALL, &mut bench, 10, DAMAGED))
}

#[test]
fn a_step_whose_runs_were_changed_names_a_damaged_operand(rt: HostRuntime) -> Result<(), Fail> {
    let named = names_operand(rt.alloc())?;
    assert!(rt; named);
    Ok(())
}
