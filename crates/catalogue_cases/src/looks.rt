// How a folder stands, told without its job.
ghost use Rattle.std.specs.Prelude.{◌≡◌};

use crate::tests::{FRESH, ROW, again, node};
use catalogue::{CATALOGUE, JOB_GATE, STEP_GATE, Standing, attach, commit, look};
use shelf_memory::{Bench, Choice};
use shelf_model::{FileNo, Shelf, StreamFault};
use std::alloc::Global;
use std::test::Fail;

fn damaged_at(file: FileNo, at: u64) -> Result<Standing, StreamFault> {
    Err(StreamFault::Damaged { file, at })
}

// Whether a folder without a job is fresh and stays without one, also with bytes in its gate of steps.
fn finds_no_job(alloc: Global) -> Result<bool, Fail> {
    let mut bench = Bench::empty(alloc);
    bench.append(STEP_GATE, 0, &[0; 3])?;
    let found = look(&mut bench)? == FRESH && look(&mut bench)? == FRESH;
    Ok(found && bench.file(JOB_GATE).is_empty() && bench.file(STEP_GATE).len() == 3)
}

#[test]
fn finds_a_folder_without_a_job(rt: HostRuntime) -> Result<(), Fail> {
    assert!(rt; finds_no_job(rt.alloc())?);
    Ok(())
}

// Whether two committed steps are found, and damage where the catalogue ends before the second entry does.
fn finds_two_steps(alloc: Global) -> Result<bool, Fail> {
    let mut bench = Bench::empty(alloc);
    let begun = attach(&ROW, 2, &mut bench)?;
    if begun.done != 0 {
        return Ok(false);
    }
    commit(&node(0, b'f'), &mut bench)?;
    commit(&node(1, b'g'), &mut bench)?;
    let two = look(&mut bench) == Ok(again(2));
    bench.cut(CATALOGUE, 255)?;
    Ok(two && look(&mut bench) == damaged_at(CATALOGUE, 128))
}

#[test]
fn finds_committed_steps(rt: HostRuntime) -> Result<(), Fail> {
    assert!(rt; finds_two_steps(rt.alloc())?);
    Ok(())
}

// Whether a job without a committed step is found.
fn finds_no_step(alloc: Global) -> Result<bool, Fail> {
    let mut bench = Bench::empty(alloc);
    let begun = attach(&ROW, 2, &mut bench)?;
    Ok(begun == FRESH && look(&mut bench) == Ok(again(0)))
}

#[test]
fn finds_a_job_without_steps(rt: HostRuntime) -> Result<(), Fail> {
    assert!(rt; finds_no_step(rt.alloc())?);
    Ok(())
}

// Whether a gate of more steps than a job has is damaged at the first that is too many.
fn finds_too_many(alloc: Global) -> Result<bool, Fail> {
    let mut bench = Bench::empty(alloc);
    let gate = vec![in alloc; 0u8; 1_048_577]?;
    bench.put_file(JOB_GATE, &[0])?;
    bench.put_file(STEP_GATE, gate.as_slice())?;
    Ok(look(&mut bench) == damaged_at(STEP_GATE, 1_048_576))
}

#[test]
fn refuses_more_steps_than_a_job_has(rt: HostRuntime) -> Result<(), Fail> {
    assert!(rt; finds_too_many(rt.alloc())?);
    Ok(())
}

// Whether a step that isn't sure yet is sure once it was found: the gate is made sure first.
fn makes_sure_what_it_finds(alloc: Global) -> Result<bool, Fail> {
    let mut bench = Bench::empty(alloc);
    let begun = attach(&ROW, 1, &mut bench)?;
    if begun.done != 0 {
        return Ok(false);
    }
    bench.fail_at(14)?;
    let failed = commit(&node(0, b'f'), &mut bench).is_err();
    let found = look(&mut bench) == Ok(again(1));
    let mut next = bench.stop(Choice::Firm)?;
    Ok(failed && found && look(&mut next) == Ok(again(1)))
}

#[test]
fn finds_what_a_stop_leaves(rt: HostRuntime) -> Result<(), Fail> {
    assert!(rt; makes_sure_what_it_finds(rt.alloc())?);
    Ok(())
}
