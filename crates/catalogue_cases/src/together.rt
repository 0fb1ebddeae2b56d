// Steps that are committed together: what their files have, and what a failed call and a stop leave.
ghost use Rattle.std.specs.Prelude.{IsTrue};
ghost use Rattle.shelf_model.specs.World.{now};
ghost use Rattle.shelf_memory.specs.Benches.{tells_of, world_of};
ghost use Rattle.catalogue.specs.Commits.{IsReady};

use crate::tests::{ROW, again, node};
use catalogue::{CATALOGUE, ENTRY_SIZE, STEP_GATE, attach, commit, commit_waiting, put_entry};
use shelf_memory::{Bench, Choice};
use shelf_model::Failed;
use std::alloc::Global;
use std::test::Fail;

// The letter that names the diagram of a step.
fn letter(number: u32) -> u8 {
    match number {
        0 => b'e',
        1 => b'f',
        2 => b'g',
        _ => b'h',
    }
}

// A folder with a committed step and three more, committed one by one.
fn one_by_one(alloc: Global) -> Result<Bench, Fail> {
    let mut bench = Bench::empty(alloc);
    let begun = attach(&ROW, 4, &mut bench)?;
    if begun.done == 0 {
        commit(&node(0, letter(0)), &mut bench)?;
        commit(&node(1, letter(1)), &mut bench)?;
        commit(&node(2, letter(2)), &mut bench)?;
        commit(&node(3, letter(3)), &mut bench)?;
    }
    Ok(bench)
}

// Puts three entries behind a committed step, and commits them together.
fn commit_three(bench: &mut Bench) -> Result<(), Failed>
    requires ready { IsTrue (tells_of bench.old) → IsReady 1 (now (world_of bench.old)).folder }
{
    put_entry(&node(1, letter(1)), 1, bench)?;
    put_entry(&node(2, letter(2)), 1, bench)?;
    put_entry(&node(3, letter(3)), 1, bench)?;
    commit_waiting(1, 3, bench)
}

// The same folder, where the three are committed together and this call fails; whether none of theirs failed.
fn together(alloc: Global, failing: u64) -> Result<(bool, Bench), Fail> {
    let mut bench = Bench::empty(alloc);
    let begun = attach(&ROW, 4, &mut bench)?;
    if begun.done != 0 {
        return Ok((false, bench));
    }
    commit(&node(0, letter(0)), &mut bench)?;
    bench.fail_at(failing)?;
    let whole = commit_three(&mut bench).is_ok();
    Ok((whole, bench))
}

// The first call of the first put, behind those of an attach and a commit.
const FIRST_PUT: u64 = 15;

// The calls up to the end of three puts and a commit of three steps.
const ALL_CALLS: u64 = 24;

// A call that is never made.
const NEVER: u64 = 1000;

// Whether both ways leave the same bytes, by as many calls as are counted here.
fn leave_the_same(alloc: Global) -> Result<bool, Fail> {
    let apart = one_by_one(alloc)?;
    let (whole, bench) = together(alloc, NEVER)?;
    let entries = apart.file(CATALOGUE) == bench.file(CATALOGUE);
    let gates = apart.file(STEP_GATE) == bench.file(STEP_GATE);
    let long = bench.file(CATALOGUE).len() == 512 && bench.file(STEP_GATE).len() == 4;
    Ok(whole && entries && gates && long && bench.clock() == ALL_CALLS)
}

#[test]
fn leaves_what_commits_one_by_one_leave(rt: HostRuntime) -> Result<(), Fail> {
    assert!(rt; leave_the_same(rt.alloc())?);
    Ok(())
}

// Whether so many steps are counted, and the catalogue begins with the entries that commits one by one give them.
fn counts(mut bench: Bench, alloc: Global, done: u32) -> Result<bool, Fail> {
    let apart = one_by_one(alloc)?;
    let standing = attach(&ROW, 4, &mut bench)?;
    let Some(entries) = apart.file(CATALOGUE).get(..ENTRY_SIZE * done as usize) else {
        return Ok(false);
    };
    Ok(standing == again(done) && bench.file(CATALOGUE).starts_with(entries))
}

// Whether so many steps are counted where this call failed, with no stop and behind one with each of these choices.
fn count_after(
    alloc: Global,
    failing: u64,
    standing: u32,
    stopped: [u32; 5],
) -> Result<bool, Fail> {
    let (whole, bench) = together(alloc, failing)?;
    if whole != (failing == NEVER) || !counts(bench, alloc, standing)? {
        return Ok(false);
    }
    let choices = [
        Choice::Firm,
        Choice::Present,
        Choice::Fill(7),
        Choice::Mixed(0),
        Choice::Mixed(1),
    ];
    for (choice, done) in choices.into_iter().zip(stopped) {
        let (_, bench) = together(alloc, failing)?;
        if !counts(bench.stop(choice)?, alloc, done)? {
            return Ok(false);
        }
    }
    Ok(true)
}

#[test]
fn counts_what_failed_calls_and_stops_leave(rt: HostRuntime) -> Result<(), Fail> {
    // Three cuts and three appends of the catalogue, and its sync.
    for failing in FIRST_PUT..FIRST_PUT + 7 {
        assert!(rt; count_after(rt.alloc(), failing, 1, [1; 5])?, "{failing}");
    }
    // The append and the sync of the gate, and none of these.
    let cases = [
        (22, 1, [1, 1, 4, 1, 1]),
        (23, 4, [1, 4, 4, 1, 4]),
        (NEVER, 4, [4; 5]),
    ];
    for (failing, standing, stopped) in cases {
        assert!(rt;
            count_after(rt.alloc(), failing, standing, stopped)?,
            "{failing}"
        );
    }
    Ok(())
}

// Whether what waits is gone where another entry is put in its place.
fn puts_in_place(alloc: Global) -> Result<bool, Fail> {
    let mut bench = Bench::empty(alloc);
    let begun = attach(&ROW, 4, &mut bench)?;
    if begun.done != 0 {
        return Ok(false);
    }
    put_entry(&node(0, b'x'), 0, &mut bench)?;
    put_entry(&node(1, b'y'), 0, &mut bench)?;
    put_entry(&node(0, letter(0)), 0, &mut bench)?;
    let one = bench.file(CATALOGUE).len() == 128;
    put_entry(&node(1, letter(1)), 0, &mut bench)?;
    commit_waiting(0, 2, &mut bench)?;
    Ok(one && counts(bench, alloc, 2)?)
}

#[test]
fn puts_an_entry_in_place_of_others(rt: HostRuntime) -> Result<(), Fail> {
    assert!(rt; puts_in_place(rt.alloc())?);
    Ok(())
}
