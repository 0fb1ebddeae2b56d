// What a body of the program does that is wrong where the right one does nothing: a call that a generated script
// doesn't need, a job that is taken for another one or for its own, and a line that is said too early.
use crate::rows::{CARRY_DROPPED, JOINED};
use case_runs::{LIST, NET, ONE_VARIABLE, RUN, bench_with, gives, run};
use file_numbers::{CATALOGUE, JOB, JOB_GATE, STEP_GATE};
use shelf_memory::{Bench, Choice};
use std::alloc::Global;
use std::test::Fail;

/// The words of a run of the script that is made from the least size.
const LEAST_SIZE: [&str; 5] = ["adiar", "gen", "FOLDER", "--size", "1"];

/// The same in the least room.
const LEAST_ROOM: [&str; 6] = ["adiar", "gen", "FOLDER", "--size", "1", "--budget=16384"];

/// The words of a run over texts at other paths than `NET` names.
const ELSEWHERE: [&str; 7] = [
    "adiar",
    "run",
    "FOLDER",
    "--netlist",
    "other netlist",
    "--script",
    "other script",
];

/// Whether a generated script's run makes the calls of a run of that script, as the job holds it from byte 20 on, but
/// for the two that fetch it: one for its text, and one that finds its end.
fn makes_no_other_call(alloc: Global) -> Result<bool, Fail> {
    let mut made = Bench::empty(alloc);
    let ended = run(alloc, &LEAST_SIZE, &mut made) == 0;
    let job = made.file(JOB);
    if job.len() < 20 {
        return Ok(false);
    }
    let mut bench = bench_with(alloc, &job[20..], None)?;
    let ran = run(alloc, &RUN, &mut bench) == 0;
    let fetched = bench.clock() == made.clock().saturating_add(2);
    Ok(ended && ran && fetched && bench.said() == made.said())
}

#[test]
fn a_size_needs_no_call_that_its_script_does_not(rt: HostRuntime) -> Result<(), Fail> {
    assert!(rt; makes_no_other_call(rt.alloc())?);
    Ok(())
}

/// A folder where a run with these words ended.
fn stored(alloc: Global, words: &[&str]) -> Result<Bench, Fail> {
    let mut bench = bench_with(alloc, ONE_VARIABLE, None)?;
    run(alloc, words, &mut bench);
    Ok(bench.stop(Choice::Firm)?)
}

/// Whether these words are answered with this in a folder where a run with other words ended, and the job, its entries
/// and its gates stay.
fn answers_behind(
    alloc: Global,
    first: &[&str],
    words: &[&str],
    status: u8,
    said: &[u8],
) -> Result<bool, Fail> {
    let like = stored(alloc, first)?;
    let mut bench = stored(alloc, first)?;
    let answered = gives(alloc, words, &mut bench, status, said);
    for f in [JOB, JOB_GATE, CATALOGUE, STEP_GATE] {
        if bench.file(f) != like.file(f) {
            return Ok(false);
        }
    }
    Ok(answered && like.file(JOB_GATE).len() == 1)
}

#[test]
fn a_size_is_refused_where_another_job_is_stored(rt: HostRuntime) -> Result<(), Fail> {
    // The script's length is at bytes 12 to 15 of a job: 19 bytes, or 112. The room is no part of it.
    let cases: [(&[&str], &[&str], u8, &[u8]); 6] = [
        (&LEAST_SIZE, &LEAST_SIZE, 0, b"resume 9 of 9\ndone\n"),
        (&RUN, &LEAST_SIZE, 5, b"other job at 15\n"),
        (&LEAST_SIZE, &RUN, 5, b"other job at 15\n"),
        (&RUN, &LEAST_ROOM, 5, b"other job at 15\n"),
        (&LEAST_SIZE, &LEAST_ROOM, 0, b"resume 9 of 9\ndone\n"),
        (&LEAST_ROOM, &LEAST_SIZE, 0, b"resume 9 of 9\ndone\n"),
    ];
    for (first, words, status, said) in cases {
        assert!(rt;
            answers_behind(rt.alloc(), first, words, status, said)?,
            "{first:?} {words:?}"
        );
    }
    Ok(())
}

/// Whether a run over the same texts at other paths goes on with the job, whatever stands at the old ones.
fn goes_on_elsewhere(alloc: Global) -> Result<bool, Fail> {
    let mut bench = bench_with(alloc, JOINED.script, Some(JOINED.netlist))?;
    let begun = gives(alloc, &NET, &mut bench, 0, JOINED.said);
    let mut next = bench.stop(Choice::Firm)?;
    next.put_text("script", b"vars a a\n")?;
    next.put_text("netlist", b"")?;
    next.put_text("other script", JOINED.script)?;
    next.put_text("other netlist", JOINED.netlist)?;
    Ok(begun && gives(alloc, &ELSEWHERE, &mut next, 0, b"resume 1 of 1\ndone\n"))
}

#[test]
fn a_path_is_no_part_of_a_job(rt: HostRuntime) -> Result<(), Fail> {
    assert!(rt; goes_on_elsewhere(rt.alloc())?);
    Ok(())
}

/// Whether a list says nothing but where the damage is, where the entry of the last of 37 steps is of no kind. An entry
/// has 128 bytes, and its kind is at byte 4.
fn lists_damage_alone(alloc: Global) -> Result<bool, Fail> {
    let mut bench = bench_with(alloc, CARRY_DROPPED.script, Some(CARRY_DROPPED.netlist))?;
    let begun = gives(alloc, &NET, &mut bench, 0, CARRY_DROPPED.said);
    let mut next = bench.stop(Choice::Firm)?;
    let mut altered = Vec::from_slice(alloc, next.file(CATALOGUE))?;
    if altered.len() != 4_736 {
        return Ok(false);
    }
    altered[4_612] = 9;
    next.put_file(CATALOGUE, altered.as_slice())?;
    Ok(begun && gives(alloc, &LIST, &mut next, 10, b"damaged 4294967295 2 4608\n"))
}

#[test]
fn a_list_reads_its_last_entry_before_its_first_line(rt: HostRuntime) -> Result<(), Fail> {
    assert!(rt; lists_damage_alone(rt.alloc())?);
    Ok(())
}
