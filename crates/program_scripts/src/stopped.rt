//! The run of the example script of size 15, stopped twice within its largest step, where each run goes on in a room of
//! its own.
use crate::large::{END, LAST, LAST_BYTES, WORDS};
use case_runs::run;
use file_numbers::{checkpoint_file, checkpoint_gate};
use shelf_memory::{Bench, Choice};
use shelf_model::FileNo;
use std::alloc::Global;
use std::test::Fail;

/// The words of a run in the largest room.
const MOST: [&str; 7] = [
    "adiar", "gen", "FOLDER", "--size", "15", "--budget", "4194304",
];

/// Those of a run in a room that is hardly larger than the least one.
const MORE: [&str; 7] = [
    "adiar", "gen", "FOLDER", "--size", "15", "--budget", "20000",
];

/// The words of a run.
type Words = &'static [&'static str];

/// Three runs, of which the first is stopped once the largest step has two checkpoints, and the second once it has
/// four; and the records of the rooms in which these were saved.
#[derive(Clone, Copy, Debug)]
struct Runs {
    first: Words,
    second: Words,
    third: Words,
    rooms: [u64; 4],
}

const IN_ONE_ROOM: Runs = Runs {
    first: &WORDS,
    second: &WORDS,
    third: &WORDS,
    rooms: [16_384; 4],
};

const IN_THREE_ROOMS: Runs = Runs {
    first: &WORDS,
    second: &MOST,
    third: &MORE,
    rooms: [16_384, 16_384, 4_194_304, 4_194_304],
};

/// The last of these rooms makes and merges runs between two checkpoints, so that no checkpoint names them.
const IN_A_LARGER_ROOM_AT_LAST: Runs = Runs {
    first: &WORDS,
    second: &WORDS,
    third: &MOST,
    rooms: [16_384; 4],
};

/// The most turns from one checkpoint to the next.
const MOST_BETWEEN: u64 = 65_536;

/// The bytes of a checkpoint, and where its turns and its budget stand.
const POINT_SIZE: usize = 16_384;

const TURNS: usize = 16;

const BUDGET: usize = 32;

/// What is said of 60 committed steps, and then of the step in which both stops come.
const RESUMED: &[u8] = b"resume 60 of 79\n";

const RESUMED_LINES: &[u8] = b"resume 60 of 79\n62: nodes 98301\n";

/// A sixteenth of the turns that all steps may take: one for each tuple of pieces that a step joins and of which one
/// splits, for each node of its operands, and for itself. Constants and variables have 1, together 32, and each of 15
/// operators on two variables 6, together 90. Whether the first k bits are equal joins 3 * 2^k - 1 pairs, of one bit
/// 3, and reads 3 * 2^(k - 1) nodes: 9 * 2^(k - 1), of one bit 7, together 294,901. Whether the last k are joins
/// 2^(k + 2) - 5 pairs and reads as many nodes: 11 * 2^(k - 1) - 4, together 360,377. The comparison reads 98,301 nodes
/// twice, and the size once.
const WORK: u64 = 32 + 90 + 294_901 + 360_377 + 196_603 + 98_302;

/// What entering a folder adds to the calls, but for 65 for each record that a checkpoint's runs hold.
const ENTERED: u64 = 1 << 25;

/// The nodes of the operands of the step in which both stops come.
const OPERANDS: u64 = 49_149 + 3;

/// The most calls that the three runs may make together: 256 for each turn of the work, and what they add that enter
/// the empty folder and those that the stops leave. Records of runs add to what is allowed, and aren't counted here.
const MOST_CALLS: u64 = 256 * 16 * WORK + 3 * ENTERED + 2 * OPERANDS;

/// The word at a place, the highest byte first.
fn word_at(bytes: &[u8], at: usize) -> u64 {
    let mut word = 0u64;
    if let Some(eight) = bytes.get(at..at.saturating_add(8)) {
        for byte in eight {
            word = (word << 8) | u64::from(*byte);
        }
    }
    word
}

/// Whether the checkpoints of the largest step say that they were saved in these rooms, and from the first on each was
/// saved behind as many turns since the one before as its room has records, but at most 65,536.
fn are_saved_in(bench: &Bench, rooms: [u64; 4]) -> bool {
    let points = bench.file(checkpoint_file(LAST.step));
    let mut due = None;
    for (k, records) in rooms.iter().enumerate() {
        let place = k.saturating_mul(POINT_SIZE);
        let turns = word_at(points, place.saturating_add(TURNS));
        let interval = (*records).min(MOST_BETWEEN);
        let is_due = match due {
            Some(before) => turns == interval.saturating_add(before),
            None => turns >= interval,
        };
        if !is_due || word_at(points, place.saturating_add(BUDGET)) != *records {
            return false;
        }
        due = Some(turns);
    }
    true
}

/// The folder in which a run with these words was stopped once the largest step had so many checkpoints.
fn stopped(alloc: Global, words: Words, bench: Bench, checkpoints: u64) -> Result<Bench, Fail> {
    let gate = checkpoint_gate(LAST.step);
    let mut bench = bench;
    bench.fail_when(gate, checkpoints);
    let status = run(alloc, words, &mut bench);
    if status != 7 || bench.file(gate).len() as u64 != checkpoints {
        return Err(Fail::from("the run isn't stopped"));
    }
    Ok(bench)
}

/// More parts than the largest step takes.
const MANY_PARTS: u64 = 512;

/// Whether nothing is left of the largest step but its node file.
fn is_tidied(bench: &Bench) -> bool {
    for part in 1..MANY_PARTS {
        let file = FileNo {
            step: LAST.step,
            part,
        };
        if !bench.file(file).is_empty() {
            return false;
        }
    }
    true
}

/// What of three runs isn't as it should be, where that is the node file of a run that nothing stops.
fn fault_of_runs(alloc: Global, runs: &Runs, whole: &[u8]) -> Result<Option<&'static str>, Fail> {
    let first = stopped(alloc, runs.first, Bench::empty(alloc), 2)?;
    let first_calls = first.clock();
    let second = stopped(alloc, runs.second, first.stop(Choice::Present)?, 4)?;
    let is_resumed = second.said() == RESUMED;
    let is_saved = are_saved_in(&second, runs.rooms);
    let calls = first_calls.saturating_add(second.clock());
    let mut third = second.stop(Choice::Present)?;
    let status = run(alloc, runs.third, &mut third);
    Ok(if !is_resumed {
        Some("the text of the second run")
    } else if !is_saved {
        Some("the checkpoints")
    } else if status != 0
        || !third.said().starts_with(RESUMED_LINES)
        || !third.said().ends_with(END)
    {
        Some("the last run")
    } else if third.file(LAST).len() != LAST_BYTES || third.file(LAST) != whole {
        Some("the file of the step")
    } else if !is_tidied(&third) {
        Some("what is left of the step")
    } else if calls.saturating_add(third.clock()) > MOST_CALLS {
        Some("the calls")
    } else {
        None
    })
}

#[test]
fn a_large_run_that_is_stopped_twice_ends_alike_in_any_rooms_within_the_bound_of_its_calls(
    rt: HostRuntime,
) -> Result<(), Fail> {
    let alloc = rt.alloc();
    let mut whole = Bench::empty(alloc);
    run(alloc, &WORDS, &mut whole);
    for runs in [IN_ONE_ROOM, IN_THREE_ROOMS, IN_A_LARGER_ROOM_AT_LAST] {
        let fault = fault_of_runs(alloc, &runs, whole.file(LAST))?;
        assert!(rt; fault.is_none(), "{runs:?}: {fault:?}");
    }
    Ok(())
}
