// What no clause says: the bytes of a worked checkpoint, which words a rule looks at, and what a stop leaves.
use file_numbers::{checkpoint_file, checkpoint_gate};
use run_tiers::Run;
use shelf_memory::{Bench, Choice};
use shelf_model::{FileNo, Shelf, StreamFault};
use std::alloc::Global;
use std::test::Fail;
use sweep_checkpoint::{POINT_SIZE, bytes_of, load, point_of, retire, save};
use sweep_core::Checkpoint;

const NO_RUN: Run = Run {
    part: 0,
    next: 0,
    end: 0,
};

// The budget of the run that wrote the sample.
const BUDGET: u32 = 0x4000;

// A checkpoint of step 7 in its second sweep, with two runs in five tables.
fn point_with(turns: u64, first: u64, second: u64, next_part: u64) -> Checkpoint {
    let mut point = Checkpoint {
        step: 7,
        sweep: 1,
        turns,
        next_part,
        budget: BUDGET,
        tables: 5,
        carry: [0; 250],
        runs: [[NO_RUN; 64]; 9],
    };
    point.carry[0] = 0x0102_0304_0506_0708;
    point.carry[249] = 9;
    point.runs[0][0] = Run {
        part: first,
        next: 2,
        end: 0x2a,
    };
    point.runs[3][5] = Run {
        part: second,
        next: 0,
        end: 64,
    };
    point
}

fn sample() -> Checkpoint {
    point_with(0x1_2345, 5, 6, 0xc)
}

// The words of the sample that aren't 0, by their number.
const WORDS: [(usize, u64); 13] = [
    (0, 7),
    (1, 1),
    (2, 0x1_2345),
    (3, 0xc),
    (4, 0x4000),
    (5, 5),
    (6, 0x0102_0304_0506_0708),
    (255, 9),
    (256, 5),
    (257, 2),
    (258, 0x2a),
    (847, 6),
    (849, 64),
];

// The bytes of the sample, written out.
fn written() -> [u8; POINT_SIZE] {
    let mut bytes = [0u8; POINT_SIZE];
    for (place, word) in WORDS {
        if place < 2048 {
            let at = 8 * place;
            bytes[at..at + 8].copy_from_slice(&word.to_be_bytes());
        }
    }
    bytes
}

// Whether the bytes are those, and are read as the same checkpoint.
fn is_laid_out() -> bool {
    let bytes = bytes_of(&sample());
    bytes == written() && point_of(&bytes, 7) == Some(sample())
}

#[test]
fn lays_out_a_checkpoint(rt: HostRuntime) -> Result<(), Fail> {
    assert!(rt; is_laid_out());
    Ok(())
}

// Whether the bytes are the same as far as the tables go.
fn have_one_front(a: &[u8], b: &[u8]) -> bool {
    a.len() >= 15_872 && b.len() >= 15_872 && a[..15_872] == b[..15_872]
}

// Whether the checkpoint whose word of that number is greater than any rule allows is refused exactly where a rule
// looks at it, and else is read as it stands, but for what stands behind the tables.
fn changes_word(place: usize, bytes: &[u8; POINT_SIZE]) -> bool {
    let mut changed = *bytes;
    if place < 2048 {
        changed[8 * place] = 0x80;
    }
    let ruled = place < 6 || (256 <= place && place < 256 + 5 * 192);
    match point_of(&changed, 7) {
        None => ruled,
        Some(point) => !ruled && have_one_front(&bytes_of(&point), &changed),
    }
}

#[test]
fn looks_at_each_word_that_a_rule_speaks_of(rt: HostRuntime) -> Result<(), Fail> {
    let bytes = written();
    let mut all = true;
    for place in 0..2048usize {
        all = all && changes_word(place, &bytes);
    }
    assert!(rt; all);
    Ok(())
}

// Two checkpoints of a step, and what a stop leaves of them where the last call of the second save fails.
fn torn(alloc: Global, choice: Choice) -> Result<Bench, Fail> {
    let mut bench = Bench::empty(alloc);
    save(&point_with(1, 5, 6, 12), &mut bench)?;
    bench.fail_at(27)?;
    let failed = save(&point_with(2, 5, 6, 12), &mut bench).is_err();
    let calls = bench.clock();
    if !failed || calls != 28 {
        return Err(Fail::from("the second save"));
    }
    Ok(bench.stop(choice)?)
}

// Whether the last checkpoint has so many turns.
fn finds_turns(alloc: Global, choice: Choice, turns: u64) -> Result<bool, Fail> {
    let mut bench = torn(alloc, choice)?;
    Ok(load(7, &mut bench) == Ok(Some(point_with(turns, 5, 6, 12))))
}

#[test]
fn finds_what_a_stop_leaves(rt: HostRuntime) -> Result<(), Fail> {
    let cases = [(Choice::Firm, 1), (Choice::Present, 2)];
    for (choice, turns) in cases {
        assert!(rt; finds_turns(rt.alloc(), choice, turns)?);
    }
    Ok(())
}

// Whether nothing is found in an empty folder, and behind a damaged checkpoint its place is named.
fn names_the_place(alloc: Global) -> Result<bool, Fail> {
    let mut bench = Bench::empty(alloc);
    let none = load(7, &mut bench) == Ok(None);
    save(&sample(), &mut bench)?;
    save(&sample(), &mut bench)?;
    let found = load(7, &mut bench) == Ok(Some(sample()));
    let damaged = Err(StreamFault::Damaged {
        file: FileNo { step: 7, part: 1 },
        at: 16_384,
    });
    bench.cut(checkpoint_file(7), 20_000)?;
    let short = load(7, &mut bench) == damaged;
    let refused = save(&sample(), &mut bench).is_err();
    let gated = bench.file(checkpoint_gate(7)) == [0, 0].as_slice();
    Ok(none && found && short && refused && gated)
}

#[test]
fn names_the_place_of_damage(rt: HostRuntime) -> Result<(), Fail> {
    assert!(rt; names_the_place(rt.alloc())?);
    Ok(())
}

// Whether the file of that part of step 7 has bytes.
fn has_bytes(bench: &Bench, part: u64) -> bool {
    !bench.file(FileNo { step: 7, part }).is_empty()
}

// Which of the parts from 3 to 12 have bytes after runs were given up.
fn remaining(alloc: Global, older: bool) -> Result<[bool; 10], Fail> {
    let mut bench = Bench::empty(alloc);
    for part in 3..13u64 {
        bench.put_file(FileNo { step: 7, part }, &[1])?;
    }
    let old = point_with(1, 5, 6, 8);
    let new = point_with(2, 6, 9, 11);
    retire(if older { Some(&old) } else { None }, &new, &mut bench)?;
    let mut left = [false; 10];
    for k in 0..10usize {
        left[k] = has_bytes(&bench, 3 + k as u64);
    }
    Ok(left)
}

#[test]
fn gives_up_what_is_not_named(rt: HostRuntime) -> Result<(), Fail> {
    let (yes, no) = (true, false);
    let behind = [yes, yes, no, yes, yes, no, yes, no, yes, yes];
    let from_first = [yes, yes, no, yes, no, no, yes, no, yes, yes];
    assert_eq!(rt; remaining(rt.alloc(), true)?, behind);
    assert_eq!(rt; remaining(rt.alloc(), false)?, from_first);
    Ok(())
}

// The lower half of a word.
fn low_half(word: u64) -> u32 {
    (word % (1 << 32)) as u32
}

// The checkpoint in which the word of that number is another one.
fn with_word(place: usize, word: u64) -> Checkpoint {
    let mut point = sample();
    match place {
        0 => point.step = low_half(word),
        1 => point.sweep = low_half(word),
        2 => point.turns = word,
        3 => point.next_part = word,
        4 => point.budget = low_half(word),
        5 => point.tables = low_half(word),
        6..=255 => point.carry[(place - 6) % 250] = word,
        256..=1983 => put_in_table((place - 256) % 1728, word, &mut point),
        _ => {}
    }
    point
}

// Puts one of the words of the tables.
fn put_in_table(place: usize, word: u64, point: &mut Checkpoint) {
    let run = &mut point.runs[place / 192 % 9][place / 3 % 64];
    match place % 3 {
        0 => run.part = word,
        1 => run.next = word,
        _ => run.end = word,
    }
}

// Whether the rules allow that word, where all others are those of the sample.
fn is_allowed(place: usize, word: u64) -> bool {
    let is_part = 3 <= word && word < 12;
    match place {
        0 => word == 7,
        1 => word <= 1,
        2 => word < 1 << 62,
        3 => 6 < word && word <= 1 << 32,
        // The budget of any run, as far as a file can say it.
        4 => word < 1 << 32,
        5 => word <= 9,
        256 | 847 => is_part,
        257 => word <= 0x2a,
        258 => 2 <= word && word <= 1 << 44,
        848 => word <= 64,
        849 => word <= 1 << 44,
        // A part without records, or no run.
        256..=1215 if place % 3 == 1 => word == 0 || is_part,
        256..=1215 => word == 0,
        _ => true,
    }
}

// The bytes of two checkpoints, of which the second has another word of that number.
fn two_points(place: usize, word: u64) -> [u8; 32_768] {
    let mut second = written();
    let at = 8 * (place % 2048);
    second[at..at + 8].copy_from_slice(&word.to_be_bytes());
    let mut both = [0u8; 32_768];
    both[..POINT_SIZE].copy_from_slice(&written());
    both[POINT_SIZE..].copy_from_slice(&second);
    both
}

// Two checkpoints in a file, behind a gate of so many bytes.
fn put_two(place: usize, word: u64, gate: &[u8], bench: &mut Bench) -> Result<(), Fail> {
    if gate.len() > 2 {
        return Err(Fail::from("the gate"));
    }
    bench.put_file(checkpoint_file(7), &two_points(place, word))?;
    bench.put_file(checkpoint_gate(7), gate)?;
    Ok(())
}

// Whether the second of two checkpoints is loaded as it stands where the rules allow its word of that number, and else
// its place is named.
fn loads_word(alloc: Global, place: usize, word: u64) -> Result<bool, Fail> {
    let mut bench = Bench::empty(alloc);
    put_two(place, word, &[0, 0], &mut bench)?;
    let loaded = load(7, &mut bench);
    if is_allowed(place, word) {
        return Ok(loaded == Ok(Some(with_word(place, word))));
    }
    Ok(
        loaded
            == Err(StreamFault::Damaged {
                file: FileNo { step: 7, part: 1 },
                at: 16_384,
            }),
    )
}

#[test]
fn loads_what_stands_there_or_names_its_place(rt: HostRuntime) -> Result<(), Fail> {
    let mut all = true;
    for place in 0..2048usize {
        for word in [3, 1 << 63] {
            all = all && loads_word(rt.alloc(), place, word)?;
        }
    }
    assert!(rt; all);
    Ok(())
}

/// The ends of what a rule allows, and what is behind them.
const ENDS: [u64; 25] = [
    0,
    1,
    2,
    3,
    6,
    7,
    8,
    9,
    10,
    11,
    12,
    42,
    43,
    64,
    65,
    0x4000,
    0x4001,
    (1 << 32) - 1,
    1 << 32,
    (1 << 32) + 1,
    1 << 44,
    (1 << 44) + 1,
    (1 << 62) - 1,
    1 << 62,
    u64::MAX,
];

#[test]
fn keeps_to_the_ends_of_each_rule(rt: HostRuntime) -> Result<(), Fail> {
    let mut all = true;
    for place in [
        0, 1, 2, 3, 4, 5, 6, 256, 257, 258, 259, 260, 261, 847, 848, 849, 1213, 1216,
    ] {
        for word in ENDS {
            all = all && loads_word(rt.alloc(), place, word)?;
        }
    }
    assert!(rt; all);
    Ok(())
}

// Whether nothing is loaded behind an empty gate, whatever stands in the file, and the first of two checkpoints behind
// a gate of one byte.
fn counts_what_is_gated(alloc: Global) -> Result<bool, Fail> {
    let mut bench = Bench::empty(alloc);
    put_two(0, 7, &[], &mut bench)?;
    let none = load(7, &mut bench) == Ok(None);
    put_two(0, 8, &[0], &mut bench)?;
    Ok(none && load(7, &mut bench) == Ok(Some(sample())))
}

#[test]
fn loads_nothing_behind_an_empty_gate(rt: HostRuntime) -> Result<(), Fail> {
    assert!(rt; counts_what_is_gated(rt.alloc())?);
    Ok(())
}
