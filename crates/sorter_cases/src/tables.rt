// What no clause says: which place is named where a record of a run was changed after a freeze, and what is given of
// tables that no freeze made, and of files that aren't theirs.
ghost use Rattle.std.specs.Prelude.{◌≡◌, ◌≤◌, ◌^◌, IfOk, length};
ghost use Rattle.run_tiers.specs.Tables.{IsTable, ServeTable};

use crate::frozen::push_frozen;
use crate::lives::first_table;
use crate::sorters::{first_parts, key_of, push_down, record_of};
use rec_words::Rec;
use run_merge::{Parts, RunTable, Sorter};
use run_tiers::Run;
use shelf_memory::Bench;
use shelf_model::{FileNo, Shelf, SortFault};
use std::alloc::{AllocError, Global};
use std::test::Fail;

const EMPTY: Rec = Rec { w: [0; 8] };

/// The least key of the runs that are changed. All of their keys have the same sixth byte, which is 1.
const LEAST: u64 = 100_000;

/// How many records each of these runs has.
const RECORDS: u64 = 400;

/// How the runs are read, one of which was changed.
#[derive(Clone, Copy, Debug, PartialEq, Eq)]
enum Read {
    /// A push finds the room full, and merges them.
    ByPush,
    /// A freeze does.
    ByFreeze,
    /// Items are taken.
    ByTakes,
}

// The file of a part of the step.
fn part(number: u64) -> FileNo {
    FileNo {
        step: 0,
        part: number,
    }
}

// Damage at a record of a part.
fn damaged(number: u64, record: u64) -> SortFault {
    SortFault::Damaged {
        file: part(number),
        at: record.saturating_mul(64),
    }
}

// Four runs, each in a part of its own from 3 on, with the keys of the one behind those of the other.
fn make_runs(room: &mut [Rec], parts: &mut Parts, bench: &mut Bench) -> Result<RunTable, SortFault>
    requires enough { 1024 ≤ length room.old }
    requires step { parts.old.step ≡ 0 }
    requires past { 3 ≤ parts.old.next }
    ensures step { parts.new.step ≡ 0 }
    ensures table { IfOk result IsTable }
    ensures serves { IfOk result (ServeTable parts.new) }
{
    let mut table = first_table(room, parts, bench)?;
    for run in 0..4u64 {
        table = push_frozen(
            LEAST + RECORDS * (run % 4),
            RECORDS,
            &table,
            room,
            parts,
            bench,
        )?;
    }
    Ok(table)
}

// Gives the sixth byte of a record's key another value.
fn change_key(
    alloc: Global,
    number: u64,
    record: u64,
    value: u8,
    bench: &mut Bench,
) -> Result<(), Fail> {
    let mut bytes = bench.file(part(number)).to_vec(alloc)?;
    let byte = bytes
        .get_mut((record % RECORDS * 64 + 5) as usize)
        .ok_or("the run is short")?;
    if *byte != 1 {
        return Err(Fail::from("the key"));
    }
    *byte = value;
    if bytes.len() > 1_000_000 {
        return Err(Fail::from("the run is long"));
    }
    bench.put_file(part(number), &bytes)?;
    Ok(())
}

// Pushes more items than the room has records.
fn push_until_full<S: Shelf>(
    table: &RunTable,
    room: &mut [Rec],
    parts: &mut Parts,
    shelf: &mut S,
) -> Result<(), SortFault>
    requires enough { 1024 ≤ length room.old }
    requires table { IsTable table.now }
    requires step { parts.old.step ≡ 0 }
    requires serves { ServeTable parts.old table.now }
{
    let mut sorter = Sorter::<Rec>::thaw(0, table, room);
    push_down(0, 3000, &mut sorter, parts, shelf)
}

// Takes items, and answers how many were given before the end or a fault.
fn take_all<S: Shelf>(
    table: &RunTable,
    room: &mut [Rec],
    taken: &mut Vec<u64>,
    shelf: &mut S,
) -> Result<Result<(), SortFault>, AllocError>
    requires enough { 1024 ≤ length room.old }
    requires table { IsTable table.now }
{
    let mut sorter = Sorter::<Rec>::thaw(0, table, room);
    for _item in 0..10_000u64 {
        match sorter.next(shelf) {
            Ok(Some(item)) => taken.push(key_of(item))?,
            Ok(None) => return Ok(Ok(())),
            Err(fault) => return Ok(Err(fault)),
        }
    }
    Ok(Ok(()))
}

// Whether keys are those from the least on, so many of them.
fn are_first(keys: &[u64], count: u64) -> bool {
    let mut key = LEAST;
    for taken in keys {
        if *taken != key {
            return false;
        }
        key = key.saturating_add(1);
    }
    key == LEAST.saturating_add(count)
}

// Whether a change of a record of one of four runs is named at that record: it is less than the one before it.
fn change_is_named(
    alloc: Global,
    read: Read,
    run: u64,
    record: u64,
    value: u8,
    at: u64,
) -> Result<bool, Fail> {
    let mut bench = Bench::empty(alloc);
    let mut parts = first_parts();
    let mut room = vec![in alloc; EMPTY; 1024]?;
    let mut other = vec![in alloc; EMPTY; 2048]?;
    let table = make_runs(room.as_mut_slice(), &mut parts, &mut bench)?;
    change_key(alloc, 3 + run % 4, record, value, &mut bench)?;
    let named = damaged(3 + run % 4, at);
    match read {
        Read::ByPush => {
            Ok(push_until_full(&table, other.as_mut_slice(), &mut parts, &mut bench) == Err(named))
        }
        Read::ByFreeze => {
            Ok(
                push_frozen(
                    0,
                    RECORDS,
                    &table,
                    other.as_mut_slice(),
                    &mut parts,
                    &mut bench,
                ) == Err(named),
            )
        }
        Read::ByTakes => {
            let mut taken = Vec::new(alloc);
            let ended = take_all(&table, other.as_mut_slice(), &mut taken, &mut bench)?;
            let before = RECORDS * (run % 4) + record % RECORDS;
            Ok(ended == Err(named) && (at != record || are_first(taken.as_slice(), before)))
        }
    }
}

#[test]
fn a_record_that_changed_is_named_when_its_run_is_read(rt: HostRuntime) -> Result<(), Fail> {
    // The run, the record, what its key's sixth byte becomes, and the record that is less than the one before it then.
    let cases: [(u64, u64, u8, u64); 9] = [
        (0, 1, 0, 1),
        (0, 0, 2, 1),
        (1, 7, 0, 7),
        (1, 8, 0, 8),
        (2, 31, 0, 31),
        (2, 32, 0, 32),
        (3, 32, 255, 33),
        (3, 200, 2, 201),
        (3, 399, 0, 399),
    ];
    for read in [Read::ByPush, Read::ByFreeze, Read::ByTakes] {
        for (run, record, value, at) in cases {
            let named = change_is_named(rt.alloc(), read, run, record, value, at)?;
            assert!(rt; named, "{read:?}: record {record} of run {run}");
        }
    }
    Ok(())
}

// Puts a run into a slot, where a table may have it.
fn put_run(table: &mut RunTable, slot: usize, run: Run)
    requires { IsTable table.old }
    ensures { IsTable table.new }
{
    if slot < 64 && run.part >= 3 && run.end <= 1 << 44 {
        table.runs[slot] = run;
    }
}

// Puts records with those keys into a part, and then some more bytes.
fn put_keys(
    alloc: Global,
    number: u64,
    keys: &[u64],
    more: usize,
    bench: &mut Bench,
) -> Result<(), Fail> {
    let mut bytes = Vec::new(alloc);
    for key in keys {
        for word in record_of(*key).w {
            bytes.extend_from_slice(&word.to_be_bytes())?;
        }
    }
    bytes.extend_from_slice(&[255; 64][..more.min(64)])?;
    if bytes.len() > 1_000_000 {
        return Err(Fail::from("too many keys"));
    }
    bench.put_file(part(number), &bytes)?;
    Ok(())
}

// What a table of these runs gives: of part 3 with those keys and so many bytes behind them, and of part 4 with other
// keys.
fn given(
    alloc: Global,
    runs: &[(usize, u64, u64, u64)],
    third: &[u64],
    more: usize,
    fourth: &[u64],
) -> Result<(Vec<u64>, Result<(), SortFault>), Fail> {
    let mut bench = Bench::empty(alloc);
    let mut parts = first_parts();
    let mut room = vec![in alloc; EMPTY; 1024]?;
    let mut table = first_table(room.as_mut_slice(), &mut parts, &mut bench)?;
    for (slot, part, next, end) in runs {
        let run = Run {
            part: *part,
            next: *next,
            end: *end,
        };
        put_run(&mut table, *slot, run);
    }
    put_keys(alloc, 3, third, more, &mut bench)?;
    put_keys(alloc, 4, fourth, 0, &mut bench)?;
    let mut taken = Vec::new(alloc);
    let ended = take_all(&table, room.as_mut_slice(), &mut taken, &mut bench)?;
    Ok((taken, ended))
}

/// A table over part 3, which has the keys 10, 20, 30 and 40 and ten bytes more, and part 4, which has 5, 25, 15 and
/// 60.
#[derive(Clone, Copy)]
struct Case {
    name: &'static str,
    /// The slots, the parts, and from where to where the runs go.
    runs: &'static [(usize, u64, u64, u64)],
    /// The keys that are given.
    gives: &'static [u64],
    /// The part and the record that are named then.
    named: Option<(u64, u64)>,
}

const CASES: [Case; 12] = [
    Case {
        name: "one file in two slots",
        runs: &[(0, 3, 0, 4), (9, 3, 1, 3)],
        gives: &[10, 20, 20, 30, 30, 40],
        named: None,
    },
    Case {
        name: "disorder",
        runs: &[(2, 3, 0, 4), (0, 4, 0, 4)],
        gives: &[5, 10, 20, 25],
        named: Some((4, 2)),
    },
    Case {
        name: "disorder that was taken before",
        runs: &[(2, 3, 0, 4), (0, 4, 2, 4)],
        gives: &[10, 15, 20, 30, 40, 60],
        named: None,
    },
    Case {
        name: "a run that ends before the disorder",
        runs: &[(63, 4, 0, 2)],
        gives: &[5, 25],
        named: None,
    },
    Case {
        name: "a torn record at the end",
        runs: &[(0, 3, 2, 5)],
        gives: &[30, 40],
        named: Some((3, 4)),
    },
    Case {
        name: "a short file",
        runs: &[(4, 4, 3, 9)],
        gives: &[60],
        named: Some((4, 4)),
    },
    Case {
        name: "a file that ends before the run begins",
        runs: &[(7, 4, 6, 7)],
        gives: &[],
        named: Some((4, 6)),
    },
    Case {
        name: "a file that isn't there",
        runs: &[(0, 3, 0, 1), (1, 9, 0, 17_592_186_044_416)],
        gives: &[],
        named: Some((9, 0)),
    },
    Case {
        name: "a run that is taken up",
        runs: &[(0, 9, 5, 5), (1, 3, 3, 4)],
        gives: &[40],
        named: None,
    },
    Case {
        name: "a run that ends before it begins",
        runs: &[(0, 3, 3, 1), (1, 4, 3, 4)],
        gives: &[60],
        named: None,
    },
    Case {
        name: "two slots with one disorder",
        runs: &[(0, 4, 1, 3), (1, 4, 0, 3)],
        gives: &[5, 25],
        named: Some((4, 2)),
    },
    Case {
        name: "no run",
        runs: &[],
        gives: &[],
        named: None,
    },
];

fn case_agrees(alloc: Global, case: &Case) -> Result<bool, Fail> {
    let third = [10, 20, 30, 40];
    let fourth = [5, 25, 15, 60];
    let (taken, ended) = given(alloc, case.runs, &third, 10, &fourth)?;
    let wanted = match case.named {
        Some((number, record)) => Err(damaged(number, record)),
        None => Ok(()),
    };
    Ok(taken.as_slice() == case.gives && ended == wanted)
}

#[test]
fn tables_that_no_freeze_made_give_what_is_there_or_name_the_place(
    rt: HostRuntime,
) -> Result<(), Fail> {
    for case in CASES {
        assert!(rt; case_agrees(rt.alloc(), &case)?, "{}", case.name);
    }
    Ok(())
}

// Whether a table with a run in each slot, two records each of one file, gives them all: more than any parts can
// serve, so it can only be taken from. A record with a key of 0 is named where it is the second of its run.
fn all_slots_agree(alloc: Global, zero: Option<u64>) -> Result<bool, Fail> {
    let mut runs = [(0usize, 3u64, 0u64, 0u64); 64];
    for slot in 0..64usize {
        let next = 2 * slot as u64;
        runs[slot] = (slot, 3, next, next + 2);
    }
    let mut keys = [0u64; 128];
    for record in 0..128usize {
        keys[record] = 1 + record as u64;
    }
    let Some(zero) = zero else {
        let (taken, ended) = given(alloc, &runs, &keys, 0, &[])?;
        return Ok(taken.as_slice() == keys.as_slice() && ended == Ok(()));
    };
    let place = (zero % 128) as usize;
    keys[place] = 0;
    let (taken, ended) = given(alloc, &runs, &keys, 0, &[])?;
    Ok(taken.as_slice() == &keys[..place] && ended == Err(damaged(3, zero % 128)))
}

#[test]
fn a_table_with_a_run_in_each_slot_is_taken_from(rt: HostRuntime) -> Result<(), Fail> {
    for zero in [None, Some(1), Some(77), Some(127)] {
        assert!(rt; all_slots_agree(rt.alloc(), zero)?, "{zero:?}");
    }
    Ok(())
}
