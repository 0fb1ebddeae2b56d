// Runs: four runs are merged and read back, records are spilled and loaded, and a record out of order is damaged.
ghost use Rattle.std.specs.Prelude.{◌≤◌, length};

use crate::streams::reads_forward;
use block_stream::Appender;
use rec_words::{Rec, Spill};
use run_files::{Head, load_head, merge, spill, take_record};
use shelf_memory::Bench;
use shelf_model::{FileNo, Shelf, StreamFault};
use std::test::Fail;

const FIRST: FileNo = FileNo { step: 3, part: 3 };

const SECOND: FileNo = FileNo { step: 3, part: 4 };

const THIRD: FileNo = FileNo { step: 3, part: 5 };

const FOURTH: FileNo = FileNo { step: 3, part: 6 };

const MERGED: FileNo = FileNo { step: 1, part: 3 };

const EMPTY: Rec = Rec { w: [0; 8] };

fn keyed(key: u64) -> Rec {
    Rec {
        w: [key, 1, 2, 3, 4, 5, 6, 7],
    }
}

// Writes 100 records: every fourth key from one on.
fn write_run<S: Shelf>(f: FileNo, from: u64, shelf: &mut S) -> Result<(), StreamFault>
    requires { from ≤ 3 }
{
    let mut window = [EMPTY; 32];
    let mut out = Appender::<Rec>::start(f, &mut window, shelf)?;
    for k in 0..100u64 {
        out.put(keyed(4 * k + from), shelf)?;
    }
    out.settle(shelf)
}

// How many records four runs of 100 become.
fn merge_four<S: Shelf>(shelf: &mut S) -> Result<u64, StreamFault> {
    let mut windows = [EMPTY; 32];
    let mut writing = [EMPTY; 32];
    let mut heads = [
        Head::run(FIRST, 100),
        Head::run(SECOND, 100),
        Head::run(THIRD, 100),
        Head::run(FOURTH, 100),
    ];
    let merged = merge::<Rec, S>(&mut heads, 8, &mut windows, MERGED, &mut writing, shelf)?;
    Ok(merged.end)
}

// Whether four runs are one with their keys in turn. The calls that made it: 13 that read each run by eights, one that
// cut the file, and 13 that wrote it by pieces of 32.
fn merges_in_turn(bench: &mut Bench) -> Result<bool, Fail> {
    write_run(FIRST, 2, bench)?;
    write_run(SECOND, 0, bench)?;
    write_run(THIRD, 3, bench)?;
    write_run(FOURTH, 1, bench)?;
    let before = bench.clock();
    let count = merge_four(bench)?;
    let after = bench.clock();
    let mut window = [EMPTY; 32];
    let in_turn = reads_forward(400, &mut window, bench)?;
    Ok(count == 400 && in_turn && after.saturating_sub(before) == 66)
}

// Whether 40 equal records are spilled with three calls, and loaded as many as the window has.
fn spills_and_loads(bench: &mut Bench) -> Result<bool, Fail> {
    let item = keyed(5).to_rec();
    let records = [item; 40];
    let mut writing = [EMPTY; 32];
    let mut window = [EMPTY; 8];
    let before = bench.clock();
    let mut head = spill::<Rec, Bench>(&records, FIRST, &mut writing, bench)?;
    let after = bench.clock();
    load_head::<Rec, Bench>(&mut head, &mut window, bench)?;
    Ok(after.saturating_sub(before) == 3 && head.end == 40 && head.have == 8 && window[7].w[0] == 5)
}

// Writes two records, of which the second is less.
fn write_down<S: Shelf>(shelf: &mut S) -> Result<(), StreamFault> {
    let mut window = [EMPTY; 8];
    let mut out = Appender::<Rec>::start(FIRST, &mut window, shelf)?;
    out.put(keyed(9), shelf)?;
    out.put(keyed(8), shelf)?;
    out.settle(shelf)
}

// Whether the second of records that descend is damaged, once it is the next one.
fn second_is_damaged(bench: &mut Bench) -> Result<bool, Fail> {
    write_down(bench)?;
    let mut head = Head::run(FIRST, 2);
    let mut window = [EMPTY; 8];
    load_head::<Rec, Bench>(&mut head, &mut window, bench)?;
    if head.have != 1 || head.at != 0 {
        return Ok(false);
    }
    let first = take_record::<Rec>(&mut head, &window);
    let fault = load_head::<Rec, Bench>(&mut head, &mut window, bench).err();
    Ok(
        first.w[0] == 9
            && fault
                == Some(StreamFault::Damaged {
                    file: FIRST,
                    at: 64,
                }),
    )
}

#[test]
fn runs_are_merged(rt: HostRuntime) -> Result<(), Fail> {
    let mut bench = Bench::empty(rt.alloc());
    assert!(rt;
        merges_in_turn(&mut bench)?
            && spills_and_loads(&mut bench)?
            && second_is_damaged(&mut bench)?
    );
    Ok(())
}
