// Streams: calls succeed with ample memory, and a call that fails or a torn record ends a stream.
ghost use Rattle.std.specs.Prelude.{◌≤◌, ◌<◌, ◌^◌, length};

use block_stream::{Appender, Backward, Forward};
use rec_words::Rec;
use shelf_memory::Bench;
use shelf_model::{FileNo, Shelf, StreamFault};
use std::test::Fail;

const FILE: FileNo = FileNo { step: 1, part: 3 };

const EMPTY: Rec = Rec { w: [0; 8] };

pub(crate) fn write_all<S: Shelf>(
    count: u64,
    window: &mut [Rec],
    shelf: &mut S,
) -> Result<(), StreamFault>
    requires { 8 ≤ length window.old }
{
    let mut out = Appender::<Rec>::start(FILE, window, shelf)?;
    for k in 0..count {
        let record = Rec {
            w: [k, 1, 2, 3, 4, 5, 6, 7],
        };
        out.put(record, shelf)?;
    }
    out.settle(shelf)
}

pub(crate) fn reads_forward<S: Shelf>(
    count: u64,
    window: &mut [Rec],
    shelf: &mut S,
) -> Result<bool, StreamFault>
    requires few { count < 2 ^ 20 }
    requires room { 8 ≤ length window.old }
{
    let mut records = Forward::<Rec>::start(FILE, 0, count, window);
    for k in 0..count {
        let Some(record) = records.next(shelf)? else {
            return Ok(false);
        };
        if record.w[0] != k {
            return Ok(false);
        }
    }
    Ok(records.next(shelf)?.is_none())
}

pub(crate) fn reads_backward<S: Shelf>(
    count: u64,
    window: &mut [Rec],
    shelf: &mut S,
) -> Result<bool, StreamFault>
    requires few { count < 2 ^ 20 }
    requires room { 8 ≤ length window.old }
{
    let mut records = Backward::<Rec>::start(FILE, 0, count, window);
    for k in (0..count).rev() {
        let Some(record) = records.next(shelf)? else {
            return Ok(false);
        };
        if record.w[0] != k {
            return Ok(false);
        }
    }
    Ok(records.next(shelf)?.is_none())
}

// Whether so many records are given back from the front and from behind.
fn gives_back<S: Shelf>(count: u64, window: &mut [Rec], shelf: &mut S) -> Result<bool, StreamFault>
    requires few { count < 2 ^ 20 }
    requires room { 8 ≤ length window.old }
{
    write_all(count, window, shelf)?;
    Ok(reads_forward(count, window, shelf)? && reads_backward(count, window, shelf)?)
}

#[test]
fn gives_what_was_put(rt: HostRuntime) -> Result<(), Fail> {
    let mut room = [EMPTY; 40];
    // A window, and how many records: around what it has room for, and around the 32 that one call moves.
    let cases: [(usize, u64); 13] = [
        (8, 0),
        (8, 1),
        (8, 7),
        (8, 8),
        (8, 9),
        (8, 100),
        (40, 0),
        (40, 31),
        (40, 32),
        (40, 33),
        (40, 40),
        (40, 41),
        (40, 100),
    ];
    for (size, count) in cases {
        let window = &mut room[..size.max(8).min(40)];
        let mut bench = Bench::empty(rt.alloc());
        assert!(rt;
            gives_back(count.min(100), window, &mut bench)?,
            "{size} {count}"
        );
    }
    Ok(())
}

// Whether the second call of a reading fails it, from the front and from behind.
fn a_failing_call_ends_both(window: &mut [Rec], bench: &mut Bench) -> Result<bool, Fail>
    requires { 8 ≤ length window.old }
{
    let calls = bench.clock();
    if calls > 1000 {
        return Ok(false);
    }
    bench.fail_at(calls + 1)?;
    let forward = reads_forward(20, window, bench).err();
    bench.fail_at(calls + 3)?;
    let backward = reads_backward(20, window, bench).err();
    Ok(forward == Some(StreamFault::Shelf) && backward == Some(StreamFault::Shelf))
}

// Whether a record of 20 bytes behind twenty whole ones is where both readings end.
fn a_torn_record_ends_both(window: &mut [Rec], bench: &mut Bench) -> Result<bool, Fail>
    requires { 8 ≤ length window.old }
{
    let len = bench.len(FILE)?;
    bench.append(FILE, len, &[7; 20])?;
    let torn = StreamFault::Damaged {
        file: FILE,
        at: 1280,
    };
    let forward = reads_forward(21, window, bench).err();
    let backward = reads_backward(21, window, bench).err();
    Ok(forward == Some(torn) && backward == Some(torn))
}

#[test]
fn a_failing_call_and_a_torn_record_end_a_stream(rt: HostRuntime) -> Result<(), Fail> {
    let mut window = [EMPTY; 8];
    let mut bench = Bench::empty(rt.alloc());
    write_all(20, &mut window, &mut bench)?;
    assert!(rt;
        a_failing_call_ends_both(&mut window, &mut bench)?
            && a_torn_record_ends_both(&mut window, &mut bench)?
    );
    Ok(())
}
