// Arc files: calls succeed with ample memory, the bytes of worked arcs, which records are damaged, and a call
// that fails in mid-stream.
ghost use Rattle.std.specs.Prelude.{◌≤◌, ◌<◌, ◌^◌, length};

use arc_file::{Arc, ArcReader, ArcWriter, Unreduced};
use rec_words::{Ptr, Rec, Uid};
use shelf_memory::Bench;
use shelf_model::{FileNo, Shelf, StreamFault};
use std::alloc::Global;
use std::test::Fail;

const INNER: FileNo = FileNo { step: 1, part: 3 };

const ENDS: FileNo = FileNo { step: 1, part: 4 };

const EMPTY: Rec = Rec { w: [0; 8] };

// The words of the truth values, of a node of level 0 and of two of level 1, and the bit of a high arc.
const ZERO: u64 = 0x8000_0000_0000_0000;

const ONE: u64 = 0x8000_0000_0000_0001;

const TOP: u64 = 0x0000_0000_0000_0009;

const LEFT: u64 = 0x0000_8000_0000_0005;

const RIGHT: u64 = 0x0000_8000_0000_0006;

const HIGH: u64 = 0x8000_0000_0000_0000;

fn arc(source: u64, high: bool, target: u64) -> Option<Arc> {
    Some(Arc {
        high,
        source: Uid::of(Ptr::from_word(source)?)?,
        target: Ptr::from_word(target)?,
    })
}

// The arcs of an exclusive or: those to nodes in their order, then those to truth values in theirs.
fn exclusive_or() -> Option<[Arc; 6]> {
    let rows = [
        (TOP, false, LEFT),
        (TOP, true, RIGHT),
        (LEFT, false, ZERO),
        (LEFT, true, ONE),
        (RIGHT, false, ONE),
        (RIGHT, true, ZERO),
    ];
    let mut arcs = [arc(TOP, false, LEFT)?; 6];
    for k in 0..6 {
        let (source, high, target) = rows[k];
        arcs[k] = arc(source, high, target)?;
    }
    Some(arcs)
}

fn write_arcs<S: Shelf>(
    root: Ptr,
    arcs: &[Arc],
    room: &mut [Rec],
    shelf: &mut S,
) -> Result<Unreduced, StreamFault>
    requires { 16 ≤ length room.old }
{
    let mut out = ArcWriter::start(INNER, ENDS, room, shelf)?;
    for arc in arcs {
        out.put(*arc, shelf)?;
    }
    out.settle(root, shelf)
}

// Reads so many arcs of both files, and answers whether both are at their front then.
fn reads_all<S: Shelf>(
    inner_count: u64,
    ends_count: u64,
    room: &mut [Rec],
    shelf: &mut S,
) -> Result<bool, StreamFault>
    requires room { 16 ≤ length room.old }
    requires inner_few { inner_count < 2 ^ 20 }
    requires ends_few { ends_count < 2 ^ 20 }
{
    let made = Unreduced {
        root: Ptr::terminal(false),
        inner: INNER,
        inner_count,
        ends: ENDS,
        ends_count,
    };
    let mut reader = ArcReader::start(made, room);
    for _inner in 0..inner_count {
        reader.next_inner(shelf)?;
    }
    for _end in 0..ends_count {
        reader.next_end(shelf)?;
    }
    Ok(reader.next_inner(shelf)?.is_none() && reader.next_end(shelf)?.is_none())
}

// The bytes of two records.
fn bytes_of(words: [u64; 4]) -> [u8; 32] {
    let mut bytes = [0; 32];
    for k in 0..4 {
        bytes[8 * k..8 * k + 8].copy_from_slice(&words[k].to_be_bytes());
    }
    bytes
}

// Whether the files of an exclusive or have its arcs' bytes.
fn has_the_bytes(bench: &Bench) -> bool {
    bench.file(INNER) == bytes_of([TOP, LEFT, TOP + HIGH, RIGHT]).as_slice()
        && bench.file(ENDS).len() == 64
        && bench
            .file(ENDS)
            .starts_with(&bytes_of([LEFT, ZERO, LEFT + HIGH, ONE]))
}

// Whether the arcs of an exclusive or are given from behind, each kind in its order, and counted.
fn gives_from_behind(
    made: Unreduced,
    arcs: &[Arc; 6],
    room: &mut [Rec],
    bench: &mut Bench,
) -> Result<bool, Fail>
    requires room { 16 ≤ length room.old }
    requires inner_few { made.inner_count < 2 ^ 20 }
    requires ends_few { made.ends_count < 2 ^ 20 }
{
    let mut reader = ArcReader::start(made, room);
    let end = reader.next_end(bench)?;
    let inner = reader.next_inner(bench)?;
    let inner_left = reader.left_over().inner_count;
    let last_inner = reader.next_inner(bench)?;
    let no_inner = reader.next_inner(bench)?;
    let next_end = reader.next_end(bench)?;
    let ends_left = reader.left_over().ends_count;
    Ok(
        end == Some(arcs[5])
            && inner == Some(arcs[1])
            && inner_left == 1
            && last_inner == Some(arcs[0])
            && no_inner.is_none()
            && next_end == Some(arcs[4])
            && ends_left == 2,
    )
}

// Whether an exclusive or that is written has its root, counts and bytes, and is given back.
fn gives_an_exclusive_or_back(bench: &mut Bench) -> Result<bool, Fail> {
    let mut room = [EMPTY; 16];
    let arcs = exclusive_or().ok_or("no arcs")?;
    let root = Ptr::from_word(TOP).ok_or("no root")?;
    let made = write_arcs(root, &arcs, &mut room, bench)?;
    let wanted = Unreduced {
        root,
        inner: INNER,
        inner_count: 2,
        ends: ENDS,
        ends_count: 4,
    };
    Ok(
        made == wanted
            && has_the_bytes(bench)
            && gives_from_behind(wanted, &arcs, &mut room, bench)?,
    )
}

#[test]
fn gives_the_arcs_of_an_exclusive_or_back(rt: HostRuntime) -> Result<(), Fail> {
    let mut bench = Bench::empty(rt.alloc());
    assert!(rt; gives_an_exclusive_or_back(&mut bench)?);
    Ok(())
}

// Whether a writing that goes on behind the first arcs cuts the others, and is refused where there are fewer.
fn cuts_the_later_arcs(bench: &mut Bench) -> Result<bool, Fail> {
    let mut room = [EMPTY; 16];
    let arcs = exclusive_or().ok_or("no arcs")?;
    let made = write_arcs(arcs[0].target, &arcs, &mut room, bench)?;
    let mut first = Unreduced {
        root: made.root,
        inner: INNER,
        inner_count: 1,
        ends: ENDS,
        ends_count: 3,
    };
    let mut out = ArcWriter::resume(first, &mut room, bench)?;
    let cut = bench.file(INNER).len() == 16 && bench.file(ENDS).len() == 48;
    let settled = out.settle(made.root, bench)?;
    let same = settled == first;
    first.ends_count = 4;
    let short = ArcWriter::resume(first, &mut room, bench).err();
    let damage = StreamFault::Damaged { file: ENDS, at: 48 };
    Ok(cut && same && short == Some(damage))
}

#[test]
fn goes_on_behind_the_first_arcs(rt: HostRuntime) -> Result<(), Fail> {
    let mut bench = Bench::empty(rt.alloc());
    assert!(rt; cuts_the_later_arcs(&mut bench)?);
    Ok(())
}

// Where the file of the first bytes of two records is damaged, or that it isn't.
fn damage_in(
    alloc: Global,
    file: FileNo,
    words: [u64; 4],
    len: usize,
) -> Result<Option<StreamFault>, Fail> {
    let mut room = [EMPTY; 16];
    let mut bench = Bench::empty(alloc);
    bench.put_file(file, &bytes_of(words)[..len.min(32)])?;
    let inner = if file == INNER { 2 } else { 0 };
    Ok(reads_all(inner, 2 - inner, &mut room, &mut bench).err())
}

#[test]
fn refuses_arcs_that_cannot_stand_in_their_file(rt: HostRuntime) -> Result<(), Fail> {
    // Two records of a file, how many bytes of them it has, and the place of the damage.
    let cases: [(FileNo, [u64; 4], usize, Option<u64>); 11] = [
        (INNER, [TOP, LEFT, TOP + HIGH, RIGHT], 32, None),
        (INNER, [TOP, LEFT, TOP, LEFT], 32, None),
        (INNER, [TOP, RIGHT, TOP + HIGH, LEFT], 32, Some(0)),
        (INNER, [TOP, LEFT, TOP, ONE], 32, Some(16)),
        (INNER, [TOP, LEFT, RIGHT, RIGHT], 32, Some(16)),
        (INNER, [TOP, 0x7fff_8000_0000_0000, TOP, RIGHT], 32, Some(0)),
        (INNER, [TOP, LEFT, TOP + HIGH, RIGHT], 28, Some(16)),
        (ENDS, [LEFT, ONE, RIGHT, ZERO], 32, None),
        (ENDS, [LEFT, ONE, RIGHT, LEFT], 32, Some(16)),
        (ENDS, [LEFT + HIGH, ONE, LEFT, ZERO], 32, Some(0)),
        (
            ENDS,
            [LEFT, ONE, RIGHT, 0x8000_0000_0000_0002],
            32,
            Some(16),
        ),
    ];
    for (file, words, len, place) in cases {
        let fault = damage_in(rt.alloc(), file, words, len)?;
        let wanted = place.map(|at| StreamFault::Damaged { file, at });
        assert!(rt; fault == wanted, "{words:?}: {fault:?}");
    }
    Ok(())
}

// Whether a reading of twenty arcs and then none ends at the call of that number from now.
fn a_failing_call_ends(call: u64, room: &mut [Rec], bench: &mut Bench) -> Result<bool, Fail>
    requires few { call < 2 ^ 20 }
    requires room { 16 ≤ length room.old }
{
    let calls = bench.clock();
    if calls >= 1000 {
        return Ok(false);
    }
    bench.fail_at(calls + call)?;
    Ok(reads_all(20, 0, room, bench).err() == Some(StreamFault::Shelf))
}

// Whether a call that fails ends readings of twenty equal arcs, and a writing of them.
fn failing_calls_end(bench: &mut Bench) -> Result<bool, Fail> {
    let mut room = [EMPTY; 16];
    let one = arc(TOP, false, LEFT).ok_or("no arc")?;
    let arcs = [one; 20];
    let made = write_arcs(one.target, &arcs, &mut room, bench)?;
    let counted = made.inner_count == 20 && made.ends_count == 0;
    let read = reads_all(20, 0, &mut room, bench)?;
    let first = a_failing_call_ends(1, &mut room, bench)?;
    let second = a_failing_call_ends(2, &mut room, bench)?;
    let calls = bench.clock();
    if calls >= 1000 {
        return Ok(false);
    }
    bench.fail_at(calls + 3)?;
    let fault = write_arcs(one.target, &arcs, &mut room, bench).err();
    Ok(counted && read && first && second && fault == Some(StreamFault::Shelf))
}

#[test]
fn a_call_that_fails_ends_a_reading_and_a_writing(rt: HostRuntime) -> Result<(), Fail> {
    let mut bench = Bench::empty(rt.alloc());
    assert!(rt; failing_calls_end(&mut bench)?);
    Ok(())
}
