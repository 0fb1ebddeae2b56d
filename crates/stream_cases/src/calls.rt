// How many calls streams make: each moves as many records as the window and a piece of 2,048 bytes allow.
ghost use Rattle.std.specs.Prelude.{◌≤◌, ◌^◌, IfOk, length};

use crate::streams::{reads_backward, reads_forward, write_all};
use arc_file::{Arc, ArcReader, ArcWriter, Unreduced};
use node_file::{NodeReader, NodeWriter};
use rec_words::{Node, Ptr, Rec, Uid};
use shelf_memory::Bench;
use shelf_model::{FileNo, Shelf, StreamFault};
use std::test::Fail;

const NODES: FileNo = FileNo { step: 2, part: 0 };

const INNER: FileNo = FileNo { step: 2, part: 1 };

const ENDS: FileNo = FileNo { step: 2, part: 2 };

const EMPTY: Rec = Rec { w: [0; 8] };

// The calls that put 100 records of 64 bytes, and those that read them forward and backward.
fn record_calls(size: usize, bench: &mut Bench) -> Result<(u64, u64, u64), Fail>
    requires { (8 ≤ size) × (size ≤ 80) }
{
    let mut records = [EMPTY; 80];
    let window = &mut records[..size];
    let before = bench.clock();
    write_all(100, window, bench)?;
    let written = bench.clock();
    reads_forward(100, window, bench)?;
    let forward = bench.clock();
    reads_backward(100, window, bench)?;
    let backward = bench.clock();
    Ok((
        written.saturating_sub(before),
        forward.saturating_sub(written),
        backward.saturating_sub(forward),
    ))
}

// Writes 100 nodes of one level, and the trailer.
fn write_nodes<S: Shelf>(window: &mut [Rec], shelf: &mut S) -> Result<u64, StreamFault>
    requires { 8 ≤ length window.old }
{
    let mut writer = NodeWriter::start(NODES, 1, window, shelf)?;
    for k in 0..100u64 {
        if let Some(uid) = Uid::of(Ptr::of_row(0, k)) {
            let node = Node {
                uid,
                low: Ptr::terminal(false),
                high: Ptr::terminal(true),
            };
            writer.put(node, shelf)?;
        }
    }
    writer.finish(Ptr::of_row(0, 99), shelf)
}

// The calls that write 100 nodes and the trailer, 101 records of 24 bytes, and those that read them.
fn node_calls(size: usize, bench: &mut Bench) -> Result<(u64, u64), Fail>
    requires { (8 ≤ size) × (size ≤ 80) }
{
    let mut records = [EMPTY; 80];
    let window = &mut records[..size];
    let before = bench.clock();
    write_nodes(window, bench)?;
    let written = bench.clock();
    let mut reader = NodeReader::start(NODES, 1, window, bench)?;
    for _node in 0..101u64 {
        reader.next(bench)?;
    }
    let read = bench.clock();
    Ok((written.saturating_sub(before), read.saturating_sub(written)))
}

// Writes 100 arcs to nodes and 100 to truth values.
fn write_arcs<S: Shelf>(room: &mut [Rec], shelf: &mut S) -> Result<Unreduced, StreamFault>
    requires { 16 ≤ length room.old }
    ensures few { IfOk result (λ made. (made.inner_count ≤ 2 ^ 46) × (made.ends_count ≤ 2 ^ 46)) }
{
    let mut out = ArcWriter::start(INNER, ENDS, room, shelf)?;
    for k in 0..100u64 {
        if let Some(source) = Uid::of(Ptr::node(0, k)) {
            let high = false;
            let target = Ptr::node(1, k);
            out.put(
                Arc {
                    high,
                    source,
                    target,
                },
                shelf,
            )?;
            let target = Ptr::terminal(false);
            out.put(
                Arc {
                    high,
                    source,
                    target,
                },
                shelf,
            )?;
        }
    }
    out.settle(Ptr::node(0, 0), shelf)
}

// The calls that write 100 arcs of 16 bytes into each of two files, and those that read them.
fn arc_calls(size: usize, bench: &mut Bench) -> Result<(u64, u64), Fail>
    requires { (16 ≤ size) × (size ≤ 80) }
{
    let mut records = [EMPTY; 80];
    let room = &mut records[..size];
    let before = bench.clock();
    let made = write_arcs(room, bench)?;
    let written = bench.clock();
    let mut reader = ArcReader::start(made, room);
    for _arc in 0..101u64 {
        reader.next_inner(bench)?;
        reader.next_end(bench)?;
    }
    let read = bench.clock();
    Ok((written.saturating_sub(before), read.saturating_sub(written)))
}

// A file is cut at the start and synced at the end. With a window of 8 records 100 take 13 calls. A window of 40
// has more than the 32 records of 64 bytes that a call moves, and 40 records of 24 or of 16 bytes in a call.
#[test]
fn calls_are_full(rt: HostRuntime) -> Result<(), Fail> {
    let mut bench = Bench::empty(rt.alloc());
    assert!(rt;
        record_calls(8, &mut bench)? == (15, 13, 13)
            && record_calls(40, &mut bench)? == (6, 4, 4)
            && node_calls(8, &mut bench)? == (15, 15)
            && node_calls(40, &mut bench)? == (5, 5)
            && arc_calls(16, &mut bench)? == (30, 26)
            && arc_calls(80, &mut bench)? == (10, 6)
    );
    Ok(())
}
