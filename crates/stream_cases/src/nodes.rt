// Node files: calls succeed with ample memory, which records are damaged, and a call that fails in mid-stream.
ghost use Rattle.std.specs.Prelude.{◌≤◌, length};

use node_file::{NodeReader, NodeWriter};
use rec_words::{Node, Ptr, Rec, Uid};
use shelf_memory::Bench;
use shelf_model::{FileNo, Shelf, StreamFault};
use std::alloc::Global;
use std::test::Fail;

const FILE: FileNo = FileNo { step: 1, part: 0 };

const EMPTY: Rec = Rec { w: [0; 8] };

// The words of the truth values, of a root of level 0 and one below it, and of a node of level 1.
const ZERO: u64 = 0x8000_0000_0000_0000;

const ONE: u64 = 0x8000_0000_0000_0001;

const ROOT: u64 = 0x0000_7fff_ffff_ffff;

const LATER: u64 = 0x0000_7fff_ffff_fffe;

const DEEP: u64 = 0x0000_ffff_ffff_ffff;

// The bytes of two nodes and a trailer.
fn bytes_of(words: [u64; 9]) -> [u8; 72] {
    let mut bytes = [0; 72];
    for k in 0..9 {
        bytes[8 * k..8 * k + 8].copy_from_slice(&words[k].to_be_bytes());
    }
    bytes
}

// Reads all nodes of a file for three variables, and answers how many there were.
fn reads_all<S: Shelf>(window: &mut [Rec], shelf: &mut S) -> Result<u64, StreamFault>
    requires { 8 ≤ length window.old }
{
    let mut reader = NodeReader::start(FILE, 3, window, shelf)?;
    let count = reader.trailer().count;
    for _node in 0..count {
        reader.next(shelf)?;
    }
    reader.next(shelf)?;
    Ok(count)
}

// Whether the file of a variable is read back, and is damaged for another number of variables.
fn reads_a_variable_back(bench: &mut Bench) -> Result<bool, Fail> {
    let mut window = [EMPTY; 8];
    let root = Ptr::node(1, (1 << 47) - 1);
    let Some(uid) = Uid::of(root) else {
        return Ok(false);
    };
    let node = Node {
        uid,
        low: Ptr::terminal(false),
        high: Ptr::terminal(true),
    };
    let mut writer = NodeWriter::start(FILE, 3, &mut window, bench)?;
    writer.put(node, bench)?;
    let written = writer.finish(root, bench)?;
    let len = bench.file(FILE).len();
    let mut reader = NodeReader::start(FILE, 3, &mut window, bench)?;
    let count = reader.trailer().count;
    let first = reader.next(bench)?;
    let next = reader.next(bench)?;
    let all = reads_all(&mut window, bench)?;
    let other = NodeReader::start(FILE, 4, &mut window, bench).err();
    let damage = StreamFault::Damaged { file: FILE, at: 24 };
    Ok(
        written == 1
            && len == 48
            && count == 1
            && first == Some(node)
            && next.is_none()
            && all == 1
            && other == Some(damage),
    )
}

#[test]
fn reads_the_node_file_of_a_variable(rt: HostRuntime) -> Result<(), Fail> {
    let mut bench = Bench::empty(rt.alloc());
    assert!(rt; reads_a_variable_back(&mut bench)?);
    Ok(())
}

// Where the file of the first bytes of two nodes and a trailer is damaged, or that it isn't.
fn damage_in(alloc: Global, words: [u64; 9], len: usize) -> Result<Option<StreamFault>, Fail> {
    let mut window = [EMPTY; 8];
    let mut bench = Bench::empty(alloc);
    bench.put_file(FILE, &bytes_of(words)[..len.min(72)])?;
    Ok(reads_all(&mut window, &mut bench).err())
}

#[test]
fn refuses_nodes_that_cannot_stand_in_a_file(rt: HostRuntime) -> Result<(), Fail> {
    // Two nodes and a trailer, how many bytes of them the file has, and the place of the damage.
    let cases: [([u64; 9], usize, Option<u64>); 11] = [
        ([DEEP, ZERO, ONE, ROOT, ZERO, DEEP, ROOT, 2, 3], 72, None),
        (
            [DEEP, ZERO, ONE, ROOT, DEEP, DEEP, ROOT, 2, 3],
            72,
            Some(24),
        ),
        ([DEEP, ONE, ONE, ROOT, ZERO, DEEP, ROOT, 2, 3], 72, Some(0)),
        (
            [DEEP, ZERO, ONE, ROOT, ZERO, LATER, ROOT, 2, 3],
            72,
            Some(24),
        ),
        (
            [LATER, ZERO, ONE, ROOT, ZERO, ONE, ROOT, 2, 3],
            72,
            Some(24),
        ),
        ([ROOT, ZERO, ONE, ROOT, ZERO, ONE, ROOT, 2, 3], 72, Some(24)),
        (
            [
                0x0001_ffff_ffff_ffff,
                ZERO,
                ONE,
                ROOT,
                ZERO,
                ONE,
                ROOT,
                2,
                3,
            ],
            72,
            Some(0),
        ),
        (
            [DEEP, ZERO, ONE, ROOT, ZERO, DEEP, ROOT, 3, 3],
            72,
            Some(48),
        ),
        (
            [DEEP, ZERO, ONE, ROOT, ZERO, DEEP, ROOT, 2, 4],
            72,
            Some(48),
        ),
        (
            [DEEP, ZERO, ONE, ROOT, ZERO, DEEP, DEEP, 2, 3],
            72,
            Some(48),
        ),
        (
            [DEEP, ZERO, ONE, ROOT, ZERO, DEEP, ROOT, 2, 3],
            70,
            Some(46),
        ),
    ];
    for (words, len, place) in cases {
        let fault = damage_in(rt.alloc(), words, len)?;
        let wanted = place.map(|at| StreamFault::Damaged { file: FILE, at });
        assert!(rt; fault == wanted, "{words:?} {len}: {fault:?}");
    }
    Ok(())
}

// Whether a reading that goes on at this place has so many nodes behind it, and gives this node next.
fn goes_on_with(bench: &mut Bench, place: u64, left: u64, word: Option<u64>) -> Result<bool, Fail> {
    let mut window = [EMPTY; 8];
    let mut reader = NodeReader::resume(FILE, 3, place, &mut window, bench)?;
    let stands = reader.place() == left;
    let next = reader.next(bench)?.map(|node| node.uid.ptr().word());
    Ok(stands && next == word)
}

#[test]
fn goes_on_at_a_place(rt: HostRuntime) -> Result<(), Fail> {
    let mut bench = Bench::empty(rt.alloc());
    let words = [DEEP, ZERO, ONE, ROOT, ZERO, DEEP, ROOT, 2, 3];
    bench.put_file(FILE, &bytes_of(words))?;
    let cases: [(u64, u64, Option<u64>); 4] = [
        (0, 0, None),
        (1, 1, Some(DEEP)),
        (2, 2, Some(ROOT)),
        (9, 2, Some(ROOT)),
    ];
    for (place, left, word) in cases {
        assert!(rt; goes_on_with(&mut bench, place, left, word)?, "{place}");
    }
    Ok(())
}

// Whether the third call of a reading fails it.
fn a_failing_call_ends(alloc: Global, words: [u64; 9]) -> Result<bool, Fail> {
    let mut window = [EMPTY; 8];
    let mut bench = Bench::empty(alloc);
    bench.put_file(FILE, &bytes_of(words))?;
    bench.fail_at(2)?;
    Ok(reads_all(&mut window, &mut bench).err() == Some(StreamFault::Shelf))
}

#[test]
fn a_failing_call_ends_a_reading(rt: HostRuntime) -> Result<(), Fail> {
    let words = [DEEP, ZERO, ONE, ROOT, ZERO, DEEP, ROOT, 2, 3];
    assert!(rt; a_failing_call_ends(rt.alloc(), words)?);
    Ok(())
}
