//! Worked diagrams of two variables, and what is left of them.
use crate::reducing::{LEAST_ROOM, OUT, reduce, write_arcs};
use arc_file::Arc;
use rec_words::{Ptr, Rec, Uid};
use shelf_memory::Bench;
use std::test::Fail;

const EMPTY: Rec = Rec { w: [0; 8] };

// The truth values' pointers.
const ZERO: u64 = 0x8000_0000_0000_0000;

const ONE: u64 = 0x8000_0000_0000_0001;

// The root, and the nodes of the next level.
const ROOT: u64 = 0x0000_0000_0000_0000;

const LEFT: u64 = 0x0000_8000_0000_0000;

const RIGHT: u64 = 0x0000_8000_0000_0001;

const LOW: bool = false;

const HIGH: bool = true;

// The first node of each level in the canonical form, and the next one of the second level.
const LEVEL_0: u64 = 0x0000_7fff_ffff_ffff;

const LEVEL_1: u64 = 0x0000_ffff_ffff_ffff;

const LEVEL_1_NEXT: u64 = 0x0000_ffff_ffff_fffe;

fn pointer(word: u64) -> Result<Ptr, Fail> {
    Ok(Ptr::from_word(word).ok_or("no pointer")?)
}

// The words of the file that a reduction leaves, and the count that it answers.
fn reduced(
    rt: HostRuntime,
    root: u64,
    arcs: &[(u64, bool, u64)],
) -> Result<(Vec<u64>, Option<u64>), Fail> {
    let mut bench = Bench::empty(rt.alloc());
    let mut list = Vec::new(rt.alloc());
    for (source, high, target) in arcs {
        list.push(Arc {
            source: Uid::of(pointer(*source)?).ok_or("no node")?,
            high: *high,
            target: pointer(*target)?,
        })?;
    }
    let made = write_arcs(pointer(root)?, list.as_slice(), &mut bench)?;
    let mut room = vec![in rt.alloc(); EMPTY; LEAST_ROOM]?;
    let count = reduce(2, made, room.as_mut_slice(), &mut bench)?;
    let mut words = Vec::new(rt.alloc());
    for piece in bench.file(OUT).chunks_exact(8) {
        let mut eight = [0u8; 8];
        eight.copy_from_slice(piece);
        words.push(u64::from_be_bytes(eight))?;
    }
    Ok((words, count))
}

// A reduction leaves these words and answers how many nodes they are.
fn leaves(
    rt: HostRuntime,
    root: u64,
    arcs: &[(u64, bool, u64)],
    wanted: &[u64],
) -> Result<bool, Fail> {
    let (words, count) = reduced(rt, root, arcs)?;
    Ok(words.as_slice() == wanted && count == Some((wanted.len() as u64 / 3).saturating_sub(1)))
}

const EXCLUSIVE_OR: [u64; 12] = [
    LEVEL_1,
    ZERO,
    ONE,
    LEVEL_1_NEXT,
    ONE,
    ZERO,
    LEVEL_0,
    LEVEL_1,
    LEVEL_1_NEXT,
    LEVEL_0,
    3,
    2,
];

#[test]
fn keeps_the_nodes_of_an_exclusive_or(rt: HostRuntime) -> Result<(), Fail> {
    let arcs = [
        (ROOT, LOW, LEFT),
        (ROOT, HIGH, RIGHT),
        (LEFT, LOW, ZERO),
        (LEFT, HIGH, ONE),
        (RIGHT, LOW, ONE),
        (RIGHT, HIGH, ZERO),
    ];
    let keeps = leaves(rt, ROOT, &arcs, &EXCLUSIVE_OR)?;
    assert!(rt; keeps);
    Ok(())
}

#[test]
fn leaves_one_node_of_two_equal_ones(rt: HostRuntime) -> Result<(), Fail> {
    let arcs = [
        (ROOT, LOW, LEFT),
        (ROOT, HIGH, RIGHT),
        (LEFT, LOW, ZERO),
        (LEFT, HIGH, ONE),
        (RIGHT, LOW, ZERO),
        (RIGHT, HIGH, ONE),
    ];
    let one = leaves(rt, ROOT, &arcs, &[LEVEL_1, ZERO, ONE, LEVEL_1, 1, 2])?;
    assert!(rt; one);
    Ok(())
}

#[test]
fn leaves_no_node_of_a_truth_value(rt: HostRuntime) -> Result<(), Fail> {
    let none = leaves(rt, ONE, &[], &[ONE, 0, 2])?;
    assert!(rt; none);
    Ok(())
}

// A side without an arc leads to the truth value 0, and of two arcs of a side the one that is read first counts.
#[test]
fn takes_zero_for_an_arc_that_is_missing(rt: HostRuntime) -> Result<(), Fail> {
    let arcs = [
        (ROOT, LOW, LEFT),
        (ROOT, HIGH, RIGHT),
        (LEFT, HIGH, ONE),
        (RIGHT, LOW, ZERO),
        (RIGHT, LOW, ONE),
    ];
    let takes = leaves(rt, ROOT, &arcs, &EXCLUSIVE_OR)?;
    assert!(rt; takes);
    Ok(())
}
