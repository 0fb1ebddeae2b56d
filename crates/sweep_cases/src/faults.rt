//! Calls that fail, and files that no sweep may trust.
use crate::sweeping::{FIRST, SECOND, compare, evaluate, put};
use crate::tables::{file_of, table_of};
use shelf_memory::Bench;
use shelf_model::SortFault;
use std::test::Fail;

// The pointers of the truth values.
const ZERO: u64 = 0x8000_0000_0000_0000;

const ONE: u64 = 0x8000_0000_0000_0001;

// The first node of each level, and the next one of the second level.
const LEVEL_0: u64 = 0x0000_7fff_ffff_ffff;

const LEVEL_1: u64 = 0x0000_ffff_ffff_ffff;

const LEVEL_1_NEXT: u64 = 0x0000_ffff_ffff_fffe;

const LEVEL_2: u64 = 0x0001_7fff_ffff_ffff;

fn file_with(rt: HostRuntime, words: &[u64]) -> Result<Vec<u8>, Fail> {
    let mut bytes = Vec::new(rt.alloc());
    for word in words {
        for byte in word.to_be_bytes() {
            bytes.push(byte)?;
        }
    }
    Ok(bytes)
}

// A comparison of a table with itself ends well where so many calls succeed, or with the fault of the next one.
fn compares_at(rt: HostRuntime, n: u32, seed: u64, call: u64) -> Result<Option<bool>, Fail> {
    let table = table_of(rt.alloc(), n, usize::MAX, seed)?;
    let file = file_of(rt.alloc(), n, table.as_slice())?;
    let mut bench = Bench::empty(rt.alloc());
    put(FIRST, file.as_slice(), &mut bench)?;
    put(SECOND, file.as_slice(), &mut bench)?;
    let before = bench.clock();
    bench.fail_at(before.saturating_add(call))?;
    match compare(n, FIRST, SECOND, &mut bench) {
        Ok(answer) => Ok(Some(
            answer == Some(true) && bench.clock() <= before.saturating_add(call),
        )),
        Err(SortFault::Shelf) => Ok(None),
        Err(_) => Ok(Some(false)),
    }
}

fn evaluates_at(rt: HostRuntime, n: u32, seed: u64, call: u64) -> Result<Option<bool>, Fail> {
    let table = table_of(rt.alloc(), n, usize::MAX, seed)?;
    let mut bench = Bench::empty(rt.alloc());
    put(
        FIRST,
        file_of(rt.alloc(), n, table.as_slice())?.as_slice(),
        &mut bench,
    )?;
    let before = bench.clock();
    bench.fail_at(before.saturating_add(call))?;
    if n > 12 {
        return Ok(Some(false));
    }
    match evaluate(n, b"000000000000", 0, &mut bench) {
        Ok(answer) => Ok(Some(
            answer == table.as_slice().first().copied()
                && bench.clock() <= before.saturating_add(call),
        )),
        Err(SortFault::Shelf) => Ok(None),
        Err(_) => Ok(Some(false)),
    }
}

// Each of the first calls that fails ends the sweep, and later ones are never made.
fn each_call_ends(rt: HostRuntime) -> Result<bool, Fail> {
    for n in [0, 2, 5, 8] {
        let mut compared = false;
        let mut evaluated = false;
        for call in 0..20 {
            let same = compares_at(rt, n, 3, call)?;
            let value = evaluates_at(rt, n, 3, call)?;
            if same == Some(false) || value == Some(false) {
                return Ok(false);
            }
            compared = same == Some(true);
            evaluated = value == Some(true);
        }
        if !compared || !evaluated {
            return Ok(false);
        }
    }
    Ok(true)
}

#[test]
fn each_failing_call_ends_a_sweep(rt: HostRuntime) -> Result<(), Fail> {
    let ends = each_call_ends(rt)?;
    assert!(rt; ends);
    Ok(())
}

// Both sweeps say that this place of the first file is damaged, at the assignment 0, 0 and 0.
fn is_damaged(
    rt: HostRuntime,
    words: &[u64],
    evaluated: Option<u64>,
    compared: Option<u64>,
) -> Result<bool, Fail> {
    let file = file_with(rt, words)?;
    let mut bench = Bench::empty(rt.alloc());
    put(FIRST, file.as_slice(), &mut bench)?;
    put(SECOND, file.as_slice(), &mut bench)?;
    let value = evaluate(3, b"000", 0, &mut bench).err();
    let same = compare(3, FIRST, SECOND, &mut bench).err();
    Ok(
        value == evaluated.map(|at| SortFault::Damaged { file: FIRST, at })
            && same == compared.map(|at| SortFault::Damaged { file: FIRST, at }),
    )
}

// A node that the path leads to, and that isn't there: between two nodes, and above all.
fn misses_nodes(rt: HostRuntime) -> Result<bool, Fail> {
    let between = [
        LEVEL_2,
        ZERO,
        ONE,
        LEVEL_1,
        ZERO,
        LEVEL_2,
        LEVEL_0,
        LEVEL_1_NEXT,
        LEVEL_1,
        LEVEL_0,
        3,
        3,
    ];
    let above = [LEVEL_1, ZERO, ONE, LEVEL_0, LEVEL_2, LEVEL_1, LEVEL_0, 2, 3];
    let elsewhere = [LEVEL_1, ZERO, ONE, LEVEL_0, LEVEL_1, LEVEL_2, LEVEL_0, 2, 3];
    Ok(
        is_damaged(rt, &between, Some(24), None)?
            && is_damaged(rt, &above, Some(0), None)?
            && is_damaged(rt, &elsewhere, None, None)?,
    )
}

// Nodes out of order, of levels that aren't there, and with equal pointers; trailers that aren't the file's.
fn refuses_files(rt: HostRuntime) -> Result<bool, Fail> {
    let unordered = [
        LEVEL_1, ZERO, ONE, LEVEL_1, ONE, ZERO, LEVEL_0, LEVEL_2, LEVEL_1, LEVEL_0, 3, 3,
    ];
    let deep = [
        0x0001_ffff_ffff_ffff,
        ZERO,
        ONE,
        LEVEL_0,
        LEVEL_1,
        ONE,
        LEVEL_0,
        2,
        3,
    ];
    let alike = [LEVEL_0, ONE, ONE, LEVEL_0, 1, 3];
    let few = [LEVEL_0, ZERO, ONE, LEVEL_0, 2, 3];
    let variables = [LEVEL_0, ZERO, ONE, LEVEL_0, 1, 4];
    let torn = [LEVEL_0, ZERO, ONE, LEVEL_0];
    Ok(
        is_damaged(rt, &unordered, Some(24), Some(24))?
            && is_damaged(rt, &deep, Some(0), Some(0))?
            && is_damaged(rt, &alike, Some(0), Some(0))?
            && is_damaged(rt, &few, Some(24), Some(24))?
            && is_damaged(rt, &variables, Some(24), Some(24))?
            && is_damaged(rt, &torn, Some(8), Some(8))?
            && is_damaged(rt, &[], Some(0), Some(0))?,
    )
}

#[test]
fn names_the_place_of_a_missing_node(rt: HostRuntime) -> Result<(), Fail> {
    let names = misses_nodes(rt)?;
    assert!(rt; names);
    Ok(())
}

#[test]
fn names_the_damaged_place(rt: HostRuntime) -> Result<(), Fail> {
    let names = refuses_files(rt)?;
    assert!(rt; names);
    Ok(())
}
