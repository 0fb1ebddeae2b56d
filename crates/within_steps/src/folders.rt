//! Folders in memory with two committed steps, and copies of them.
ghost use Rattle.std.specs.Prelude.{◌≤◌};

use crate::steps::Tried;
use case_runs::bench_with;
use case_tables::{FIRST, Random, SECOND, bench_of, product_of, put_bytes};
use file_numbers::{CATALOGUE, JOB, JOB_GATE, STEP_GATE, node_file};
use shelf_memory::{Bench, Choice};
use shelf_model::FileNo;
use std::alloc::{AllocError, Global};
use std::mem::replace;
use std::test::Fail;

/// The places of a table that depends on each variable.
const ALL: usize = usize::MAX;

/// Those of one that depends on the nine deepest of them.
const DEEP: usize = 0x1ff;

/// Either of two.
const EITHER: u32 = 0b1110;

/// As many bytes as two entries have. What they say is not read.
const ENTRIES: [u8; 256] = [0; 256];

/// How many parts of a step are copied. Each step here takes fewer.
const PARTS: u64 = 80;

// The second table, where this is the first one, or no values where there is none.
fn second_of(alloc: Global, tried: Tried, n: u32, first: &[bool]) -> Result<Vec<bool>, AllocError>
    requires { n ≤ 20 }
{
    match tried {
        Tried::Both => Random::new(2).table(alloc, n, DEEP),
        Tried::Implies => {
            let other = Random::new(2).table(alloc, n, ALL)?;
            product_of(alloc, EITHER, first, other.as_slice())
        }
        Tried::Some | Tried::Same | Tried::Value => Ok(Vec::new(alloc)),
    }
}

/// A folder of two diagrams of random tables, of which two steps are committed, and of nothing else.
pub(crate) fn folder_of(alloc: Global, tried: Tried) -> Result<Bench, Fail> {
    let n = tried.request().n;
    let first = Random::new(1).table(alloc, n, ALL)?;
    let second = second_of(alloc, tried, n, first.as_slice())?;
    let mut bench = bench_of(alloc, n, [first.as_slice(), second.as_slice(), &[]])?;
    if matches!(tried, Tried::Same) {
        let bytes = Vec::from_slice(alloc, bench.file(FIRST))?;
        put_bytes(&mut bench, SECOND, bytes.as_slice())?;
    }
    put_bytes(&mut bench, JOB_GATE, b"j")?;
    put_bytes(&mut bench, CATALOGUE, &ENTRIES)?;
    put_bytes(&mut bench, STEP_GATE, b"ss")?;
    Ok(bench)
}

/// From here on the folder is what a stop leaves of it.
pub(crate) fn stop(alloc: Global, choice: Choice, bench: &mut Bench) -> Result<(), Fail> {
    let stopped = replace(bench, Bench::empty(alloc));
    *bench = stopped.stop(choice)?;
    Ok(())
}

// Puts the files of a folder that say what is committed, those of the steps before that one and of its first parts.
fn copy_files(from: &Bench, number: u32, to: &mut Bench) -> Result<(), Fail> {
    for f in [JOB_GATE, CATALOGUE, STEP_GATE] {
        put_bytes(to, f, from.file(f))?;
    }
    for step in 0..number {
        put_bytes(to, node_file(step), from.file(node_file(step)))?;
    }
    for part in 0..PARTS {
        let f = FileNo { step: number, part };
        if !from.file(f).is_empty() {
            put_bytes(to, f, from.file(f))?;
        }
    }
    Ok(())
}

/// A folder with the same files of the job, of the steps before that one and of its first parts, as they are read.
pub(crate) fn copied(alloc: Global, number: u32, bench: &Bench) -> Result<Bench, Fail> {
    let mut copy = Bench::empty(alloc);
    copy_files(bench, number, &mut copy)?;
    Ok(copy)
}

/// Such a folder with the job's text, and with a script at the path that a run names.
pub(crate) fn copied_with(
    alloc: Global,
    script: &[u8],
    number: u32,
    bench: &Bench,
) -> Result<Bench, Fail> {
    let mut copy = bench_with(alloc, script, None)?;
    put_bytes(&mut copy, JOB, bench.file(JOB))?;
    copy_files(bench, number, &mut copy)?;
    Ok(copy)
}

/// The bytes with others at a place.
pub(crate) fn with_bytes(
    alloc: Global,
    bytes: &[u8],
    at: usize,
    others: &[u8],
) -> Result<Vec<u8>, AllocError> {
    let mut changed = Vec::from_slice(alloc, bytes)?;
    for (k, byte) in others.iter().enumerate() {
        if let Some(place) = changed.as_mut_slice().get_mut(at.saturating_add(k)) {
            *place = *byte;
        }
    }
    Ok(changed)
}
