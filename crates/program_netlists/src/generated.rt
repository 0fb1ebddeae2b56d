// Runs of scripts that are made from a size: whether a word is the same read from either end, in two ways.
use crate::case::{Case, all_go};
use case_runs::{Act, RUN, gives, has_part, run};
use file_numbers::{JOB, node_file};
use shelf_memory::{Bench, Choice};
use std::alloc::Global;
use std::test::Fail;

/// The script of size 1, which has 112 bytes.
const SCRIPT: &[u8] = b"vars x1 y1\nconst p0 1\nvar a1 x1\nvar b1 y1\nxnor e1 a1 b1\nand p1 p0 e1\n\
                        const r0 1\nand r1 r0 e1\nsame p1 r1\nsize p1\n";

/// Its job, in a room of 262,144 records.
const SCRIPT_JOB: &[u8] = b"ADIARJ01\x00\x04\x00\x00\x00\x00\x00\x70\xff\xff\xff\xff\
                            vars x1 y1\nconst p0 1\nvar a1 x1\nvar b1 y1\nxnor e1 a1 b1\n\
                            and p1 p0 e1\nconst r0 1\nand r1 r0 e1\nsame p1 r1\nsize p1\n";

/// What its run says in an empty folder.
const TEXT: &[u8] =
    b"start 9\n2: nodes 0\n3: nodes 1\n4: nodes 1\n5: nodes 3\n6: nodes 3\n7: nodes 0\n\
                      8: nodes 3\n9: yes\n10: nodes 3\ndone\n";

/// The words of that run.
const SIZE_1: [&str; 5] = ["adiar", "gen", "FOLDER", "--size", "1"];

/// Its run stores the script's job without a netlist, and a run of the script itself goes on behind it.
const SCRIPT_RUN: [Case; 1] = [(
    "the script itself behind its size",
    &[
        Act::Run(&SIZE_1, 0, TEXT),
        Act::Bytes(JOB, SCRIPT_JOB),
        Act::Stop(Choice::Firm),
        Act::Put("script", SCRIPT),
        Act::Run(&RUN, 0, b"resume 9 of 9\ndone\n"),
    ],
)];

/// Whether a run with a text at each path that the words name makes as many calls as one without any.
fn fetches_nothing(alloc: Global) -> Result<bool, Fail> {
    let mut bare = Bench::empty(alloc);
    let mut bench = Bench::empty(alloc);
    for path in ["FOLDER", "gen", "1", "script", "netlist"] {
        bench.put_text(path, b"vars a a\n")?;
    }
    let ended = gives(alloc, &SIZE_1, &mut bare, 0, TEXT);
    Ok(ended && gives(alloc, &SIZE_1, &mut bench, 0, TEXT) && bare.clock() == bench.clock())
}

#[test]
fn makes_a_script_whose_job_is_its_own(rt: HostRuntime) -> Result<(), Fail> {
    all_go(&rt, rt.alloc(), &SCRIPT_RUN)
}

/// What a run with a size says at its beginning, in its middle and at its end.
#[derive(Clone, Copy)]
struct Parts {
    first: &'static [u8],
    middle: &'static [u8],
    last: &'static [u8],
    /// The step of the first way, and how many bytes its file has.
    made: (u32, usize),
}

/// The bytes of the file of the first way, where the run says these parts and the file is as long.
fn made(alloc: Global, words: &[&str], parts: &Parts) -> Result<Option<Vec<u8>>, Fail> {
    let mut bench = Bench::empty(alloc);
    let status = run(alloc, words, &mut bench);
    let said = bench.said();
    let (step, len) = parts.made;
    let file = Vec::from_slice(alloc, bench.file(node_file(step)))?;
    let right = status == 0
        && said.starts_with(parts.first)
        && has_part(said, parts.middle)
        && said.ends_with(parts.last)
        && file.len() == len;
    Ok(if right { Some(file) } else { None })
}

/// Size 8: a file of 766 records of 24 bytes.
const EIGHT: Parts = Parts {
    first: b"start 44\n2: nodes 0\n",
    middle: b"\n34: nodes 765\n35: nodes 0\n",
    last: b"\n43: nodes 765\n44: yes\n45: nodes 765\ndone\n",
    made: (32, 18_384),
};

/// Whether a run of size 8 says its parts and makes a file as long.
fn says_both_ways(alloc: Global) -> Result<bool, Fail> {
    let words = ["adiar", "gen", "FOLDER", "--size", "8"];
    Ok(made(alloc, &words, &EIGHT)?.is_some())
}

/// Size 12: a file of 12,286 records of 24 bytes.
const TWELVE: Parts = Parts {
    first: b"start 64\n2: nodes 0\n",
    middle: b"\n50: nodes 12285\n51: nodes 0\n",
    last: b"\n63: nodes 12285\n64: yes\n65: nodes 12285\ndone\n",
    made: (48, 294_864),
};

/// Whether a run in the least room makes the same file as one in the usual room.
fn makes_the_same_file(alloc: Global) -> Result<bool, Fail> {
    let usual = ["adiar", "gen", "FOLDER", "--size", "12"];
    let least = [
        "adiar", "gen", "FOLDER", "--size", "12", "--budget", "16384",
    ];
    let Some(a) = made(alloc, &usual, &TWELVE)? else {
        return Ok(false);
    };
    let Some(b) = made(alloc, &least, &TWELVE)? else {
        return Ok(false);
    };
    Ok(a.as_slice() == b.as_slice())
}

/// What a run with a size does otherwise.
fn first_fault(alloc: Global) -> Result<Option<&'static str>, Fail> {
    Ok(if !fetches_nothing(alloc)? {
        Some("a text is fetched")
    } else if !says_both_ways(alloc)? {
        Some("size 8")
    } else if !makes_the_same_file(alloc)? {
        Some("size 12 in either room")
    } else {
        None
    })
}

#[test]
fn fetches_nothing_and_makes_the_same_file_in_the_least_room(rt: HostRuntime) -> Result<(), Fail> {
    let fault = first_fault(rt.alloc())?;
    assert!(rt; fault.is_none(), "{fault:?}");
    Ok(())
}
