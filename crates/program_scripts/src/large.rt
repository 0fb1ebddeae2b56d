//! The run of the example script of size 15 in the least room, which can't hold the operand of its largest step, nor
//! what that step queues.
use case_runs::{has_part, run};
use file_numbers::{FIRST_RUN_PART, NODES_PART};
use shelf_memory::Bench;
use shelf_model::FileNo;
use std::alloc::Global;
use std::test::Fail;

/// The words of the run.
pub(crate) const WORDS: [&str; 7] = [
    "adiar", "gen", "FOLDER", "--size", "15", "--budget", "16384",
];

/// What the text begins with: of 80 lines one names the variables.
const FIRST_LINE: &[u8] = b"start 79\n";

/// What is said of step 56. Whether two words of 14 bits are equal takes 2^14 - 1 nodes on the levels of the first
/// word, and twice as many on those of the second.
const OPERAND_LINE: &[u8] = b"\n58: nodes 49149\n";

/// The node file of step 56, which step 60 alone reads.
const OPERAND: FileNo = FileNo {
    step: 56,
    part: NODES_PART,
};

/// A fourth of its nodes.
const MOST_READS: u64 = 12_288;

/// What is said of step 60. One bit more takes twice as many nodes and three.
const LAST_LINE: &[u8] = b"\n62: nodes 98301\n";

/// What the text ends with: both ways give the same diagram.
pub(crate) const END: &[u8] = b"\n79: yes\n80: nodes 98301\ndone\n";

/// The node file of step 60.
pub(crate) const LAST: FileNo = FileNo {
    step: 60,
    part: NODES_PART,
};

/// Its bytes: 24 for each node, and as many more.
pub(crate) const LAST_BYTES: usize = 2_359_248;

/// The first run of sorted records that step 60 writes. On the first level of the second word 2^15 nodes are pending,
/// which are more than the room has records.
const SPILLED: FileNo = FileNo {
    step: 60,
    part: FIRST_RUN_PART,
};

/// What of the run isn't as it should be.
fn fault_of(status: u8, bench: &Bench) -> Option<&'static str> {
    let said = bench.said();
    let reads = bench.reads(OPERAND);
    if status != 0 {
        Some("the status")
    } else if !said.starts_with(FIRST_LINE) {
        Some("the first line")
    } else if !has_part(said, OPERAND_LINE) {
        Some("the line of the operand")
    } else if !has_part(said, LAST_LINE) {
        Some("the line of the last step of the first way")
    } else if !said.ends_with(END) {
        Some("the last lines")
    } else if bench.file(LAST).len() != LAST_BYTES {
        Some("the bytes of its file")
    } else if bench.reads(SPILLED) == 0 {
        Some("the reads of what it queued")
    } else if reads == 0 || reads >= MOST_READS {
        Some("the reads of its operand")
    } else {
        None
    }
}

/// What of the run isn't as it should be, once it was made in an empty folder.
fn fault_of_run(alloc: Global) -> Option<&'static str> {
    let mut bench = Bench::empty(alloc);
    let status = run(alloc, &WORDS, &mut bench);
    fault_of(status, &bench)
}

#[test]
fn a_large_run_reads_its_operand_through_full_windows(rt: HostRuntime) -> Result<(), Fail> {
    let fault = fault_of_run(rt.alloc());
    assert!(rt; fault.is_none(), "{fault:?}");
    Ok(())
}
