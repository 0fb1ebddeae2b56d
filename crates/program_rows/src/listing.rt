// A list of a folder's diagrams: what it says, and that it changes no file.
use crate::case::{Case, all_go};
use crate::scripts::{AND_DROP_SCRIPT, AND_DROP_TEXT};
use case_runs::{Act, LIST, RUN, USAGE};
use file_numbers::CATALOGUE;
use shelf_memory::Choice;
use std::test::Fail;

/// A folder where `f`, `g` and `h` were made, and `f` was dropped: the next life behind that run.
const DROPPED: &[Act] = &[
    Act::Put("script", AND_DROP_SCRIPT),
    Act::Run(&RUN, 0, AND_DROP_TEXT),
    Act::Stop(Choice::Firm),
    Act::Length(CATALOGUE, 512),
];

/// The same with another byte at the place of the first entry's kind.
const DAMAGED: &[Act] = &[
    Act::Put("script", AND_DROP_SCRIPT),
    Act::Run(&RUN, 0, AND_DROP_TEXT),
    Act::Stop(Choice::Firm),
    Act::Replace(CATALOGUE, 4, 5, &[9]),
];

const LISTS: [Case; 4] = [
    (
        "what is named and not dropped",
        DROPPED,
        &[Act::Run(&LIST, 0, b"g 1\nh 2\n")],
        Some(DROPPED),
    ),
    (
        "an empty folder",
        &[],
        &[Act::Run(&LIST, 0, b"")],
        Some(&[]),
    ),
    (
        "a damaged entry",
        DAMAGED,
        &[Act::Run(&LIST, 10, b"damaged 4294967295 2 0\n")],
        Some(DAMAGED),
    ),
    // The words are refused before the folder is entered.
    (
        "a budget",
        DROPPED,
        &[
            Act::Run(&["adiar", "list", "FOLDER", "--budget", "16384"], 2, USAGE),
            Act::Calls(1),
        ],
        Some(DROPPED),
    ),
];

#[test]
fn lists_what_is_named_and_not_dropped(rt: HostRuntime) -> Result<(), Fail> {
    all_go(&rt, rt.alloc(), &LISTS)
}
