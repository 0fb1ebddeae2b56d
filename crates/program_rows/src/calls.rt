// One call of the station fails: the status names its kind, no other call follows, and what was said is a front part of
// the text.
use crate::scripts::{AND_DROP_SCRIPT, AND_DROP_TEXT};
use case_runs::{Act, LIST, ONE_TEXT, ONE_VARIABLE, RUN, first_fault};
use shelf_memory::Choice;
use std::alloc::Global;
use std::test::Fail;

/// A call, and the status and text of the run that ends with it.
type End = (&'static str, u8, &'static [u8]);

/// What is done before a run with these words, whether it changes no file, and its calls in order.
type Run = (
    &'static [Act],
    &'static [&'static str],
    bool,
    &'static [End],
);

/// The run of one request in an empty folder.
const FIRST_RUN: [End; 24] = [
    ("fetch the script", 6, b""),
    ("fetch its end", 6, b""),
    ("enter the folder", 7, b""),
    ("sync the job gate", 7, b""),
    ("sync the step gate", 7, b""),
    ("ask for the length of the job gate", 7, b""),
    ("cut the step gate", 7, b""),
    ("sync the empty step gate", 7, b""),
    ("cut the job", 7, b""),
    ("append the job", 7, b""),
    ("sync the job", 7, b""),
    ("lengthen the job gate", 7, b""),
    ("sync the longer job gate", 7, b""),
    ("say how many lines", 8, b""),
    ("cut the node file", 7, b"start 1\n"),
    ("append its bytes", 7, b"start 1\n"),
    ("sync it", 7, b"start 1\n"),
    ("cut the catalogue", 7, b"start 1\n"),
    ("append the entry", 7, b"start 1\n"),
    ("sync the catalogue", 7, b"start 1\n"),
    ("lengthen the step gate", 7, b"start 1\n"),
    ("sync the longer step gate", 7, b"start 1\n"),
    ("say its line", 8, b"start 1\n"),
    ("say that all was done", 8, b"start 1\n2: nodes 1\n"),
];

/// A run where the job is stored and its one step is committed.
const LATER_RUN: [End; 13] = [
    ("fetch the script", 6, b""),
    ("fetch its end", 6, b""),
    ("enter the folder", 7, b""),
    ("sync the job gate", 7, b""),
    ("sync the step gate", 7, b""),
    ("ask for the length of the job gate", 7, b""),
    ("sync the job", 7, b""),
    ("ask for its length", 7, b""),
    ("read it", 7, b""),
    ("ask for the length of the step gate", 7, b""),
    ("ask for the length of the catalogue", 7, b""),
    ("say how many lines were said", 8, b""),
    ("say that all was done", 8, b"resume 1 of 1\n"),
];

/// A list of four entries, two of which have a line.
const FOUR_ENTRIES: [End; 16] = [
    ("enter the folder", 7, b""),
    ("sync the job gate", 7, b""),
    ("sync the step gate", 7, b""),
    ("ask for the length of the job gate", 7, b""),
    ("ask for the length of the step gate", 7, b""),
    ("ask for the length of the catalogue", 7, b""),
    ("read the entry of f", 7, b""),
    ("read the entry of g", 7, b""),
    ("read the entry of h", 7, b""),
    ("read the entry of the drop", 7, b""),
    ("read the entry of f again", 7, b""),
    ("read the entry of g again", 7, b""),
    ("say the line of g", 8, b""),
    ("read the entry of h again", 7, b"g 1\n"),
    ("say the line of h", 8, b"g 1\n"),
    ("read the entry of the drop again", 7, b"g 1\nh 2\n"),
];

/// A refusal of words, and one of a script, each of which says one line.
const REFUSED_WORDS: [End; 1] = [("say the usage", 8, b"")];

const REFUSED_SCRIPT: [End; 3] = [
    ("fetch the script", 6, b""),
    ("fetch its end", 6, b""),
    ("say what is refused", 8, b""),
];

const RUNS: [Run; 5] = [
    (&[Act::Put("script", ONE_VARIABLE)], &RUN, false, &FIRST_RUN),
    (
        &[
            Act::Put("script", ONE_VARIABLE),
            Act::Run(&RUN, 0, ONE_TEXT),
            Act::Stop(Choice::Firm),
        ],
        &RUN,
        true,
        &LATER_RUN,
    ),
    (
        &[
            Act::Put("script", AND_DROP_SCRIPT),
            Act::Run(&RUN, 0, AND_DROP_TEXT),
            Act::Stop(Choice::Firm),
        ],
        &LIST,
        true,
        &FOUR_ENTRIES,
    ),
    (
        &[Act::Put("script", ONE_VARIABLE)],
        &["adiar"],
        true,
        &REFUSED_WORDS,
    ),
    (
        &[Act::Put("script", b"vars a a\n")],
        &RUN,
        true,
        &REFUSED_SCRIPT,
    ),
];

/// The first call of a run which ends it otherwise than it should where it fails.
fn first_wrong_call(alloc: Global, run: &Run) -> Option<&'static str> {
    let (before, words, changes_nothing, ends) = *run;
    let like = if changes_nothing { Some(before) } else { None };
    for (number, (call, status, said)) in ends.iter().enumerate() {
        let acts = [
            Act::FailAt(number as u64),
            Act::Run(words, *status, said),
            Act::Calls((number as u64).saturating_add(1)),
        ];
        if first_fault(alloc, before, &acts, like).is_some() {
            return Some(call);
        }
    }
    None
}

#[test]
fn ends_with_the_call_that_fails(rt: HostRuntime) -> Result<(), Fail> {
    for (k, run) in RUNS.iter().enumerate() {
        let wrong = first_wrong_call(rt.alloc(), run);
        assert!(rt; wrong.is_none(), "run {k}: {wrong:?}");
    }
    Ok(())
}
