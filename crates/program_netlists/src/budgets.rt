// The words of a run: budgets, and words that have no reading.
use crate::case::{Case, all_go};
use case_runs::{Act, FIRST, ONE_TEXT, ONE_VARIABLE, RUN, SECOND_OF_THREE, USAGE, first_fault};
use file_numbers::{JOB, JOB_GATE};
use shelf_memory::Choice;
use std::alloc::Global;
use std::test::Fail;

/// The words of a run in the least room.
const LEAST: [&str; 7] = [
    "adiar", "run", "FOLDER", "--script", "script", "--budget", "16384",
];

/// The job of the script in the usual room of 262,144 records, and in the least one.
const USUAL_JOB: &[u8] =
    b"ADIARJ01\x00\x04\x00\x00\x00\x00\x00\x13\xff\xff\xff\xffvars a b c\nvar f b\n";

const LEAST_JOB: &[u8] =
    b"ADIARJ01\x00\x00\x40\x00\x00\x00\x00\x13\xff\xff\xff\xffvars a b c\nvar f b\n";

/// Runs that make the file of the one variable and store the budget of their words.
const STORED: [Case; 4] = [
    (
        "no budget",
        &[
            Act::Put("script", ONE_VARIABLE),
            Act::Run(&RUN, 0, ONE_TEXT),
            Act::Bytes(JOB, USUAL_JOB),
            Act::Words(FIRST, SECOND_OF_THREE),
        ],
    ),
    (
        "the least budget",
        &[
            Act::Put("script", ONE_VARIABLE),
            Act::Run(&LEAST, 0, ONE_TEXT),
            Act::Bytes(JOB, LEAST_JOB),
            Act::Words(FIRST, SECOND_OF_THREE),
        ],
    ),
    (
        "the usual budget",
        &[
            Act::Put("script", ONE_VARIABLE),
            Act::Run(
                &[
                    "adiar", "run", "FOLDER", "--script", "script", "--budget", "262144",
                ],
                0,
                ONE_TEXT,
            ),
            Act::Bytes(JOB, USUAL_JOB),
            Act::Words(FIRST, SECOND_OF_THREE),
        ],
    ),
    (
        "seven digits in front",
        &[
            Act::Put("script", ONE_VARIABLE),
            Act::Run(
                &[
                    "adiar", "--budget", "0016384", "run", "--script", "script", "FOLDER",
                ],
                0,
                ONE_TEXT,
            ),
            Act::Bytes(JOB, LEAST_JOB),
            Act::Words(FIRST, SECOND_OF_THREE),
        ],
    ),
];

#[test]
fn stores_the_budget_of_the_words(rt: HostRuntime) -> Result<(), Fail> {
    all_go(&rt, rt.alloc(), &STORED)
}

/// Words without a reading.
const UNREAD: [&[&str]; 18] = [
    &[
        "adiar", "run", "FOLDER", "--script", "script", "--budget", "16383",
    ],
    &["adiar", "gen", "FOLDER", "--size", "17"],
    &["adiar", "gen", "FOLDER", "--size", "0"],
    &[
        "adiar", "run", "FOLDER", "--script", "script", "--budget", "4194305",
    ],
    &[
        "adiar", "run", "FOLDER", "--script", "script", "--script", "script",
    ],
    &["adiar", "list", "FOLDER", "--budget", "16384"],
    // An abbreviation, eight digits, a sign, and no digits.
    &[
        "adiar", "run", "FOLDER", "--script", "script", "--bud", "16384",
    ],
    &[
        "adiar", "run", "FOLDER", "--script", "script", "--budget", "00016384",
    ],
    &[
        "adiar", "run", "FOLDER", "--script", "script", "--budget", "+16384",
    ],
    &["adiar", "gen", "FOLDER", "--size", ""],
    // An option that the action doesn't have, or one that it needs and wasn't given.
    &["adiar", "run", "FOLDER", "--netlist", "script"],
    &[
        "adiar", "run", "FOLDER", "--script", "script", "--size", "1",
    ],
    &["adiar", "list", "FOLDER", "--netlist", "script"],
    &["adiar", "gen", "FOLDER"],
    &[
        "adiar",
        "gen",
        "FOLDER",
        "--size",
        "1",
        "--netlist",
        "script",
    ],
    &[
        "adiar", "gen", "FOLDER", "--size", "1", "--script", "script",
    ],
    &[
        "adiar",
        "run",
        "FOLDER",
        "--script",
        "script",
        "--netlist",
        "n",
        "--netlist",
        "n",
    ],
    &["adiar", "make", "FOLDER"],
];

/// The first of these words to which something else is said than the usage, by the one call that is made.
fn first_read(alloc: Global) -> Option<&'static [&'static str]> {
    for words in UNREAD {
        let acts = [
            Act::Put("script", ONE_VARIABLE),
            Act::Run(words, 2, USAGE),
            Act::Calls(1),
        ];
        if first_fault(alloc, &[], &acts, None).is_some() {
            return Some(words);
        }
    }
    None
}

#[test]
fn says_the_usage_to_words_without_a_reading(rt: HostRuntime) -> Result<(), Fail> {
    let read = first_read(rt.alloc());
    assert!(rt; read.is_none(), "{read:?}");
    Ok(())
}

/// Runs behind that of the one variable in the usual room. The script begins at byte 20 of a job, and the budget of the
/// run that stored it is at bytes 8 to 11, where a run with another one leaves it.
const OTHERS: [Case; 6] = [
    (
        "the same words",
        &[
            Act::Put("script", ONE_VARIABLE),
            Act::Run(&RUN, 0, ONE_TEXT),
            Act::Stop(Choice::Firm),
            Act::Put("script", ONE_VARIABLE),
            Act::Run(&RUN, 0, b"resume 1 of 1\ndone\n"),
            Act::Bytes(JOB, USUAL_JOB),
        ],
    ),
    (
        "another script",
        &[
            Act::Put("script", ONE_VARIABLE),
            Act::Run(&RUN, 0, ONE_TEXT),
            Act::Stop(Choice::Firm),
            Act::Put("script", b"vars a b c\nvar f c\n"),
            Act::Run(&RUN, 5, b"other job at 37\n"),
            Act::Bytes(JOB, USUAL_JOB),
        ],
    ),
    (
        "another budget",
        &[
            Act::Put("script", ONE_VARIABLE),
            Act::Run(&RUN, 0, ONE_TEXT),
            Act::Stop(Choice::Firm),
            Act::Put("script", ONE_VARIABLE),
            Act::Run(&LEAST, 0, b"resume 1 of 1\ndone\n"),
            Act::Bytes(JOB, USUAL_JOB),
        ],
    ),
    (
        "another budget where the job was stored, but nothing said",
        &[
            Act::Put("script", ONE_VARIABLE),
            Act::FailWhen(JOB_GATE, 1),
            Act::Run(&RUN, 7, b""),
            Act::Stop(Choice::Present),
            Act::Put("script", ONE_VARIABLE),
            Act::Run(&LEAST, 0, b"resume 0 of 1\n2: nodes 1\ndone\n"),
            Act::Bytes(JOB, USUAL_JOB),
        ],
    ),
    (
        "another budget where the job wasn't stored",
        &[
            Act::Put("script", ONE_VARIABLE),
            Act::FailWhen(JOB_GATE, 1),
            Act::Run(&RUN, 7, b""),
            Act::Stop(Choice::Firm),
            Act::Put("script", ONE_VARIABLE),
            Act::Run(&LEAST, 0, ONE_TEXT),
            Act::Bytes(JOB, LEAST_JOB),
        ],
    ),
    (
        "another script and another budget",
        &[
            Act::Put("script", ONE_VARIABLE),
            Act::Run(&RUN, 0, ONE_TEXT),
            Act::Stop(Choice::Firm),
            Act::Put("script", b"vars a b c\nvar f c\n"),
            Act::Run(&LEAST, 5, b"other job at 37\n"),
            Act::Bytes(JOB, USUAL_JOB),
        ],
    ),
];

#[test]
fn goes_on_with_any_budget_and_says_where_another_script_differs(
    rt: HostRuntime,
) -> Result<(), Fail> {
    all_go(&rt, rt.alloc(), &OTHERS)
}
