// What accepted scripts say, and the bytes that they leave. Numbers in files have the highest byte first.
use crate::case::{Case, all_go};
use crate::scripts::{
    AND_LEQ_SCRIPT, AND_LEQ_TEXT, DROPPING, DROPPING_TEXT, RESTRICT_EVAL_SCRIPT,
    RESTRICT_EVAL_TEXT, THREE_TEXT, THREE_VARIABLES, XOR_SAME_SCRIPT, XOR_SAME_TEXT,
};
use case_runs::{
    Act, FIRST, FOURTH, LEVEL_0, LEVEL_2, ONE, ONE_TEXT, ONE_VARIABLE, RUN, SECOND,
    SECOND_OF_THREE, SMALL, THIRD, ZERO,
};
use file_numbers::{CATALOGUE, JOB, JOB_GATE, STEP_GATE};
use std::test::Fail;

/// The files of the first and of the last of three variables.
const A_OF_THREE: &[u64] = &[LEVEL_0, ZERO, ONE, LEVEL_0, 1, 3];

const C_OF_THREE: &[u64] = &[LEVEL_2, ZERO, ONE, LEVEL_2, 1, 3];

/// The file of one variable.
const ALONE: &[u64] = &[LEVEL_0, ZERO, ONE, LEVEL_0, 1, 1];

/// Runs of scripts. A job has a room of 262,144 or 16,384 records, the length of the script, no netlist, and the
/// script.
const RUNS: [Case; 12] = [
    (
        "one of three variables",
        &[
            Act::Put("script", ONE_VARIABLE),
            Act::Run(&RUN, 0, ONE_TEXT),
        ],
        &[
            Act::Bytes(
                FIRST,
                b"\x00\x00\xff\xff\xff\xff\xff\xff\x80\x00\x00\x00\x00\x00\x00\x00\
                  \x80\x00\x00\x00\x00\x00\x00\x01\x00\x00\xff\xff\xff\xff\xff\xff\
                  \x00\x00\x00\x00\x00\x00\x00\x01\x00\x00\x00\x00\x00\x00\x00\x03",
            ),
            Act::Length(SECOND, 0),
            Act::Bytes(
                JOB,
                b"ADIARJ01\x00\x04\x00\x00\x00\x00\x00\x13\xff\xff\xff\xffvars a b c\nvar f b\n",
            ),
            Act::Bytes(JOB_GATE, b"\x00"),
            Act::Bytes(STEP_GATE, b"\x00"),
        ],
        None,
    ),
    (
        "the same in the least room",
        &[
            Act::Put("script", ONE_VARIABLE),
            Act::Run(&SMALL, 0, ONE_TEXT),
        ],
        &[
            Act::Bytes(
                JOB,
                b"ADIARJ01\x00\x00\x40\x00\x00\x00\x00\x13\xff\xff\xff\xffvars a b c\nvar f b\n",
            ),
            Act::Bytes(JOB_GATE, b"\x00"),
            Act::Bytes(STEP_GATE, b"\x00"),
        ],
        None,
    ),
    (
        "both constants",
        &[
            Act::Put("script", b"vars a b\nconst z 0\nconst o 1\n"),
            Act::Run(&RUN, 0, b"start 2\n2: nodes 0\n3: nodes 0\ndone\n"),
        ],
        &[
            Act::Bytes(
                FIRST,
                b"\x80\x00\x00\x00\x00\x00\x00\x00\x00\x00\x00\x00\x00\x00\x00\x00\
                  \x00\x00\x00\x00\x00\x00\x00\x02",
            ),
            Act::Bytes(
                SECOND,
                b"\x80\x00\x00\x00\x00\x00\x00\x01\x00\x00\x00\x00\x00\x00\x00\x00\
                  \x00\x00\x00\x00\x00\x00\x00\x02",
            ),
            Act::Length(THIRD, 0),
        ],
        None,
    ),
    (
        "variables alone",
        &[
            Act::Put("script", b"vars a\n"),
            Act::Run(&RUN, 0, b"start 0\ndone\n"),
        ],
        &[
            Act::Length(FIRST, 0),
            Act::Bytes(
                JOB,
                b"ADIARJ01\x00\x04\x00\x00\x00\x00\x00\x07\xff\xff\xff\xffvars a\n",
            ),
            Act::Bytes(JOB_GATE, b"\x00"),
            Act::Bytes(STEP_GATE, b""),
        ],
        None,
    ),
    (
        "an empty script",
        &[Act::Put("script", b"")],
        &[Act::Run(&RUN, 0, b"start 0\ndone\n"), Act::Length(FIRST, 0)],
        None,
    ),
    (
        "no variables",
        &[Act::Put("script", b"vars\n")],
        &[Act::Run(&RUN, 0, b"start 0\ndone\n"), Act::Length(FIRST, 0)],
        None,
    ),
    (
        "another layout",
        &[
            Act::Put("script", b"vars a b # order\r\n\r\n\tvar f a\r\n"),
            Act::Run(&RUN, 0, b"start 1\n3: nodes 1\ndone\n"),
        ],
        &[
            Act::Words(FIRST, &[LEVEL_0, ZERO, ONE, LEVEL_0, 1, 2]),
            Act::Length(SECOND, 0),
        ],
        None,
    ),
    (
        "a name of 63 letters, and a last line without an end",
        &[
            Act::Put(
                "script",
                b"vars a\nvar 123456789012345678901234567890123456789012345678901234567890123 a",
            ),
            Act::Run(&RUN, 0, ONE_TEXT),
        ],
        &[Act::Words(FIRST, ALONE), Act::Length(SECOND, 0)],
        None,
    ),
    (
        "a diagram with the name of its variable",
        &[
            Act::Put("script", b"vars a\nvar a a\n"),
            Act::Run(&RUN, 0, ONE_TEXT),
        ],
        &[Act::Words(FIRST, ALONE), Act::Length(SECOND, 0)],
        None,
    ),
    (
        "three variables",
        &[
            Act::Put("script", THREE_VARIABLES),
            Act::Run(&RUN, 0, THREE_TEXT),
        ],
        &[
            Act::Words(FIRST, A_OF_THREE),
            Act::Words(SECOND, SECOND_OF_THREE),
            Act::Words(THIRD, C_OF_THREE),
            Act::Length(FOURTH, 0),
            Act::Bytes(
                JOB,
                b"ADIARJ01\x00\x04\x00\x00\x00\x00\x00\x23\xff\xff\xff\xff\
                  vars a b c\nvar f a\nvar g b\nvar h c\n",
            ),
            Act::Bytes(JOB_GATE, b"\x00"),
            Act::Bytes(STEP_GATE, b"\x00\x00\x00"),
        ],
        None,
    ),
    (
        "a variable twice, and a smaller one behind it",
        &[
            Act::Put("script", b"vars a b c\nvar h c\nvar again c\nvar f a\n"),
            Act::Run(&RUN, 0, THREE_TEXT),
        ],
        &[
            Act::Words(FIRST, C_OF_THREE),
            Act::Words(SECOND, C_OF_THREE),
            Act::Words(THIRD, A_OF_THREE),
            Act::Length(FOURTH, 0),
        ],
        None,
    ),
    (
        "one of two variables, behind a constant",
        &[
            Act::Put("script", DROPPING),
            Act::Run(&RUN, 0, DROPPING_TEXT),
        ],
        &[Act::Bytes(
            SECOND,
            b"\x00\x00\xff\xff\xff\xff\xff\xff\x80\x00\x00\x00\x00\x00\x00\x00\
                  \x80\x00\x00\x00\x00\x00\x00\x01\x00\x00\xff\xff\xff\xff\xff\xff\
                  \x00\x00\x00\x00\x00\x00\x00\x01\x00\x00\x00\x00\x00\x00\x00\x02",
        )],
        None,
    ),
];

/// Entries. Each has its step's number, its kind, which is 1 for a diagram, 2 for a drop and 3 for an answer, the
/// answer, the length of its name, and behind them a number of nodes, of turns, and of its next part; then its name.
const ENTRIES: [Case; 5] = [
    (
        "a variable",
        &[
            Act::Put("script", ONE_VARIABLE),
            Act::Run(&RUN, 0, ONE_TEXT),
            Act::Length(CATALOGUE, 128),
        ],
        &[
            Act::Part(
                CATALOGUE,
                0,
                b"\x00\x00\x00\x00\x01\x00\x01\x00\x00\x00\x00\x00\x00\x00\x00\x01\
                  \x00\x00\x00\x00\x00\x00\x00\x01\x00\x00\x00\x00\x00\x00\x00\x03f",
            ),
            Act::Zeros(CATALOGUE, 33, 128),
        ],
        None,
    ),
    (
        "a constant, a variable, a size and a drop",
        &[
            Act::Put("script", DROPPING),
            Act::Run(&RUN, 0, DROPPING_TEXT),
            Act::Length(CATALOGUE, 512),
        ],
        &[
            Act::Part(
                CATALOGUE,
                0,
                b"\x00\x00\x00\x00\x01\x00\x01\x00\x00\x00\x00\x00\x00\x00\x00\x00\
                  \x00\x00\x00\x00\x00\x00\x00\x01\x00\x00\x00\x00\x00\x00\x00\x03z",
            ),
            Act::Zeros(CATALOGUE, 33, 128),
            Act::Part(
                CATALOGUE,
                128,
                b"\x00\x00\x00\x01\x01\x00\x01\x00\x00\x00\x00\x00\x00\x00\x00\x01\
                  \x00\x00\x00\x00\x00\x00\x00\x01\x00\x00\x00\x00\x00\x00\x00\x03f",
            ),
            Act::Zeros(CATALOGUE, 161, 256),
            Act::Part(
                CATALOGUE,
                256,
                b"\x00\x00\x00\x02\x03\x00\x00\x00\x00\x00\x00\x00\x00\x00\x00\x01\
                  \x00\x00\x00\x00\x00\x00\x00\x01\x00\x00\x00\x00\x00\x00\x00\x03",
            ),
            Act::Zeros(CATALOGUE, 288, 384),
            Act::Part(
                CATALOGUE,
                384,
                b"\x00\x00\x00\x03\x02\x00\x00\x00\x00\x00\x00\x00\x00\x00\x00\x00\
                  \x00\x00\x00\x00\x00\x00\x00\x01\x00\x00\x00\x00\x00\x00\x00\x03",
            ),
            Act::Zeros(CATALOGUE, 416, 512),
        ],
        None,
    ),
    // An answer has no count of nodes.
    (
        "two that are the same",
        &[
            Act::Put("script", XOR_SAME_SCRIPT),
            Act::Run(&RUN, 0, XOR_SAME_TEXT),
        ],
        &[
            Act::Part(
                CATALOGUE,
                640,
                b"\x00\x00\x00\x05\x03\x01\x00\x00\x00\x00\x00\x00\x00\x00\x00\x00",
            ),
            Act::Zeros(CATALOGUE, 672, 768),
        ],
        None,
    ),
    (
        "two that aren't, and a value",
        &[
            Act::Put("script", RESTRICT_EVAL_SCRIPT),
            Act::Run(&RUN, 0, RESTRICT_EVAL_TEXT),
        ],
        &[
            Act::Part(
                CATALOGUE,
                640,
                b"\x00\x00\x00\x05\x03\x00\x00\x00\x00\x00\x00\x00\x00\x00\x00\x00",
            ),
            Act::Zeros(CATALOGUE, 672, 768),
            Act::Part(
                CATALOGUE,
                768,
                b"\x00\x00\x00\x06\x03\x01\x00\x00\x00\x00\x00\x00\x00\x00\x00\x00",
            ),
            Act::Zeros(CATALOGUE, 800, 896),
        ],
        None,
    ),
    (
        "an implication, and its converse",
        &[
            Act::Put("script", AND_LEQ_SCRIPT),
            Act::Run(&RUN, 0, AND_LEQ_TEXT),
        ],
        &[
            Act::Part(
                CATALOGUE,
                384,
                b"\x00\x00\x00\x03\x03\x01\x00\x00\x00\x00\x00\x00\x00\x00\x00\x00",
            ),
            Act::Zeros(CATALOGUE, 416, 512),
            Act::Part(
                CATALOGUE,
                512,
                b"\x00\x00\x00\x04\x03\x00\x00\x00\x00\x00\x00\x00\x00\x00\x00\x00",
            ),
            Act::Zeros(CATALOGUE, 544, 640),
        ],
        None,
    ),
];

#[test]
fn leaves_these_bytes(rt: HostRuntime) -> Result<(), Fail> {
    all_go(&rt, rt.alloc(), &RUNS)?;
    all_go(&rt, rt.alloc(), &ENTRIES)
}
