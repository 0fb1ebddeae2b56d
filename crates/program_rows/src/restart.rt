// Runs in a folder where a run ended or was stopped, and in folders that hold something else.
use crate::case::{Case, all_go};
use crate::scripts::{AND_SCRIPT, AND_TEXT, DROPPING, DROPPING_TEXT, THREE_TEXT, THREE_VARIABLES};
use case_runs::{
    Act, DIFFERENT, FIRST, LIST, NEVER, ONE_TEXT, ONE_VARIABLE, RUN, SMALL, THIRD, USAGE,
};
use file_numbers::{CATALOGUE, CHECKPOINT_GATE_PART, JOB, STEP_GATE};
use shelf_memory::Choice;
use shelf_model::FileNo;
use std::test::Fail;

/// A run of one request that ended, and then a new life.
const ONE_ENDED: &[Act] = &[
    Act::Put("script", ONE_VARIABLE),
    Act::Run(&RUN, 0, ONE_TEXT),
    Act::Stop(Choice::Firm),
];

/// The same with three requests.
const THREE_ENDED: &[Act] = &[
    Act::Put("script", THREE_VARIABLES),
    Act::Run(&RUN, 0, THREE_TEXT),
    Act::Stop(Choice::Firm),
];

/// A run of three steps that ends once its step gate has a second byte, which isn't made sure.
const THREE_FAILED: &[Act] = &[
    Act::Put("script", THREE_VARIABLES),
    Act::FailWhen(STEP_GATE, 2),
    Act::Run(&RUN, 7, b"start 3\n2: nodes 1\n"),
];

/// The same of a script whose third step sweeps, in the least room.
const XOR_FAILED: &[Act] = &[
    Act::Put("script", b"vars a b\nvar f a\nvar g b\nxor h f g\n"),
    Act::FailWhen(STEP_GATE, 2),
    Act::Run(&SMALL, 7, b"start 3\n2: nodes 1\n"),
];

/// The stopped run goes on from what the stop leaves, in whichever room.
const STOPPED: [Case; 6] = [
    (
        "a second step that isn't committed",
        THREE_FAILED,
        &[
            Act::Stop(Choice::Firm),
            Act::Run(&RUN, 0, b"resume 1 of 3\n3: nodes 1\n4: nodes 1\ndone\n"),
        ],
        Some(THREE_ENDED),
    ),
    (
        "a second step that is committed",
        THREE_FAILED,
        &[
            Act::Stop(Choice::Present),
            Act::Run(&RUN, 0, b"resume 2 of 3\n4: nodes 1\ndone\n"),
        ],
        Some(THREE_ENDED),
    ),
    (
        "a second step that is committed, in another room",
        THREE_FAILED,
        &[
            Act::Stop(Choice::Present),
            Act::Run(&SMALL, 0, b"resume 2 of 3\n4: nodes 1\ndone\n"),
        ],
        Some(THREE_ENDED),
    ),
    (
        "an operand that isn't committed",
        XOR_FAILED,
        &[
            Act::Stop(Choice::Firm),
            Act::Run(&SMALL, 0, b"resume 1 of 3\n3: nodes 1\n4: nodes 3\ndone\n"),
            Act::Words(THIRD, DIFFERENT),
        ],
        None,
    ),
    (
        "an operand that is committed",
        XOR_FAILED,
        &[
            Act::Stop(Choice::Present),
            Act::Run(&SMALL, 0, b"resume 2 of 3\n4: nodes 3\ndone\n"),
            Act::Words(THIRD, DIFFERENT),
        ],
        None,
    ),
    (
        "an operand that is committed, in another room",
        XOR_FAILED,
        &[
            Act::Stop(Choice::Present),
            Act::Run(&RUN, 0, b"resume 2 of 3\n4: nodes 3\ndone\n"),
            Act::Words(THIRD, DIFFERENT),
        ],
        None,
    ),
];

/// A run of three steps that was stopped behind its second one, and other calls between it and the next run of it: they
/// change nothing. The scripts' lengths differ, and byte 15 of a job is the last of its script's length.
const BETWEEN: [Case; 4] = [
    (
        "words without a reading",
        THREE_FAILED,
        &[
            Act::Stop(Choice::Present),
            Act::Run(&["adiar"], 2, USAGE),
            Act::Stop(Choice::Firm),
            Act::Run(&RUN, 0, b"resume 2 of 3\n4: nodes 1\ndone\n"),
        ],
        Some(THREE_ENDED),
    ),
    (
        "a path without a text",
        THREE_FAILED,
        &[
            Act::Stop(Choice::Present),
            Act::Run(&["adiar", "run", "FOLDER", "--script", "nothing"], 6, b""),
            Act::Stop(Choice::Firm),
            Act::Run(&RUN, 0, b"resume 2 of 3\n4: nodes 1\ndone\n"),
        ],
        Some(THREE_ENDED),
    ),
    (
        "another script",
        THREE_FAILED,
        &[
            Act::Stop(Choice::Present),
            Act::Put("script", ONE_VARIABLE),
            Act::Run(&RUN, 5, b"other job at 15\n"),
            Act::Stop(Choice::Firm),
            Act::Put("script", THREE_VARIABLES),
            Act::Run(&RUN, 0, b"resume 2 of 3\n4: nodes 1\ndone\n"),
        ],
        Some(THREE_ENDED),
    ),
    (
        "another script in another room",
        THREE_FAILED,
        &[
            Act::Stop(Choice::Present),
            Act::Put("script", ONE_VARIABLE),
            Act::Run(&SMALL, 5, b"other job at 15\n"),
            Act::Stop(Choice::Firm),
            Act::Put("script", THREE_VARIABLES),
            Act::Run(&RUN, 0, b"resume 2 of 3\n4: nodes 1\ndone\n"),
        ],
        Some(THREE_ENDED),
    ),
];

/// Runs where another ended that had the usual words. The script begins at byte 20 of a job. Bytes 8 to 11 are the
/// records of the room in which the job was stored, 00040000 where none are given and 00004000 for 16,384: they don't
/// tell one job from another, and stay.
const OTHER_JOBS: [Case; 7] = [
    (
        "the same job",
        ONE_ENDED,
        &[Act::Run(&RUN, 0, b"resume 1 of 1\ndone\n")],
        Some(ONE_ENDED),
    ),
    (
        "the same script in another room",
        ONE_ENDED,
        &[Act::Run(&SMALL, 0, b"resume 1 of 1\ndone\n")],
        Some(ONE_ENDED),
    ),
    (
        "another variable",
        ONE_ENDED,
        &[
            Act::Put("script", b"vars a b c\nvar f c\n"),
            Act::Run(&RUN, 5, b"other job at 37\n"),
        ],
        Some(ONE_ENDED),
    ),
    (
        "another variable in another room",
        ONE_ENDED,
        &[
            Act::Put("script", b"vars a b c\nvar f c\n"),
            Act::Run(&SMALL, 5, b"other job at 37\n"),
        ],
        Some(ONE_ENDED),
    ),
    (
        "another variable in the last line",
        THREE_ENDED,
        &[
            Act::Put("script", b"vars a b c\nvar f a\nvar g b\nvar h a\n"),
            Act::Run(&RUN, 5, b"other job at 53\n"),
        ],
        Some(THREE_ENDED),
    ),
    (
        "another name of a variable",
        THREE_ENDED,
        &[
            Act::Put("script", b"vars a b d\nvar f a\nvar g b\nvar h d\n"),
            Act::Run(&RUN, 5, b"other job at 29\n"),
        ],
        Some(THREE_ENDED),
    ),
    (
        "a shorter script",
        THREE_ENDED,
        &[
            Act::Put("script", ONE_VARIABLE),
            Act::Run(&RUN, 5, b"other job at 15\n"),
        ],
        Some(THREE_ENDED),
    ),
];

/// Runs where the job's file, of 39 bytes, was changed: any four bytes at 8 to 11 are right.
const CHANGED_JOBS: [Case; 5] = [
    (
        "the records of no room",
        ONE_ENDED,
        &[
            Act::Replace(JOB, 8, 12, &[0xff; 4]),
            Act::Run(&RUN, 0, b"resume 1 of 1\ndone\n"),
            Act::Part(JOB, 8, &[0xff; 4]),
            Act::Length(JOB, 39),
        ],
        None,
    ),
    (
        "the byte before them",
        ONE_ENDED,
        &[
            Act::Replace(JOB, 7, 12, b"2\xff\xff\xff\xff"),
            Act::Run(&RUN, 5, b"other job at 7\n"),
        ],
        None,
    ),
    (
        "the byte behind them",
        ONE_ENDED,
        &[
            Act::Replace(JOB, 8, 13, &[0xff; 5]),
            Act::Run(&RUN, 5, b"other job at 12\n"),
        ],
        None,
    ),
    (
        "a job that ends within them",
        ONE_ENDED,
        &[
            Act::Replace(JOB, 9, 39, b"\xff"),
            Act::Run(&RUN, 5, b"other job at 10\n"),
        ],
        None,
    ),
    (
        "a longer job",
        ONE_ENDED,
        &[
            Act::Replace(JOB, 39, 39, b"\n"),
            Act::Run(&SMALL, 5, b"other job at 39\n"),
        ],
        None,
    ),
];

/// A run of three steps that ended, and a catalogue of 300 bytes.
const THREE_CUT: &[Act] = &[
    Act::Put("script", THREE_VARIABLES),
    Act::Run(&RUN, 0, THREE_TEXT),
    Act::Stop(Choice::Firm),
    Act::Replace(CATALOGUE, 300, 384, b""),
];

/// The same of a script whose third step sweeps.
const AND_CUT: &[Act] = &[
    Act::Put("script", AND_SCRIPT),
    Act::Run(&RUN, 0, AND_TEXT),
    Act::Stop(Choice::Firm),
    Act::Replace(CATALOGUE, 300, 384, b""),
];

/// Files that are cut or have too many bytes, and lines and steps that count nevertheless.
const DAMAGED: [Case; 5] = [
    (
        "a third entry that is cut",
        THREE_CUT,
        &[
            Act::Run(&RUN, 10, b"damaged 4294967295 2 256\n"),
            Act::Length(CATALOGUE, 300),
        ],
        Some(THREE_CUT),
    ),
    (
        "a third entry that is cut, of a step that sweeps",
        AND_CUT,
        &[
            Act::Run(&RUN, 10, b"damaged 4294967295 2 256\n"),
            Act::Length(CATALOGUE, 300),
        ],
        Some(AND_CUT),
    ),
    (
        "a step gate that is longer than the script has steps",
        THREE_ENDED,
        &[
            Act::Replace(STEP_GATE, 0, 3, &[0; 4]),
            Act::Run(&RUN, 10, b"damaged 4294967295 3 3\n"),
            Act::Bytes(STEP_GATE, &[0; 4]),
        ],
        None,
    ),
    (
        "a step gate that has bytes where no job is stored",
        &[],
        &[
            Act::Put("script", THREE_VARIABLES),
            Act::Replace(STEP_GATE, 0, 0, &[0; 3]),
            Act::Run(&RUN, 0, THREE_TEXT),
        ],
        Some(THREE_ENDED),
    ),
    // Calls 13, 22 and 23 say.
    (
        "a step whose line wasn't said",
        &[],
        &[
            Act::Put("script", ONE_VARIABLE),
            Act::FailAt(22),
            Act::Run(&RUN, 8, b"start 1\n"),
            Act::Bytes(STEP_GATE, &[0]),
            Act::Run(&RUN, 0, b"start 1\nresume 1 of 1\ndone\n"),
        ],
        None,
    ),
];

/// A run of four steps that was stopped behind the commit of the second, where its line is said.
const HALF_DONE: &[Act] = &[
    Act::Put("script", DROPPING),
    Act::FailFrom(31),
    Act::Run(&RUN, 8, b"start 4\n2: nodes 0\n"),
    Act::Stop(Choice::Firm),
    Act::Length(CATALOGUE, 256),
];

/// What that run says where the size reads a damaged entry.
const READS_DAMAGE: Act = Act::Run(&RUN, 10, b"resume 2 of 4\ndamaged 4294967295 2 128\n");

/// The second entry begins at byte 128: its kind is at byte 4, its name's length at byte 6, and byte 7 is 0.
const SIZES: [Case; 6] = [
    (
        "a drop that isn't done twice",
        &[],
        &[
            Act::Put("script", DROPPING),
            Act::Run(&RUN, 0, DROPPING_TEXT),
            Act::Stop(Choice::Firm),
            Act::Run(&RUN, 0, b"resume 4 of 4\ndone\n"),
        ],
        None,
    ),
    (
        "an entry of an answer",
        HALF_DONE,
        &[
            Act::Replace(CATALOGUE, 132, 133, &[3]),
            READS_DAMAGE,
            Act::Length(STEP_GATE, 2),
        ],
        None,
    ),
    (
        "an entry of a drop",
        HALF_DONE,
        &[
            Act::Replace(CATALOGUE, 132, 133, &[2]),
            READS_DAMAGE,
            Act::Length(STEP_GATE, 2),
        ],
        None,
    ),
    (
        "a name of 64 letters",
        HALF_DONE,
        &[
            Act::Replace(CATALOGUE, 134, 135, &[64]),
            READS_DAMAGE,
            Act::Length(STEP_GATE, 2),
        ],
        None,
    ),
    (
        "a byte that isn't 0",
        HALF_DONE,
        &[
            Act::Replace(CATALOGUE, 135, 136, &[1]),
            READS_DAMAGE,
            Act::Length(STEP_GATE, 2),
        ],
        None,
    ),
    (
        "an entry that is cut, before all lines",
        HALF_DONE,
        &[
            Act::Replace(CATALOGUE, 255, 256, b""),
            Act::Run(&RUN, 10, b"damaged 4294967295 2 128\n"),
        ],
        None,
    ),
];

/// A run of three steps of which the last sweeps, stopped once two are committed: nothing is pending, and the last one
/// has no checkpoint.
const AND_STOPPED: &[Act] = &[
    Act::Put("script", AND_SCRIPT),
    Act::FailWhen(STEP_GATE, 2),
    Act::Run(&RUN, 7, b"start 3\n2: nodes 1\n"),
    Act::Stop(Choice::Present),
    Act::Length(STEP_GATE, 2),
    Act::Length(FIRST, 48),
    Act::Length(LAST_GATE, 0),
];

/// The gate of the last step's checkpoints.
const LAST_GATE: FileNo = FileNo {
    step: 2,
    part: CHECKPOINT_GATE_PART,
};

/// Files of that folder that something else changed. The first step's node has its pointers at bytes 8 and 16 of its
/// file, and the trailer begins at byte 24. Both entries stay.
const CHANGED: [Case; 6] = [
    (
        "an operand that is cut",
        AND_STOPPED,
        &[
            Act::Replace(FIRST, 47, 48, b""),
            Act::Run(&RUN, 10, b"resume 2 of 3\ndamaged 0 0 23\n"),
            Act::Length(CATALOGUE, 256),
            Act::Length(STEP_GATE, 2),
        ],
        None,
    ),
    (
        "an operand whose node has the truth value 0 for both children",
        AND_STOPPED,
        &[
            Act::Replace(FIRST, 16, 24, b"\x80\x00\x00\x00\x00\x00\x00\x00"),
            Act::Run(&RUN, 10, b"resume 2 of 3\ndamaged 0 0 0\n"),
            Act::Length(CATALOGUE, 256),
            Act::Length(STEP_GATE, 2),
        ],
        None,
    ),
    (
        "an operand whose node has a child that isn't there",
        AND_STOPPED,
        &[
            Act::Replace(FIRST, 8, 16, b"\x00\x00\xff\xff\xff\xff\xff\xff"),
            Act::Run(&RUN, 10, b"resume 2 of 3\ndamaged 0 0 0\n"),
            Act::Length(CATALOGUE, 256),
            Act::Length(STEP_GATE, 2),
        ],
        None,
    ),
    (
        "a gate of a checkpoint that isn't there",
        AND_STOPPED,
        &[
            Act::Replace(LAST_GATE, 0, 0, &[0]),
            Act::Run(&RUN, 10, b"resume 2 of 3\ndamaged 2 1 0\n"),
            Act::Length(CATALOGUE, 256),
            Act::Length(STEP_GATE, 2),
        ],
        None,
    ),
    (
        "a step gate that is longer than the script has steps, before the last step",
        AND_STOPPED,
        &[
            Act::Replace(STEP_GATE, 2, 2, &[0; 2]),
            Act::Run(&RUN, 10, b"damaged 4294967295 3 3\n"),
            Act::Length(CATALOGUE, 256),
            Act::Length(STEP_GATE, 4),
        ],
        None,
    ),
    (
        "a list of an entry of no kind",
        AND_STOPPED,
        &[
            Act::Replace(CATALOGUE, 4, 5, &[9]),
            Act::Run(&LIST, 10, b"damaged 4294967295 2 0\n"),
            Act::Length(CATALOGUE, 256),
            Act::Length(STEP_GATE, 2),
        ],
        None,
    ),
];

/// A run of four steps that ends once the last one is committed, which drops the diagram of the first one.
const DROP_STOPPED: &[Act] = &[
    Act::Put("script", DROPPING),
    Act::FailWhen(STEP_GATE, 4),
    Act::Run(&RUN, 7, b"start 4\n2: nodes 0\n3: nodes 1\n4: nodes 1\n"),
    Act::Stop(Choice::Present),
    Act::Words(FIRST, NEVER),
];

/// The same of three steps, of which the second is the drop.
const EARLY_DROP_STOPPED: &[Act] = &[
    Act::Put("script", b"vars a b\nconst z 0\ndrop z\nvar f b\n"),
    Act::FailWhen(STEP_GATE, 2),
    Act::Run(&RUN, 7, b"start 3\n2: nodes 0\n"),
    Act::Stop(Choice::Present),
    Act::Words(FIRST, NEVER),
];

/// The same of four steps, of which the third joins two diagrams.
const JOIN_STOPPED: &[Act] = &[
    Act::Put(
        "script",
        b"vars a b\nvar f a\nvar g b\nand h f g\nvar k b\n",
    ),
    Act::FailWhen(STEP_GATE, 3),
    Act::Run(&RUN, 7, b"start 4\n2: nodes 1\n3: nodes 1\n"),
    Act::Stop(Choice::Present),
];

/// What a stop kept a run from cutting behind a commit is cut by the next run. Of drops that is what they name, whatever
/// stands in their entries, whose kind is their fifth byte.
const LEFT: [Case; 5] = [
    (
        "a diagram that the last step drops",
        DROP_STOPPED,
        &[
            Act::Run(&RUN, 0, b"resume 4 of 4\ndone\n"),
            Act::Length(FIRST, 0),
        ],
        None,
    ),
    (
        "a diagram that an earlier step drops",
        EARLY_DROP_STOPPED,
        &[
            Act::Run(&RUN, 0, b"resume 2 of 3\n4: nodes 1\ndone\n"),
            Act::Length(FIRST, 0),
        ],
        None,
    ),
    (
        "a step whose entry can't be read",
        JOIN_STOPPED,
        &[
            Act::FailAt(13),
            Act::Run(&RUN, 7, b"resume 3 of 4\n"),
            Act::Calls(14),
        ],
        None,
    ),
    (
        "a diagram that can't be cut",
        EARLY_DROP_STOPPED,
        &[
            Act::FailAt(13),
            Act::Run(&RUN, 7, b"resume 2 of 3\n"),
            Act::Calls(14),
            Act::Words(FIRST, NEVER),
        ],
        None,
    ),
    (
        "a diagram whose drop has an entry of another kind",
        EARLY_DROP_STOPPED,
        &[
            Act::Replace(CATALOGUE, 132, 133, &[3]),
            Act::Run(&RUN, 0, b"resume 2 of 3\n4: nodes 1\ndone\n"),
            Act::Length(FIRST, 0),
        ],
        None,
    ),
];

const FAMILIES: [&[Case]; 8] = [
    &STOPPED,
    &BETWEEN,
    &OTHER_JOBS,
    &CHANGED_JOBS,
    &DAMAGED,
    &CHANGED,
    &SIZES,
    &LEFT,
];

#[test]
fn goes_on_or_says_what_the_folder_holds(rt: HostRuntime) -> Result<(), Fail> {
    for cases in FAMILIES {
        all_go(&rt, rt.alloc(), cases)?;
    }
    Ok(())
}
