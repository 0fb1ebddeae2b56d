// The netlist in a stored job. It is stored also where the script doesn't use it.
use crate::case::goes;
use crate::rows::JOINED;
use case_runs::{Act, FIRST, NET, ONE_TEXT, ONE_VARIABLE, RUN, SECOND_OF_THREE, SMALL_NET};
use file_numbers::{CATALOGUE, JOB, JOB_GATE, STEP_GATE};
use shelf_memory::Choice;
use std::test::Fail;

/// A netlist of 39 bytes.
const CONSTANT: &[u8] = b".model m\n.inputs a\n.outputs y\n.names y\n";

/// Another, with a comment behind it.
const COMMENTED: &[u8] = b".model m\n.inputs a\n.outputs y\n.names y\n#a";

// Jobs: a room of 262,144 or 16,384 records; the lengths of the script and of the netlist, if there is one; both.

/// The job of the one variable over the netlist.
const NET_JOB: &[u8] =
    b"ADIARJ01\x00\x04\x00\x00\x00\x00\x00\x13\x00\x00\x00\x27vars a b c\nvar f b\n\
                         .model m\n.inputs a\n.outputs y\n.names y\n";

/// The same in the least room.
const SMALL_NET_JOB: &[u8] =
    b"ADIARJ01\x00\x00\x40\x00\x00\x00\x00\x13\x00\x00\x00\x27vars a b c\nvar f b\n\
                               .model m\n.inputs a\n.outputs y\n.names y\n";

/// That of the one variable over the netlist with the comment.
const COMMENTED_JOB: &[u8] =
    b"ADIARJ01\x00\x04\x00\x00\x00\x00\x00\x13\x00\x00\x00\x29vars a b c\nvar f b\n\
                               .model m\n.inputs a\n.outputs y\n.names y\n#a";

/// That of the one variable without a netlist.
const PLAIN_JOB: &[u8] =
    b"ADIARJ01\x00\x04\x00\x00\x00\x00\x00\x13\xff\xff\xff\xffvars a b c\nvar f b\n";

/// That of no script over the netlist.
const EMPTY_JOB: &[u8] = b"ADIARJ01\x00\x04\x00\x00\x00\x00\x00\x00\x00\x00\x00\x27\
                           .model m\n.inputs a\n.outputs y\n.names y\n";

/// A name, a script, the words of its run and what it says, the job that it leaves, and what else has to be so.
type Stored = (
    &'static str,
    &'static [u8],
    &'static [&'static str],
    &'static [u8],
    &'static [u8],
    Act,
);

const STORED: [Stored; 4] = [
    (
        "a netlist that is not used",
        ONE_VARIABLE,
        &NET,
        ONE_TEXT,
        NET_JOB,
        Act::Words(FIRST, SECOND_OF_THREE),
    ),
    (
        "the same in the least room",
        ONE_VARIABLE,
        &SMALL_NET,
        ONE_TEXT,
        SMALL_NET_JOB,
        Act::Words(FIRST, SECOND_OF_THREE),
    ),
    (
        "no netlist",
        ONE_VARIABLE,
        &RUN,
        ONE_TEXT,
        PLAIN_JOB,
        Act::Words(FIRST, SECOND_OF_THREE),
    ),
    (
        "a netlist and no request",
        b"",
        &NET,
        b"start 0\ndone\n",
        EMPTY_JOB,
        Act::Length(FIRST, 0),
    ),
];

#[test]
fn stores_the_netlist_behind_the_script(rt: HostRuntime) -> Result<(), Fail> {
    for (name, script, words, said, job, made) in STORED {
        let acts = [
            Act::Put("script", script),
            Act::Put("netlist", CONSTANT),
            Act::Run(words, 0, said),
            Act::Bytes(JOB, job),
            Act::Length(JOB_GATE, 1),
            made,
        ];
        goes(&rt, rt.alloc(), name, &acts)?;
    }
    Ok(())
}

/// A name, the words and the netlist of a run, the job that it leaves, the words and the netlist of the next run, its
/// status and what it says.
type Other = (
    &'static str,
    &'static [&'static str],
    &'static [u8],
    &'static [u8],
    &'static [&'static str],
    &'static [u8],
    u8,
    &'static [u8],
);

/// The netlist's length is at byte 16 of a job, and the netlist at byte 39, behind the script. Its output's name is at
/// byte 28 of the netlist.
const OTHERS: [Other; 7] = [
    (
        "the same netlist",
        &NET,
        CONSTANT,
        NET_JOB,
        &NET,
        CONSTANT,
        0,
        b"resume 1 of 1\ndone\n",
    ),
    (
        "another output",
        &NET,
        CONSTANT,
        NET_JOB,
        &NET,
        b".model m\n.inputs a\n.outputs z\n.names z\n",
        5,
        b"other job at 67\n",
    ),
    (
        "a longer netlist",
        &NET,
        CONSTANT,
        NET_JOB,
        &NET,
        b".model m\n.inputs a\n.outputs y\n.names y\n.end\n",
        5,
        b"other job at 19\n",
    ),
    (
        "another comment",
        &NET,
        COMMENTED,
        COMMENTED_JOB,
        &NET,
        b".model m\n.inputs a\n.outputs y\n.names y\n#b",
        5,
        b"other job at 79\n",
    ),
    (
        "no netlist",
        &NET,
        CONSTANT,
        NET_JOB,
        &RUN,
        CONSTANT,
        5,
        b"other job at 16\n",
    ),
    (
        "a netlist where none was",
        &RUN,
        CONSTANT,
        PLAIN_JOB,
        &NET,
        CONSTANT,
        5,
        b"other job at 16\n",
    ),
    (
        "a netlist that isn't accepted",
        &NET,
        CONSTANT,
        NET_JOB,
        &NET,
        b".model m\n",
        4,
        b"netlist: line 0: NoInputs\n",
    ),
];

// The job stays, and so do the gates and the entry of its step.
#[test]
fn says_where_another_netlist_differs(rt: HostRuntime) -> Result<(), Fail> {
    for (name, first, stored, job, words, netlist, status, said) in OTHERS {
        let acts = [
            Act::Put("script", ONE_VARIABLE),
            Act::Put("netlist", stored),
            Act::Run(first, 0, ONE_TEXT),
            Act::Stop(Choice::Firm),
            Act::Put("netlist", netlist),
            Act::Run(words, status, said),
            Act::Bytes(JOB, job),
            Act::Length(CATALOGUE, 128),
            Act::Length(JOB_GATE, 1),
            Act::Length(STEP_GATE, 1),
        ];
        goes(&rt, rt.alloc(), name, &acts)?;
    }
    Ok(())
}

/// A name, another netlist, and the status and text of the run over it.
type Behind = (&'static str, &'static [u8], u8, &'static [u8]);

/// The script has 15 bytes, so the netlist begins at byte 35 of the job; a column is at byte 53 of the netlist.
const BEHIND: [Behind; 2] = [
    (
        "another column",
        b".model m\n.inputs a \\ # two\nb\n.outputs y\n.names a b y\n01 1\n",
        5,
        b"other job at 88\n",
    ),
    (
        "a netlist that isn't accepted",
        b".model m\n",
        4,
        b"netlist: line 0: NoInputs\n",
    ),
];

#[test]
fn goes_on_behind_a_run_over_another_netlist(rt: HostRuntime) -> Result<(), Fail> {
    for (name, netlist, status, said) in BEHIND {
        let acts = [
            Act::Put("script", JOINED.script),
            Act::Put("netlist", JOINED.netlist),
            Act::FailWhen(STEP_GATE, 8),
            Act::Run(&NET, 7, b"start 1\n"),
            Act::Stop(Choice::Present),
            Act::Put("netlist", netlist),
            Act::Run(&NET, status, said),
            Act::Stop(Choice::Firm),
            Act::Put("netlist", JOINED.netlist),
            Act::Run(&NET, 0, b"resume 0 of 1\n2: nodes 2\ndone\n"),
        ];
        goes(&rt, rt.alloc(), name, &acts)?;
    }
    Ok(())
}
