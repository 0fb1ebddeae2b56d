// Runs of a `net` line that are stopped in its middle: what a list says there, and who says the line's answers.
use crate::case::goes;
use crate::rows::{CARRY_DROPPED, Row, SUM_CARRY, THREE_LINES};
use case_runs::{Act, LIST, NET};
use file_numbers::STEP_GATE;
use shelf_memory::Choice;
use std::test::Fail;

/// A name, a script, how many bytes the gate of steps has as a stop comes, and how many of them the stop keeps; what was
/// said before, what a list says then, and what the next run says.
type Halt = (
    &'static str,
    &'static Row,
    usize,
    usize,
    &'static [u8],
    &'static [u8],
    &'static [u8],
);

/// The carry is step 21, behind which two drops stand, and the sum step 30 of 36, behind which drops alone stand. All
/// steps from the sixth on are made at once and committed together, with thirty bytes of the gate, of which a stop may keep
/// any front. Where the carry comes first, it is step 8. Behind the second of the three lines' step 3 two drops end its
/// line.
const HALTS: [Halt; 6] = [
    (
        "the sum and the carry at 21 steps",
        &SUM_CARRY,
        36,
        21,
        b"start 2\n",
        b"",
        b"resume 0 of 2\n2: nodes 3\n2: nodes 2\ndone\n",
    ),
    (
        "the sum and the carry at 22 steps",
        &SUM_CARRY,
        36,
        22,
        b"start 2\n",
        b"carry 2\n",
        b"resume 0 of 2\n2: nodes 3\n2: nodes 2\ndone\n",
    ),
    (
        "the sum and the carry at 30 steps",
        &SUM_CARRY,
        36,
        30,
        b"start 2\n",
        b"carry 2\n",
        b"resume 0 of 2\n2: nodes 3\n2: nodes 2\ndone\n",
    ),
    (
        "the sum and the carry at 36 steps",
        &SUM_CARRY,
        36,
        36,
        b"start 2\n",
        b"carry 2\nsum 3\n",
        b"resume 2 of 2\ndone\n",
    ),
    (
        "the dropped carry at 37 steps",
        &CARRY_DROPPED,
        37,
        37,
        b"start 3\n2: nodes 2\n2: nodes 3\n",
        b"sum 3\n",
        b"resume 3 of 3\ndone\n",
    ),
    (
        "three lines at 6 steps",
        &THREE_LINES,
        6,
        6,
        b"start 3\n2: nodes 0\n",
        b"z 0\no 0\n",
        b"resume 2 of 3\n4: nodes 2\ndone\n",
    ),
];

#[test]
fn says_the_answers_of_a_line_behind_its_last_step(rt: HostRuntime) -> Result<(), Fail> {
    for (name, row, bytes, kept, said, listed, rest) in HALTS {
        let acts = [
            Act::Put("script", row.script),
            Act::Put("netlist", row.netlist),
            Act::FailWhen(STEP_GATE, bytes as u64),
            Act::Run(&NET, 7, said),
            Act::Stop(Choice::Present),
            Act::Replace(STEP_GATE, kept, bytes, b""),
            Act::Run(&LIST, 0, listed),
            Act::Stop(Choice::Firm),
            Act::Run(&NET, 0, rest),
        ];
        goes(&rt, rt.alloc(), name, &acts)?;
    }
    Ok(())
}

// Once the gate has more than the six steps that are committed by themselves or with a drop, it has all.
#[test]
fn commits_the_steps_together_that_are_made_at_once(rt: HostRuntime) -> Result<(), Fail> {
    let acts = [
        Act::Put("script", SUM_CARRY.script),
        Act::Put("netlist", SUM_CARRY.netlist),
        Act::FailWhen(STEP_GATE, 7),
        Act::Run(&NET, 7, b"start 2\n"),
        Act::Length(STEP_GATE, 36),
    ];
    goes(&rt, rt.alloc(), "the sum and the carry", &acts)
}
