// Scripts over netlists: what a run of each says, and the words of node files that it leaves.
use case_runs::{
    ALWAYS, BOTH, DIFFERENT, LEVEL_0, LEVEL_1, LIST, NET, NEVER, NOT_BOTH, ONE, ZERO, bench_with,
    gives, has_no_other_parts, has_words,
};
use file_numbers::{STEP_GATE, node_file};
use shelf_memory::{Bench, Choice};
use std::alloc::Global;
use std::test::Fail;

/// A step, and the words of the node file that it leaves.
pub(crate) type Left = (u32, &'static [u64]);

/// A script over a netlist, what its run says in an empty folder, and what it leaves there.
#[derive(Clone, Copy)]
pub(crate) struct Row {
    pub(crate) script: &'static [u8],
    pub(crate) netlist: &'static [u8],
    pub(crate) said: &'static [u8],
    /// The diagrams that aren't dropped.
    pub(crate) files: &'static [Left],
    /// What a list says behind the run.
    pub(crate) listed: &'static [u8],
    /// Each step that drops, and the step whose diagram it drops. All others make a diagram.
    pub(crate) drops: &'static [(u32, u32)],
    /// Of each said line, how many steps there are up to its last one.
    pub(crate) ends: &'static [usize],
    pub(crate) steps: u32,
}

/// The file of the first of two variables, and of the second.
const FIRST_OF_TWO: &[u64] = &[LEVEL_0, ZERO, ONE, LEVEL_0, 1, 2];

const SECOND_OF_TWO: &[u64] = &[LEVEL_1, ZERO, ONE, LEVEL_1, 1, 2];

/// A half adder. The block of `t` stands behind the one that reads it.
const ADDER: &[u8] = b".model half # adder\n.inputs a b\n.outputs s c\n.names t c s\n10 1\n\
                       .names a b c\n11 1\n.names a b t\n1- 1\n-1 1\n.end\n";

/// Its sum and its carry. Steps 0 and 1 are the inputs, 2 to 14 make `t` (step 12), 15 to 23 `c` (step 21) and 24 to
/// 32 `s` (step 30), and three drops follow.
pub(crate) const SUM_CARRY: Row = Row {
    script: b"inputs\nnet sum s carry c\n",
    netlist: ADDER,
    said: b"start 2\n2: nodes 3\n2: nodes 2\ndone\n",
    files: &[(21, BOTH), (30, DIFFERENT)],
    listed: b"carry 2\nsum 3\n",
    drops: &[
        (5, 3),
        (7, 2),
        (8, 4),
        (11, 9),
        (13, 6),
        (14, 10),
        (18, 16),
        (20, 17),
        (22, 15),
        (23, 19),
        (27, 25),
        (29, 26),
        (31, 24),
        (32, 28),
        (33, 0),
        (34, 1),
        (35, 12),
    ],
    ends: &[36, 36],
    steps: 36,
};

/// The same, with the carry first: `c` is made in steps 2 to 10 and `t` in steps 11 to 23.
pub(crate) const CARRY_SUM: Row = Row {
    script: b"inputs\nnet carry c sum s\n",
    netlist: ADDER,
    said: b"start 2\n2: nodes 2\n2: nodes 3\ndone\n",
    files: &[(8, BOTH), (30, DIFFERENT)],
    listed: b"carry 2\nsum 3\n",
    drops: &[
        (5, 3),
        (7, 4),
        (9, 2),
        (10, 6),
        (14, 12),
        (16, 11),
        (17, 13),
        (20, 18),
        (22, 15),
        (23, 19),
        (27, 25),
        (29, 26),
        (31, 24),
        (32, 28),
        (33, 0),
        (34, 1),
        (35, 21),
    ],
    ends: &[36, 36],
    steps: 36,
};

/// Both, and then a drop of the carry.
pub(crate) const CARRY_DROPPED: Row = Row {
    script: b"inputs\nnet carry c sum s\ndrop carry\n",
    said: b"start 3\n2: nodes 2\n2: nodes 3\n3: dropped\ndone\n",
    files: &[(30, DIFFERENT)],
    listed: b"sum 3\n",
    drops: &[
        (5, 3),
        (7, 4),
        (9, 2),
        (10, 6),
        (14, 12),
        (16, 11),
        (17, 13),
        (20, 18),
        (22, 15),
        (23, 19),
        (27, 25),
        (29, 26),
        (31, 24),
        (32, 28),
        (33, 0),
        (34, 1),
        (35, 21),
        (36, 8),
    ],
    ends: &[36, 36, 37],
    steps: 37,
    ..CARRY_SUM
};

/// Both constants, and a block whose rows are those where it is 0, on three lines.
pub(crate) const THREE_LINES: Row = Row {
    script: b"inputs\nnet z z\nnet o o\nnet y y\n",
    netlist: b".model k\n.inputs a b\n.outputs z o y\n.names z\n.names o\n 1\n.names a b y\n11 0\n",
    said: b"start 3\n2: nodes 0\n3: nodes 0\n4: nodes 2\ndone\n",
    files: &[(0, NEVER), (3, ALWAYS), (17, NOT_BOTH)],
    listed: b"z 0\no 0\ny 2\n",
    drops: &[
        (4, 1),
        (5, 2),
        (11, 9),
        (13, 10),
        (15, 8),
        (16, 12),
        (18, 14),
        (19, 6),
        (20, 7),
    ],
    ends: &[1, 6, 21],
    steps: 21,
};

/// A line that a comment behind its backslash joins with the next one.
pub(crate) const JOINED: Row = Row {
    script: b"inputs\nnet y y\n",
    netlist: b".model m\n.inputs a \\ # two\nb\n.outputs y\n.names a b y\n11 1\n",
    said: b"start 1\n2: nodes 2\ndone\n",
    files: &[(8, BOTH)],
    listed: b"y 2\n",
    drops: &[(5, 3), (7, 4), (9, 2), (10, 6), (11, 0), (12, 1)],
    ends: &[13],
    steps: 13,
};

/// Inputs that are outputs, named in another order there: levels go by the order of the inputs.
const PASSED: Row = Row {
    script: b"inputs\nnet y b x a\n",
    netlist: b".model m\n.inputs a b\n.outputs b a\n",
    said: b"start 2\n2: nodes 1\n2: nodes 1\ndone\n",
    files: &[(0, SECOND_OF_TWO), (1, FIRST_OF_TWO)],
    listed: b"y 1\nx 1\n",
    drops: &[],
    ends: &[2, 2],
    steps: 2,
};

/// The same where the script names the variables: levels go by its order.
const TURNED: Row = Row {
    script: b"vars b a\nnet y b x a\n",
    files: &[(0, FIRST_OF_TWO), (1, SECOND_OF_TWO)],
    ..PASSED
};

/// Whether no step has more than the node file that the row names.
fn has_no_others(row: &Row, bench: &Bench) -> bool {
    for step in 0..row.steps.saturating_add(1) {
        let dropped = !row.files.iter().any(|(left, _)| *left == step);
        if !has_no_other_parts(bench, step) || dropped && !bench.file(node_file(step)).is_empty() {
            return false;
        }
    }
    bench.file(STEP_GATE).len() == row.steps as usize
}

/// Whether the node files have these words.
pub(crate) fn has_files(bench: &Bench, files: &[Left]) -> bool {
    for (step, words) in files {
        if !has_words(bench, node_file(*step), words) {
            return false;
        }
    }
    true
}

/// Whether a run of the script in an empty folder says its text, leaves its files and no others, and is then listed.
fn says_and_leaves(alloc: Global, row: &Row) -> Result<bool, Fail> {
    let mut bench = bench_with(alloc, row.script, Some(row.netlist))?;
    let told = gives(alloc, &NET, &mut bench, 0, row.said);
    let left = has_files(&bench, row.files) && has_no_others(row, &bench);
    let mut next = bench.stop(Choice::Firm)?;
    Ok(told && left && gives(alloc, &LIST, &mut next, 0, row.listed))
}

/// The scripts, in the order of their places.
pub(crate) const ROWS: [Row; 7] = [
    SUM_CARRY,
    CARRY_SUM,
    CARRY_DROPPED,
    THREE_LINES,
    JOINED,
    PASSED,
    TURNED,
];

/// The place of the first script whose run says or leaves something else.
fn first_wrong_row(alloc: Global) -> Result<Option<usize>, Fail> {
    for (k, row) in ROWS.iter().enumerate() {
        if !says_and_leaves(alloc, row)? {
            return Ok(Some(k));
        }
    }
    Ok(None)
}

#[test]
fn says_and_leaves_what_each_script_asks_for(rt: HostRuntime) -> Result<(), Fail> {
    let wrong = first_wrong_row(rt.alloc())?;
    assert!(rt; wrong.is_none(), "place {wrong:?}");
    Ok(())
}
