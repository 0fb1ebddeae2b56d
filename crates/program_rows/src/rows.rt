// Scripts, most of whose steps sweep over diagrams: what a run of each says, and the words of node files that it
// leaves.
use crate::scripts::{
    AND_DROP_SCRIPT, AND_DROP_TEXT, AND_LEQ_SCRIPT, AND_LEQ_TEXT, AND_SCRIPT, AND_TEXT, DROPPING,
    DROPPING_TEXT, RESTRICT_EVAL_SCRIPT, RESTRICT_EVAL_TEXT, THREE_TEXT, THREE_VARIABLES,
    XOR_SAME_SCRIPT, XOR_SAME_TEXT,
};
use case_runs::{
    BOTH, DIFFERENT, LEVEL_0, LEVEL_1, LEVEL_2, NEVER, NOT_BOTH, ONE, RUN, SECOND_OF_THREE, ZERO,
    bench_with, gives, has_no_other_parts, has_words,
};
use file_numbers::node_file;
use shelf_memory::Bench;
use std::alloc::Global;
use std::test::Fail;

/// A step, and the words of the node file that it leaves.
pub(crate) type Left = (u32, &'static [u64]);

/// A script, what its run says in an empty folder, and what it leaves there.
#[derive(Clone, Copy)]
pub(crate) struct Row {
    pub(crate) script: &'static [u8],
    pub(crate) said: &'static [u8],
    pub(crate) files: &'static [Left],
    /// The words of the first step's node file until the last of four steps drops it, or none where none does.
    pub(crate) dropped: &'static [u64],
    /// Which calls of a run in an empty folder say, where no step sweeps. The last of them is the run's last call, and
    /// the first two calls fetch the script. Of other scripts they aren't written out.
    pub(crate) says: &'static [u64],
}

/// More steps than a row has.
pub(crate) const STEPS: u32 = 10;

/// The file of `c` of three variables.
const THIRD: &[u64] = &[LEVEL_2, ZERO, ONE, LEVEL_2, 1, 3];

/// The file of `b and c` of three variables.
const LAST_TWO: &[u64] = &[LEVEL_2, ZERO, ONE, LEVEL_1, ZERO, LEVEL_2, LEVEL_1, 2, 3];

/// The file of `if a then b and c else c`.
const CHOICE: &[u64] = &[
    LEVEL_2, ZERO, ONE, LEVEL_1, ZERO, LEVEL_2, LEVEL_0, LEVEL_2, LEVEL_1, LEVEL_0, 3, 3,
];

/// An operator on two variables.
pub(crate) const AND: Row = Row {
    script: AND_SCRIPT,
    said: AND_TEXT,
    files: &[(2, BOTH)],
    dropped: &[],
    says: &[],
};

/// Another, whose file has two nodes on one level.
pub(crate) const XOR: Row = Row {
    script: b"vars a b\nvar f a\nvar g b\nxor h f g\n",
    said: b"start 3\n2: nodes 1\n3: nodes 1\n4: nodes 3\ndone\n",
    files: &[(2, DIFFERENT)],
    dropped: &[],
    says: &[],
};

/// A constant by an operator and by itself, and whether they are the same.
pub(crate) const XOR_SAME: Row = Row {
    script: XOR_SAME_SCRIPT,
    said: XOR_SAME_TEXT,
    files: &[(2, DIFFERENT), (3, NEVER), (4, NEVER)],
    dropped: &[],
    says: &[],
};

/// A choice between a diagram and itself by itself.
pub(crate) const XOR_ITE: Row = Row {
    script: b"vars a b\nvar f a\nvar g b\nxor h f g\nite k h h h\n",
    said: b"start 4\n2: nodes 1\n3: nodes 1\n4: nodes 3\n5: nodes 3\ndone\n",
    files: &[(2, DIFFERENT), (3, DIFFERENT)],
    dropped: &[],
    says: &[],
};

/// A quantifier over a variable on which nothing depends, and whether it implies what it was made of.
pub(crate) const EXISTS_LEQ: Row = Row {
    script: b"vars a b c\nvar f b\nexists g f a\nleq g f\n",
    said: b"start 3\n2: nodes 1\n3: nodes 1\n4: yes\ndone\n",
    files: &[(0, SECOND_OF_THREE), (1, SECOND_OF_THREE)],
    dropped: &[],
    says: &[],
};

/// A choice and both quantifiers over its first variable.
pub(crate) const ITE_QUANTIFIERS: Row = Row {
    script: b"vars a b c\nvar x a\nvar y b\nvar z c\nand w y z\nite f x w z\nexists e f a\n\
              forall d f a\nsame e z\nsame d w\n",
    said: b"start 9\n2: nodes 1\n3: nodes 1\n4: nodes 1\n5: nodes 2\n6: nodes 3\n7: nodes 1\n\
            8: nodes 2\n9: yes\n10: yes\ndone\n",
    files: &[(3, LAST_TWO), (4, CHOICE), (5, THIRD), (6, LAST_TWO)],
    dropped: &[],
    says: &[],
};

/// Both restrictions of a variable, which differ and have as many nodes, and a value.
pub(crate) const RESTRICT_EVAL: Row = Row {
    script: RESTRICT_EVAL_SCRIPT,
    said: RESTRICT_EVAL_TEXT,
    files: &[
        (3, &[LEVEL_1, ZERO, ONE, LEVEL_1, 1, 2]),
        (4, &[LEVEL_1, ONE, ZERO, LEVEL_1, 1, 2]),
    ],
    dropped: &[],
    says: &[],
};

/// The value of a constant of no variables.
pub(crate) const EVAL_OF_NONE: Row = Row {
    script: b"vars\nconst t 1\neval t\n",
    said: b"start 2\n2: nodes 0\n3: 1\ndone\n",
    files: &[(0, &[ONE, 0, 0])],
    dropped: &[],
    says: &[],
};

/// A script without steps.
pub(crate) const NO_STEPS: Row = Row {
    script: b"vars\n",
    said: b"start 0\ndone\n",
    files: &[],
    dropped: &[],
    says: &[],
};

/// A drop of an operand.
pub(crate) const AND_DROP: Row = Row {
    script: AND_DROP_SCRIPT,
    said: AND_DROP_TEXT,
    files: &[(0, &[]), (2, BOTH)],
    dropped: &[LEVEL_0, ZERO, ONE, LEVEL_0, 1, 2],
    says: &[],
};

/// Whether a conjunction implies an operand, and the other way round.
pub(crate) const AND_LEQ: Row = Row {
    script: AND_LEQ_SCRIPT,
    said: AND_LEQ_TEXT,
    files: &[(2, BOTH)],
    dropped: &[],
    says: &[],
};

/// Which constants imply which.
pub(crate) const CONSTANTS_LEQ: Row = Row {
    script: b"vars\nconst o 1\nconst z 0\nleq z o\nleq o z\n",
    said: b"start 4\n2: nodes 0\n3: nodes 0\n4: yes\n5: no\ndone\n",
    files: &[(0, &[ONE, 0, 0]), (1, &[ZERO, 0, 0])],
    dropped: &[],
    says: &[],
};

/// A complement in two ways.
pub(crate) const COMPLEMENTS: Row = Row {
    script: b"vars a b\nvar f a\nvar g b\nand h f g\nnot k h\nnand m f g\nsame k m\n",
    said: b"start 6\n2: nodes 1\n3: nodes 1\n4: nodes 2\n5: nodes 2\n6: nodes 2\n7: yes\ndone\n",
    files: &[(2, BOTH), (3, NOT_BOTH), (4, NOT_BOTH)],
    dropped: &[],
    says: &[],
};

/// A comment, an empty line and a tab before a request, in lines that end with a carriage return.
pub(crate) const OTHER_LAYOUT: Row = Row {
    script: b"vars a b # order\r\n\r\n\tvar f a\r\n",
    said: b"start 1\n3: nodes 1\ndone\n",
    files: &[(0, &[LEVEL_0, ZERO, ONE, LEVEL_0, 1, 2])],
    dropped: &[],
    says: &[13, 22, 23],
};

/// Three variables. Three calls before the folder is read, ten that store the job, one that says how many lines there
/// are, nine for each of three steps, and one that says that all was done.
pub(crate) const THREE: Row = Row {
    script: THREE_VARIABLES,
    said: THREE_TEXT,
    files: &[
        (0, &[LEVEL_0, ZERO, ONE, LEVEL_0, 1, 3]),
        (1, SECOND_OF_THREE),
        (2, THIRD),
    ],
    dropped: &[],
    says: &[13, 22, 31, 40, 41],
};

/// A drop behind a size. Three calls before the folder is read, ten that store the job, one that says how many lines
/// there are; nine for each of the two steps that make a file, seven for the size, which reads an entry, seven for the
/// drop, which empties a file; and one that says that all was done.
pub(crate) const DROP: Row = Row {
    script: DROPPING,
    said: DROPPING_TEXT,
    files: &[(0, &[]), (1, &[LEVEL_1, ZERO, ONE, LEVEL_1, 1, 2])],
    dropped: NEVER,
    says: &[13, 22, 31, 38, 45, 46],
};

/// All of them.
const ROWS: [Row; 15] = [
    AND,
    XOR,
    XOR_SAME,
    XOR_ITE,
    EXISTS_LEQ,
    ITE_QUANTIFIERS,
    RESTRICT_EVAL,
    EVAL_OF_NONE,
    AND_DROP,
    AND_LEQ,
    CONSTANTS_LEQ,
    COMPLEMENTS,
    OTHER_LAYOUT,
    THREE,
    DROP,
];

/// Whether the node files have these words.
pub(crate) fn has_files(bench: &Bench, files: &[Left]) -> bool {
    for (step, words) in files {
        if !has_words(bench, node_file(*step), words) {
            return false;
        }
    }
    true
}

/// Whether a run of the script in an empty folder says its text and leaves its files, and of no step more than a node
/// file.
fn says_and_leaves(alloc: Global, row: &Row) -> bool {
    let Ok(mut bench) = bench_with(alloc, row.script, None) else {
        return false;
    };
    let told = gives(alloc, &RUN, &mut bench, 0, row.said);
    for step in 0..STEPS {
        if !has_no_other_parts(&bench, step) {
            return false;
        }
    }
    told && has_files(&bench, row.files)
}

#[test]
fn says_and_leaves_what_each_script_asks_for(rt: HostRuntime) -> Result<(), Fail> {
    for (k, row) in ROWS.iter().enumerate() {
        assert!(rt; says_and_leaves(rt.alloc(), row), "row {k}");
    }
    Ok(())
}
