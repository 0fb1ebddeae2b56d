// Words and scripts that aren't accepted: one line is said, and the folder is left as it was.
use crate::case::{Case, all_go};
use case_runs::{Act, ONE_VARIABLE, RUN, USAGE, first_fault};
use std::alloc::Global;
use std::test::Fail;

/// The acts of a station that stays empty.
const NOTHING: Option<&[Act]> = Some(&[]);

/// Words without a reading. No text is fetched for them, and no folder entered.
const WORDS: [&[&str]; 14] = [
    &[],
    &["adiar"],
    &["adiar", "run", "FOLDER", "--script"],
    &["adiar", "run", "FOLDER", "--script", "script", "more"],
    &["adiar", "run", "FOLDER", "--netlist", "script"],
    &["adiar", "FOLDER", "run", "--script", "script"],
    &["run", "FOLDER", "--script", "script"],
    &["adiar", "gen", "FOLDER", "--size", "17"],
    &["adiar", "gen", "FOLDER", "--size", "0"],
    &[
        "adiar", "run", "FOLDER", "--script", "script", "--budget", "16383",
    ],
    &[
        "adiar", "run", "FOLDER", "--script", "script", "--budget", "4194305",
    ],
    &[
        "adiar", "run", "FOLDER", "--script", "script", "--script", "script",
    ],
    &["adiar", "list", "FOLDER", "--script", "script"],
    &["adiar", "list", "FOLDER", "--budget", "16384"],
];

/// The first of these words to which something else is said than the usage, by the one call that is made.
fn first_read_words(alloc: Global) -> Option<usize> {
    for (place, words) in WORDS.iter().enumerate() {
        let acts = [
            Act::Put("script", ONE_VARIABLE),
            Act::Run(words, 2, USAGE),
            Act::Calls(1),
        ];
        if first_fault(alloc, &[], &acts, NOTHING).is_some() {
            return Some(place);
        }
    }
    None
}

/// Scripts, and the line and kind of what is refused.
const SCRIPTS: [(&[u8], &[u8]); 22] = [
    (b"vars a\nand h f\n", b"script: line 2: Word\n"),
    (b"vars a\nnot h f\n", b"script: line 2: UnknownName\n"),
    (b"vars a\nvar f a\neval f 01\n", b"script: line 3: Bits\n"),
    (b"vars a\nvar f a\neval f\n", b"script: line 3: Word\n"),
    (
        b"vars a\nvar f a\nexists g f b\n",
        b"script: line 3: Variable\n",
    ),
    (
        b"vars a\nvar f a\nrestrict g f a 2\n",
        b"script: line 3: Word\n",
    ),
    (
        b"vars a b\nvar f a\nvar g b\nand h f g\ndrop f\nnot k f\n",
        b"script: line 6: Dropped\n",
    ),
    (b"vars a a\n", b"script: line 1: Variable\n"),
    (b"vars a\nvar f b\n", b"script: line 2: Variable\n"),
    (
        b"vars a\nvar f a\nvar f a\n",
        b"script: line 3: NameTaken\n",
    ),
    (b"inputs\n", b"script: line 1: NoNetlist\n"),
    (b"net f f\n", b"script: line 1: NoNetlist\n"),
    (b"vars a\nconst z 2\n", b"script: line 2: Word\n"),
    (b"vars a\nsize f\n", b"script: line 2: UnknownName\n"),
    (b"vars a\ndrop f\n", b"script: line 2: UnknownName\n"),
    (
        b"vars a\nvar f a\ndrop f\nsize f\n",
        b"script: line 4: Dropped\n",
    ),
    (
        b"vars a\nvar f a\ndrop f\ndrop f\n",
        b"script: line 4: Dropped\n",
    ),
    (
        b"vars a\nvar f a\ndrop f\nvar f a\n",
        b"script: line 4: NameTaken\n",
    ),
    (b"vars a\nvars b\n", b"script: line 2: Word\n"),
    (
        b"# two lines\r\n\r\n\tsize f",
        b"script: line 3: UnknownName\n",
    ),
    (
        b"vars a\nvar 1234567890123456789012345678901234567890123456789012345678901234 a\n",
        b"script: line 2: NameLength\n",
    ),
    (b"vars a\nvar f b\nsize g\n", b"script: line 2: Variable\n"),
];

/// The first of these scripts that isn't refused so.
fn first_read_script(alloc: Global) -> Option<usize> {
    for (place, (script, said)) in SCRIPTS.iter().enumerate() {
        let acts = [Act::Put("script", script), Act::Run(&RUN, 3, said)];
        if first_fault(alloc, &[], &acts, NOTHING).is_some() {
            return Some(place);
        }
    }
    None
}

/// A script of comment alone, one byte longer than a script may be, one of a variable more than there may be, and none
/// at all.
const OTHERS: [Case; 3] = [
    (
        "a script that is too long",
        &[],
        &[
            Act::PutCrosses("script", 1_048_577),
            Act::Run(&RUN, 3, b"script: line 0: TooLong\n"),
        ],
        NOTHING,
    ),
    (
        "too many variables",
        &[],
        &[
            Act::PutVariables("script", 65_536),
            Act::Run(&RUN, 3, b"script: line 1: TooManyVariables\n"),
        ],
        NOTHING,
    ),
    (
        "no script",
        &[],
        &[Act::Put("other", ONE_VARIABLE), Act::Run(&RUN, 6, b"")],
        NOTHING,
    ),
];

#[test]
fn says_what_is_refused_and_leaves_the_folder(rt: HostRuntime) -> Result<(), Fail> {
    let words = first_read_words(rt.alloc());
    let script = first_read_script(rt.alloc());
    assert!(rt;
        words.is_none() && script.is_none(),
        "words {words:?}, script {script:?}"
    );
    all_go(&rt, rt.alloc(), &OTHERS)
}
