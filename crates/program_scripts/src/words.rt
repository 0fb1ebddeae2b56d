//! Lists of words that are read, with what they ask for, and lists that are not.

use command_words::{Words, WordsFault, read_words};
use std::alloc::Global;
use std::test::Fail;

/// A run in the folder `F` of the script `s`, without a netlist.
const fn run(budget: u32) -> Words<'static> {
    Words::Run {
        folder: "F",
        script: "s",
        netlist: None,
        budget,
    }
}

/// Whether the reading of the words is this one.
fn reads(
    alloc: Global,
    words: &[&str],
    wanted: Result<Words<'static>, WordsFault>,
) -> Result<bool, Fail> {
    let mut owned = Vec::new(alloc);
    for word in words {
        owned.push(String::from_str(alloc, word)?)?;
    }
    Ok(read_words(alloc, owned.as_slice()) == wanted)
}

#[test]
fn reads_what_is_asked(rt: HostRuntime) -> Result<(), Fail> {
    let whole = Words::Run {
        folder: "F",
        script: "",
        netlist: Some("n"),
        budget: 4_194_304,
    };
    let cases: [(&[&str], Words); 10] = [
        (&["adiar", "run", "F", "--script", "s"], run(262_144)),
        (&["run", "run", "F", "--script=s"], run(262_144)),
        (
            &["adiar", "--script", "s", "run", "--budget", "16384", "F"],
            run(16_384),
        ),
        (
            &["adiar", "run", "F", "--script", "s", "--budget=0016384"],
            run(16_384),
        ),
        (
            &[
                "adiar",
                "run",
                "F",
                "--netlist=n",
                "--script=",
                "--budget=4194304",
            ],
            whole,
        ),
        (&["adiar", "list", "F"], Words::List { folder: "F" }),
        (
            &["adiar", "list", "--", "--size"],
            Words::List { folder: "--size" },
        ),
        (
            &["adiar", "gen", "F", "--size", "1"],
            Words::Gen {
                folder: "F",
                size: 1,
                budget: 262_144,
            },
        ),
        (
            &["adiar", "gen", "F", "--size=0000016"],
            Words::Gen {
                folder: "F",
                size: 16,
                budget: 262_144,
            },
        ),
        (
            &["", "--budget", "65536", "gen", "--size", "9", "F"],
            Words::Gen {
                folder: "F",
                size: 9,
                budget: 65_536,
            },
        ),
    ];
    for (words, wanted) in cases {
        assert!(rt; reads(rt.alloc(), words, Ok(wanted))?, "{words:?}");
    }
    Ok(())
}

#[test]
fn refuses_other_words(rt: HostRuntime) -> Result<(), Fail> {
    let cases: [&[&str]; 33] = [
        // An action and a folder, and nothing else without a name.
        &[],
        &["adiar"],
        &["adiar", "list"],
        &["adiar", "run", "--script", "s"],
        &["adiar", "list", "F", "G"],
        &["adiar", "equiv", "F"],
        &["adiar", "List", "F"],
        &["adiar", "help", "F"],
        &["adiar", "--help", "list", "F"],
        &["adiar", "list", "F", "-h"],
        &["adiar", "--version", "list", "F"],
        // Each option once, by its whole name, and with a value.
        &["adiar", "run", "F", "--script", "s", "--script", "s"],
        &["adiar", "run", "F", "--scr", "s"],
        &["adiar", "run", "F", "-s", "s"],
        &["adiar", "run", "F", "--script"],
        &["adiar", "run", "F", "--script", "s", "--order", "a"],
        // What an action needs, and what it may have.
        &["adiar", "run", "F"],
        &["adiar", "run", "F", "--netlist", "n"],
        &["adiar", "run", "F", "--script", "s", "--size", "1"],
        &["adiar", "list", "F", "--budget", "16384"],
        &["adiar", "list", "F", "--script", "s"],
        &["adiar", "gen", "F"],
        &["adiar", "gen", "F", "--size", "1", "--script", "s"],
        &["adiar", "gen", "F", "--size", "1", "--netlist", "n"],
        // Numbers and their ranges.
        &["adiar", "run", "F", "--script", "s", "--budget", "16383"],
        &["adiar", "run", "F", "--script", "s", "--budget", "4194305"],
        &["adiar", "run", "F", "--script", "s", "--budget", "00016384"],
        &["adiar", "run", "F", "--script", "s", "--budget", "+16384"],
        &["adiar", "run", "F", "--script", "s", "--budget", "16384a"],
        &["adiar", "gen", "F", "--size="],
        &["adiar", "gen", "F", "--size", "0"],
        &["adiar", "gen", "F", "--size", "17"],
        &["adiar", "gen", "F", "--size", "+5"],
    ];
    for words in cases {
        assert!(rt;
            reads(rt.alloc(), words, Err(WordsFault::Usage))?,
            "{words:?}"
        );
    }
    Ok(())
}
