// Scripts read with the words of a few requests alone, with no words, and with words that are none of the language.
use crate::whole::{is_fault, read_whole};
use script_reader::{Plan, ScriptFault, ScriptKind, read_script_with};
use std::alloc::Global;

/// A script of two steps, each with a said line, for each request that isn't one of the few: with its number of
/// variables, and its last line, which is the request's.
const REQUESTS: &[(&str, u32, u32)] = &[
    ("const a 0\nnot b a", 0, 2),
    ("const a 0\nand b a a", 0, 2),
    ("const a 0\nor b a a", 0, 2),
    ("const a 0\nxor b a a", 0, 2),
    ("const a 0\nnand b a a", 0, 2),
    ("const a 0\nnor b a a", 0, 2),
    ("const a 0\nxnor b a a", 0, 2),
    ("const a 0\nimp b a a", 0, 2),
    ("const a 0\nite b a a a", 0, 2),
    ("vars v w\nvar a w\nexists b a v", 2, 3),
    ("vars v w\nvar a w\nforall b a v", 2, 3),
    ("vars v w\nvar a w\nrestrict b a v 1", 2, 3),
    ("const a 0\nsame a a", 0, 2),
    ("const a 0\nleq a a", 0, 2),
    ("vars\nconst a 0\neval a", 0, 3),
];

/// With a few words: the refused scripts, with the line and the kind of the first fault.
const REFUSED: &[(&str, u32, ScriptKind)] = &[
    ("inputs", 1, ScriptKind::Word),
    ("net f s", 1, ScriptKind::Word),
    ("vars a\nnot g f", 2, ScriptKind::Word),
    ("frob", 1, ScriptKind::Word),
    ("const a 0\ndrop a\nsize a", 3, ScriptKind::Dropped),
    ("vars a\nvar f b", 2, ScriptKind::Variable),
    ("const a 0\nconst a 0", 2, ScriptKind::NameTaken),
    ("size f\nnot g f", 1, ScriptKind::UnknownName),
];

/// The plan of a script, or its first fault, where few words are known.
fn read_few(alloc: Global, text: &str) -> Result<Plan, ScriptFault> {
    let few = [
        b"vars".as_slice(),
        b"const".as_slice(),
        b"var".as_slice(),
        b"size".as_slice(),
        b"drop".as_slice(),
    ];
    read_script_with(alloc, text.as_bytes(), few.as_slice(), None)
}

/// Whether an answer is a plan with so many variables and steps, and a said line for each step.
fn counts(answer: Result<Plan, ScriptFault>, n: u32, steps: usize) -> bool {
    match answer {
        Ok(plan) => plan.n == n
            && plan.steps.items().len() == steps
            && plan.lines.items().len() == steps,
        Err(_) => false,
    }
}

#[test]
fn reads_each_request(rt: HostRuntime) {
    for (text, n, _) in REQUESTS {
        assert!(rt;
            counts(read_whole(rt.alloc(), text.as_bytes()), *n, 2),
            "{text:?}"
        );
    }
}

#[test]
fn refuses_requests_that_are_not_known(rt: HostRuntime) {
    for (text, _, last) in REQUESTS {
        assert!(rt;
            is_fault(read_few(rt.alloc(), text), *last, ScriptKind::Word),
            "{text:?}"
        );
    }
}

#[test]
fn refuses_with_few_words(rt: HostRuntime) {
    for (text, line, kind) in REFUSED {
        assert!(rt;
            is_fault(read_few(rt.alloc(), text), *line, *kind),
            "{text:?}"
        );
    }
}

#[test]
fn reads_with_few_words(rt: HostRuntime) {
    let text = "vars a b\nvar f a\nconst g 0\nsize f\ndrop g";
    assert!(rt; counts(read_few(rt.alloc(), text), 2, 4));
}

/// Whether a line is refused that begins with a word of no request, where all requests are known and where that word
/// alone is, and a line that begins with a request's where no word is known.
fn refuses_others(alloc: Global) -> bool {
    let text = b"\nfrob f g h".as_slice();
    let other = [b"frob".as_slice()];
    is_fault(read_whole(alloc, text), 2, ScriptKind::Word)
        && is_fault(
            read_script_with(alloc, text, other.as_slice(), None),
            2,
            ScriptKind::Word,
        )
        && is_fault(
            read_script_with(alloc, b"\nvars a".as_slice(), &[], None),
            2,
            ScriptKind::Word,
        )
}

#[test]
fn refuses_words_of_no_request(rt: HostRuntime) {
    assert!(rt; refuses_others(rt.alloc()));
}
