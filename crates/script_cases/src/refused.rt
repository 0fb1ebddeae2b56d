// Scripts that are refused: each way in which a line may be at fault, and the order in which faults count.
use crate::whole::refuses;
use script_reader::ScriptKind;
use std::alloc::{AllocError, Global};

/// Refused for their keyword or for the number of their words, with the line and the kind of the first fault.
const WORDS: &[(&str, u32, ScriptKind)] = &[
    // Words that begin no line.
    ("foo", 1, ScriptKind::Word),
    ("Const a 0", 1, ScriptKind::Word),
    ("consta 0", 1, ScriptKind::Word),
    ("a", 1, ScriptKind::Word),
    // As many words as a request takes.
    ("const", 1, ScriptKind::Word),
    ("const a", 1, ScriptKind::Word),
    ("const a 0 0", 1, ScriptKind::Word),
    ("vars a\nvar f", 2, ScriptKind::Word),
    ("vars a\nvar f a a", 2, ScriptKind::Word),
    ("not f", 1, ScriptKind::Word),
    ("not f g h", 1, ScriptKind::Word),
    ("vars a\nand h f", 2, ScriptKind::Word),
    ("and h f g f", 1, ScriptKind::Word),
    ("or h f", 1, ScriptKind::Word),
    ("or h f g f", 1, ScriptKind::Word),
    ("xor h f", 1, ScriptKind::Word),
    ("nand h f", 1, ScriptKind::Word),
    ("nor h f g f", 1, ScriptKind::Word),
    ("xnor h f g f", 1, ScriptKind::Word),
    ("imp h", 1, ScriptKind::Word),
    ("imp h f", 1, ScriptKind::Word),
    ("ite k c f", 1, ScriptKind::Word),
    ("ite k c f g h", 1, ScriptKind::Word),
    ("exists g f", 1, ScriptKind::Word),
    ("exists g f a b", 1, ScriptKind::Word),
    ("forall g f", 1, ScriptKind::Word),
    ("restrict p h a", 1, ScriptKind::Word),
    ("restrict p h a 0 1", 1, ScriptKind::Word),
    ("net", 1, ScriptKind::Word),
    ("net f", 1, ScriptKind::Word),
    ("net f s g", 1, ScriptKind::Word),
    ("drop", 1, ScriptKind::Word),
    ("drop f g", 1, ScriptKind::Word),
    ("same f", 1, ScriptKind::Word),
    ("same f g h", 1, ScriptKind::Word),
    ("leq f", 1, ScriptKind::Word),
    ("leq f g h", 1, ScriptKind::Word),
    ("eval", 1, ScriptKind::Word),
    ("eval f 0 1", 1, ScriptKind::Word),
    ("size", 1, ScriptKind::Word),
    ("size f g", 1, ScriptKind::Word),
];

/// Refused for other words that stand where they must not, or for the netlist that isn't there.
const PLACES: &[(&str, u32, ScriptKind)] = &[
    // The bits of an evaluation may be left out where there is no variable, and there alone.
    ("vars a\nconst z 0\neval z", 3, ScriptKind::Word),
    ("vars a\neval f", 2, ScriptKind::Word),
    // Words that have to be 0 or 1.
    ("const a 2", 1, ScriptKind::Word),
    ("const a 01", 1, ScriptKind::Word),
    ("restrict p h a 2", 1, ScriptKind::Word),
    ("restrict p h a 10", 1, ScriptKind::Word),
    // Before a name that was dropped, a variable, bits, and the name that the line gives.
    ("vars a\nconst z 0\ndrop z\neval z", 4, ScriptKind::Word),
    ("vars a\nvar f a\nrestrict g f b 2", 3, ScriptKind::Word),
    ("vars a\nvars b b", 2, ScriptKind::Word),
    ("vars a\nvar f a\neval f 2 0", 3, ScriptKind::Word),
    (
        "const nnnnnnnnnnnnnnnnnnnnnnnnnnnnnnnnnnnnnnnnnnnnnnnnnnnnnnnnnnnnnnnn 2",
        1,
        ScriptKind::Word,
    ),
    ("const z 0\nconst z 2", 2, ScriptKind::Word),
    // Variables are named on the first line with words.
    ("vars a\nvars b", 2, ScriptKind::Word),
    ("const z 0\nvars a", 2, ScriptKind::Word),
    ("const z 0\ninputs", 2, ScriptKind::Word),
    ("vars a\ninputs", 2, ScriptKind::Word),
    ("vars\n\nvars", 3, ScriptKind::Word),
    ("inputs a", 1, ScriptKind::Word),
    // A signal that a line names twice, before the netlist that isn't there.
    ("net f s f s", 1, ScriptKind::Word),
    ("net f s g s", 1, ScriptKind::Word),
    ("net f s g t h s", 1, ScriptKind::Word),
    // No netlist, before names that are taken or long.
    ("inputs", 1, ScriptKind::NoNetlist),
    ("\n# c\n \t\r\ninputs", 4, ScriptKind::NoNetlist),
    ("net f s", 1, ScriptKind::NoNetlist),
    ("vars a\nnet f s g t", 2, ScriptKind::NoNetlist),
    ("net a b b a", 1, ScriptKind::NoNetlist),
    ("net f s f t", 1, ScriptKind::NoNetlist),
    ("const f 0\nnet f s", 2, ScriptKind::NoNetlist),
    (
        "net nnnnnnnnnnnnnnnnnnnnnnnnnnnnnnnnnnnnnnnnnnnnnnnnnnnnnnnnnnnnnnnn s",
        1,
        ScriptKind::NoNetlist,
    ),
];

/// Refused for an operand.
const OPERANDS: &[(&str, u32, ScriptKind)] = &[
    // Names that no earlier line gave.
    ("vars a\nnot h f", 2, ScriptKind::UnknownName),
    ("not f f", 1, ScriptKind::UnknownName),
    ("size f", 1, ScriptKind::UnknownName),
    ("vars a\nsize a", 2, ScriptKind::UnknownName),
    ("drop f", 1, ScriptKind::UnknownName),
    ("const z 0\nand h y z", 2, ScriptKind::UnknownName),
    ("const z 0\nor h z y", 2, ScriptKind::UnknownName),
    ("const z 0\nite k y z z", 2, ScriptKind::UnknownName),
    ("const z 0\nite k z y z", 2, ScriptKind::UnknownName),
    ("const z 0\nite k z z y", 2, ScriptKind::UnknownName),
    ("const z 0\nsame y z", 2, ScriptKind::UnknownName),
    ("const z 0\nsame z y", 2, ScriptKind::UnknownName),
    ("const z 0\nleq z y", 2, ScriptKind::UnknownName),
    ("eval f", 1, ScriptKind::UnknownName),
    ("const z 0\nsize Z", 2, ScriptKind::UnknownName),
    // Before variables, bits and the name that the line gives.
    ("exists g f a", 1, ScriptKind::UnknownName),
    ("restrict g f a 0", 1, ScriptKind::UnknownName),
    ("vars a\neval f 01", 2, ScriptKind::UnknownName),
    ("const z 0\nnot z y", 2, ScriptKind::UnknownName),
    (
        "not nnnnnnnnnnnnnnnnnnnnnnnnnnnnnnnnnnnnnnnnnnnnnnnnnnnnnnnnnnnnnnnn y",
        1,
        ScriptKind::UnknownName,
    ),
    // Names that an earlier line dropped.
    ("const z 0\ndrop z\nsize z", 3, ScriptKind::Dropped),
    ("const z 0\ndrop z\ndrop z", 3, ScriptKind::Dropped),
    (
        "vars a b\nvar f a\nvar g b\nand h f g\ndrop f\nnot k f",
        6,
        ScriptKind::Dropped,
    ),
    (
        "const z 0\nconst o 1\ndrop z\nsame o z",
        4,
        ScriptKind::Dropped,
    ),
    (
        "const z 0\nconst o 1\ndrop z\nleq z o",
        4,
        ScriptKind::Dropped,
    ),
    ("const z 0\ndrop z\nexists g z a", 3, ScriptKind::Dropped),
    (
        "vars a\nconst z 0\ndrop z\neval z 2",
        4,
        ScriptKind::Dropped,
    ),
    ("const z 0\ndrop z\nnot z z", 3, ScriptKind::Dropped),
    (
        "const z 0\ndrop z\nnot nnnnnnnnnnnnnnnnnnnnnnnnnnnnnnnnnnnnnnnnnnnnnnnnnnnnnnnnnnnnnnnn z",
        3,
        ScriptKind::Dropped,
    ),
    // From left to right.
    ("const z 0\ndrop z\nand h z y", 3, ScriptKind::Dropped),
    ("const z 0\ndrop z\nand h y z", 3, ScriptKind::UnknownName),
    (
        "const z 0\nconst o 1\ndrop z\nite k o z y",
        4,
        ScriptKind::Dropped,
    ),
    (
        "const z 0\nconst o 1\ndrop z\nite k o y z",
        4,
        ScriptKind::UnknownName,
    ),
    ("const z 0\ndrop z\nsame y z", 3, ScriptKind::UnknownName),
    ("const z 0\ndrop z\nleq z y", 3, ScriptKind::Dropped),
];

/// Refused for a variable, for bits or for the name that a line gives, and the first of several faults.
const NAMES: &[(&str, u32, ScriptKind)] = &[
    // Variables.
    ("var f a", 1, ScriptKind::Variable),
    ("vars\nvar f a", 2, ScriptKind::Variable),
    ("vars a\nvar f b", 2, ScriptKind::Variable),
    ("vars a a", 1, ScriptKind::Variable),
    ("vars a b c b", 1, ScriptKind::Variable),
    ("vars a\nconst f 0\nvar g f", 3, ScriptKind::Variable),
    ("vars a\nvar f a\nexists g f f", 3, ScriptKind::Variable),
    ("vars a\nvar f a\nforall g f b", 3, ScriptKind::Variable),
    ("vars a\nvar f a\nrestrict g f b 1", 3, ScriptKind::Variable),
    ("vars a\nvar f A", 2, ScriptKind::Variable),
    // Before the name that the line gives.
    ("vars a\nvar f a\nexists f f b", 3, ScriptKind::Variable),
    ("vars a\nvar f a\nvar f b", 3, ScriptKind::Variable),
    (
        "var nnnnnnnnnnnnnnnnnnnnnnnnnnnnnnnnnnnnnnnnnnnnnnnnnnnnnnnnnnnnnnnn a",
        1,
        ScriptKind::Variable,
    ),
    // Bits.
    ("vars a\nvar f a\neval f 01", 3, ScriptKind::Bits),
    ("vars a b\nvar f a\neval f 0", 3, ScriptKind::Bits),
    ("vars a\nvar f a\neval f 2", 3, ScriptKind::Bits),
    ("vars a b\nvar f a\neval f 1x", 3, ScriptKind::Bits),
    ("const z 0\neval z 0", 2, ScriptKind::Bits),
    ("vars\nconst z 1\neval z 1", 3, ScriptKind::Bits),
    // Names that the lines give.
    (
        "const nnnnnnnnnnnnnnnnnnnnnnnnnnnnnnnnnnnnnnnnnnnnnnnnnnnnnnnnnnnnnnnn 0",
        1,
        ScriptKind::NameLength,
    ),
    (
        "const z 0\nnot nnnnnnnnnnnnnnnnnnnnnnnnnnnnnnnnnnnnnnnnnnnnnnnnnnnnnnnnnnnnnnnn z",
        2,
        ScriptKind::NameLength,
    ),
    ("vars a\nvar f a\nvar f a", 3, ScriptKind::NameTaken),
    ("const z 0\nconst z 1", 2, ScriptKind::NameTaken),
    ("const z 0\nnot z z", 2, ScriptKind::NameTaken),
    ("const z 0\ndrop z\nconst z 0", 3, ScriptKind::NameTaken),
    // The first of two faulty lines, whatever its kind.
    ("foo\nsize z", 1, ScriptKind::Word),
    ("size z\nfoo", 1, ScriptKind::UnknownName),
    ("const z 0\nconst z 0\nvars a", 2, ScriptKind::NameTaken),
    ("vars a\nvar f b\nand h", 2, ScriptKind::Variable),
    ("vars a a\nfoo", 1, ScriptKind::Variable),
    // Lines without words are counted; a number sign ends a word, and a carriage return ends no line.
    ("\n\nfoo", 3, ScriptKind::Word),
    ("# c\n\t \r\n\nsize z", 4, ScriptKind::UnknownName),
    ("const a#b 0", 1, ScriptKind::Word),
    ("#\n# foo\nfoo#", 3, ScriptKind::Word),
    ("const z 0\r\nfoo\r\n", 2, ScriptKind::Word),
    ("const z 0\rconst o 1", 1, ScriptKind::Word),
    (
        "vars a # order\r\n\r\n\tvar f b\r\n",
        3,
        ScriptKind::Variable,
    ),
    ("const\tz\t2", 1, ScriptKind::Word),
    ("const z 0\n\nsize y\n", 3, ScriptKind::UnknownName),
];

/// Lines that are refused behind those of `BEFORE`, each of another kind.
const FAULTY: &[(&str, ScriptKind)] = &[
    ("foo", ScriptKind::Word),
    ("net g s", ScriptKind::NoNetlist),
    ("size q", ScriptKind::UnknownName),
    ("size d", ScriptKind::Dropped),
    ("var g b", ScriptKind::Variable),
    ("eval f 2", ScriptKind::Bits),
    (
        "const nnnnnnnnnnnnnnnnnnnnnnnnnnnnnnnnnnnnnnnnnnnnnnnnnnnnnnnnnnnnnnnn 0",
        ScriptKind::NameLength,
    ),
    ("const f 0", ScriptKind::NameTaken),
];

/// A variable, a diagram, and one that was dropped.
const BEFORE: &str = "vars a\nvar f a\nvar d a\ndrop d\n";

/// Whether a script of lines that are in order, of one that isn't and of another one is refused for
/// the former.
fn refuses_the_first(
    alloc: Global,
    first: &str,
    kind: ScriptKind,
    second: &str,
) -> Result<bool, AllocError> {
    let mut text = Vec::new(alloc);
    text.extend_from_slice(BEFORE.as_bytes())?;
    text.extend_from_slice(first.as_bytes())?;
    text.push(b'\n')?;
    text.extend_from_slice(second.as_bytes())?;
    Ok(refuses(alloc, text.as_slice(), 5, kind))
}

#[test]
fn refuses_the_first_of_two_faulty_lines(rt: HostRuntime) -> Result<(), AllocError> {
    for (first, kind) in FAULTY {
        for (second, _) in FAULTY {
            assert!(rt;
                refuses_the_first(rt.alloc(), first, *kind, second)?,
                "{first:?} {second:?}"
            );
        }
    }
    Ok(())
}

#[test]
fn refuses_words(rt: HostRuntime) {
    for (text, line, kind) in WORDS {
        assert!(rt;
            refuses(rt.alloc(), text.as_bytes(), *line, *kind),
            "{text:?}"
        );
    }
}

#[test]
fn refuses_misplaced_words_and_netlists(rt: HostRuntime) {
    for (text, line, kind) in PLACES {
        assert!(rt;
            refuses(rt.alloc(), text.as_bytes(), *line, *kind),
            "{text:?}"
        );
    }
}

#[test]
fn refuses_operands(rt: HostRuntime) {
    for (text, line, kind) in OPERANDS {
        assert!(rt;
            refuses(rt.alloc(), text.as_bytes(), *line, *kind),
            "{text:?}"
        );
    }
}

#[test]
fn refuses_variables_bits_and_names(rt: HostRuntime) {
    for (text, line, kind) in NAMES {
        assert!(rt;
            refuses(rt.alloc(), text.as_bytes(), *line, *kind),
            "{text:?}"
        );
    }
}
