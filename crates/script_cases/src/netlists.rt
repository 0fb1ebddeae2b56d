// Scripts that are read with a netlist: the plans of those that are accepted, and the first fault of each other one.
use crate::operators::{AND, LEFT_ALONE, NAND, OR};
use crate::whole::{Made, Said, is_fault, is_plan, read_with};
use blif_reader::{Netlist, read_netlist};
use bool_tables::{Bin, Step, Table, eval_steps};
use script_reader::{LineEnd, Plan, ScriptKind, read_script};
use std::alloc::{AllocError, Global};

/// Two inputs, `a` and `b`, their conjunction `f`, the complement `g` of the first, and `h`, which has rows of output
/// 0.
const NET: &str =
    ".model m\n.inputs a b\n.outputs f g\n.names a b f\n11 1\n.names a g\n0 1\n.names b h\n1 0\n.end\n";

/// No inputs, and a block that is 1.
const ONE: &str = ".model m\n.inputs\n.outputs c\n.names c\n1\n";

/// Two outputs that tell the inputs apart: `f` is 1 where `a` alone is, and `g` is the complement of `a`.
const APART: &str =
    ".model m\n.inputs a b\n.outputs f g\n.names a b f\n10 1\n.names a g\n0 1\n.end\n";

fn zero() -> Step {
    Step::Const { value: false }
}

fn one() -> Step {
    Step::Const { value: true }
}

fn pair(op: Bin, left: u32, right: u32) -> Step {
    Step::Pair { op, left, right }
}

fn gone(gone: u32) -> Step {
    Step::Drop { gone }
}

/// Whether the plan of a script over a netlist has so many variables and these steps, and says these lines.
fn plans_with(alloc: Global, net: &str, text: &str, n: u32, made: &[Made], said: &[Said]) -> bool {
    match read_netlist(alloc, net.as_bytes()) {
        Ok(net) => is_plan(read_with(alloc, text.as_bytes(), Some(&net)), n, made, said),
        Err(_) => false,
    }
}

/// A netlist and a script, with the number of variables, the steps and the said lines of its plan.
type Planned<'a> = (&'a str, &'a str, u32, &'a [Made], &'a [Said]);

/// The first script whose plan is another one.
fn first_wrong_plan<'a>(alloc: Global, cases: &[Planned<'a>]) -> Option<&'a str> {
    for (net, text, n, made, said) in cases {
        if !plans_with(alloc, net, text, *n, made, said) {
            return Some(text);
        }
    }
    None
}

#[test]
fn plans_inputs_and_signals(rt: HostRuntime) {
    let cases: [Planned; 9] = [
        (NET, "inputs", 2, &[], &[]),
        (NET, "vars a", 1, &[], &[]),
        // The level of an input is its place among the inputs, or among the variables that are named.
        (
            NET,
            "inputs\nvar v b",
            2,
            &[(Step::Var { level: 1 }, 11, 1)],
            &[(2, 0, 0)],
        ),
        (
            NET,
            "inputs\nnet a a",
            2,
            &[(Step::Var { level: 0 }, 11, 1)],
            &[(2, 0, 0)],
        ),
        (
            NET,
            "vars c b a\nnet y a",
            3,
            &[(Step::Var { level: 2 }, 15, 1)],
            &[(2, 0, 0)],
        ),
        // What else was planned stays, and what a line makes may be used.
        (
            NET,
            "inputs\nconst k 1\nnet y a\nand m k y\ndrop y",
            2,
            &[
                (one(), 13, 1),
                (Step::Var { level: 0 }, 21, 1),
                (pair(AND, 0, 1), 29, 1),
                (gone(1), 0, 0),
            ],
            &[(2, 0, 0), (3, 1, 1), (4, 2, 2), (5, 3, 3)],
        ),
        // Rows with a 0, behind another line for signals.
        (
            NET,
            "inputs\nnet y a\nnet z g",
            2,
            &[
                (Step::Var { level: 0 }, 11, 1),
                (Step::Var { level: 0 }, 0, 0),
                (zero(), 0, 0),
                (one(), 0, 0),
                (pair(LEFT_ALONE, 3, 1), 0, 0),
                (gone(3), 0, 0),
                (pair(OR, 2, 4), 19, 1),
                (gone(2), 0, 0),
                (gone(4), 0, 0),
                (gone(1), 0, 0),
            ],
            &[(2, 0, 0), (3, 9, 6)],
        ),
        // Rows of output 0.
        (
            NET,
            "inputs\nnet z h",
            2,
            &[
                (Step::Var { level: 1 }, 0, 0),
                (zero(), 0, 0),
                (one(), 0, 0),
                (pair(AND, 2, 0), 0, 0),
                (gone(2), 0, 0),
                (pair(OR, 1, 3), 0, 0),
                (gone(1), 0, 0),
                (gone(3), 0, 0),
                (pair(NAND, 5, 5), 11, 1),
                (gone(5), 0, 0),
                (gone(0), 0, 0),
            ],
            &[(2, 10, 8)],
        ),
        // No inputs, so no variables are wanted.
        (
            ONE,
            "net x c",
            0,
            &[
                (zero(), 0, 0),
                (one(), 0, 0),
                (pair(OR, 0, 1), 4, 1),
                (gone(0), 0, 0),
                (gone(1), 0, 0),
            ],
            &[(1, 4, 2)],
        ),
    ];
    let wrong = first_wrong_plan(rt.alloc(), &cases);
    assert!(rt; wrong.is_none(), "{wrong:?}");
}

/// Each pair of a line has its said line, which comes after the line's last step and shows the step of its signal.
#[test]
fn plans_several_signals(rt: HostRuntime) {
    let made: [Made; 19] = [
        (Step::Var { level: 0 }, 15, 1),
        (Step::Var { level: 1 }, 0, 0),
        (zero(), 0, 0),
        (one(), 0, 0),
        (pair(AND, 3, 0), 0, 0),
        (gone(3), 0, 0),
        (pair(AND, 4, 1), 0, 0),
        (gone(4), 0, 0),
        (pair(OR, 2, 6), 11, 1),
        (gone(2), 0, 0),
        (gone(6), 0, 0),
        (zero(), 0, 0),
        (one(), 0, 0),
        (pair(LEFT_ALONE, 12, 0), 0, 0),
        (gone(12), 0, 0),
        (pair(OR, 11, 13), 19, 1),
        (gone(11), 0, 0),
        (gone(13), 0, 0),
        (gone(1), 0, 0),
    ];
    let said: [Said; 3] = [(2, 18, 8), (2, 18, 0), (2, 18, 15)];
    let text = "inputs\nnet x f y a z g";
    assert!(rt; plans_with(rt.alloc(), NET, text, 2, made.as_slice(), said.as_slice()));
}

/// A said line: its number, the place of the name of the step that it shows, and that step's table.
type Shown = (u32, u32, &'static [bool]);

/// Whether a said line shows a step with a name of one byte and a table.
fn shows(plan: &Plan, tables: &[Table], said: &LineEnd, shown: &Shown) -> bool {
    let (line, name_at, values) = *shown;
    let at = said.shows as usize;
    let (Some(step), Some(table)) = (plan.steps.items().get(at), tables.get(at)) else {
        return false;
    };
    said.line == line && step.name_at == name_at && step.name_len == 1 && table.items() == values
}

/// Whether a script over a netlist says so many lines that show these tables.
fn shows_tables(alloc: Global, net: &str, text: &str, shown: &[Shown]) -> bool {
    let Ok(net) = read_netlist(alloc, net.as_bytes()) else {
        return false;
    };
    let bytes = text.as_bytes();
    let Ok(plan) = read_script(alloc, bytes, Some(&net)) else {
        return false;
    };
    let Ok(tables) = eval_steps(alloc, plan.n, bytes, plan.steps.items()) else {
        return false;
    };
    for (said, shown) in plan.lines.items().iter().zip(shown.iter()) {
        if !shows(&plan, tables.as_slice(), said, shown) {
            return false;
        }
    }
    plan.lines.items().len() == shown.len()
}

/// The inputs are the variables with their names, in whatever order these stand. The places of the tables are those of
/// `b` 0 and `a` 0, `b` 0 and `a` 1, `b` 1 and `a` 0, `b` 1 and `a` 1.
#[test]
fn inputs_are_the_variables_of_their_names(rt: HostRuntime) {
    let shown: [Shown; 4] = [
        (2, 13, &[false, false, true, true]),
        (3, 21, &[true, false, true, false]),
        (3, 25, &[false, true, false, false]),
        (4, 32, &[true, true, true, false]),
    ];
    let text = "vars b a\nvar k b\nnet x g y f\nor w x y";
    assert!(rt; shows_tables(rt.alloc(), APART, text, shown.as_slice()));
}

/// Refused, with the line and the kind of the first fault.
const REFUSED: &[(&str, u32, ScriptKind)] = &[
    // As many words as the request takes, on the first line with words or behind it.
    ("inputs a", 1, ScriptKind::Word),
    ("inputs\ninputs", 2, ScriptKind::Word),
    ("inputs\nvars a", 2, ScriptKind::Word),
    ("vars a b\ninputs", 2, ScriptKind::Word),
    ("const k 0\ninputs", 2, ScriptKind::Word),
    ("net", 1, ScriptKind::Word),
    ("inputs\nnet", 2, ScriptKind::Word),
    ("inputs\nnet x", 2, ScriptKind::Word),
    ("inputs\nnet x f y", 2, ScriptKind::Word),
    // A signal twice, before all that comes later.
    ("inputs\nnet x f y f", 2, ScriptKind::Word),
    ("inputs\nnet x q y q", 2, ScriptKind::Word),
    ("vars a\nnet x f y f", 2, ScriptKind::Word),
    ("inputs\nnet x f x f", 2, ScriptKind::Word),
    ("inputs\nconst x 0\nnet x a y b z a", 3, ScriptKind::Word),
    (
        "inputs\nnet nnnnnnnnnnnnnnnnnnnnnnnnnnnnnnnnnnnnnnnnnnnnnnnnnnnnnnnnnnnnnnnn f y f",
        2,
        ScriptKind::Word,
    ),
    // Signals that the netlist doesn't have.
    ("inputs\nnet x q", 2, ScriptKind::UnknownName),
    ("inputs\nnet x f y q", 2, ScriptKind::UnknownName),
    ("inputs\nnet x F", 2, ScriptKind::UnknownName),
    ("inputs\nconst k 0\nnet x k", 3, ScriptKind::UnknownName),
    ("inputs\nnot x f", 2, ScriptKind::UnknownName),
    // Before variables, and before names.
    ("net x q", 1, ScriptKind::UnknownName),
    ("vars a\nnet x q", 2, ScriptKind::UnknownName),
    ("inputs\nnet x f\nnet x q", 3, ScriptKind::UnknownName),
    ("inputs\nnet x f x q", 2, ScriptKind::UnknownName),
    (
        "inputs\nnet nnnnnnnnnnnnnnnnnnnnnnnnnnnnnnnnnnnnnnnnnnnnnnnnnnnnnnnnnnnnnnnn q",
        2,
        ScriptKind::UnknownName,
    ),
    // An input that is no variable, whether the signal needs it or not.
    ("net x f", 1, ScriptKind::Variable),
    ("vars\nnet x a", 2, ScriptKind::Variable),
    ("vars a\nnet x g", 2, ScriptKind::Variable),
    ("vars b\nnet x h", 2, ScriptKind::Variable),
    ("inputs\nvar v c", 2, ScriptKind::Variable),
    ("inputs\nvar v f", 2, ScriptKind::Variable),
    // Before names.
    ("vars a\nnet x a x g", 2, ScriptKind::Variable),
    ("vars a\nconst x 0\nnet x a", 3, ScriptKind::Variable),
    (
        "vars a\nnet nnnnnnnnnnnnnnnnnnnnnnnnnnnnnnnnnnnnnnnnnnnnnnnnnnnnnnnnnnnnnnnn a",
        2,
        ScriptKind::Variable,
    ),
    // Names of more than 63 bytes, before names that are taken.
    (
        "inputs\nnet x f nnnnnnnnnnnnnnnnnnnnnnnnnnnnnnnnnnnnnnnnnnnnnnnnnnnnnnnnnnnnnnnn g",
        2,
        ScriptKind::NameLength,
    ),
    (
        "inputs\nnet x f x g nnnnnnnnnnnnnnnnnnnnnnnnnnnnnnnnnnnnnnnnnnnnnnnnnnnnnnnnnnnnnnnn a",
        2,
        ScriptKind::NameLength,
    ),
    (
        "inputs\nconst x 0\nnet x f nnnnnnnnnnnnnnnnnnnnnnnnnnnnnnnnnnnnnnnnnnnnnnnnnnnnnnnnnnnnnnnn a",
        3,
        ScriptKind::NameLength,
    ),
    // Names that are taken.
    ("inputs\nnet x f x a", 2, ScriptKind::NameTaken),
    ("inputs\nnet x f y a x g", 2, ScriptKind::NameTaken),
    ("inputs\nconst x 0\nnet x f", 3, ScriptKind::NameTaken),
    ("inputs\nconst x 0\nnet y f x a", 3, ScriptKind::NameTaken),
    (
        "inputs\nconst x 0\ndrop x\nnet x f",
        4,
        ScriptKind::NameTaken,
    ),
    ("inputs\nnet x f\nconst x 0", 3, ScriptKind::NameTaken),
    ("inputs\nnet x f y a\nvar y b", 3, ScriptKind::NameTaken),
    ("inputs\nnet x f\ndrop x\nsize x", 4, ScriptKind::Dropped),
    // The first of two faulty lines.
    ("inputs\nnet x q\nnet y", 2, ScriptKind::UnknownName),
    ("inputs\nnet y\nnet x q", 2, ScriptKind::Word),
    ("vars a\nnet x a\nfoo", 2, ScriptKind::Variable),
    ("vars a\n\nfoo\nnet x a", 3, ScriptKind::Word),
];

fn refuses_over(alloc: Global, text: &str, line: u32, kind: ScriptKind) -> bool {
    match read_netlist(alloc, NET.as_bytes()) {
        Ok(net) => is_fault(read_with(alloc, text.as_bytes(), Some(&net)), line, kind),
        Err(_) => false,
    }
}

#[test]
fn refuses_over_a_netlist(rt: HostRuntime) {
    for (text, line, kind) in REFUSED {
        assert!(rt; refuses_over(rt.alloc(), text, *line, *kind), "{text:?}");
    }
}

/// One input, and a block with many rows that cover all: it has four steps for each, and three more.
fn many_rows(alloc: Global, rows: usize) -> Result<Vec<u8>, AllocError> {
    let mut text = Vec::new(alloc);
    text.extend_from_slice(b".model m\n.inputs a\n.outputs f\n.names a f\n")?;
    for _row in 0..rows {
        text.extend_from_slice(b"- 1\n")?;
    }
    Ok(text)
}

fn counts(alloc: Global, net: &Netlist, text: &str, steps: usize) -> bool {
    match read_with(alloc, text.as_bytes(), Some(net)) {
        Ok(plan) => plan.steps.items().len() == steps,
        Err(_) => false,
    }
}

fn faults(alloc: Global, net: &Netlist, text: &str, line: u32, kind: ScriptKind) -> bool {
    is_fault(read_with(alloc, text.as_bytes(), Some(net)), line, kind)
}

/// Whether 1,048,576 steps are planned, and one more is refused on its line, behind all other faults of it.
fn counts_steps(alloc: Global) -> Result<bool, AllocError> {
    let text = many_rows(alloc, 262143)?;
    let Ok(net) = read_netlist(alloc, text.as_slice()) else {
        return Ok(false);
    };
    let net = &net;
    Ok(
        counts(alloc, net, "inputs\nconst k 0\nnet x f", 1048576)
            && faults(
                alloc,
                net,
                "inputs\nconst k 0\nconst j 0\nnet x f",
                4,
                ScriptKind::TooManySteps,
            )
            && faults(
                alloc,
                net,
                "inputs\nconst k 0\nnet x f\n\nconst j 0",
                5,
                ScriptKind::TooManySteps,
            )
            && faults(
                alloc,
                net,
                "inputs\nnet x f y a\nnet z f",
                3,
                ScriptKind::TooManySteps,
            )
            && faults(
                alloc,
                net,
                "inputs\nconst k 0\nconst j 0\nnet k f",
                4,
                ScriptKind::NameTaken,
            )
            && faults(
                alloc,
                net,
                "inputs\nnet x f\nnet y f\nfoo",
                3,
                ScriptKind::TooManySteps,
            )
            && faults(
                alloc,
                net,
                "inputs\nnet x f\nfoo\nnet y f",
                3,
                ScriptKind::Word,
            ),
    )
}

/// Lines that are refused for another fault where there is no room for a step either.
const FAULTY: &[(&str, ScriptKind)] = &[
    ("const j 2", ScriptKind::Word),
    ("size q", ScriptKind::UnknownName),
    ("net j q", ScriptKind::UnknownName),
    ("var j b", ScriptKind::Variable),
    ("eval k 2", ScriptKind::Bits),
    (
        "const nnnnnnnnnnnnnnnnnnnnnnnnnnnnnnnnnnnnnnnnnnnnnnnnnnnnnnnnnnnnnnnn 0",
        ScriptKind::NameLength,
    ),
    ("const k 0", ScriptKind::NameTaken),
];

/// Whether each of these lines is refused for its other fault, behind 1,048,576 steps.
fn refuses_without_room(alloc: Global) -> Result<bool, AllocError> {
    let text = many_rows(alloc, 262143)?;
    let Ok(net) = read_netlist(alloc, text.as_slice()) else {
        return Ok(false);
    };
    for (line, kind) in FAULTY {
        let mut text = Vec::new(alloc);
        text.extend_from_slice(b"inputs\nconst k 0\nnet x f\n")?;
        text.extend_from_slice(line.as_bytes())?;
        if !is_fault(read_with(alloc, text.as_slice(), Some(&net)), 4, *kind) {
            return Ok(false);
        }
    }
    Ok(true)
}

#[test]
fn refuses_other_faults_before_too_many_steps(rt: HostRuntime) -> Result<(), AllocError> {
    assert!(rt; refuses_without_room(rt.alloc())?);
    Ok(())
}

#[test]
fn refuses_more_steps_than_there_may_be(rt: HostRuntime) -> Result<(), AllocError> {
    assert!(rt; counts_steps(rt.alloc())?);
    Ok(())
}

/// One input, and a block that reads it so many times and has a row of hyphens alone.
fn many_words(alloc: Global, words: usize) -> Result<Vec<u8>, AllocError> {
    let mut text = Vec::new(alloc);
    text.extend_from_slice(b".model m\n.inputs a\n.outputs f\n.names")?;
    for _word in 0..words {
        text.extend_from_slice(b" a")?;
    }
    text.extend_from_slice(b" f\n")?;
    let row = vec![in alloc; b'-'; words]?;
    text.extend_from_slice(row.as_slice())?;
    text.extend_from_slice(b" 1\n")?;
    Ok(text)
}

/// So many lines that ask for the block. Each has its number for a name.
fn many_lines(alloc: Global, lines: u32) -> Result<Vec<u8>, AllocError> {
    let mut text = Vec::new(alloc);
    text.extend_from_slice(b"inputs")?;
    for number in 0..lines {
        text.extend_from_slice(b"\nnet ")?;
        for digit in [
            number / 1000,
            number / 100 % 10,
            number / 10 % 10,
            number % 10,
        ] {
            text.push(b'0' + (digit % 10) as u8)?;
        }
        text.extend_from_slice(b" f")?;
    }
    Ok(text)
}

/// Whether each of 5,000 lines has its seven steps: the input, the first sum, the cube, their sum, the drops of both, and
/// the drop of the input.
fn counts_lines_of_a_wide_block(alloc: Global) -> Result<bool, AllocError> {
    let net = many_words(alloc, 20000)?;
    let text = many_lines(alloc, 5000)?;
    let Ok(net) = read_netlist(alloc, net.as_slice()) else {
        return Ok(false);
    };
    let Ok(plan) = read_with(alloc, text.as_slice(), Some(&net)) else {
        return Ok(false);
    };
    let last = LineEnd {
        line: 5001,
        last: 34999,
        shows: 34996,
    };
    Ok(plan.steps.items().len() == 35000 && plan.lines.items().last() == Some(&last))
}

#[test]
fn plans_many_lines_of_a_wide_block(rt: HostRuntime) -> Result<(), AllocError> {
    assert!(rt; counts_lines_of_a_wide_block(rt.alloc())?);
    Ok(())
}
