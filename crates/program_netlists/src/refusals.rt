// Netlists that aren't accepted, and texts that aren't there.
use crate::case::goes;
use case_runs::{
    Act, NET, ONE_VARIABLE, REFUSED_NETLISTS, bench_with, first_fault, gives, is_untouched,
};
use std::alloc::Global;
use std::test::Fail;

/// A netlist that is accepted.
const CONSTANT: &[u8] = b".model m\n.inputs a\n.outputs y\n.names y\n";

/// A script that takes the inputs, one that uses no netlist, one that isn't accepted, and none.
const SCRIPTS: [Act; 4] = [
    Act::Put("script", b"inputs\n"),
    Act::Put("script", ONE_VARIABLE),
    Act::Put("script", b"vars a a\n"),
    Act::Untouched,
];

/// The acts of a run over these texts that ends so and leaves the folder as it was. No text is longer than one piece:
/// two calls fetch each of them, and one says.
fn refusal(script: Act, netlist: Act, status: u8, said: &'static [u8]) -> [Act; 6] {
    [
        Act::Put("FOLDER", CONSTANT),
        script,
        netlist,
        Act::Run(&NET, status, said),
        Act::Untouched,
        Act::FewCalls(5),
    ]
}

/// The places of the first netlist and script that aren't refused so.
fn first_accepted(alloc: Global) -> Option<(usize, usize)> {
    for (k, (netlist, said)) in REFUSED_NETLISTS.iter().enumerate() {
        for (i, script) in SCRIPTS.iter().enumerate() {
            let acts = refusal(*script, Act::Put("netlist", netlist), 4, said);
            if first_fault(alloc, &[], &acts, None).is_some() {
                return Some((k, i));
            }
        }
    }
    None
}

#[test]
fn says_which_line_of_a_netlist_is_refused_and_why(rt: HostRuntime) -> Result<(), Fail> {
    let accepted = first_accepted(rt.alloc());
    assert!(rt; accepted.is_none(), "netlist and script {accepted:?}");
    Ok(())
}

/// A name, the texts that are there, and the status and text of the run.
type Refused = (&'static str, Act, Act, u8, &'static [u8]);

/// Paths without a text, and scripts that ask for what a netlist doesn't have.
const REFUSED: [Refused; 8] = [
    (
        "no netlist",
        Act::Put("script", b"inputs\n"),
        Act::Untouched,
        6,
        b"",
    ),
    (
        "no netlist, and a script that uses none",
        Act::Put("script", ONE_VARIABLE),
        Act::Untouched,
        6,
        b"",
    ),
    (
        "no netlist, and a script that isn't accepted",
        Act::Put("script", b"vars a a\n"),
        Act::Untouched,
        6,
        b"",
    ),
    (
        "no script",
        Act::Untouched,
        Act::Put("netlist", CONSTANT),
        6,
        b"",
    ),
    ("no text", Act::Untouched, Act::Untouched, 6, b""),
    (
        "no such signal",
        Act::Put("script", b"inputs\nnet f x\n"),
        Act::Put("netlist", CONSTANT),
        3,
        b"script: line 2: UnknownName\n",
    ),
    (
        "no such variable",
        Act::Put("script", b"vars b\nnet f y\n"),
        Act::Put("netlist", CONSTANT),
        3,
        b"script: line 2: Variable\n",
    ),
    (
        "a signal twice",
        Act::Put("script", b"inputs\nnet f y g y\n"),
        Act::Put("netlist", CONSTANT),
        3,
        b"script: line 2: Word\n",
    ),
];

#[test]
fn refuses_scripts_over_netlists_and_paths_without_a_text(rt: HostRuntime) -> Result<(), Fail> {
    for (name, script, netlist, status, said) in REFUSED {
        goes(
            &rt,
            rt.alloc(),
            name,
            &refusal(script, netlist, status, said),
        )?;
    }
    Ok(())
}

/// Whether a block of one input with so many rows of one `-` is refused, since it has three steps more than are
/// allowed.
fn refuses_many_rows(alloc: Global) -> Result<bool, Fail> {
    let mut netlist = Vec::from_slice(alloc, b".model m\n.inputs a\n.outputs y\n.names a y\n")?;
    for _ in 0..262_144 {
        netlist.extend_from_slice(b"- 1\n")?;
    }
    let mut bench = bench_with(alloc, b"inputs\nnet y y\n", Some(netlist.as_slice()))?;
    let refused = gives(
        alloc,
        &NET,
        &mut bench,
        3,
        b"script: line 2: TooManySteps\n",
    );
    Ok(refused && is_untouched(&bench))
}

#[test]
fn refuses_a_netlist_of_too_many_steps(rt: HostRuntime) -> Result<(), Fail> {
    assert!(rt; refuses_many_rows(rt.alloc())?);
    Ok(())
}
