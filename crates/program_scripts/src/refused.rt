//! Scripts and netlists that are refused, in runs that are stopped at each of their calls, or of which each call fails.
use case_runs::{NET, REFUSED_NETLISTS, RUN, bench_with, is_untouched, run};
use shelf_memory::{Bench, Choice};
use std::alloc::Global;
use std::test::Fail;

/// A script, and a netlist where there is one, that a run refuses with this status and text.
#[derive(Clone, Copy)]
struct Refused {
    script: &'static [u8],
    netlist: Option<&'static [u8]>,
    status: u8,
    said: &'static [u8],
}

/// Scripts, and what is said of each.
const SCRIPTS: [(&[u8], &[u8]); 6] = [
    (b"vars a\nand h f\n", b"script: line 2: Word\n"),
    (b"vars a\nnot h f\n", b"script: line 2: UnknownName\n"),
    (b"vars a a\n", b"script: line 1: Variable\n"),
    (
        b"vars a\nvar f a\nvar f a\n",
        b"script: line 3: NameTaken\n",
    ),
    (b"vars a\nvar f a\neval f 01\n", b"script: line 3: Bits\n"),
    (b"inputs\n", b"script: line 1: NoNetlist\n"),
];

const CHOICES: [Choice; 6] = [
    Choice::Firm,
    Choice::Present,
    Choice::Fill(255),
    Choice::Mixed(0),
    Choice::Mixed(1),
    Choice::Mixed(2),
];

fn script(row: &(&'static [u8], &'static [u8])) -> Refused {
    Refused {
        script: row.0,
        netlist: None,
        status: 3,
        said: row.1,
    }
}

fn netlist(row: &(&'static [u8], &'static [u8])) -> Refused {
    Refused {
        script: b"inputs\n",
        netlist: Some(row.0),
        status: 4,
        said: row.1,
    }
}

/// Runs a refused script, with its netlist where it has one.
fn run_refused(alloc: Global, row: &Refused, bench: &mut Bench) -> u8 {
    match row.netlist {
        Some(_) => run(alloc, &NET, bench),
        None => run(alloc, &RUN, bench),
    }
}

/// Whether a run that ends at that call leaves the folder as it was and says nothing or a front part of its line, and
/// the next run refuses the script.
fn stays_refused(alloc: Global, row: &Refused, choice: Choice, call: u64) -> Result<bool, Fail> {
    let mut bench = bench_with(alloc, row.script, row.netlist)?;
    bench.fail_from(call);
    run_refused(alloc, row, &mut bench);
    let front = row.said.starts_with(bench.said());
    let mut next = bench.stop(choice)?;
    let untouched = is_untouched(&next);
    let status = run_refused(alloc, row, &mut next);
    Ok(front && untouched && status == row.status && next.said().ends_with(row.said))
}

/// The first call after which something was left, or the script accepted.
fn first_left(alloc: Global, row: &Refused, choice: Choice) -> Result<Option<u64>, Fail> {
    let mut whole = bench_with(alloc, row.script, row.netlist)?;
    let status = run_refused(alloc, row, &mut whole);
    if status != row.status || whole.said() != row.said {
        return Ok(Some(whole.clock()));
    }
    for call in 0..whole.clock().saturating_add(1) {
        if !stays_refused(alloc, row, choice, call)? {
            return Ok(Some(call));
        }
    }
    Ok(None)
}

#[test]
fn a_refused_script_leaves_nothing_at_a_stop(rt: HostRuntime) -> Result<(), Fail> {
    for choice in CHOICES {
        for (k, row) in SCRIPTS.iter().enumerate() {
            let left = first_left(rt.alloc(), &script(row), choice)?;
            assert!(rt; left.is_none(), "{choice:?}, script {k}, call {left:?}");
        }
    }
    Ok(())
}

#[test]
fn a_refused_netlist_leaves_nothing_at_a_stop(rt: HostRuntime) -> Result<(), Fail> {
    for choice in CHOICES {
        for (k, row) in REFUSED_NETLISTS.iter().enumerate() {
            let left = first_left(rt.alloc(), &netlist(row), choice)?;
            assert!(rt; left.is_none(), "{choice:?}, netlist {k}, call {left:?}");
        }
    }
    Ok(())
}
