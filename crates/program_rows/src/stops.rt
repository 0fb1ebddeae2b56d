// Runs of scripts in the least room that are stopped at any of their calls, or of which any one call fails, and are
// then run again.
use crate::rows::{
    AND_DROP, AND_LEQ, CONSTANTS_LEQ, DROP, EVAL_OF_NONE, EXISTS_LEQ, ITE_QUANTIFIERS, NO_STEPS,
    OTHER_LAYOUT, RESTRICT_EVAL, Row, STEPS, THREE, XOR, XOR_ITE, XOR_SAME, has_files,
};
use case_runs::{
    FIRST, SMALL, bench_with, goes_on, has_no_other_parts, has_words, line_count, lines_said, run,
    same_job,
};
use file_numbers::{JOB_GATE, STEP_GATE, node_file};
use shelf_memory::{Bench, Choice};
use std::alloc::Global;
use std::process::Abort;
use std::test::Fail;

/// The rows that are stopped, and of which each call fails in turn.
const STOPPED: [Row; 14] = [
    THREE,
    DROP,
    XOR,
    XOR_SAME,
    XOR_ITE,
    EXISTS_LEQ,
    ITE_QUANTIFIERS,
    RESTRICT_EVAL,
    EVAL_OF_NONE,
    NO_STEPS,
    AND_DROP,
    AND_LEQ,
    CONSTANTS_LEQ,
    OTHER_LAYOUT,
];

/// Whether the job, the entries, the gates and the node files are those of the whole run, and the parts behind the
/// node files are empty: of all steps where none sweeps, and else of the steps from this one on. The first step's file
/// may be left where the drop was committed before.
fn same_files(row: &Row, committed: usize, bench: &Bench, whole: &Bench) -> bool {
    for step in 0..STEPS {
        let f = node_file(step);
        let may_be_left = !row.dropped.is_empty() && step == 0 && committed == 4;
        if bench.file(f) != whole.file(f) && !may_be_left {
            return false;
        }
        let may_have_arcs = row.says.is_empty() && (step as usize) < committed;
        if !may_have_arcs && !has_no_other_parts(bench, step) {
            return false;
        }
    }
    same_job(bench, whole)
}

/// Whether the first step's node file has its words while that step is committed and the drop isn't.
fn keeps_what_is_not_dropped(row: &Row, committed: usize, bench: &Bench) -> bool {
    row.dropped.is_empty()
        || committed == 0
        || committed == 4
        || has_words(bench, FIRST, row.dropped)
}

/// Goes on in a folder where a run ended that had said this front part of so many lines, and says whether the text and
/// the files are those of the whole run, which nobody stopped. The station was told that part, or nothing.
fn ends_well(alloc: Global, row: &Row, whole: &Bench, bench: &mut Bench, lines: usize) -> bool {
    let before = bench.said().len();
    let committed = bench.file(STEP_GATE).len();
    let kept = keeps_what_is_not_dropped(row, committed, bench);
    let is_stored = !bench.file(JOB_GATE).is_empty();
    let status = run(alloc, &SMALL, bench);
    let count = if is_stored { Some(committed) } else { None };
    let told = goes_on(row.said, bench.said(), before, lines, count);
    let may_be_left = !row.dropped.is_empty() && committed == 4;
    let right = may_be_left || has_files(bench, row.files);
    kept && status == 0 && told && right && same_files(row, committed, bench, whole)
}

/// What is left for the next run: the same station where one call failed, and else what the choice leaves at a stop.
fn left(bench: Bench, choice: Option<Choice>) -> Option<Bench> {
    match choice {
        Some(choice) => match bench.stop(choice) {
            Ok(next) => Some(next),
            Err(_) => None,
        },
        None => Some(bench),
    }
}

/// Whether a run ends so with the call of that number. No call of the run fails at the number behind the last.
fn is_due(row: &Row, status: u8, call: u64, calls: u64) -> bool {
    if call < 2 {
        status == 6
    } else if call == calls {
        status == 0
    } else if row.says.is_empty() {
        status == 7 || status == 8
    } else {
        status == if row.says.contains(&call) { 8 } else { 7 }
    }
}

/// How many lines are said before the next call, where so many are said before this one, the run that ends with it has
/// the due status and text, and the next one goes on well: one more line is said by each call that ends the run with 8.
fn outlives(
    alloc: Global,
    row: &Row,
    whole: &Bench,
    choice: Option<Choice>,
    call: u64,
    lines: usize,
) -> Option<usize> {
    let Ok(mut bench) = bench_with(alloc, row.script, None) else {
        return None;
    };
    let listed = match choice {
        Some(_) => {
            bench.fail_from(call);
            true
        }
        None => bench.fail_at(call).is_ok(),
    };
    let status = run(alloc, &SMALL, &mut bench);
    let said = lines_said(row.said, bench.said()) == Some(lines);
    let mut next = left(bench, choice)?;
    let well = ends_well(alloc, row, whole, &mut next, lines);
    if listed && said && well && is_due(row, status, call, whole.clock()) {
        Some(lines.saturating_add(if status == 8 { 1 } else { 0 }))
    } else {
        None
    }
}

/// The first call that isn't outlived, or the number of all calls where they aren't as many as they should be or leave
/// a line unsaid.
fn first_loss(alloc: Global, row: &Row, choice: Option<Choice>) -> Option<u64> {
    let Ok(mut whole) = bench_with(alloc, row.script, None) else {
        return Some(0);
    };
    let ended = run(alloc, &SMALL, &mut whole) == 0;
    let calls = whole.clock();
    // A stop may come behind the last call, but the next call after it is one of the next run.
    let end = calls.saturating_add(if choice.is_some() { 1 } else { 0 });
    let mut lines = 0usize;
    for call in 0..end {
        match outlives(alloc, row, &whole, choice, call, lines) {
            Some(then) => lines = then,
            None => return Some(call),
        }
    }
    let as_many = match row.says.last() {
        Some(last) => last.saturating_add(1) == calls,
        None => true,
    };
    if ended && as_many && lines == line_count(row.said) {
        None
    } else {
        Some(calls)
    }
}

/// No row loses anything at a stop that leaves what the choice takes, or where a call fails.
fn loses_nothing(rt: &impl Abort, alloc: Global, choice: Option<Choice>) -> Result<(), Fail> {
    for (k, row) in STOPPED.iter().enumerate() {
        let lost = first_loss(alloc, row, choice);
        assert!(rt; lost.is_none(), "row {k}, call {lost:?}");
    }
    Ok(())
}

#[test]
fn loses_nothing_at_a_stop_that_leaves_what_is_sure(rt: HostRuntime) -> Result<(), Fail> {
    loses_nothing(&rt, rt.alloc(), Some(Choice::Firm))
}

#[test]
fn loses_nothing_at_a_stop_that_leaves_what_is_read(rt: HostRuntime) -> Result<(), Fail> {
    loses_nothing(&rt, rt.alloc(), Some(Choice::Present))
}

#[test]
fn loses_nothing_at_a_stop_that_leaves_other_bytes(rt: HostRuntime) -> Result<(), Fail> {
    loses_nothing(&rt, rt.alloc(), Some(Choice::Fill(255)))
}

#[test]
fn loses_nothing_at_a_stop_that_leaves_a_first_mixture(rt: HostRuntime) -> Result<(), Fail> {
    loses_nothing(&rt, rt.alloc(), Some(Choice::Mixed(0)))
}

#[test]
fn loses_nothing_at_a_stop_that_leaves_a_second_mixture(rt: HostRuntime) -> Result<(), Fail> {
    loses_nothing(&rt, rt.alloc(), Some(Choice::Mixed(1)))
}

#[test]
fn loses_nothing_at_a_stop_that_leaves_a_third_mixture(rt: HostRuntime) -> Result<(), Fail> {
    loses_nothing(&rt, rt.alloc(), Some(Choice::Mixed(2)))
}

#[test]
fn loses_nothing_after_a_call_that_failed(rt: HostRuntime) -> Result<(), Fail> {
    loses_nothing(&rt, rt.alloc(), None)
}
