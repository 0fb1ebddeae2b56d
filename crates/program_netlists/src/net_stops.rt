// Runs over netlists in the least room that are stopped at any of their calls, or of which any one call fails, and are
// then run again.
use crate::rows::{ROWS, Row, has_files};
use case_runs::{
    SMALL_NET, bench_with, goes_on, has_no_other_parts, line_count, lines_said, run, same_job,
};
use file_numbers::{JOB_GATE, STEP_GATE, node_file};
use shelf_memory::{Bench, Choice};
use std::alloc::Global;
use std::process::Abort;
use std::test::Fail;

/// How a run ended that was stopped or of which a call failed, and how many lines it had said.
#[derive(Clone, Copy)]
struct Ended {
    status: u8,
    lines: usize,
}

/// A folder in which the script was run with no stop.
fn unstopped(alloc: Global, row: &Row) -> Result<Bench, Fail> {
    let mut bench = bench_with(alloc, row.script, Some(row.netlist))?;
    run(alloc, &SMALL_NET, &mut bench);
    Ok(bench)
}

/// Whether the diagram of a step is there behind so many committed steps: the step is one of them and makes a diagram,
/// and none of them drops it.
fn is_there(row: &Row, step: u32, committed: u32) -> bool {
    for (drop, dropped) in row.drops {
        if *drop == step || *dropped == step && *drop < committed {
            return false;
        }
    }
    step < committed
}

/// Whether a drop of the step is among the committed ones. The file may be left then: it is cut behind the commit, and
/// a stop may undo the cut.
fn may_be_left(row: &Row, step: u32, committed: u32) -> bool {
    for (drop, dropped) in row.drops {
        if *dropped == step && *drop < committed {
            return true;
        }
    }
    false
}

/// Whether the node file of each diagram is there.
fn keeps_what_is_not_dropped(row: &Row, bench: &Bench, committed: u32) -> bool {
    for step in 0..row.steps {
        if is_there(row, step, committed) && bench.file(node_file(step)).is_empty() {
            return false;
        }
    }
    true
}

/// Whether the job, the entries, the gates and the node files are those of the whole run, and the parts behind the
/// node files of the steps from the committed ones on are empty.
fn same_files(row: &Row, committed: u32, bench: &Bench, whole: &Bench) -> bool {
    for step in 0..row.steps {
        let f = node_file(step);
        if bench.file(f) != whole.file(f) && !may_be_left(row, step, committed) {
            return false;
        }
        if committed <= step && !has_no_other_parts(bench, step) {
            return false;
        }
    }
    same_job(bench, whole)
}

/// How many lines have their last step among the committed ones.
fn lines_due(row: &Row, committed: u32) -> usize {
    let mut due = 0usize;
    for end in row.ends {
        if *end <= committed as usize {
            due = due.saturating_add(1);
        }
    }
    due
}

/// Goes on in a folder where a run ended that had said this front part of so many lines, and says whether the text and
/// the files are those of the whole run, which nobody stopped. The station was told that part, or nothing.
fn ends_well(alloc: Global, row: &Row, whole: &Bench, bench: &mut Bench, lines: usize) -> bool {
    let before = bench.said().len();
    let Ok(committed) = u32::try_from(bench.file(STEP_GATE).len()) else {
        return false;
    };
    let kept = keeps_what_is_not_dropped(row, bench, committed);
    let is_stored = !bench.file(JOB_GATE).is_empty();
    let due = if is_stored {
        Some(lines_due(row, committed))
    } else {
        None
    };
    let status = run(alloc, &SMALL_NET, bench);
    let told = goes_on(row.said, bench.said(), before, lines, due);
    let right = has_files(bench, row.files);
    kept && status == 0 && told && right && same_files(row, committed, bench, whole)
}

/// How a run ends that is stopped at this call, where the next one goes on well from what the choice leaves; or of
/// which this call fails, where a second run in that folder does.
fn outlives(
    alloc: Global,
    row: &Row,
    whole: &Bench,
    choice: Option<Choice>,
    call: u64,
) -> Result<Option<Ended>, Fail> {
    let mut first = bench_with(alloc, row.script, Some(row.netlist))?;
    match choice {
        Some(_) => first.fail_from(call),
        None => first.fail_at(call)?,
    }
    let status = run(alloc, &SMALL_NET, &mut first);
    let Some(lines) = lines_said(row.said, first.said()) else {
        return Ok(None);
    };
    let well = match choice {
        Some(choice) => {
            let mut next = first.stop(choice)?;
            ends_well(alloc, row, whole, &mut next, lines)
        }
        None => ends_well(alloc, row, whole, &mut first, lines),
    };
    Ok(if well {
        Some(Ended { status, lines })
    } else {
        None
    })
}

/// Whether a run that ends with the call of that number ends so, where so many lines were said before it. The first
/// four calls fetch the netlist and the script.
fn is_due(ended: Ended, call: u64, lines: usize) -> bool {
    let status = if call < 4 {
        ended.status == 6
    } else {
        ended.status == 7 || ended.status == 8
    };
    status && ended.lines == lines
}

/// The first call that isn't outlived, or where the run ends with another status or text than is due: one more line is
/// said by each call that ends the run with 8, and by no other.
fn first_loss(alloc: Global, row: &Row, choice: Option<Choice>) -> Result<Option<u64>, Fail> {
    let whole = unstopped(alloc, row)?;
    let calls = whole.clock();
    let mut lines = 0usize;
    for call in 0..calls {
        match outlives(alloc, row, &whole, choice, call)? {
            Some(ended) if is_due(ended, call, lines) => {
                lines = lines.saturating_add(if ended.status == 8 { 1 } else { 0 });
            }
            _ => return Ok(Some(call)),
        }
    }
    Ok(if lines == line_count(row.said) {
        None
    } else {
        Some(calls)
    })
}

/// What isn't outlived: the row's place, and the first call.
fn first_lost_row(alloc: Global, choice: Option<Choice>) -> Result<Option<(usize, u64)>, Fail> {
    for (k, row) in ROWS.iter().enumerate() {
        if let Some(call) = first_loss(alloc, row, choice)? {
            return Ok(Some((k, call)));
        }
    }
    Ok(None)
}

/// Nothing is lost at a stop that leaves what the choice takes, or where a call fails.
fn loses_nothing(rt: &impl Abort, alloc: Global, choice: Option<Choice>) -> Result<(), Fail> {
    let lost = first_lost_row(alloc, choice)?;
    assert!(rt; lost.is_none(), "row and call {lost:?}");
    Ok(())
}

#[test]
fn a_line_loses_nothing_at_a_stop_that_leaves_what_is_sure(rt: HostRuntime) -> Result<(), Fail> {
    loses_nothing(&rt, rt.alloc(), Some(Choice::Firm))
}

#[test]
fn a_line_loses_nothing_at_a_stop_that_leaves_what_is_read(rt: HostRuntime) -> Result<(), Fail> {
    loses_nothing(&rt, rt.alloc(), Some(Choice::Present))
}

#[test]
fn a_line_loses_nothing_at_a_stop_that_leaves_other_bytes(rt: HostRuntime) -> Result<(), Fail> {
    loses_nothing(&rt, rt.alloc(), Some(Choice::Fill(255)))
}

#[test]
fn a_line_loses_nothing_at_a_stop_that_leaves_a_first_mixture(rt: HostRuntime) -> Result<(), Fail> {
    loses_nothing(&rt, rt.alloc(), Some(Choice::Mixed(0)))
}

#[test]
fn a_line_loses_nothing_at_a_stop_that_leaves_a_second_mixture(
    rt: HostRuntime,
) -> Result<(), Fail> {
    loses_nothing(&rt, rt.alloc(), Some(Choice::Mixed(1)))
}

#[test]
fn a_line_loses_nothing_at_a_stop_that_leaves_a_third_mixture(rt: HostRuntime) -> Result<(), Fail> {
    loses_nothing(&rt, rt.alloc(), Some(Choice::Mixed(2)))
}

#[test]
fn a_line_loses_nothing_after_a_call_that_failed(rt: HostRuntime) -> Result<(), Fail> {
    loses_nothing(&rt, rt.alloc(), None)
}
