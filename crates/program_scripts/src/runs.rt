//! Runs of scripts that look random, in the least room and in the usual one.
use crate::script::script_of;
use crate::wanted::{Bytes, files_of, is_dropped, text_of};
use bool_tables::{Planned, eval_steps};
use case_runs::{RUN, SMALL, bench_with, gives, has_no_other_parts, has_part};
use file_numbers::node_file;
use script_reader::read_script;
use shelf_memory::Bench;
use std::alloc::Global;
use std::test::Fail;

/// How many scripts of each number of variables are run.
const SEEDS: u64 = 225;

/// The most variables of a script.
const MOST_VARIABLES: u64 = 8;

/// What a line begins with, behind the end of the one before, for each request.
const BEGINNINGS: [&[u8]; 19] = [
    b"\nconst ",
    b"\nvar ",
    b"\nnot ",
    b"\nand ",
    b"\nor ",
    b"\nxor ",
    b"\nnand ",
    b"\nnor ",
    b"\nxnor ",
    b"\nimp ",
    b"\nite ",
    b"\nexists ",
    b"\nforall ",
    b"\nrestrict ",
    b"\ndrop ",
    b"\nsame ",
    b"\nleq ",
    b"\neval ",
    b"\nsize ",
];

/// Whether each step's node file is the canonical one of its table, or empty where it makes no diagram or the diagram
/// was dropped, and the parts behind it are empty.
fn leaves(steps: &[Planned], files: &[Bytes], bench: &Bench) -> bool {
    let mut step = 0u32;
    for file in files {
        let made = bench.file(node_file(step));
        let right = if is_dropped(steps, step) {
            made.is_empty()
        } else {
            made == file.items()
        };
        if !right || !has_no_other_parts(bench, step) {
            return false;
        }
        step = step.saturating_add(1);
    }
    true
}

/// Whether a run of a script ends with 0, and says and leaves what the tables of its steps tell.
fn says_and_leaves(alloc: Global, script: &[u8]) -> Result<bool, Fail> {
    let Ok(plan) = read_script(alloc, script, None) else {
        return Ok(false);
    };
    if plan.n > 20 {
        return Ok(false);
    }
    let Ok(tables) = eval_steps(alloc, plan.n, script, plan.steps.items()) else {
        return Ok(false);
    };
    let files = files_of(alloc, plan.n, tables.as_slice())?;
    let text = text_of(alloc, script, &plan, tables.as_slice(), files.as_slice())?;
    for words in [SMALL.as_slice(), RUN.as_slice()] {
        let mut bench = bench_with(alloc, script, None)?;
        let told = gives(alloc, words, &mut bench, 0, text.as_slice());
        if !told || !leaves(plan.steps.items(), files.as_slice(), &bench) {
            return Ok(false);
        }
    }
    Ok(true)
}

/// The first seed whose script of so many variables says or leaves something else in its run.
fn first_wrong_seed(alloc: Global, n: u64) -> Result<Option<u64>, Fail> {
    for seed in 0..SEEDS {
        let script = script_of(alloc, n, seed)?;
        if !says_and_leaves(alloc, script.as_slice())? {
            return Ok(Some(seed));
        }
    }
    Ok(None)
}

/// The first of these numbers of variables of which there is such a script, and its seed.
fn first_wrong(alloc: Global, fewest: u64, most: u64) -> Result<Option<(u64, u64)>, Fail> {
    for n in fewest..most.saturating_add(1) {
        if let Some(seed) = first_wrong_seed(alloc, n)? {
            return Ok(Some((n, seed)));
        }
    }
    Ok(None)
}

#[test]
fn at_most_two_variables_give_what_the_tables_tell(rt: HostRuntime) -> Result<(), Fail> {
    let wrong = first_wrong(rt.alloc(), 0, 2)?;
    assert!(rt; wrong.is_none(), "variables and seed {wrong:?}");
    Ok(())
}

#[test]
fn three_or_four_variables_give_what_the_tables_tell(rt: HostRuntime) -> Result<(), Fail> {
    let wrong = first_wrong(rt.alloc(), 3, 4)?;
    assert!(rt; wrong.is_none(), "variables and seed {wrong:?}");
    Ok(())
}

#[test]
fn five_or_six_variables_give_what_the_tables_tell(rt: HostRuntime) -> Result<(), Fail> {
    let wrong = first_wrong(rt.alloc(), 5, 6)?;
    assert!(rt; wrong.is_none(), "variables and seed {wrong:?}");
    Ok(())
}

#[test]
fn seven_variables_give_what_the_tables_tell(rt: HostRuntime) -> Result<(), Fail> {
    let wrong = first_wrong(rt.alloc(), 7, 7)?;
    assert!(rt; wrong.is_none(), "variables and seed {wrong:?}");
    Ok(())
}

#[test]
fn eight_variables_give_what_the_tables_tell(rt: HostRuntime) -> Result<(), Fail> {
    let wrong = first_wrong(rt.alloc(), MOST_VARIABLES, MOST_VARIABLES)?;
    assert!(rt; wrong.is_none(), "variables and seed {wrong:?}");
    Ok(())
}

/// Whether some script of the most variables has a line that begins so.
fn some_script_has(alloc: Global, beginning: &[u8]) -> Result<bool, Fail> {
    for seed in 0..SEEDS {
        let script = script_of(alloc, MOST_VARIABLES, seed)?;
        if has_part(script.as_slice(), beginning) {
            return Ok(true);
        }
    }
    Ok(false)
}

#[test]
fn the_scripts_ask_for_each_request(rt: HostRuntime) -> Result<(), Fail> {
    for beginning in BEGINNINGS {
        assert!(rt; some_script_has(rt.alloc(), beginning)?, "{beginning:?}");
    }
    Ok(())
}
