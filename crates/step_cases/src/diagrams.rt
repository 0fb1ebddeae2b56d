//! Diagrams that steps make of random tables, beside the canonical files of the tables that the operations make.
use crate::given::Given;
use crate::steps::{CHOICE, LARGE_ROOM, LEAST_ROOM, ONE, TWO, Task, holds, on_first, operator_on};
use bool_tables::Quant;
use file_numbers::FIRST_RUN_PART;
use std::alloc::Global;
use std::test::Fail;
use step_sweeps::StepOperation;

/// How many triples of tables are operands.
const SEEDS: u64 = 60;

/// Which operations are tried.
#[derive(Clone, Copy)]
enum Tried {
    Operators,
    Choices,
    Quantifiers,
    Restrictions,
}

/// As many tasks as there are of any kind: each of sixteen operators on two files and on one.
const MOST_TASKS: u32 = 32;

// The task of that number, or none where there are fewer: each operator on the first two files and on the first one
// twice; the choice between the second and the third by the first, and between the first twice by itself; both
// quantifiers over each variable of the first; each variable of the first 0 and 1.
fn task_of(tried: Tried, n: u32, number: u32) -> Option<Task> {
    let (place, second) = (number / 2, number % 2 == 1);
    match tried {
        Tried::Operators if place < 16 => {
            Some(operator_on(place, if second { ONE } else { TWO }))
        }
        Tried::Choices if place < 1 && second => Some(on_first(StepOperation::Choice)),
        Tried::Choices if place < 1 => Some(CHOICE),
        Tried::Quantifiers if place < n => Some(on_first(StepOperation::Quantifier {
            kind: if second { Quant::Forall } else { Quant::Exists },
            level: place,
        })),
        Tried::Restrictions if place < n => Some(on_first(StepOperation::Restriction {
            level: place,
            value: second,
        })),
        _ => None,
    }
}

// The operations make the canonical files of the tables that they make of those of a seed.
fn make_files_of(tried: Tried, seed: u64, given: &mut Given) -> Result<bool, Fail> {
    let n = (seed % 9) as u32;
    given.take_seed(n, seed)?;
    for number in 0..MOST_TASKS {
        if let Some(task) = task_of(tried, n, number) {
            if !given.makes(task)? {
                return Ok(false);
            }
        }
    }
    Ok(true)
}

// So do those of all seeds in a room of so many records.
fn make_files_in(alloc: Global, tried: Tried, records: usize) -> Result<bool, Fail> {
    let mut given = Given::room_of(alloc, records)?;
    for seed in 0..SEEDS {
        if !make_files_of(tried, seed, &mut given)? {
            return Ok(false);
        }
    }
    Ok(true)
}

// So they do in the least room, and in a larger one.
fn make_each_file(alloc: Global, tried: Tried) -> Result<bool, Fail> {
    Ok(make_files_in(alloc, tried, LEAST_ROOM)? && make_files_in(alloc, tried, LARGE_ROOM)?)
}

#[test]
fn operators_make_the_canonical_files(rt: HostRuntime) -> Result<(), Fail> {
    holds(&rt, make_each_file(rt.alloc(), Tried::Operators))
}

#[test]
fn choices_make_the_canonical_files(rt: HostRuntime) -> Result<(), Fail> {
    holds(&rt, make_each_file(rt.alloc(), Tried::Choices))
}

#[test]
fn quantifiers_make_the_canonical_files(rt: HostRuntime) -> Result<(), Fail> {
    holds(&rt, make_each_file(rt.alloc(), Tried::Quantifiers))
}

#[test]
fn restrictions_make_the_canonical_files(rt: HostRuntime) -> Result<(), Fail> {
    holds(&rt, make_each_file(rt.alloc(), Tried::Restrictions))
}

/// So many variables that more waits than the least room has records for.
const MANY: u32 = 17;

/// The exclusive or.
const DIFFER: u32 = 0b0110;

// With the least room the exclusive or of two random functions takes parts for runs, and makes the canonical file.
fn makes_with_runs(alloc: Global) -> Result<bool, Fail> {
    let mut given = Given::room_of(alloc, LEAST_ROOM)?;
    given.take_seed(MANY, 0)?;
    let made = given.make_right(operator_on(DIFFER, TWO))?;
    Ok(match made {
        Some(made) => made.next > FIRST_RUN_PART,
        None => false,
    })
}

#[test]
fn a_step_with_runs_makes_the_canonical_file(rt: HostRuntime) -> Result<(), Fail> {
    holds(&rt, makes_with_runs(rt.alloc()))
}
