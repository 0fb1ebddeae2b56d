//! Steps of which one call fails, and which are done again on what it left.
use crate::given::Given;
use crate::steps::{
    CHOICE, LEAST_ROOM, ONE, TWO, Task, compared, evaluated, holds, implied, on_first, operator_on,
};
use bool_tables::Quant;
use shelf_memory::Bench;
use shelf_model::SortFault;
use std::alloc::{AllocError, Global};
use std::test::Fail;
use step_sweeps::{Answered, StepOperation};

/// The fewest variables that a case is of.
pub(crate) const FEWEST: u32 = 4;

/// The most variables that an answer is asked of.
const MOST: u32 = 9;

/// The exclusive or.
const DIFFER: u32 = 0b0110;

/// Neither of two: of one table twice it is the complement.
pub(crate) const NEITHER: u32 = 0b0001;

/// More calls than any of the cases makes.
const MOST_CALLS: u64 = 400;

/// How many cases make a diagram.
pub(crate) const CASES: u32 = 5;

/// What a case makes.
pub(crate) fn task_of(case: u32) -> Task {
    match case {
        0 => operator_on(DIFFER, TWO),
        1 => CHOICE,
        2 => on_first(StepOperation::Quantifier {
            kind: Quant::Exists,
            level: 1,
        }),
        3 => on_first(StepOperation::Restriction {
            level: 2,
            value: true,
        }),
        _ => operator_on(NEITHER, ONE),
    }
}

// Has the call behind so many others fail, and answers which one that is.
fn fail_behind(calls: u64, bench: &mut Bench) -> Result<u64, AllocError> {
    let fails = bench.clock().saturating_add(calls);
    bench.fail_at(fails)?;
    Ok(fails)
}

// A case of which a call fails is refused for the folder, and makes the right file where it is done again; nothing is
// answered then. Where that call is never made the answer is whether it made the right file.
fn makes_at(task: Task, n: u32, call: u64, given: &mut Given) -> Result<Option<bool>, Fail> {
    given.take_seed(n, 1)?;
    let fails = fail_behind(call, &mut given.bench)?;
    match given.make(task) {
        Ok(made) => {
            let in_time = given.bench.clock() <= fails;
            Ok(Some(given.is_made(task, made)? && in_time))
        }
        Err(SortFault::Shelf) => Ok(if given.makes(task)? {
            None
        } else {
            Some(false)
        }),
        Err(_) => Ok(Some(false)),
    }
}

// So it is with each of a case's calls.
fn makes_again(task: Task, n: u32, given: &mut Given) -> Result<bool, Fail> {
    for call in 0..MOST_CALLS {
        if let Some(right) = makes_at(task, n, call, given)? {
            return Ok(right);
        }
    }
    Ok(false)
}

fn each_case_makes_again(alloc: Global) -> Result<bool, Fail> {
    let mut given = Given::room_of(alloc, LEAST_ROOM)?;
    for case in 0..CASES {
        for n in FEWEST..MOST + 1 {
            if !makes_again(task_of(case), n, &mut given)? {
                return Ok(false);
            }
        }
    }
    Ok(true)
}

#[test]
fn a_step_is_done_again_behind_each_failing_call(rt: HostRuntime) -> Result<(), Fail> {
    holds(&rt, each_case_makes_again(rt.alloc()))
}

/// What is asked of files that are those of one table.
#[derive(Clone, Copy)]
pub(crate) enum Asked {
    /// Whether two are the same.
    Same,
    /// Whether one implies another.
    Leq,
    /// The value where all variables are 0.
    Value,
}

const EACH: &[Asked] = &[Asked::Same, Asked::Leq, Asked::Value];

/// The answer to it.
pub(crate) fn answer_of(asked: Asked, given: &mut Given) -> Result<Answered, SortFault> {
    let room = given.room.as_mut_slice();
    match asked {
        Asked::Same => compared(given.n, 0, 1, room, &mut given.bench),
        Asked::Leq => implied(given.n, 0, 1, room, &mut given.bench),
        Asked::Value => evaluated(given.n, b"000000000", 0, room, &mut given.bench),
    }
}

// The right answer where the files are those of this table.
fn right_answer(asked: Asked, table: &[bool]) -> bool {
    match asked {
        Asked::Same | Asked::Leq => true,
        Asked::Value => table.first().copied() == Some(true),
    }
}

// An answer of which a call fails is refused for the folder, and is right where it is asked again; nothing is answered
// then. Where that call is never made the answer is whether it was right.
fn answers_at(asked: Asked, n: u32, call: u64, given: &mut Given) -> Result<Option<bool>, Fail> {
    given.take_one(n, 1)?;
    let wanted = right_answer(asked, given.tables.table(0));
    let fails = fail_behind(call, &mut given.bench)?;
    Ok(match answer_of(asked, given) {
        Ok(answered) => Some(answered.answer == wanted && given.bench.clock() <= fails),
        Err(SortFault::Shelf) => match answer_of(asked, given) {
            Ok(answered) if answered.answer == wanted => None,
            _ => Some(false),
        },
        Err(_) => Some(false),
    })
}

fn answers_again(asked: Asked, n: u32, given: &mut Given) -> Result<bool, Fail> {
    for call in 0..MOST_CALLS {
        if let Some(right) = answers_at(asked, n, call, given)? {
            return Ok(right);
        }
    }
    Ok(false)
}

fn each_answers_again(alloc: Global) -> Result<bool, Fail> {
    let mut given = Given::room_of(alloc, LEAST_ROOM)?;
    for n in FEWEST..MOST + 1 {
        for asked in EACH {
            if !answers_again(*asked, n, &mut given)? {
                return Ok(false);
            }
        }
    }
    Ok(true)
}

#[test]
fn an_answer_is_asked_again_behind_each_failing_call(rt: HostRuntime) -> Result<(), Fail> {
    holds(&rt, each_answers_again(rt.alloc()))
}
