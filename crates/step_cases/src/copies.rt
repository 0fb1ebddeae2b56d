//! Operators whose table is a constant, that of one operand or its complement, since the other one is a constant or the
//! same: they make its file without sweeps.
use crate::given::Given;
use crate::steps::{LEAST_ROOM, ONE, TWO, Task, holds, on_first, operator_on};
use crate::tables::Triple;
use case_tables::{FIRST, SECOND};
use shelf_memory::Bench;
use std::alloc::Global;
use std::test::Fail;
use step_sweeps::StepOperation;
use top_down_sweep::OperandFiles;

/// How many tables are operands, of four variables and more.
const TABLES: u64 = 9;

/// How many calls a constant's file takes: those for two trailers, a cut, an append and a sync.
const CONSTANT_CALLS: u64 = 7;

/// So many variables that the diagram of a random table has more nodes than the least room has records.
const MANY: u32 = 18;

/// Both of two: of one table twice it is that table.
const BOTH: u32 = 0b1000;

/// What stands beside a table, and on which side.
#[derive(Clone, Copy)]
enum Beside {
    ConstantLeft(bool),
    ConstantRight(bool),
    Same,
}

const EACH: &[Beside] = &[
    Beside::ConstantLeft(false),
    Beside::ConstantLeft(true),
    Beside::ConstantRight(false),
    Beside::ConstantRight(true),
    Beside::Same,
];

impl Beside {
    /// The files of both, where that of the table is the first and that of the constant the second.
    fn operands(self) -> OperandFiles {
        match self {
            Beside::ConstantLeft(_) => OperandFiles {
                first: SECOND,
                second: FIRST,
                third: FIRST,
            },
            Beside::ConstantRight(_) => TWO,
            Beside::Same => ONE,
        }
    }

    /// What an operator gives where the table has a value.
    fn given(self, digits: u32, value: bool) -> bool {
        let (left, right) = match self {
            Beside::ConstantLeft(constant) => (constant, value),
            Beside::ConstantRight(constant) => (value, constant),
            Beside::Same => (value, value),
        };
        let place = match (left, right) {
            (false, false) => 1,
            (false, true) => 2,
            (true, false) => 4,
            (true, true) => 8,
        };
        digits & place != 0
    }

    /// The constant, or 0 where none stands there.
    fn constant(self) -> bool {
        match self {
            Beside::ConstantLeft(constant) | Beside::ConstantRight(constant) => constant,
            Beside::Same => false,
        }
    }
}

// How many calls a copy of the table's file takes: those for two trailers, a cut, a sync and the pieces.
fn copy_calls(bench: &Bench) -> u64 {
    let pieces = (bench.file(FIRST).len() as u64).div_ceil(2048);
    pieces.wrapping_mul(2).wrapping_add(6)
}

/// How many calls the file of the complement of the table's takes: those for two trailers, a cut, a sync, and the
/// pieces that are read and written, of 85 nodes each.
pub(crate) fn complement_calls(bench: &Bench) -> u64 {
    let records = bench.file(FIRST).len() as u64 / 24;
    let read = records.saturating_sub(1).div_ceil(85);
    records.div_ceil(85).wrapping_add(read).wrapping_add(6)
}

/// The right file is made with one turn for each node and one more, no part taken, and so many calls.
pub(crate) fn is_unswept(task: Task, calls: u64, given: &mut Given) -> Result<bool, Fail> {
    let before = given.bench.clock();
    let Ok(made) = given.make(task) else {
        return Ok(false);
    };
    let few_calls = given.bench.clock().wrapping_sub(before) == calls;
    let unswept = made.turns == made.nodes.wrapping_add(1) && made.next == 3;
    Ok(given.is_made(task, made)? && few_calls && unswept)
}

// How many calls an operator's file takes, that gives these values where the table has 0 and 1.
fn wanted_calls(if_zero: bool, if_one: bool, bench: &Bench) -> u64 {
    match (if_zero, if_one) {
        (false, true) => copy_calls(bench),
        (true, false) => complement_calls(bench),
        _ => CONSTANT_CALLS,
    }
}

// An operator with what stands beside a table makes the right file without sweeps: that of a constant, of the table or
// of its complement.
fn operator_copies(digits: u32, beside: Beside, given: &mut Given) -> Result<bool, Fail> {
    let if_zero = beside.given(digits, false);
    let if_one = beside.given(digits, true);
    let calls = wanted_calls(if_zero, if_one, &given.bench);
    is_unswept(operator_on(digits, beside.operands()), calls, given)
}

// So does each operator with what stands beside the table of a seed.
fn copy_beside(seed: u64, beside: Beside, given: &mut Given) -> Result<bool, Fail> {
    let n = 4 + (seed % 6) as u32;
    let tables = Triple::with_constant(given.alloc, n, seed, beside.constant())?;
    given.take(n, tables)?;
    for digits in 0..16 {
        if !operator_copies(digits, beside, given)? {
            return Ok(false);
        }
    }
    Ok(true)
}

fn copy_each(alloc: Global) -> Result<bool, Fail> {
    let mut given = Given::room_of(alloc, LEAST_ROOM)?;
    for seed in 0..TABLES {
        for beside in EACH {
            if !copy_beside(seed, *beside, &mut given)? {
                return Ok(false);
            }
        }
    }
    Ok(true)
}

#[test]
fn an_operator_that_hangs_on_one_operand_at_most_needs_no_sweep(
    rt: HostRuntime,
) -> Result<(), Fail> {
    holds(&rt, copy_each(rt.alloc()))
}

// How many calls a diagram takes that has this name.
fn calls_of(name: &'static str, task: Task, given: &mut Given) -> Result<u64, Fail> {
    let before = given.bench.clock();
    given.make(task).ok().ok_or(name)?;
    Ok(given.bench.clock().wrapping_sub(before))
}

// A copy of a table of so many variables makes fewer calls than the sweeps that choose between a function and itself.
fn copy_makes_fewer_calls(n: u32, given: &mut Given) -> Result<bool, Fail> {
    given.take_one(n, 7)?;
    let copy = calls_of("copy", operator_on(BOTH, ONE), given)?;
    let swept = calls_of("swept", on_first(StepOperation::Choice), given)?;
    Ok(copy < swept)
}

fn copies_make_fewer_calls(alloc: Global) -> Result<bool, Fail> {
    let mut given = Given::room_of(alloc, LEAST_ROOM)?;
    for n in 0..10 {
        if !copy_makes_fewer_calls(n, &mut given)? {
            return Ok(false);
        }
    }
    Ok(true)
}

#[test]
fn a_copy_makes_fewer_calls_than_sweeps(rt: HostRuntime) -> Result<(), Fail> {
    holds(&rt, copies_make_fewer_calls(rt.alloc()))
}

// A copy of more nodes than a checkpoint's interval has turns in the least room takes a turn for each piece and one
// more, no part, and as many calls as a small one.
fn copies_many_nodes(given: &mut Given) -> Result<bool, Fail> {
    given.take(MANY, Triple::alone(given.alloc, MANY, 7)?)?;
    let task = operator_on(BOTH, ONE);
    let len = given.bench.file(FIRST).len();
    let pieces = (len as u64).div_ceil(2048);
    let calls = copy_calls(&given.bench);
    let before = given.bench.clock();
    let made = given.make(task).ok().ok_or("copy")?;
    let few_calls = given.bench.clock().wrapping_sub(before) == calls;
    let few_turns = made.turns == pieces.wrapping_add(1) && made.next == 3;
    let are_many = len / 24 > LEAST_ROOM;
    Ok(given.is_made(task, made)? && few_calls && few_turns && are_many)
}

#[test]
fn a_copy_of_many_nodes_takes_a_turn_for_each_piece(rt: HostRuntime) -> Result<(), Fail> {
    let mut given = Given::room_of(rt.alloc(), LEAST_ROOM)?;
    holds(&rt, copies_many_nodes(&mut given))
}
