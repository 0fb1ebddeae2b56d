//! Operators on two diagrams that are made at once, and steps of which nothing is made so.
use crate::given::Given;
use crate::steps::{CHOICE, LEAST_ROOM, NUMBER, TWO, Task, holds, made_now, operator_on};
use case_tables::{FIRST, put_bytes};
use file_numbers::node_file;
use std::test::Fail;
use step_sweeps::AtMost;

/// So many variables that a table has few nodes.
const FEW: u32 = 5;

/// More turns and nodes than a diagram of so few variables takes.
const ENOUGH: AtMost = AtMost {
    turns: 65_535,
    looks: 65_535,
};

/// The exclusive or, whose value always hangs on both operands.
const DIFFER: u32 = 0b0110;

// Whether each operator on two tables that depend on each of so many variables makes the right file.
fn operators_are_made(given: &mut Given, n: u32) -> Result<bool, Fail> {
    for digits in 0..16 {
        given.take_seed(n, 0)?;
        let task = operator_on(digits, TWO);
        let made = made_now(
            task,
            ENOUGH,
            given.n,
            given.room.as_mut_slice(),
            &mut given.bench,
        )?;
        let Some(made) = made else {
            return Ok(false);
        };
        if !given.is_made(task, made)? {
            return Ok(false);
        }
    }
    Ok(true)
}

fn small_operators_are_made(rt: HostRuntime) -> Result<bool, Fail> {
    let mut given = Given::room_of(rt.alloc(), LEAST_ROOM)?;
    for n in 2..7 {
        if !operators_are_made(&mut given, n)? {
            return Ok(false);
        }
    }
    Ok(true)
}

#[test]
fn an_operator_of_few_nodes_is_made_at_once(rt: HostRuntime) -> Result<(), Fail> {
    holds(&rt, small_operators_are_made(rt))
}

// Whether nothing is made, and the step's node file stays empty.
fn makes_nothing(given: &mut Given, task: Task, most: AtMost) -> Result<bool, Fail> {
    let made = made_now(
        task,
        most,
        given.n,
        given.room.as_mut_slice(),
        &mut given.bench,
    )?;
    Ok(made.is_none() && given.bench.file(node_file(NUMBER)).is_empty())
}

// Nothing is made in too few turns, where too few nodes may be looked at, of an operation that is no operator, and of a
// file that has no trailer.
fn else_nothing_is_made(rt: HostRuntime) -> Result<bool, Fail> {
    let mut given = Given::room_of(rt.alloc(), LEAST_ROOM)?;
    given.take_seed(FEW, 0)?;
    let differ = operator_on(DIFFER, TWO);
    let cases = [
        (
            differ,
            AtMost {
                turns: 29,
                ..ENOUGH
            },
        ),
        (differ, AtMost { looks: 1, ..ENOUGH }),
        (operator_on(0, TWO), AtMost { turns: 0, ..ENOUGH }),
        (CHOICE, ENOUGH),
    ];
    for (task, most) in cases {
        if !makes_nothing(&mut given, task, most)? {
            return Ok(false);
        }
    }
    put_bytes(&mut given.bench, FIRST, &[0; 23])?;
    makes_nothing(&mut given, differ, ENOUGH)
}

#[test]
fn else_nothing_is_made_at_once(rt: HostRuntime) -> Result<(), Fail> {
    holds(&rt, else_nothing_is_made(rt))
}
