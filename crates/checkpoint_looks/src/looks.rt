//! Sweeps that are saved behind every few turns, stopped and rebuilt, each of whose checkpoints is looked at.
ghost use Rattle.std.specs.Prelude.{◌≤◌, length};

use crate::asked::Meant;
use crate::cases::{Kind, Other, Plan};
use crate::looked::Looked;
use crate::shapes::Shape;
use bool_tables::Quant;
use case_lives::{EMPTY, room_len};
use rec_words::Rec;
use shelf_memory::{Bench, Choice};
use std::alloc::{AllocError, Global};
use std::test::Fail;

/// Each sweep here ends within fewer lives.
const MOST_LIVES: u64 = 2000;

// What a stop leaves behind every third life, and the folder itself behind the others.
fn left_by(bench: Bench, life: u64) -> Result<Bench, AllocError> {
    match life % 12 {
        2 => bench.stop(Choice::Firm),
        5 => bench.stop(Choice::Present),
        8 => bench.stop(Choice::Fill(255)),
        11 => bench.stop(Choice::Mixed(life)),
        _ => Ok(bench),
    }
}

// Looks at each checkpoint of a sweep that is saved and rebuilt behind every few turns, from the folder on in which it
// begins, and answers how many they are.
fn look_at_lives(
    alloc: Global,
    looked: &Looked,
    begun: Bench,
    every: u64,
    room: &mut [Rec],
) -> Result<u64, Fail>
    requires { 16384 ≤ length room.old }
{
    let mut bench = begun;
    for life in 0..MOST_LIVES {
        if looked.has_ended(every, room, &mut bench)? {
            return Ok(life);
        }
        bench = left_by(bench, life)?;
        looked.look(alloc, &bench)?;
    }
    Err(Fail::from("no end"))
}

// The same of the sweep of a plan.
fn look_at(alloc: Global, plan: Plan, every: u64, room: &mut [Rec]) -> Result<u64, Fail>
    requires { 16384 ≤ length room.old }
{
    let (looked, bench) = Looked::of(alloc, plan)?;
    look_at_lives(alloc, &looked, bench, every, room)
}

/// Sweeps of some kinds on tables of some numbers of variables, by so many seeds; and how many checkpoints they have at
/// least together.
struct Row {
    name: &'static str,
    kinds: &'static [Kind],
    sizes: [u32; 2],
    seeds: u64,
    least: u64,
}

// How many checkpoints were looked at of sweeps on tables of so many variables. They are saved behind every turn, by
// further seeds behind every two and three.
fn look_at_seeds(
    alloc: Global,
    kind: Kind,
    variables: u32,
    seeds: u64,
    room: &mut [Rec],
) -> Result<u64, Fail>
    requires { 16384 ≤ length room.old }
{
    let mut points = 0u64;
    for seed in 0..seeds {
        let plan = Plan {
            kind,
            variables,
            seed,
        };
        points = points.saturating_add(look_at(alloc, plan, 1 + seed % 3, room)?);
    }
    Ok(points)
}

// How many were looked at of a row.
fn look_at_row(alloc: Global, row: &Row, room: &mut [Rec]) -> Result<u64, Fail>
    requires { 16384 ≤ length room.old }
{
    let mut points = 0u64;
    for kind in row.kinds {
        for variables in row.sizes {
            let looked = look_at_seeds(alloc, *kind, variables, row.seeds, room)?;
            points = points.saturating_add(looked);
        }
    }
    Ok(points)
}

/// At least so many checkpoints has an operator, by its own type and as that of a step together.
const LEAST_OF_OPERATOR: u64 = 250;

/// The operators, by their own types and as those of a step; other operations, of which the last ones are over a
/// variable that no table has; implications; reductions; and sweeps that make no arcs.
const ROWS: &[Row] = &[
    Row {
        name: "operator 0",
        kinds: &[
            Kind::Own(Meant::Operator(0)),
            Kind::OfStep(Meant::Operator(0)),
        ],
        sizes: [2, 5],
        seeds: 4,
        least: LEAST_OF_OPERATOR,
    },
    Row {
        name: "operator 1",
        kinds: &[
            Kind::Own(Meant::Operator(1)),
            Kind::OfStep(Meant::Operator(1)),
        ],
        sizes: [2, 5],
        seeds: 4,
        least: LEAST_OF_OPERATOR,
    },
    Row {
        name: "operator 2",
        kinds: &[
            Kind::Own(Meant::Operator(2)),
            Kind::OfStep(Meant::Operator(2)),
        ],
        sizes: [2, 5],
        seeds: 4,
        least: LEAST_OF_OPERATOR,
    },
    Row {
        name: "operator 3",
        kinds: &[
            Kind::Own(Meant::Operator(3)),
            Kind::OfStep(Meant::Operator(3)),
        ],
        sizes: [2, 5],
        seeds: 4,
        least: LEAST_OF_OPERATOR,
    },
    Row {
        name: "operator 4",
        kinds: &[
            Kind::Own(Meant::Operator(4)),
            Kind::OfStep(Meant::Operator(4)),
        ],
        sizes: [2, 5],
        seeds: 4,
        least: LEAST_OF_OPERATOR,
    },
    Row {
        name: "operator 5",
        kinds: &[
            Kind::Own(Meant::Operator(5)),
            Kind::OfStep(Meant::Operator(5)),
        ],
        sizes: [2, 5],
        seeds: 4,
        least: LEAST_OF_OPERATOR,
    },
    Row {
        name: "operator 6",
        kinds: &[
            Kind::Own(Meant::Operator(6)),
            Kind::OfStep(Meant::Operator(6)),
        ],
        sizes: [2, 5],
        seeds: 4,
        least: LEAST_OF_OPERATOR,
    },
    Row {
        name: "operator 7",
        kinds: &[
            Kind::Own(Meant::Operator(7)),
            Kind::OfStep(Meant::Operator(7)),
        ],
        sizes: [2, 5],
        seeds: 4,
        least: LEAST_OF_OPERATOR,
    },
    Row {
        name: "operator 8",
        kinds: &[
            Kind::Own(Meant::Operator(8)),
            Kind::OfStep(Meant::Operator(8)),
        ],
        sizes: [2, 5],
        seeds: 4,
        least: LEAST_OF_OPERATOR,
    },
    Row {
        name: "operator 9",
        kinds: &[
            Kind::Own(Meant::Operator(9)),
            Kind::OfStep(Meant::Operator(9)),
        ],
        sizes: [2, 5],
        seeds: 4,
        least: LEAST_OF_OPERATOR,
    },
    Row {
        name: "operator 10",
        kinds: &[
            Kind::Own(Meant::Operator(10)),
            Kind::OfStep(Meant::Operator(10)),
        ],
        sizes: [2, 5],
        seeds: 4,
        least: LEAST_OF_OPERATOR,
    },
    Row {
        name: "operator 11",
        kinds: &[
            Kind::Own(Meant::Operator(11)),
            Kind::OfStep(Meant::Operator(11)),
        ],
        sizes: [2, 5],
        seeds: 4,
        least: LEAST_OF_OPERATOR,
    },
    Row {
        name: "operator 12",
        kinds: &[
            Kind::Own(Meant::Operator(12)),
            Kind::OfStep(Meant::Operator(12)),
        ],
        sizes: [2, 5],
        seeds: 4,
        least: LEAST_OF_OPERATOR,
    },
    Row {
        name: "operator 13",
        kinds: &[
            Kind::Own(Meant::Operator(13)),
            Kind::OfStep(Meant::Operator(13)),
        ],
        sizes: [2, 5],
        seeds: 4,
        least: LEAST_OF_OPERATOR,
    },
    Row {
        name: "operator 14",
        kinds: &[
            Kind::Own(Meant::Operator(14)),
            Kind::OfStep(Meant::Operator(14)),
        ],
        sizes: [2, 5],
        seeds: 4,
        least: LEAST_OF_OPERATOR,
    },
    Row {
        name: "operator 15",
        kinds: &[
            Kind::Own(Meant::Operator(15)),
            Kind::OfStep(Meant::Operator(15)),
        ],
        sizes: [2, 5],
        seeds: 4,
        least: LEAST_OF_OPERATOR,
    },
    Row {
        name: "a choice",
        kinds: &[Kind::Own(Meant::Choice)],
        sizes: [3, 5],
        seeds: 4,
        least: 200,
    },
    Row {
        name: "a step's choice",
        kinds: &[Kind::OfStep(Meant::Choice)],
        sizes: [3, 5],
        seeds: 4,
        least: 200,
    },
    Row {
        name: "one of the values of the first variable",
        kinds: &[Kind::Own(Meant::Quantifier(Quant::Exists, 0))],
        sizes: [3, 5],
        seeds: 4,
        least: 100,
    },
    Row {
        name: "both values of the second variable",
        kinds: &[Kind::Own(Meant::Quantifier(Quant::Forall, 1))],
        sizes: [3, 5],
        seeds: 4,
        least: 120,
    },
    Row {
        name: "a step's one of the values of the second variable",
        kinds: &[Kind::OfStep(Meant::Quantifier(Quant::Exists, 1))],
        sizes: [3, 5],
        seeds: 4,
        least: 120,
    },
    Row {
        name: "a step's both values of the first variable",
        kinds: &[Kind::OfStep(Meant::Quantifier(Quant::Forall, 0))],
        sizes: [3, 5],
        seeds: 4,
        least: 100,
    },
    Row {
        name: "the first variable at 1",
        kinds: &[Kind::Own(Meant::Restriction(0, true))],
        sizes: [3, 5],
        seeds: 4,
        least: 60,
    },
    Row {
        name: "the second variable at 0",
        kinds: &[Kind::Own(Meant::Restriction(1, false))],
        sizes: [3, 5],
        seeds: 4,
        least: 60,
    },
    Row {
        name: "a step's first variable at 0",
        kinds: &[Kind::OfStep(Meant::Restriction(0, false))],
        sizes: [3, 5],
        seeds: 4,
        least: 60,
    },
    Row {
        name: "a step's third variable at 1",
        kinds: &[Kind::OfStep(Meant::Restriction(2, true))],
        sizes: [3, 5],
        seeds: 4,
        least: 60,
    },
    Row {
        name: "one of the values of a variable that isn't there",
        kinds: &[Kind::OfStep(Meant::Quantifier(Quant::Exists, 9))],
        sizes: [3, 5],
        seeds: 4,
        least: 100,
    },
    Row {
        name: "a variable that isn't there at 1",
        kinds: &[Kind::Own(Meant::Restriction(9, true))],
        sizes: [3, 5],
        seeds: 4,
        least: 60,
    },
    Row {
        name: "an implication that holds",
        kinds: &[Kind::Implication(true)],
        sizes: [3, 5],
        seeds: 12,
        least: 200,
    },
    Row {
        name: "an implication that is left to chance",
        kinds: &[Kind::Implication(false)],
        sizes: [3, 5],
        seeds: 12,
        least: 150,
    },
    Row {
        name: "a reduction of a tree",
        kinds: &[Kind::Reduction(Shape::Tree)],
        sizes: [3, 5],
        seeds: 4,
        least: 400,
    },
    Row {
        name: "a reduction of nodes with two arcs to them",
        kinds: &[Kind::Reduction(Shape::Counting)],
        sizes: [4, 6],
        seeds: 4,
        least: 400,
    },
    Row {
        name: "a comparison of a table with itself",
        kinds: &[Kind::Comparison(Other::Same)],
        sizes: [3, 5],
        seeds: 3,
        least: 50,
    },
    Row {
        name: "a comparison with the complement",
        kinds: &[Kind::Comparison(Other::Complement)],
        sizes: [3, 5],
        seeds: 3,
        least: 5,
    },
    Row {
        name: "a comparison with one for the other value of the last variable",
        kinds: &[Kind::Comparison(Other::Opposite)],
        sizes: [3, 5],
        seeds: 3,
        least: 25,
    },
    Row {
        name: "an evaluation",
        kinds: &[Kind::Value(5)],
        sizes: [3, 5],
        seeds: 6,
        least: 25,
    },
    Row {
        name: "a copy",
        kinds: &[Kind::Copy(3)],
        sizes: [9, 10],
        seeds: 3,
        least: 8,
    },
    Row {
        name: "a copy past the end",
        kinds: &[Kind::Copy(9)],
        sizes: [9, 10],
        seeds: 3,
        least: 25,
    },
];

// The first row of which fewer checkpoints were looked at than it has to have, and how many.
fn first_short_in(alloc: Global, room: &mut [Rec]) -> Result<Option<(&'static str, u64)>, Fail>
    requires { 16384 ≤ length room.old }
{
    for row in ROWS {
        let points = look_at_row(alloc, row, room)?;
        if points < row.least {
            return Ok(Some((row.name, points)));
        }
    }
    Ok(None)
}

// The same in a room of its own.
fn first_short(alloc: Global) -> Result<Option<(&'static str, u64)>, Fail> {
    let mut records = vec![in alloc; EMPTY; room_len(0)]?;
    first_short_in(alloc, records.as_mut_slice())
}

#[test]
fn each_checkpoint_stands_for_what_is_wanted(rt: HostRuntime) -> Result<(), Fail> {
    let short = first_short(rt.alloc())?;
    assert!(rt; short.is_none(), "{short:?}");
    Ok(())
}
