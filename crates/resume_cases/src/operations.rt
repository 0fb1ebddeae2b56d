//! Operations that are saved behind every few turns, stopped, and rebuilt in another room.
ghost use Rattle.std.specs.Prelude.{◌≤◌, length};

use bool_tables::Quant;
use case_lives::{EMPTY, ENDS, INNER, Lived, STEP, Way, going_from, operate, room_len};
use case_tables::{Random, bench_of, operator};
use rec_words::Rec;
use shelf_memory::{Bench, Choice};
use shelf_model::SortFault;
use std::alloc::Global;
use std::test::Fail;
use sweep_checkpoint::load;
use sweep_core::Turn;
use top_down_sweep::{
    Choice as IfThenElse, Operation, Product, Quantified, Restricted, StepOperation,
};

const BUDGET: u32 = 0x4000;

/// Each operation here ends within fewer lives.
const MOST_LIVES: u64 = 2000;

const VARIABLES: u32 = 3;

/// Behind how many turns the sweep is saved, and which images are taken.
const STOPS: [(u64, Choice); 4] = [
    (1, Choice::Firm),
    (2, Choice::Present),
    (3, Choice::Mixed(1)),
    (7, Choice::Fill(255)),
];

// A folder with the files of three tables.
fn folder(alloc: Global) -> Result<Bench, Fail> {
    let mut random = Random::new(11);
    let first = random.table(alloc, VARIABLES, usize::MAX)?;
    let second = random.table(alloc, VARIABLES, usize::MAX)?;
    let third = random.table(alloc, VARIABLES, usize::MAX)?;
    bench_of(
        alloc,
        VARIABLES,
        [first.as_slice(), second.as_slice(), third.as_slice()],
    )
}

// A life of an operation, which begins or goes on from its last checkpoint. None is answered where that isn't its.
fn one_life<O: Operation>(
    operation: O,
    most: u64,
    room: &mut [Rec],
    bench: &mut Bench,
) -> Result<Option<Lived>, SortFault>
    requires { 16384 ≤ length room.old }
{
    let last = load(STEP, bench)?;
    let mut going = going_from(0, BUDGET, last);
    operate(
        operation,
        VARIABLES,
        Way::Saved(most),
        &mut going,
        room,
        bench,
    )
}

// Whether two folders have the same arcs.
fn same_arcs(a: &Bench, b: &Bench) -> bool {
    a.file(INNER) == b.file(INNER) && a.file(ENDS) == b.file(ENDS)
}

// Whether an operation that is saved, stopped and rebuilt behind every few turns makes the same arcs in as many turns
// as one that nothing stops. Lives are in two rooms in turn.
fn comes_back<O: Operation>(
    alloc: Global,
    operation: O,
    every: u64,
    choice: Choice,
    room: &mut [Rec],
    other: &mut [Rec],
) -> Result<bool, Fail>
    requires room { 16384 ≤ length room.old }
    requires other { 16384 ≤ length other.old }
{
    let mut wanted = folder(alloc)?;
    let whole = one_life(operation, u64::MAX, room, &mut wanted)?;
    let mut bench = folder(alloc)?;
    for life in 0..MOST_LIVES {
        let lived = if life % 2 == 0 {
            one_life(operation, every, room, &mut bench)?
        } else {
            one_life(operation, every, other, &mut bench)?
        };
        match lived {
            None => return Ok(false),
            Some(
                Lived {
                    turn: Turn::Ended,
                    ..
                },
            ) => return Ok(lived == whole && same_arcs(&bench, &wanted)),
            Some(_) => {}
        }
        bench = bench.stop(choice)?;
    }
    Ok(false)
}

// The first number of turns and stop with which it doesn't.
fn wrong_stop<O: Operation>(alloc: Global, operation: O) -> Result<Option<(u64, Choice)>, Fail> {
    let mut records = vec![in alloc; EMPTY; room_len(0)]?;
    let room = records.as_mut_slice();
    let mut more = vec![in alloc; EMPTY; room_len(116)]?;
    let other = more.as_mut_slice();
    for (every, choice) in STOPS {
        if !comes_back(alloc, operation, every, choice, room, other)? {
            return Ok(Some((every, choice)));
        }
    }
    Ok(None)
}

#[test]
fn a_product_that_is_saved_behind_every_few_turns_comes_back(rt: HostRuntime) -> Result<(), Fail> {
    let operation = Product { op: operator(14) };
    let wrong = wrong_stop(rt.alloc(), operation)?;
    assert!(rt; wrong.is_none(), "{wrong:?}");
    Ok(())
}

#[test]
fn a_quantifier_that_is_saved_behind_every_few_turns_comes_back(
    rt: HostRuntime,
) -> Result<(), Fail> {
    let operation = Quantified {
        kind: Quant::Exists,
        variable: 0,
    };
    let wrong = wrong_stop(rt.alloc(), operation)?;
    assert!(rt; wrong.is_none(), "{wrong:?}");
    Ok(())
}

#[test]
fn a_restriction_that_is_saved_behind_every_few_turns_comes_back(
    rt: HostRuntime,
) -> Result<(), Fail> {
    let operation = Restricted {
        variable: 3,
        value: false,
    };
    let wrong = wrong_stop(rt.alloc(), operation)?;
    assert!(rt; wrong.is_none(), "{wrong:?}");
    Ok(())
}

#[test]
fn a_choice_that_is_saved_behind_every_few_turns_comes_back(rt: HostRuntime) -> Result<(), Fail> {
    let operation = IfThenElse;
    let wrong = wrong_stop(rt.alloc(), operation)?;
    assert!(rt; wrong.is_none(), "{wrong:?}");
    Ok(())
}

#[test]
fn a_step_of_an_operator_that_is_saved_comes_back(rt: HostRuntime) -> Result<(), Fail> {
    let operation = StepOperation::Operator(operator(6));
    let wrong = wrong_stop(rt.alloc(), operation)?;
    assert!(rt; wrong.is_none(), "{wrong:?}");
    Ok(())
}

#[test]
fn a_step_of_a_choice_that_is_saved_comes_back(rt: HostRuntime) -> Result<(), Fail> {
    let operation = StepOperation::Choice;
    let wrong = wrong_stop(rt.alloc(), operation)?;
    assert!(rt; wrong.is_none(), "{wrong:?}");
    Ok(())
}

#[test]
fn a_step_of_a_quantifier_that_is_saved_comes_back(rt: HostRuntime) -> Result<(), Fail> {
    let operation = StepOperation::Quantifier {
        kind: Quant::Forall,
        level: 1,
    };
    let wrong = wrong_stop(rt.alloc(), operation)?;
    assert!(rt; wrong.is_none(), "{wrong:?}");
    Ok(())
}

#[test]
fn a_step_of_a_restriction_that_is_saved_comes_back(rt: HostRuntime) -> Result<(), Fail> {
    let operation = StepOperation::Restriction {
        level: 2,
        value: true,
    };
    let wrong = wrong_stop(rt.alloc(), operation)?;
    assert!(rt; wrong.is_none(), "{wrong:?}");
    Ok(())
}
