// Plans of small netlists, and of one that has too many steps.
ghost use Rattle.std.specs.Prelude.{◌≡◌, ℕ, ◌<◌, ◌≤◌, length, map, slice_index, nat_lt, IsTrue, IfOk, IfSome};
ghost use Rattle.std.specs.List.{list_all};
ghost use Rattle.blif_reader.specs.Answers.{net_of};
ghost use Rattle.net_plan.specs.Planners.{signals_of};

use crate::slashed::text;
use blif_reader::{Netlist, read_netlist};
use bool_tables::{Bin, Planned, Step, eval_steps};
use net_plan::{NetPlan, PlanFault, Planner, plan_signals};
use std::alloc::{AllocError, Global};
use std::test::Fail;

const HALF_ADDER: &str =
    ".model half # adder/.inputs a b/.outputs s c/.names t c s/10 1/.names a b c/11 1/.names a b t/1- 1/-1 1/.end/";

const CONSTANTS: &str =
    ".model k/.inputs a b/.outputs z o y/.names z/.names o/ 1/.names a b y/11 0/";

const JOINED: &str = ".model m/.inputs a \\ # two/b/.outputs y/.names a b y/11 1/";

const NEITHER: &str = ".model m/.inputs a b/.names a b y/1- 0/-1 0/";

const HYPHEN: &str = ".model m/.inputs a b/.names b a a y/0-1 1/.outputs y/";

/// A block that reads ten words, some of them again, and has hyphens in both rows at some.
const WIDE: &str =
    ".model m/.inputs a b c d/.outputs y/.names b a b b d b a c b b y/1---0-0--- 1/---------1 1/";

/// What is true where both operands are, where the left one alone is, where one is, and where not both are.
const BOTH: Bin = Bin {
    v00: false,
    v01: false,
    v10: false,
    v11: true,
};

const LEFT_ALONE: Bin = Bin {
    v00: false,
    v01: false,
    v10: true,
    v11: false,
};

const EITHER: Bin = Bin {
    v00: false,
    v01: true,
    v10: true,
    v11: true,
};

const NOT_BOTH: Bin = Bin {
    v00: true,
    v01: true,
    v10: true,
    v11: false,
};

fn constant(value: bool) -> Step {
    Step::Const { value }
}

fn input(level: u32) -> Step {
    Step::Var { level }
}

fn pair(op: Bin, left: u32, right: u32) -> Step {
    Step::Pair { op, left, right }
}

fn gone(gone: u32) -> Step {
    Step::Drop { gone }
}

/// The signal with a name, where there is one.
fn known(net: &Netlist, name: &str) -> Option<u32>
    ensures { IfSome result (λ signal. signal < length (net_of net.now).names) }
{
    match net.signal(name.as_bytes()) {
        Some(signal) if signal < net.signal_count() => Some(signal),
        _ => None,
    }
}

/// The signals with some names, in order.
fn signals(alloc: Global, net: &Netlist, names: &[&str]) -> Result<Vec<u32>, AllocError>
    ensures { IfOk result (λ v. (i : ℕ) → i < length v.items → slice_index v.items i < length (net_of net.now).names) }
{
    let mut found = Vec::new(alloc);
    for name in names {
        if let Some(signal) = known(net, name) {
            found.push(signal)?;
        }
    }
    Ok(found)
}

/// The plan of some signals of a netlist, or why there is none.
fn planned(
    alloc: Global,
    bytes: &[u8],
    levels: &[u32],
    names: &[&str],
    first: u32,
) -> Result<Result<NetPlan, PlanFault>, Fail> {
    let net = read_netlist(alloc, bytes)?;
    if levels.len() != net.input_count() as usize || first > 1048576 {
        return Err(Fail::new("no plan is asked for"));
    }
    let wanted = signals(alloc, &net, names)?;
    Ok(plan_signals(alloc, &net, levels, wanted.as_slice(), first))
}

/// Whether there is a plan, of so many steps, that makes what is wanted in these.
fn has(plan: Option<NetPlan>, count: usize, made: &[u32]) -> bool {
    match plan {
        Some(plan) => plan.steps.items().len() == count && plan.made.items() == made,
        None => false,
    }
}

/// Whether the plan of these signals over two inputs has so many steps, and makes them in these.
fn numbers_so(
    alloc: Global,
    slashed: &str,
    names: &[&str],
    first: u32,
    count: usize,
    made: &[u32],
) -> Result<bool, Fail> {
    let bytes = text(alloc, slashed)?;
    let plan = planned(alloc, bytes.as_slice(), &[0, 1], names, first)?;
    Ok(has(plan.ok(), count, made))
}

/// Signals of a netlist, the first step of their plan, how many it has, and those that make them.
const NUMBERED: &[(&str, &[&str], u32, usize, &[u32])] = &[
    (HALF_ADDER, &["s", "c"], 0, 36, &[30, 21]),
    (CONSTANTS, &["z"], 0, 1, &[0]),
    (CONSTANTS, &["o"], 1, 5, &[3]),
    (CONSTANTS, &["y"], 6, 15, &[17]),
    (JOINED, &["y"], 0, 13, &[8]),
    (JOINED, &["b", "a"], 1048574, 2, &[1048574, 1048575]),
    (JOINED, &[], 1048576, 0, &[]),
];

#[test]
fn numbers_the_steps_of_what_is_wanted(rt: HostRuntime) -> Result<(), Fail> {
    for (slashed, names, first, count, made) in NUMBERED {
        let numbered = numbers_so(rt.alloc(), slashed, names, *first, *count, made)?;
        assert!(rt; numbered, "{slashed} {names:?}");
    }
    Ok(())
}

/// Whether the planner's plan of these signals over two inputs has so many steps, and makes them
/// in these.
fn plans_on(
    alloc: Global,
    planner: &mut Planner,
    net: &Netlist,
    names: &[&str],
    first: u32,
    count: usize,
    made: &[u32],
) -> Result<bool, Fail>
    requires serves { signals_of planner.old ≡ length (net_of net.now).names }
    requires inputs { (net_of net.now).inputs ≡ 2 }
    requires first { first ≤ 1048576 }
    ensures { signals_of planner.new ≡ signals_of planner.old }
{
    let wanted = signals(alloc, net, names)?;
    let plan = planner.plan(alloc, net, &[0, 1], wanted.as_slice(), first);
    Ok(has(plan.ok(), count, made))
}

/// Whether the planner has no plan of these signals over two inputs.
fn plans_none(
    alloc: Global,
    planner: &mut Planner,
    net: &Netlist,
    names: &[&str],
    first: u32,
) -> Result<bool, Fail>
    requires serves { signals_of planner.old ≡ length (net_of net.now).names }
    requires inputs { (net_of net.now).inputs ≡ 2 }
    requires first { first ≤ 1048576 }
    ensures { signals_of planner.new ≡ signals_of planner.old }
{
    let wanted = signals(alloc, net, names)?;
    let plan = planner.plan(alloc, net, &[0, 1], wanted.as_slice(), first);
    Ok(matches!(plan.err(), Some(PlanFault::TooManySteps)))
}

/// Whether one planner plans the half adder as new tables do, whatever it planned before, and what
/// it refused.
fn plans_request_after_request(alloc: Global) -> Result<bool, Fail> {
    let bytes = text(alloc, HALF_ADDER)?;
    let net = read_netlist(alloc, bytes.as_slice())?;
    if net.input_count() != 2 {
        return Ok(false);
    }
    let mut planner = Planner::new(alloc, &net)?;
    Ok(
        plans_on(alloc, &mut planner, &net, &["s", "c"], 0, 36, &[30, 21])?
            && plans_on(alloc, &mut planner, &net, &["b"], 7, 1, &[7])?
            && plans_none(alloc, &mut planner, &net, &["s", "c"], 1048575)?
            && plans_on(alloc, &mut planner, &net, &["s", "c"], 9, 36, &[39, 30])?,
    )
}

#[test]
fn plans_again_with_the_same_tables(rt: HostRuntime) -> Result<(), Fail> {
    assert!(rt; plans_request_after_request(rt.alloc())?);
    Ok(())
}

/// Whether the plan of these signals has these steps.
fn plans_so(
    alloc: Global,
    slashed: &str,
    levels: &[u32],
    names: &[&str],
    first: u32,
    steps: &[Step],
) -> Result<bool, Fail> {
    let bytes = text(alloc, slashed)?;
    let plan = planned(alloc, bytes.as_slice(), levels, names, first)??;
    Ok(plan.steps.items() == steps)
}

#[test]
fn plans_a_complement_step_by_step(rt: HostRuntime) -> Result<(), Fail> {
    let steps = [
        // The inputs are steps 6 and 7, and the sum so far is step 8.
        input(3),
        input(2),
        constant(false),
        // The cube of the row.
        constant(true),
        pair(BOTH, 9, 6),
        gone(9),
        pair(BOTH, 10, 7),
        gone(10),
        // The sum, and its complement.
        pair(EITHER, 8, 12),
        gone(8),
        gone(12),
        pair(NOT_BOTH, 14, 14),
        gone(14),
        // The inputs aren't wanted.
        gone(6),
        gone(7),
    ];
    assert!(rt; plans_so(rt.alloc(), CONSTANTS, &[3, 2], &["y"], 6, &steps)?);
    Ok(())
}

#[test]
fn plans_each_character_of_a_row(rt: HostRuntime) -> Result<(), Fail> {
    let steps = [
        // The block reads `b` first.
        input(1),
        input(0),
        constant(false),
        constant(true),
        pair(LEFT_ALONE, 3, 0),
        gone(3),
        pair(BOTH, 4, 1),
        gone(4),
        pair(EITHER, 2, 6),
        gone(2),
        gone(6),
        gone(0),
    ];
    // The second column of the row asks for nothing, and the block reads `a` twice.
    assert!(rt; plans_so(rt.alloc(), HYPHEN, &[0, 1], &["y", "a"], 0, &steps)?);
    Ok(())
}

#[test]
fn plans_a_wide_block(rt: HostRuntime) -> Result<(), Fail> {
    let steps = [
        // The words as they are read first.
        input(1),
        input(0),
        input(3),
        input(2),
        constant(false),
        // The first row: `b`, and neither `d` nor `a`.
        constant(true),
        pair(BOTH, 5, 0),
        gone(5),
        pair(LEFT_ALONE, 6, 2),
        gone(6),
        pair(LEFT_ALONE, 8, 1),
        gone(8),
        pair(EITHER, 4, 10),
        gone(4),
        gone(10),
        // The second row: the last word, which is `b` too.
        constant(true),
        pair(BOTH, 15, 0),
        gone(15),
        pair(EITHER, 12, 16),
        gone(12),
        gone(16),
        gone(0),
        gone(1),
        gone(2),
        gone(3),
    ];
    assert!(rt; plans_so(rt.alloc(), WIDE, &[0, 1, 2, 3], &["y"], 0, &steps)?);
    Ok(())
}

/// A netlist of one block with so many rows that ask for nothing.
fn wide(alloc: Global, rows: u32) -> Result<Vec<u8>, AllocError> {
    let mut bytes = text(alloc, ".model m/.inputs a/.outputs y/.names a y/")?;
    for _row in 0..rows {
        bytes.extend_from_slice(b"- 1\n")?;
    }
    Ok(bytes)
}

/// Whether the plan of a signal from this step on would have too many.
fn has_too_many(
    alloc: Global,
    bytes: &[u8],
    levels: &[u32],
    name: &str,
    first: u32,
) -> Result<bool, Fail> {
    let plan = planned(alloc, bytes, levels, &[name], first)?;
    Ok(matches!(plan.err(), Some(PlanFault::TooManySteps)))
}

/// Whether a plan may end with the last step and not behind it. Its steps are the input, the first sum, four for each
/// row, and the drop of the input.
fn ends_with_the_last_step(alloc: Global) -> Result<bool, Fail> {
    let bytes = wide(alloc, 262143)?;
    let plan = planned(alloc, bytes.as_slice(), &[0], &["y"], 1)??;
    let most = plan.steps.items().len() == 1048575;
    Ok(most && has_too_many(alloc, bytes.as_slice(), &[0], "y", 2)?)
}

#[test]
fn refuses_too_many_steps(rt: HostRuntime) -> Result<(), Fail> {
    let joined = text(rt.alloc(), JOINED)?;
    let wider = wide(rt.alloc(), 262144)?;
    assert!(rt;
        has_too_many(rt.alloc(), joined.as_slice(), &[0, 1], "a", 1048576)?
            && ends_with_the_last_step(rt.alloc())?
            && has_too_many(rt.alloc(), wider.as_slice(), &[0], "y", 0)?
    );
    Ok(())
}

/// The steps as those of a script without names.
fn unnamed(alloc: Global, steps: &[Step]) -> Result<Vec<Planned>, AllocError>
    ensures { IfOk result (λ v. v.items ≡ map (λ s. record { step = s; name_at = 0; name_len = 0 }) steps.now) }
{
    let mut planned = Vec::new(alloc);
    for step in steps {
        planned.push(Planned {
            step: *step,
            name_at: 0,
            name_len: 0,
        })?;
    }
    Ok(planned)
}

/// The table of a signal over two variables, made from its steps.
fn table_of(alloc: Global, slashed: &str, levels: &[u32], name: &str) -> Result<Vec<bool>, Fail>
    requires { IsTrue (list_all (λ level. nat_lt level 2) levels.now) }
{
    let bytes = text(alloc, slashed)?;
    let net = read_netlist(alloc, bytes.as_slice())?;
    if levels.len() != net.input_count() as usize {
        return Err(Fail::new("a level is missing"));
    }
    let wanted = signals(alloc, &net, &[name])?;
    let plan = plan_signals(alloc, &net, levels, wanted.as_slice(), 0)?;
    let planned = unnamed(alloc, plan.steps.items())?;
    let tables = eval_steps(alloc, 2, b"", planned.as_slice())?;
    let made = plan.made.items().first().copied().ok_or("no such signal")?;
    let table = tables.get(made as usize).ok_or("no such step")?;
    Ok(Vec::from_slice(alloc, table.items())?)
}

/// Signals of netlists, and their tables.
const TABLES: &[(&str, &str, [bool; 4])] = &[
    (HALF_ADDER, "s", [false, true, true, false]),
    (HALF_ADDER, "c", [false, false, false, true]),
    (HALF_ADDER, "t", [false, true, true, true]),
    (HALF_ADDER, "b", [false, true, false, true]),
    (CONSTANTS, "z", [false, false, false, false]),
    (CONSTANTS, "o", [true, true, true, true]),
    (CONSTANTS, "y", [true, true, true, false]),
    (NEITHER, "y", [true, false, false, false]),
];

#[test]
fn makes_the_tables_of_signals(rt: HostRuntime) -> Result<(), Fail> {
    for (slashed, name, values) in TABLES {
        let table = table_of(rt.alloc(), slashed, &[0, 1], name)?;
        assert!(rt; table.as_slice() == values.as_slice(), "{slashed} {name}");
    }
    Ok(())
}

#[test]
fn asks_the_second_input_first(rt: HostRuntime) -> Result<(), Fail> {
    let table = table_of(rt.alloc(), HYPHEN, &[1, 0], "y")?;
    assert!(rt; table.as_slice() == [false, true, false, false].as_slice());
    Ok(())
}
