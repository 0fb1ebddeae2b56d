//! The steps of a block's cover.

ghost use Rattle.std.specs.Prelude.{◌≡◌, ◌+◌, ◌<◌, ◌≤◌, ◌++◌, ◌∷◌, [], List, Bool, true, false, length, drop, take};
ghost use Rattle.std.specs.Prelude.{map, slice_index};
ghost use Rattle.std.specs.List.{slice_index_or};
ghost use Rattle.bool_tables.specs.declared.steps.Step.TheVariants.{Const};
ghost use Rattle.depth_first.specs.Graph.{edges_of};
ghost use Rattle.blif_reader.specs.Netlist.{IsNet, IsBlock, cover_at};
ghost use Rattle.blif_reader.specs.Answers.{net_of};
ghost use Rattle.net_plan.specs.Covers.{Draft, put, join, column, columns, cube, summed, row, rows, signed, block};
ghost use Rattle.net_plan.specs.Drafts.{Drafts};

use crate::fault::PlanFault;
use crate::steps::{BOTH, EITHER, LEFT_ALONE, NOT_BOTH, join_steps, put_step};
use blif_reader::Netlist;
use bool_tables::Step;

/// A cube gets one more column.
fn push_column(
    first: u32,
    steps: &mut Vec<Step>,
    cell: u8,
    at: u32,
    signal: u32,
) -> Result<u32, PlanFault>
    requires { first + length steps.old.items ≤ 1048576 }
    ensures { Drafts first steps.old.items steps.new.items
        (column first (record { steps = steps.old.items; at = at }) cell signal) result }
{
    if cell == b'1' {
        join_steps(first, steps, BOTH, at, signal)
    } else if cell == b'0' {
        join_steps(first, steps, LEFT_ALONE, at, signal)
    } else {
        Ok(at)
    }
}

/// The cube of a row of a block, from the steps that made the signals. Columns that the netlist passes over have a
/// hyphen, and add nothing.
#[tactic(auto, using(crate::proofs::Planning::reads_inside))]
fn push_cube(
    first: u32,
    steps: &mut Vec<Step>,
    net: &Netlist,
    signal: u32,
    place: u32,
    made: &[u32],
) -> Result<u32, PlanFault>
    requires sound { IsNet (net_of net.now) }
    requires block { IsBlock (net_of net.now) signal }
    requires inside { place < length (cover_at (net_of net.now) signal).rows }
    requires signals { length made.now ≡ length (net_of net.now).names }
    ensures { Drafts first steps.old.items steps.new.items
        (cube first steps.old.items (slice_index_or (cover_at (net_of net.now) signal).rows place [])
        (map (slice_index made.now) (edges_of (net_of net.now).edges signal))) result }
{
    let inputs = net.block_inputs(signal);
    let cells = net.row(signal, place);
    let mut at = put_step(first, steps, Step::Const { value: true })?;
    let mut column = 0;
    'columns: while column < inputs.len() {
        let number = made[inputs[column] as usize];
        at = push_column(first, steps, cells[column], at, number)?;
        column = net.next_column(signal, column);
    }
    Ok(at)
}

/// The sum of what was summed and a cube; both are dropped.
fn push_sum(first: u32, steps: &mut Vec<Step>, sum: u32, cube: u32) -> Result<u32, PlanFault>
    ensures { Drafts first steps.old.items steps.new.items
        (summed first (record { steps = steps.old.items; at = sum })
        (record { steps = steps.old.items; at = cube })) result }
{
    let made = put_step(
        first,
        steps,
        Step::Pair {
            op: EITHER,
            left: sum,
            right: cube,
        },
    )?;
    put_step(first, steps, Step::Drop { gone: sum })?;
    put_step(first, steps, Step::Drop { gone: cube })?;
    Ok(made)
}

/// A sum gets one more row.
fn push_row(
    first: u32,
    steps: &mut Vec<Step>,
    sum: u32,
    net: &Netlist,
    signal: u32,
    place: u32,
    made: &[u32],
) -> Result<u32, PlanFault>
    requires sound { IsNet (net_of net.now) }
    requires block { IsBlock (net_of net.now) signal }
    requires inside { place < length (cover_at (net_of net.now) signal).rows }
    requires signals { length made.now ≡ length (net_of net.now).names }
    ensures { Drafts first steps.old.items steps.new.items
        (row first (record { steps = steps.old.items; at = sum })
        (slice_index_or (cover_at (net_of net.now) signal).rows place [])
        (map (slice_index made.now) (edges_of (net_of net.now).edges signal))) result }
{
    let cube = push_cube(first, steps, net, signal, place, made)?;
    push_sum(first, steps, sum, cube)
}

/// The complement of a sum, where the rows have output 0.
fn push_sign(first: u32, steps: &mut Vec<Step>, value: bool, sum: u32) -> Result<u32, PlanFault>
    requires { first + length steps.old.items ≤ 1048576 }
    ensures { Drafts first steps.old.items steps.new.items
        (signed first value (record { steps = steps.old.items; at = sum })) result }
{
    if value {
        return Ok(sum);
    }
    join_steps(first, steps, NOT_BOTH, sum, sum)
}

/// The rows of a block, from the steps that made the signals.
fn push_rows(
    first: u32,
    steps: &mut Vec<Step>,
    net: &Netlist,
    signal: u32,
    made: &[u32],
) -> Result<u32, PlanFault>
    requires sound { IsNet (net_of net.now) }
    requires block { IsBlock (net_of net.now) signal }
    requires signals { length made.now ≡ length (net_of net.now).names }
    ensures { Drafts first steps.old.items steps.new.items
        (rows first (put first steps.old.items (Const false)) (cover_at (net_of net.now) signal).rows
        (map (slice_index made.now) (edges_of (net_of net.now).edges signal))) result }
{
    let mut sum = put_step(first, steps, Step::Const { value: false })?;
    for place in 0..net.row_count(signal) {
        sum = push_row(first, steps, sum, net, signal, place, made)?;
    }
    Ok(sum)
}

/// A block, from the steps that made the signals.
pub(crate) fn push_block(
    first: u32,
    steps: &mut Vec<Step>,
    net: &Netlist,
    signal: u32,
    made: &[u32],
) -> Result<u32, PlanFault>
    requires sound { IsNet (net_of net.now) }
    requires block { IsBlock (net_of net.now) signal }
    requires signals { length made.now ≡ length (net_of net.now).names }
    ensures { Drafts first steps.old.items steps.new.items
        (block first steps.old.items (cover_at (net_of net.now) signal).value
        (cover_at (net_of net.now) signal).rows
        (map (slice_index made.now) (edges_of (net_of net.now).edges signal))) result }
{
    let sum = push_rows(first, steps, net, signal, made)?;
    push_sign(first, steps, net.row_output(signal), sum)
}
