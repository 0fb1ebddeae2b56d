//! The plan of signals of a netlist, over tables that are blank.

ghost use Rattle.std.specs.Prelude.{◌≡◌, ℕ, ◌+◌, ◌<◌, ◌≤◌, ◌++◌, List, Bool, false, length, map};
ghost use Rattle.std.specs.Prelude.{replicate, slice_index, IfOk, OnOk, IsErrOf};
ghost use Rattle.std.specs.List.{flat_map};
ghost use Rattle.depth_first.specs.Graph.{has, edges_of, visits};
ghost use Rattle.depth_first.specs.Tables.{IsBlankBut};
ghost use Rattle.blif_reader.specs.Netlist.{IsNet, IsBlock, cover_at};
ghost use Rattle.blif_reader.specs.Answers.{net_of};
ghost use Rattle.net_plan.specs.Covers.{Draft, put, block};
ghost use Rattle.net_plan.specs.Drafts.{Drafts, Plans};
ghost use Rattle.net_plan.specs.Plan.{Planning, IsWanted, signal_draft, make_signals, drop_one, plan_steps, plan_made};
ghost use Rattle.net_plan.specs.Blank.{AreBlank};
ghost use Rattle.net_plan.specs.declared.fault.PlanFault.{PlanFault};

use crate::covers::push_block;
use crate::fault::PlanFault;
use crate::steps::put_step;
use blif_reader::Netlist;
use bool_tables::{Items, Step};
use std::alloc::{AllocError, Global};

/// The steps of some signals, and for each the number of the step that makes its diagram.
#[derive(Drop)]
pub struct NetPlan {
    pub steps: Items<Step>,
    pub made: Items<u32>,
}

/// For each signal the number of the step that made it, and whether it is wanted.
#[derive(Drop)]
pub(crate) struct Marks {
    pub made: Vec<u32>,
    pub kept: Vec<bool>,
}

/// The numbers of the steps that made some signals.
fn numbers_of(alloc: Global, signals: &[u32], made: &[u32]) -> Result<Vec<u32>, AllocError>
    requires { (i : ℕ) → i < length signals.now → slice_index signals.now i < length made.now }
    ensures { IfOk result (λ v. v.items ≡ map (slice_index made.now) signals.now) }
{
    let mut numbers = Vec::new(alloc);
    for signal in signals {
        let number = made[*signal as usize];
        numbers.push(number)?;
    }
    Ok(numbers)
}

/// The steps of one signal.
fn push_signal(
    first: u32,
    steps: &mut Vec<Step>,
    net: &Netlist,
    levels: &[u32],
    signal: u32,
    made: &[u32],
) -> Result<u32, PlanFault>
    requires sound { IsNet (net_of net.now) }
    requires levels { length levels.now ≡ (net_of net.now).inputs }
    requires signals { length made.now ≡ length (net_of net.now).names }
    requires inside { signal < length (net_of net.now).names }
    ensures { Drafts first steps.old.items steps.new.items
        (signal_draft (net_of net.now) levels.now first
        (record { steps = steps.old.items; made = made.now }) signal) result }
{
    if signal < net.input_count() {
        return put_step(
            first,
            steps,
            Step::Var {
                level: levels[signal as usize],
            },
        );
    }
    push_block(first, steps, net, signal, made)
}

/// The steps of signals in order.
fn push_signals(
    first: u32,
    steps: &mut Vec<Step>,
    net: &Netlist,
    levels: &[u32],
    visited: &[u32],
    made: &mut Vec<u32>,
) -> Result<(), PlanFault>
    requires sound { IsNet (net_of net.now) }
    requires levels { length levels.now ≡ (net_of net.now).inputs }
    requires signals { length made.old.items ≡ length (net_of net.now).names }
    requires inside { (k : ℕ) → k < length visited.now → slice_index visited.now k < length (net_of net.now).names }
    requires few { first + length steps.old.items ≤ 1048576 }
    requires others { IsBlankBut visited.now 0 made.old.items }
    ensures steps { Plans first steps.new.items (make_signals (net_of net.now) levels.now first
        (record { steps = steps.old.items; made = made.old.items }) visited.now).steps result }
    ensures size { length made.new.items ≡ length made.old.items }
    ensures others { IsBlankBut visited.now 0 made.new.items }
    ensures made { OnOk result (made.new.items
        ≡ (make_signals (net_of net.now) levels.now first
        (record { steps = steps.old.items; made = made.old.items }) visited.now).made) }
{
    for signal in visited {
        let number = push_signal(first, steps, net, levels, *signal, made.as_slice())?;
        made[*signal as usize] = number;
    }
    Ok(())
}

/// Marks the signals that are wanted.
fn mark_wanted(wanted: &[u32], kept: &mut Vec<bool>)
    requires none { kept.old.items ≡ replicate (length kept.old.items) false }
    requires inside { (i : ℕ) → i < length wanted.now
        → slice_index wanted.now i < length kept.old.items }
    ensures { IsWanted (length kept.old.items) wanted.now kept.new.items }
{
    for signal in wanted {
        kept[*signal as usize] = true;
    }
}

/// The signals that aren't wanted are dropped.
fn push_drops(
    first: u32,
    steps: &mut Vec<Step>,
    visited: &[u32],
    wanted: &[u32],
    kept: &[bool],
    made: &[u32],
) -> Result<(), PlanFault>
    requires kept { IsWanted (length made.now) wanted.now kept.now }
    requires inside { (k : ℕ) → k < length visited.now → slice_index visited.now k < length made.now }
    requires few { first + length steps.old.items ≤ 1048576 }
    ensures { Plans first steps.new.items (steps.old.items ++ flat_map
        (drop_one wanted.now made.now) visited.now) result }
{
    for signal in visited {
        if !kept[*signal as usize] {
            let gone = made[*signal as usize];
            put_step(first, steps, Step::Drop { gone })?;
        }
    }
    Ok(())
}

/// The steps that make the wanted signals, which were visited, numbered from `first` on.
pub(crate) fn plan_visited(
    alloc: Global,
    net: &Netlist,
    levels: &[u32],
    wanted: &[u32],
    first: u32,
    visited: &[u32],
    marks: &mut Marks,
) -> Result<NetPlan, PlanFault>
    requires sound { IsNet (net_of net.now) }
    requires levels { length levels.now ≡ (net_of net.now).inputs }
    requires wanted { (i : ℕ) → i < length wanted.now
        → slice_index wanted.now i < length (net_of net.now).names }
    requires first { first ≤ 1048576 }
    requires order { visited.now ≡ visits (net_of net.now).edges wanted.now }
    requires inside { (k : ℕ) → k < length visited.now
        → slice_index visited.now k < length (net_of net.now).names }
    requires blank { AreBlank (length (net_of net.now).names) marks.old.made.items marks.old.kept.items }

    // the plan
    ensures steps { IfOk result (λ plan.
        plan.steps ≡ plan_steps (net_of net.now) levels.now wanted.now first) }
    ensures made { IfOk result (λ plan.
        plan.made ≡ plan_made (net_of net.now) levels.now wanted.now first) }
    ensures few { IfOk result (λ plan. first + length plan.steps ≤ 1048576) }
    ensures too_many { IsErrOf result PlanFault.TooManySteps
        → 1048576 < first + length (plan_steps (net_of net.now) levels.now wanted.now first) }

    // and what is written of the tables
    ensures made_size { length marks.new.made.items ≡ length marks.old.made.items }
    ensures made_others { IsBlankBut visited.now 0 marks.new.made.items }
    ensures kept_size { length marks.new.kept.items ≡ length marks.old.kept.items }
    ensures kept_others { IsBlankBut wanted.now false marks.new.kept.items }
{
    let mut steps = Vec::new(alloc);
    push_signals(first, &mut steps, net, levels, visited, &mut marks.made)?;
    mark_wanted(wanted, &mut marks.kept);
    push_drops(
        first,
        &mut steps,
        visited,
        wanted,
        marks.kept.as_slice(),
        marks.made.as_slice(),
    )?;
    let numbers = numbers_of(alloc, wanted, marks.made.as_slice())?;
    Ok(NetPlan {
        steps: Items::of(steps),
        made: Items::of(numbers),
    })
}
