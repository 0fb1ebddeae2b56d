//! Plans of a netlist's signals, request after request.

ghost use Rattle.std.specs.Prelude.{◌≡◌, ℕ, ◌+◌, ◌<◌, ◌≤◌, List, length, slice_index};
ghost use Rattle.std.specs.Prelude.{IfOk, IsErrOf};
ghost use Rattle.depth_first.specs.Walkers.{nodes_of, order_of};
ghost use Rattle.blif_reader.specs.Answers.{net_of};
ghost use Rattle.net_plan.specs.Blank.{AreBlank};
ghost use Rattle.net_plan.specs.Plan.{plan_steps, plan_made};
ghost use Rattle.net_plan.specs.Values.{MakeTables};
ghost use Rattle.net_plan.specs.WellFormed.{StaysWellFormed};
ghost use Rattle.net_plan.specs.declared.fault.PlanFault.{PlanFault};

use crate::fault::PlanFault;
use crate::plan::{Marks, NetPlan, plan_visited};
use blif_reader::Netlist;
use depth_first::{Walker, make_blank};
use std::alloc::{AllocError, Global};

/// Tables with which a netlist's signals are planned, request after request. A request takes time
/// for the signals that it visits and for its steps, and none for the rest of the netlist.
#[derive(Drop)]
pub struct Planner {
    pub(crate) walker: Walker,
    marks: Marks,
    ghost blank: { AreBlank (nodes_of walker) marks.made.items marks.kept.items },
}

impl Planner {
    ghost use Rattle.net_plan.specs.Planners.{signals_of};

    /// Tables for a netlist, and for others with as many signals. Refuses for want of memory alone.
    pub fn new(alloc: Global, net: &Netlist) -> Result<Planner, AllocError>
        ensures { IfOk result (λ p. signals_of p ≡ length (net_of net.now).names) }
    {
        let signals = net.signal_count() as usize;
        Ok(Planner {
            walker: net.walker(alloc)?,
            marks: Marks {
                made: vec![in alloc; 0; signals]?,
                kept: vec![in alloc; false; signals]?,
            },
        })
    }

    /// The steps that make the wanted signals, as `plan_signals` gives them, and refused where it refuses them. The
    /// tables serve for further requests, after a refusal too.
    pub fn plan(
        &mut self,
        alloc: Global,
        net: &Netlist,
        levels: &[u32],
        wanted: &[u32],
        first: u32,
    ) -> Result<NetPlan, PlanFault>
        requires serves { signals_of self.old ≡ length (net_of net.now).names }
        requires levels { length levels.now ≡ (net_of net.now).inputs }
        requires wanted { (i : ℕ) → i < length wanted.now
            → slice_index wanted.now i < length (net_of net.now).names }
        requires first { first ≤ 1048576 }
        ensures serves { signals_of self.new ≡ signals_of self.old }
        ensures tables { IfOk result (λ plan.
            MakeTables (net_of net.now) levels.now wanted.now first plan.steps plan.made) }
        ensures goes_on { IfOk result (λ plan.
            StaysWellFormed levels.now wanted.now first plan.steps plan.made) }
        ensures steps { IfOk result (λ plan.
            plan.steps ≡ plan_steps (net_of net.now) levels.now wanted.now first) }
        ensures made { IfOk result (λ plan.
            plan.made ≡ plan_made (net_of net.now) levels.now wanted.now first) }
        ensures few { IfOk result (λ plan. first + length plan.steps ≤ 1048576) }
        ensures too_many { IsErrOf result PlanFault.TooManySteps
            → 1048576 < first + length (plan_steps (net_of net.now) levels.now wanted.now first) }
    {
        plan_with(
            alloc,
            net,
            levels,
            wanted,
            first,
            &mut self.walker,
            &mut self.marks,
        )
    }
}

/// Plans signals with tables that are blank, and makes them blank again.
fn plan_with(
    alloc: Global,
    net: &Netlist,
    levels: &[u32],
    wanted: &[u32],
    first: u32,
    walker: &mut Walker,
    marks: &mut Marks,
) -> Result<NetPlan, PlanFault>
    requires serves { nodes_of walker.old ≡ length (net_of net.now).names }
    requires blank { AreBlank (nodes_of walker.old) marks.old.made.items marks.old.kept.items }
    requires levels { length levels.now ≡ (net_of net.now).inputs }
    requires wanted { (i : ℕ) → i < length wanted.now
        → slice_index wanted.now i < length (net_of net.now).names }
    requires first { first ≤ 1048576 }
    ensures serves { nodes_of walker.new ≡ nodes_of walker.old }
    ensures blank { AreBlank (nodes_of walker.new) marks.new.made.items marks.new.kept.items }
    ensures tables { IfOk result (λ plan.
        MakeTables (net_of net.now) levels.now wanted.now first plan.steps plan.made) }
    ensures goes_on { IfOk result (λ plan.
        StaysWellFormed levels.now wanted.now first plan.steps plan.made) }
    ensures steps { IfOk result (λ plan.
        plan.steps ≡ plan_steps (net_of net.now) levels.now wanted.now first) }
    ensures made { IfOk result (λ plan.
        plan.made ≡ plan_made (net_of net.now) levels.now wanted.now first) }
    ensures few { IfOk result (λ plan. first + length plan.steps ≤ 1048576) }
    ensures too_many { IsErrOf result PlanFault.TooManySteps
        → 1048576 < first + length (plan_steps (net_of net.now) levels.now wanted.now first) }
{
    net.visit(walker, wanted)?;
    let planned = plan_visited(alloc, net, levels, wanted, first, walker.order(), marks);
    make_blank(marks.made.as_mut_slice(), walker.order(), 0);
    make_blank(marks.kept.as_mut_slice(), wanted, false);
    planned
}

/// The steps that make the wanted signals, numbered from `first` on. Each input is the variable of
/// its level, and `made[i]` is the number of the step that makes the diagram of the signal
/// `wanted[i]`. Where a netlist is asked more than once, a `Planner` makes its tables once.
///
/// Refuses as `TooManySteps` where the last step would have a number of 1,048,576 or more, and for want of memory.
/// Nothing is left then.
pub fn plan_signals(
    alloc: Global,
    net: &Netlist,
    levels: &[u32],
    wanted: &[u32],
    first: u32,
) -> Result<NetPlan, PlanFault>
    requires levels { length levels.now ≡ (net_of net.now).inputs }
    requires wanted { (i : ℕ) → i < length wanted.now
        → slice_index wanted.now i < length (net_of net.now).names }
    requires first { first ≤ 1048576 }
    ensures tables { IfOk result (λ plan.
        MakeTables (net_of net.now) levels.now wanted.now first plan.steps plan.made) }
    ensures goes_on { IfOk result (λ plan.
        StaysWellFormed levels.now wanted.now first plan.steps plan.made) }
    ensures steps { IfOk result (λ plan.
        plan.steps ≡ plan_steps (net_of net.now) levels.now wanted.now first) }
    ensures made { IfOk result (λ plan.
        plan.made ≡ plan_made (net_of net.now) levels.now wanted.now first) }
    ensures few { IfOk result (λ plan. first + length plan.steps ≤ 1048576) }
    ensures too_many { IsErrOf result PlanFault.TooManySteps
        → 1048576 < first + length (plan_steps (net_of net.now) levels.now wanted.now first) }
{
    let mut planner = Planner::new(alloc, net)?;
    planner.plan(alloc, net, levels, wanted, first)
}
