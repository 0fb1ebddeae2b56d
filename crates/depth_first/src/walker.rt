//! Walks one after the other, with the same tables.

ghost use Rattle.std.specs.Prelude.{◌≡◌, ℕ, ◌<◌, List, [], length, slice_index, replicate};
ghost use Rattle.std.specs.Prelude.{IfOk, OnOk, IsErr};
ghost use Rattle.depth_first.specs.Graph.{IsGraph, IsAcyclic, IsTopological, visits};
ghost use Rattle.depth_first.specs.Rest.{IsAtRest};
ghost use Rattle.depth_first.specs.Views.{graph_of};
ghost use Rattle.depth_first.specs.Jumps.{JumpRepeats};
ghost use Rattle.depth_first.specs.Tables.{IsBlankBut};
ghost use Rattle.depth_first.specs.declared.state.State.TheVariants.{New};

use crate::state::State;
use crate::table::make_blank;
use crate::walk::{Walk, new_walk, visit_roots};
use std::alloc::{AllocError, Global};

/// Tables for walks in graphs of one number of nodes. A walk takes time for what it visits, and not
/// for the nodes that it doesn't.
#[derive(Drop)]
pub struct Walker {
    pub(crate) walk: Walk,
    ghost rest: { IsAtRest walk },
}

impl Walker {
    ghost use Rattle.depth_first.specs.Walkers.{nodes_of, order_of};

    /// Tables for graphs of this number of nodes. Refuses for want of memory alone.
    pub fn new(alloc: Global, nodes: usize) -> Result<Walker, AllocError>
        requires { nodes < 4294967294 }
        ensures { IfOk result (λ w. nodes_of w ≡ nodes) }
    {
        Ok(Walker {
            walk: new_walk(alloc, nodes)?,
        })
    }

    /// Visits nodes depth first from some nodes in order. Refuses for want of memory alone, which leaves no
    /// order, and tables that serve as before.
    #[tactic(auto, using(crate::proofs::Passes::no_jumps))]
    pub fn visit(&mut self, edges: &[Vec<u32>], roots: &[u32]) -> Result<(), AllocError>
        requires nodes { length edges.now ≡ nodes_of self.old }
        requires graph { IsGraph (graph_of edges.now) }
        requires acyclic { IsAcyclic (graph_of edges.now) }
        requires inside { (i : ℕ) → i < length roots.now
            → slice_index roots.now i < length edges.now }
        ensures serves { nodes_of self.new ≡ nodes_of self.old }
        ensures order { OnOk result (order_of self.new ≡ visits (graph_of edges.now) roots.now) }
        ensures above { OnOk result (IsTopological (graph_of edges.now) (order_of self.new)) }
        ensures nodes { OnOk result ((k : ℕ) → k < length (order_of self.new)
            → slice_index (order_of self.new) k < length edges.now) }
        ensures none { IsErr result → order_of self.new ≡ [] }
    {
        visit_all(edges, &[], &mut self.walk, roots)
    }

    /// Visits nodes as `visit` does, and passes over the edges that the jumps pass over: a node takes time for those
    /// that are left. Refuses as `visit` does.
    pub fn visit_by(
        &mut self,
        edges: &[Vec<u32>],
        jumps: &[Vec<u32>],
        roots: &[u32],
    ) -> Result<(), AllocError>
        requires nodes { length edges.now ≡ nodes_of self.old }
        requires graph { IsGraph (graph_of edges.now) }
        requires acyclic { IsAcyclic (graph_of edges.now) }
        requires jumps { JumpRepeats (graph_of edges.now) (graph_of jumps.now) }
        requires inside { (i : ℕ) → i < length roots.now
            → slice_index roots.now i < length edges.now }
        ensures serves { nodes_of self.new ≡ nodes_of self.old }
        ensures order { OnOk result (order_of self.new ≡ visits (graph_of edges.now) roots.now) }
        ensures above { OnOk result (IsTopological (graph_of edges.now) (order_of self.new)) }
        ensures nodes { OnOk result ((k : ℕ) → k < length (order_of self.new)
            → slice_index (order_of self.new) k < length edges.now) }
        ensures none { IsErr result → order_of self.new ≡ [] }
    {
        visit_all(edges, jumps, &mut self.walk, roots)
    }

    /// The nodes in the order of the last walk, each behind those that it leads to.
    pub fn order(&self) -> &[u32]
        ensures order { result.now ≡ order_of self.now }
    {
        self.walk.order.as_slice()
    }
}

/// Makes the nodes of an order new again.
fn renew(states: &mut Vec<State>, order: &mut Vec<u32>)
    requires others { IsBlankBut order.old.items New states.old.items }
    requires inside { (k : ℕ) → k < length order.old.items
        → slice_index order.old.items k < length states.old.items }
    ensures states { states.new.items ≡ replicate (length states.old.items) New }
    ensures order { order.new.items ≡ order.old.items }
{
    make_blank(states.as_mut_slice(), order.as_slice(), State::New);
}

/// Gives a walk up: every node is new again.
fn give_up(walk: &mut Walk)
    requires { length walk.old.states.items < 4294967294 }
    ensures size { length walk.new.states.items ≡ length walk.old.states.items }
    ensures rest { IsAtRest walk.new }
    ensures order { walk.new.order.items ≡ [] }
{
    for node in 0..walk.states.len() {
        walk.states[node] = State::New;
    }
    walk.order.clear();
    walk.stack.clear();
}

/// Visits roots in order, and makes what was visited new again.
#[tactic(auto, using(crate::proofs::Roots::others_are_new))]
fn visit_all(
    edges: &[Vec<u32>],
    jumps: &[Vec<u32>],
    walk: &mut Walk,
    roots: &[u32],
) -> Result<(), AllocError>
    requires rest { IsAtRest walk.old }
    requires nodes { length edges.now ≡ length walk.old.states.items }
    requires graph { IsGraph (graph_of edges.now) }
    requires acyclic { IsAcyclic (graph_of edges.now) }
    requires jumps { JumpRepeats (graph_of edges.now) (graph_of jumps.now) }
    requires inside { (i : ℕ) → i < length roots.now → slice_index roots.now i < length edges.now }
    ensures rest { IsAtRest walk.new }
    ensures size { length walk.new.states.items ≡ length walk.old.states.items }
    ensures order { OnOk result (walk.new.order.items ≡ visits (graph_of edges.now) roots.now) }
    ensures above { OnOk result (IsTopological (graph_of edges.now) walk.new.order.items) }
    ensures nodes { OnOk result ((k : ℕ) → k < length walk.new.order.items
        → slice_index walk.new.order.items k < length edges.now) }
    ensures none { IsErr result → walk.new.order.items ≡ [] }
{
    walk.order.clear();
    match visit_roots(edges, jumps, walk, roots) {
        Ok(_) => {
            renew(&mut walk.states, &mut walk.order);
            Ok(())
        }
        Err(error) => {
            give_up(walk);
            Err(error)
        }
    }
}
