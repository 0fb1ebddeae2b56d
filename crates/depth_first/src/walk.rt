//! One walk, step by step.

ghost use Rattle.std.specs.Prelude.{◌≡◌, ◌^◌, ℕ, ◌+◌, ◌-◌, ◌<◌, ◌≤◌, ◌++◌, ◌∷◌, [], List, map, length, take, drop, slice_index, slice_set, replicate, OnOk, IfOk, MatchOption, Some, None};
ghost use Rattle.depth_first.specs.Graph.{IsGraph, Reaches, edges_of};
ghost use Rattle.depth_first.specs.Walk.{IsWalk, StepsTo, Visited, WalkOver};
ghost use Rattle.depth_first.specs.declared.state.State.TheVariants.{New, OnWay, Done};
ghost use Rattle.depth_first.specs.Views.{graph_of};
ghost use Rattle.depth_first.specs.Jumps.{JumpRepeats};

use crate::jumps::jump;
use crate::state::{State, is_done};
use std::alloc::{AllocError, Global};

/// A node that was entered, and how many of its edges were followed.
#[derive(Clone, Copy)]
pub(crate) struct Frame {
    pub node: u32,
    pub next: usize,
}

/// Where each node stands, the nodes that were left in their order, and the way from the root.
#[derive(Drop)]
pub(crate) struct Walk {
    pub states: Vec<State>,
    pub order: Vec<u32>,
    pub stack: Vec<Frame>,
}

/// The frame's node is left: it joins the order.
fn leave(walk: &mut Walk, frame: Frame) -> Result<(), AllocError>
    requires { frame.node < length walk.old.states.items }
    ensures size { length walk.new.states.items ≡ length walk.old.states.items }
    ensures states { OnOk result (walk.new.states.items ≡ slice_set walk.old.states.items frame.node Done) }
    ensures order { OnOk result (walk.new.order.items ≡ walk.old.order.items ++ frame.node ∷ []) }
    ensures stack { OnOk result (walk.new.stack.items ≡ walk.old.stack.items) }
{
    walk.states[frame.node as usize] = State::Done;
    walk.order.push(frame.node)?;
    Ok(())
}

/// The edges of the frame's node before this one were followed.
fn follow(walk: &mut Walk, frame: Frame, next: usize) -> Result<(), AllocError>
    ensures size { length walk.new.states.items ≡ length walk.old.states.items }
    ensures states { OnOk result (walk.new.states.items ≡ walk.old.states.items) }
    ensures order { OnOk result (walk.new.order.items ≡ walk.old.order.items) }
    ensures stack { OnOk result (walk.new.stack.items ≡ walk.old.stack.items
        ++ record { node = frame.node; next = next } ∷ []) }
{
    walk.stack.push(Frame {
        node: frame.node,
        next,
    })?;
    Ok(())
}

/// The way goes on to a node, behind the frame's.
fn enter(walk: &mut Walk, frame: Frame, node: u32) -> Result<(), AllocError>
    requires { node < length walk.old.states.items }
    ensures size { length walk.new.states.items ≡ length walk.old.states.items }
    ensures states { OnOk result (walk.new.states.items ≡ slice_set walk.old.states.items node OnWay) }
    ensures order { OnOk result (walk.new.order.items ≡ walk.old.order.items) }
    ensures stack { OnOk result (walk.new.stack.items ≡
        (walk.old.stack.items ++ frame ∷ []) ++ record { node = node; next = 0 } ∷ []) }
{
    walk.states[node as usize] = State::OnWay;
    walk.stack.push(frame)?;
    walk.stack.push(Frame { node, next: 0 })?;
    Ok(())
}

/// One step of a walk whose last frame was taken off. The answer is a node that leads to itself.
pub(crate) fn step(
    edges: &[Vec<u32>],
    jumps: &[Vec<u32>],
    walk: &mut Walk,
    frame: Frame,
) -> Result<Option<u32>, AllocError>
    requires graph { IsGraph (graph_of edges.now) }
    requires jumps { JumpRepeats (graph_of edges.now) (graph_of jumps.now) }
    requires before { IsWalk (graph_of edges.now) walk.old.states.items walk.old.order.items
        (walk.old.stack.items ++ frame ∷ []) }
    ensures size { length walk.new.states.items ≡ length walk.old.states.items }
    ensures walked { IfOk result (λ found. MatchOption found
        (StepsTo (graph_of edges.now) walk.old.states.items walk.old.order.items
        (walk.old.stack.items ++ frame ∷ []) walk.new.states.items walk.new.order.items walk.new.stack.items)
        (λ t. (t < length edges.now) × Reaches (graph_of edges.now) t t)) }
{
    let targets = edges[frame.node as usize].as_slice();
    if frame.next >= targets.len() {
        leave(walk, frame)?;
        return Ok(None);
    }
    let target = targets[frame.next];
    let here = walk.states[target as usize];
    match here {
        State::Done => {
            // Edges that the jump passes lead to nodes that were left.
            follow(walk, frame, jump(jumps, frame.node, frame.next))?;
            Ok(None)
        }
        State::New => {
            enter(walk, frame, target)?;
            Ok(None)
        }
        State::OnWay => Ok(Some(target)),
    }
}

/// One step of a walk. The answer is a node that leads to itself.
fn last_step(
    edges: &[Vec<u32>],
    jumps: &[Vec<u32>],
    walk: &mut Walk,
) -> Result<Option<u32>, AllocError>
    requires graph { IsGraph (graph_of edges.now) }
    requires jumps { JumpRepeats (graph_of edges.now) (graph_of jumps.now) }
    requires before { IsWalk (graph_of edges.now) walk.old.states.items walk.old.order.items walk.old.stack.items }
    requires left { 0 < length walk.old.stack.items }
    ensures size { length walk.new.states.items ≡ length walk.old.states.items }
    ensures walked { IfOk result (λ found. MatchOption found
        (StepsTo (graph_of edges.now) walk.old.states.items walk.old.order.items walk.old.stack.items
        walk.new.states.items walk.new.order.items walk.new.stack.items)
        (λ t. (t < length edges.now) × Reaches (graph_of edges.now) t t)) }
{
    match walk.stack.pop() {
        Some(frame) => step(edges, jumps, walk, frame),
        None => Ok(None),
    }
}

/// The way begins at a node.
fn begin(walk: &mut Walk, node: u32) -> Result<(), AllocError>
    requires { node < length walk.old.states.items }
    ensures size { length walk.new.states.items ≡ length walk.old.states.items }
    ensures states { OnOk result (walk.new.states.items ≡ slice_set walk.old.states.items node OnWay) }
    ensures order { OnOk result (walk.new.order.items ≡ walk.old.order.items) }
    ensures stack { OnOk result (walk.new.stack.items ≡ walk.old.stack.items ++ record { node = node; next = 0 } ∷ []) }
{
    walk.states[node as usize] = State::OnWay;
    walk.stack.push(Frame { node, next: 0 })?;
    Ok(())
}

/// Visits a root. The answer is a node that leads to itself.
pub(crate) fn visit_root(
    edges: &[Vec<u32>],
    jumps: &[Vec<u32>],
    walk: &mut Walk,
    root: u32,
) -> Result<Option<u32>, AllocError>
    requires graph { IsGraph (graph_of edges.now) }
    requires jumps { JumpRepeats (graph_of edges.now) (graph_of jumps.now) }
    requires inside { root < length edges.now }
    requires before { IsWalk (graph_of edges.now) walk.old.states.items walk.old.order.items walk.old.stack.items }
    requires empty { walk.old.stack.items ≡ [] }
    ensures size { length walk.new.states.items ≡ length walk.old.states.items }
    ensures walked { IfOk result (λ found. MatchOption found
        (Visited (graph_of edges.now) walk.old.order.items root walk.new.states.items walk.new.order.items
        walk.new.stack.items) (λ t. (t < length edges.now) × Reaches (graph_of edges.now) t t)) }
{
    let state = walk.states[root as usize];
    if is_done(state) {
        return Ok(None);
    }
    begin(walk, root)?;
    'way: while !walk.stack.is_empty() {
        if let Some(found) = last_step(edges, jumps, walk)? {
            return Ok(Some(found));
        }
    }
    Ok(None)
}

/// Visits roots in order. The answer is a node that leads to itself.
pub(crate) fn visit_roots(
    edges: &[Vec<u32>],
    jumps: &[Vec<u32>],
    walk: &mut Walk,
    roots: &[u32],
) -> Result<Option<u32>, AllocError>
    requires graph { IsGraph (graph_of edges.now) }
    requires jumps { JumpRepeats (graph_of edges.now) (graph_of jumps.now) }
    requires inside { (i : ℕ) → i < length roots.now → slice_index roots.now i < length edges.now }
    requires before { IsWalk (graph_of edges.now) walk.old.states.items walk.old.order.items walk.old.stack.items }
    requires empty { walk.old.stack.items ≡ [] }
    requires none { walk.old.order.items ≡ [] }
    ensures size { length walk.new.states.items ≡ length walk.old.states.items }
    ensures walked { IfOk result (λ found. MatchOption found
        (WalkOver (graph_of edges.now) roots.now walk.new.states.items walk.new.order.items walk.new.stack.items)
        (λ t. (t < length edges.now) × Reaches (graph_of edges.now) t t)) }
{
    for root in roots {
        if let Some(found) = visit_root(edges, jumps, walk, *root)? {
            return Ok(Some(found));
        }
    }
    Ok(None)
}

/// A walk in which every node is new.
pub(crate) fn new_walk(alloc: Global, nodes: usize) -> Result<Walk, AllocError>
    requires { nodes < 4294967294 }
    ensures states { IfOk result (λ w. w.states.items ≡ replicate nodes New) }
    ensures order { IfOk result (λ w. w.order.items ≡ []) }
    ensures stack { IfOk result (λ w. w.stack.items ≡ []) }
{
    Ok(Walk {
        states: vec![in alloc; State::New; nodes]?,
        order: Vec::new(alloc),
        stack: Vec::new(alloc),
    })
}
