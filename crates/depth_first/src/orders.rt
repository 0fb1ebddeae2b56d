//! The order of a walk, and the first node that lies on a cycle.

ghost use Rattle.std.specs.Prelude.{◌≡◌, ℕ, ◌+◌, ◌<◌, ◌≤◌, [], List, Bool, true, false, map, length, slice_index, IfOk, MatchOption, Some, None};
ghost use Rattle.depth_first.specs.Graph.{IsGraph, IsAcyclic, IsTopological, IsFirstOnCycle, Reaches, NeverRises, FallsAt, has, edges_of, visits};
ghost use Rattle.depth_first.specs.Walk.{IsWalk};
ghost use Rattle.depth_first.specs.Views.{graph_of};

use crate::components::component_numbers;
use crate::search::{edges_at, reached_from};
use crate::walk::{Walk, new_walk, visit_root};
use crate::walker::Walker;
use std::alloc::{AllocError, Global};

/// The nodes that are visited depth first from some nodes in order, each behind those that it leads to.
/// Refuses for want of memory alone, and leaves nothing then.
pub fn visit_order(alloc: Global, edges: &[Vec<u32>], roots: &[u32]) -> Result<Vec<u32>, AllocError>
    requires few { length edges.now < 4294967294 }
    requires graph { IsGraph (graph_of edges.now) }
    requires acyclic { IsAcyclic (graph_of edges.now) }
    requires inside { (i : ℕ) → i < length roots.now → slice_index roots.now i < length edges.now }
    ensures order { IfOk result (λ v. v.items ≡ visits (graph_of edges.now) roots.now) }
    ensures above { IfOk result (λ v. IsTopological (graph_of edges.now) v.items) }
    ensures nodes { IfOk result (λ v. (k : ℕ) → k < length v.items → slice_index v.items k < length edges.now) }
{
    let mut walker = Walker::new(alloc, edges.len())?;
    walker.visit(edges, roots)?;
    Ok(walker.walk.order)
}

/// A node that leads to itself, where there is one.
#[tactic(auto, using(crate::proofs::Passes::no_jumps))]
fn some_cycle(alloc: Global, edges: &[Vec<u32>]) -> Result<Option<u32>, AllocError>
    requires few { length edges.now < 4294967294 }
    requires graph { IsGraph (graph_of edges.now) }
    ensures { IfOk result (λ found. MatchOption found (IsAcyclic (graph_of edges.now))
        (λ t. (t < length edges.now) × Reaches (graph_of edges.now) t t)) }
{
    let mut walk = new_walk(alloc, edges.len())?;
    for root in 0..edges.len() as u32 {
        if let Some(found) = visit_root(edges, &[], &mut walk, root)? {
            return Ok(Some(found));
        }
    }
    Ok(None)
}

/// Whether each node has a number below the bound, or at it.
fn all_at_most(targets: &[u32], numbers: &[u32], bound: u32) -> bool
    requires { (i : ℕ) → i < length targets.now → slice_index targets.now i < length numbers.now }
    ensures { result ≡ true → (i : ℕ) → i < length targets.now →
        slice_index numbers.now (slice_index targets.now i) ≤ bound }
{
    for target in targets {
        if numbers[*target as usize] > bound {
            return false;
        }
    }
    true
}

/// Whether no edge leads to a node with a larger number.
fn never_rises(edges: &[Vec<u32>], numbers: &[u32]) -> bool
    requires few { length edges.now < 4294967294 }
    requires graph { IsGraph (graph_of edges.now) }
    requires size { length numbers.now ≡ length edges.now }
    ensures { result ≡ true → NeverRises (graph_of edges.now) numbers.now }
{
    for node in 0..edges.len() as u32 {
        if !all_at_most(edges_at(edges, node), numbers, numbers[node as usize]) {
            return false;
        }
    }
    true
}

/// Whether a node leads to smaller numbers alone.
fn falls_at(edges: &[Vec<u32>], numbers: &[u32], node: u32) -> bool
    requires graph { IsGraph (graph_of edges.now) }
    requires size { length numbers.now ≡ length edges.now }
    requires inside { node < length edges.now }
    ensures { result ≡ true → FallsAt (graph_of edges.now) numbers.now node }
{
    let number = numbers[node as usize];
    number > 0 && all_at_most(edges_at(edges, node), numbers, number - 1)
}

/// The first node that leads to itself, where one is known.
fn first_of(alloc: Global, edges: &[Vec<u32>], known: u32) -> Result<u32, AllocError>
    requires few { length edges.now < 4294967294 }
    requires graph { IsGraph (graph_of edges.now) }
    requires inside { known < length edges.now }
    requires around { Reaches (graph_of edges.now) known known }
    ensures { IfOk result (IsFirstOnCycle (graph_of edges.now)) }
{
    let numbers = component_numbers(alloc, edges)?;
    let falls = never_rises(edges, numbers.as_slice());
    for node in 0..known {
        // Where the numbers never rise, a node that they fall at needs no search of its own.
        if falls && falls_at(edges, numbers.as_slice(), node) {
            continue;
        }
        let reached = reached_from(alloc, edges, node)?;
        if reached[node as usize] {
            return Ok(node);
        }
    }
    Ok(known)
}

/// The first node that lies on a cycle, or none where there is no cycle. Refuses for want of memory alone, and
/// leaves nothing then.
pub fn first_cycle(alloc: Global, edges: &[Vec<u32>]) -> Result<Option<u32>, AllocError>
    requires few { length edges.now < 4294967294 }
    requires graph { IsGraph (graph_of edges.now) }
    ensures { IfOk result (λ found. MatchOption found (IsAcyclic (graph_of edges.now))
        (IsFirstOnCycle (graph_of edges.now))) }
{
    match some_cycle(alloc, edges)? {
        None => Ok(None),
        Some(known) => Ok(Some(first_of(alloc, edges, known)?)),
    }
}
