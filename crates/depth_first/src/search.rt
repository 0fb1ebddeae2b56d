//! Which nodes a node leads to.

ghost use Rattle.std.specs.Prelude.{◌≡◌, ℕ, ◌+◌, ◌<◌, ◌≤◌, ◌||◌, ◌^◌, ◌∷◌, ◌++◌, [], List, Bool, true, false, map, length, slice_index, replicate, OnOk, IfOk, count_by};
ghost use Rattle.std.specs.List.{slice_index_or};
ghost use Rattle.depth_first.specs.Graph.{IsGraph, Reaches, has, edges_of};
ghost use Rattle.depth_first.specs.Search.{Spreads, AreReached, is_unreached};
ghost use Rattle.depth_first.specs.Views.{graph_of};

use std::alloc::{AllocError, Global};

/// Marks a node, and keeps it for later where it wasn't marked.
fn reach(target: u32, reached: &mut Vec<bool>, later: &mut Vec<u32>) -> Result<(), AllocError>
    requires { target < length reached.old.items }
    ensures { OnOk result (Spreads (target ∷ []) reached.old.items later.old.items reached.new.items later.new.items) }
{
    let was = reached[target as usize];
    if !was {
        reached[target as usize] = true;
        later.push(target)?;
    }
    Ok(())
}

/// Marks nodes, and keeps those for later that weren't marked.
fn reach_all(
    targets: &[u32],
    reached: &mut Vec<bool>,
    later: &mut Vec<u32>,
) -> Result<(), AllocError>
    requires { (i : ℕ) → i < length targets.now → slice_index targets.now i < length reached.old.items }
    ensures { OnOk result (Spreads targets.now reached.old.items later.old.items reached.new.items later.new.items) }
{
    for target in targets {
        reach(*target, reached, later)?;
    }
    Ok(())
}

/// No node is reached yet.
fn none_reached(alloc: Global, nodes: usize) -> Result<Vec<bool>, AllocError>
    ensures { IfOk result (λ v. v.items ≡ replicate nodes false) }
{
    vec![in alloc; false; nodes]
}

/// The nodes that a node leads to.
pub(crate) fn edges_at(edges: &[Vec<u32>], node: u32) -> &[u32]
    requires { node < length edges.now }
    ensures { result.now ≡ edges_of (graph_of edges.now) node }
{
    edges[node as usize].as_slice()
}

/// Which nodes a node leads to, directly or through others. Refuses for want of memory alone.
pub(crate) fn reached_from(
    alloc: Global,
    edges: &[Vec<u32>],
    node: u32,
) -> Result<Vec<bool>, AllocError>
    requires graph { IsGraph (graph_of edges.now) }
    requires inside { node < length edges.now }
    ensures { IfOk result (λ v. AreReached (graph_of edges.now) node v.items) }
{
    let mut reached = none_reached(alloc, edges.len())?;
    let mut later = Vec::new(alloc);
    reach_all(edges_at(edges, node), &mut reached, &mut later)?;
    'search: while let Some(next) = later.pop() {
        reach_all(edges_at(edges, next), &mut reached, &mut later)?;
    }
    Ok(reached)
}
