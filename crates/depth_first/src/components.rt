//! Numbers for nodes: nodes that reach one another have one number, and every edge leads to a node with a
//! number that isn't larger. Nothing is claimed of the numbers here. Whoever uses them tests them first.

ghost use Rattle.std.specs.Prelude.{◌≡◌, ◌<◌, length, IfOk};

use crate::walk::Frame;
use std::alloc::{AllocError, Global};

/// Tarjan's search: when each node was entered, the earliest node that is known to be reachable from it,
/// its number, the nodes without a number, and the way from the root. What is 0 isn't known yet.
#[derive(Drop)]
struct Components {
    entered: Vec<u32>,
    earliest: Vec<u32>,
    number: Vec<u32>,
    open: Vec<u32>,
    way: Vec<Frame>,
    entries: u32,
    count: u32,
}

/// The number of a node in a list of numbers.
fn read(numbers: &Vec<u32>, node: u32) -> u32 {
    numbers.get(node as usize).copied().unwrap_or(0)
}

/// Writes the number of a node, where it is one of the list.
fn write(numbers: &mut Vec<u32>, node: u32, number: u32)
    ensures { length numbers.new.items ≡ length numbers.old.items }
{
    if (node as usize) < numbers.len() {
        numbers[node as usize] = number;
    }
}

/// Enters a node: it has no number yet, and the way goes on from it. Refuses for want of memory alone.
fn enter(state: &mut Components, node: u32) -> Result<(), AllocError>
    ensures { length state.new.number.items ≡ length state.old.number.items }
{
    state.entries = state.entries.wrapping_add(1);
    write(&mut state.entered, node, state.entries);
    write(&mut state.earliest, node, state.entries);
    state.open.push(node)?;
    state.way.push(Frame { node, next: 0 })?;
    Ok(())
}

/// A node is known to reach another one that was entered then.
fn lower(state: &mut Components, node: u32, entry: u32)
    ensures { length state.new.number.items ≡ length state.old.number.items }
{
    let now = read(&state.earliest, node);
    write(&mut state.earliest, node, now.min(entry));
}

/// The nodes that were entered since this one get a number together.
fn close(state: &mut Components, node: u32)
    ensures { length state.new.number.items ≡ length state.old.number.items }
{
    state.count = state.count.wrapping_add(1);
    'open: while let Some(last) = state.open.pop() {
        write(&mut state.number, last, state.count);
        if last == node {
            break;
        }
    }
}

/// Leaves a node: it gets a number with those behind it where it reaches none that was entered before it.
fn leave(state: &mut Components, node: u32)
    ensures { length state.new.number.items ≡ length state.old.number.items }
{
    let earliest = read(&state.earliest, node);
    if earliest == read(&state.entered, node) {
        close(state, node);
    }
    if let Some(parent) = state.way.last().copied() {
        lower(state, parent.node, earliest);
    }
}

/// Follows an edge: its target is entered, or is one that was entered before.
fn follow(state: &mut Components, node: u32, target: u32) -> Result<(), AllocError>
    ensures { length state.new.number.items ≡ length state.old.number.items }
{
    let entry = read(&state.entered, target);
    if entry == 0 {
        enter(state, target)?;
    } else if read(&state.number, target) == 0 {
        lower(state, node, entry);
    }
    Ok(())
}

/// Follows the next edge of the last node of the way, or leaves that node.
fn turn(state: &mut Components, edges: &[Vec<u32>], frame: Frame) -> Result<(), AllocError>
    ensures { length state.new.number.items ≡ length state.old.number.items }
{
    let target = match edges.get(frame.node as usize) {
        Some(targets) => targets.get(frame.next).copied(),
        None => None,
    };
    match target {
        Some(target) => {
            state.way.push(Frame {
                node: frame.node,
                next: frame.next.wrapping_add(1),
            })?;
            follow(state, frame.node, target)
        }
        None => {
            leave(state, frame.node);
            Ok(())
        }
    }
}

/// Gives numbers to all nodes that a node reaches, itself among them.
fn enter_root(state: &mut Components, edges: &[Vec<u32>], root: u32) -> Result<(), AllocError>
    ensures { length state.new.number.items ≡ length state.old.number.items }
{
    if read(&state.entered, root) != 0 {
        return Ok(());
    }
    enter(state, root)?;
    for _turn in 0..u64::MAX {
        match state.way.pop() {
            Some(frame) => turn(state, edges, frame)?,
            None => break,
        }
    }
    Ok(())
}

/// A number for each node. Refuses for want of memory alone, and leaves nothing then.
pub(crate) fn component_numbers(alloc: Global, edges: &[Vec<u32>]) -> Result<Vec<u32>, AllocError>
    requires { length edges.now < 4294967294 }
    ensures { IfOk result (λ v. length v.items ≡ length edges.now) }
{
    let nodes = edges.len();
    let mut state = Components {
        entered: vec![in alloc; 0; nodes]?,
        earliest: vec![in alloc; 0; nodes]?,
        number: vec![in alloc; 0; nodes]?,
        open: Vec::new(alloc),
        way: Vec::new(alloc),
        entries: 0,
        count: 0,
    };
    for root in 0..nodes {
        enter_root(&mut state, edges, root as u32)?;
    }
    Ok(state.number)
}
