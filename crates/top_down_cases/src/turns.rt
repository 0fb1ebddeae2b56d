//! The turns of a conjunction of a large diagram with a small one.
ghost use Rattle.std.specs.Prelude.{◌≤◌, length};
ghost use Rattle.top_down_cases.specs.declared.sweeping.TheConstants.{LEAST_ROOM};

use crate::sweeping::{EMPTY, LEAST_ROOM, swept};
use case_tables::{FIRST, SECOND, operator, put_bytes};
use rec_words::{Ptr, Rec};
use shelf_memory::Bench;
use shelf_model::FileNo;
use std::alloc::Global;
use std::test::Fail;
use top_down_sweep::Product;

/// How many variables a half of the large diagram has.
const HALF: u16 = 14;

const VARIABLES: u32 = 28;

fn pointer_to(level: u16, number: u64) -> Ptr {
    Ptr::node(level.min(65_534), number.min(1 << 20))
}

/// The exclusive or of a value and of the variables from a level of the second half on that a mask names.
fn sum_of(level: u16, mask: u64, value: u64) -> Ptr {
    let mut level = level;
    let mut mask = mask;
    for _step in 0..HALF {
        if mask & 1 == 1 {
            return pointer_to(level, mask.saturating_sub(1).saturating_add(value));
        }
        mask >>= 1;
        level = level.saturating_add(1);
    }
    Ptr::terminal(value == 1)
}

/// Adds the record of a node, or of a trailer.
fn add(bytes: &mut Vec<u8>, first: u64, second: u64, third: u64) -> Result<(), Fail> {
    for word in [first, second, third] {
        bytes.extend_from_slice(&word.to_be_bytes())?;
    }
    Ok(())
}

/// Adds the nodes of a level of the second half. Each adds its variable to some of the later ones.
fn add_sums(bytes: &mut Vec<u8>, level: u16, count: u64) -> Result<(), Fail> {
    let below = level.saturating_add(1);
    for place in 0..count {
        let number = count.saturating_sub(1).saturating_sub(place);
        let (mask, value) = (number / 2, number % 2);
        let low = sum_of(below, mask, value);
        let high = sum_of(below, mask, 1 - value);
        add(
            bytes,
            pointer_to(level, number).word(),
            low.word(),
            high.word(),
        )?;
    }
    Ok(())
}

/// Adds the nodes of a level of the first half, all of which lead to different ones.
fn add_tree(bytes: &mut Vec<u8>, level: u16, count: u64) -> Result<(), Fail> {
    let below = level.saturating_add(1);
    for place in 0..count {
        let number = count.saturating_sub(1).saturating_sub(place);
        let child = number.saturating_mul(2);
        let low = pointer_to(below, child);
        let high = pointer_to(below, child.saturating_add(1));
        add(
            bytes,
            pointer_to(level, number).word(),
            low.word(),
            high.word(),
        )?;
    }
    Ok(())
}

/// Puts a file of these nodes with that root, and tells how many there are.
fn put_nodes(bench: &mut Bench, file: FileNo, nodes: Vec<u8>, root: Ptr) -> Result<u64, Fail> {
    let mut bytes = nodes;
    let count = bytes.len() as u64 / 24;
    add(&mut bytes, root.word(), count, u64::from(VARIABLES))?;
    put_bytes(bench, file, bytes.as_slice())?;
    Ok(count)
}

/// Puts a diagram of 3 * (2^14 - 1) nodes. The variables of its first half choose which of those of its second half
/// are added up.
fn put_large(alloc: Global, bench: &mut Bench) -> Result<u64, Fail> {
    let mut bytes = Vec::new(alloc);
    let mut level = 2 * HALF;
    let mut count = 1u64;
    for _level in 0..HALF {
        level = level.saturating_sub(1);
        count = count.saturating_mul(2);
        add_sums(&mut bytes, level, count)?;
    }
    for _level in 0..HALF {
        level = level.saturating_sub(1);
        count /= 2;
        add_tree(&mut bytes, level, count)?;
    }
    put_nodes(bench, FIRST, bytes, pointer_to(0, 0))
}

/// Puts the diagram that is 1 where all variables are.
fn put_cube(alloc: Global, bench: &mut Bench) -> Result<u64, Fail> {
    let mut bytes = Vec::new(alloc);
    let mut level = 2 * HALF;
    let mut below = Ptr::terminal(true);
    for _level in 0..2 * HALF {
        level = level.saturating_sub(1);
        let node = pointer_to(level, 0);
        add(
            &mut bytes,
            node.word(),
            Ptr::terminal(false).word(),
            below.word(),
        )?;
        below = node;
    }
    put_nodes(bench, SECOND, bytes, below)
}

// Whether the conjunction of two diagrams takes few turns, and puts so many arcs to nodes.
fn takes_few_turns(inner: u64, room: &mut [Rec], bench: &mut Bench) -> Result<bool, Fail>
    requires { LEAST_ROOM ≤ length room.old }
{
    let op = operator(0b1000);
    let operands = [FIRST, SECOND, SECOND];
    match swept(Product { op }, VARIABLES, operands, 0, room, bench)? {
        Some(arcs) => Ok(arcs.turns < 60_000 && arcs.made.inner_count == inner),
        None => Ok(false),
    }
}

// Puts both diagrams, and tells whether they have as many nodes as they have to.
fn put_both(alloc: Global, bench: &mut Bench) -> Result<bool, Fail> {
    let large = put_large(alloc, bench)?;
    let small = put_cube(alloc, bench)?;
    Ok(large == 49_149 && small == 28)
}

// The conjunction of the large diagram with the cube takes few turns: asks whose answer is known aren't made.
fn conjunction_takes_few_turns(alloc: Global) -> Result<bool, Fail> {
    let mut bench = Bench::empty(alloc);
    let both = put_both(alloc, &mut bench)?;
    let mut room = vec![in alloc; EMPTY; LEAST_ROOM]?;
    Ok(both && takes_few_turns(27, room.as_mut_slice(), &mut bench)?)
}

#[test]
fn a_conjunction_with_a_cube_takes_few_turns(rt: HostRuntime) -> Result<(), Fail> {
    let few = conjunction_takes_few_turns(rt.alloc())?;
    assert!(rt; few);
    Ok(())
}
