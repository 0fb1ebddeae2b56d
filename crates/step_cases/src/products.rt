//! Products of two diagrams that the room holds, which leave no arcs, and of some that it doesn't hold.
use crate::given::Given;
use crate::steps::{LARGE_ROOM, LEAST_ROOM, NUMBER, TWO, holds, operator_on};
use case_tables::{FIRST, put_bytes};
use file_numbers::{ends_file, inner_file};
use shelf_memory::Bench;
use shelf_model::SortFault;
use std::alloc::{AllocError, Global};
use std::test::Fail;

/// So many variables that the least room doesn't hold the pairs of two random tables.
const MANY: u32 = 17;

/// So many variables that a table has few nodes.
const FEW: u32 = 5;

/// The exclusive or, whose value always hangs on both operands.
const DIFFER: u32 = 0b0110;

/// The bytes of a node, of which the second eight are its low pointer.
const NODE: usize = 24;

const LOW: usize = 8;

// Whether the step has left arcs.
fn has_arcs(bench: &Bench) -> bool {
    !bench.file(inner_file(NUMBER)).is_empty() || !bench.file(ends_file(NUMBER)).is_empty()
}

// Whether an operator on two tables that depend on each of so many variables makes the right file, and leaves no arcs.
fn leaves_no_arcs(n: u32, digits: u32, given: &mut Given) -> Result<bool, Fail> {
    given.take_seed(n, 0)?;
    Ok(given.makes(operator_on(digits, TWO))? && !has_arcs(&given.bench))
}

// So does each operator on small tables in the least room.
fn small_products_leave_no_arcs(alloc: Global) -> Result<bool, Fail> {
    let mut given = Given::room_of(alloc, LEAST_ROOM)?;
    for n in 2..9 {
        for digits in 0..16 {
            if !leaves_no_arcs(n, digits, &mut given)? {
                return Ok(false);
            }
        }
    }
    Ok(true)
}

#[test]
fn small_products_need_no_sweep(rt: HostRuntime) -> Result<(), Fail> {
    holds(&rt, small_products_leave_no_arcs(rt.alloc()))
}

// How many turns the right file of an exclusive or of large tables takes, and whether arcs are left; none where it isn't
// made.
fn turns_of(given: &mut Given) -> Result<Option<(u64, bool)>, Fail> {
    given.take_seed(MANY, 0)?;
    let made = given.make_right(operator_on(DIFFER, TWO))?;
    Ok(match made {
        Some(made) => Some((made.turns, has_arcs(&given.bench))),
        None => None,
    })
}

// The least room doesn't hold two large tables: sweeps make the right file, and leave arcs. More room makes it without
// them, in fewer turns.
fn joins_with_more_room(given: &mut Given) -> Result<bool, Fail> {
    let least = turns_of(given)?;
    given.take_room(LARGE_ROOM)?;
    let large = turns_of(given)?;
    Ok(match (least, large) {
        (Some((swept, true)), Some((joined, false))) => joined < swept,
        _ => false,
    })
}

#[test]
fn a_product_that_the_room_holds_needs_no_sweep(rt: HostRuntime) -> Result<(), Fail> {
    let mut given = Given::room_of(rt.alloc(), LEAST_ROOM)?;
    holds(&rt, joins_with_more_room(&mut given))
}

// The bytes with another one at a place, which is the first one of no pointer.
fn with_no_pointer(alloc: Global, bytes: &[u8], at: usize) -> Result<Vec<u8>, AllocError> {
    let mut changed = Vec::from_slice(alloc, bytes)?;
    if let Some(byte) = changed.as_mut_slice().get_mut(at) {
        *byte = 0xff;
    }
    Ok(changed)
}

// Whether the exclusive or of two files finds the first one damaged, of which these are the bytes.
fn finds_damage(bytes: &[u8], given: &mut Given) -> Result<bool, Fail> {
    put_bytes(&mut given.bench, FIRST, bytes)?;
    Ok(match given.make(operator_on(DIFFER, TWO)) {
        Err(SortFault::Damaged { file, .. }) => file == FIRST,
        _ => false,
    })
}

// Whether it does where the low pointer of a node is none.
fn wrong_pointer_is_found(bytes: &[u8], node: usize, given: &mut Given) -> Result<bool, Fail> {
    let at = node.saturating_mul(NODE).saturating_add(LOW);
    let changed = with_no_pointer(given.alloc, bytes, at)?;
    finds_damage(changed.as_slice(), given)
}

// A node with a low pointer that is none is found, wherever it stands.
fn wrong_pointers_are_found(given: &mut Given) -> Result<bool, Fail> {
    given.take_seed(FEW, 2)?;
    let bytes = Vec::from_slice(given.alloc, given.bench.file(FIRST))?;
    for node in 0..(bytes.len() / NODE).saturating_sub(1) {
        if !wrong_pointer_is_found(bytes.as_slice(), node, given)? {
            return Ok(false);
        }
    }
    Ok(bytes.len() > NODE)
}

#[test]
fn a_pointer_that_is_none_is_found(rt: HostRuntime) -> Result<(), Fail> {
    let mut given = Given::room_of(rt.alloc(), LEAST_ROOM)?;
    holds(&rt, wrong_pointers_are_found(&mut given))
}
