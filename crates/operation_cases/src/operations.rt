//! Operations on tables of three variables, beside tables that were worked out by hand.
use crate::reducing::{EMPTY, FIRST, LEAST_ROOM, SECOND, THIRD, bench_of, leaves};
use crate::sweeps::{choice, implies, product, quantified, restricted};
use bool_tables::{Bin, Quant};
use std::test::Fail;

const NO: bool = false;

const YES: bool = true;

/// Three tables: whether at least two of the variables are 1, whether the first and the last one differ, and the second
/// variable. The first variable is the highest bit of a place.
const TABLES: [[bool; 8]; 3] = [
    [NO, NO, NO, YES, NO, YES, YES, YES],
    [NO, YES, NO, YES, YES, NO, YES, NO],
    [NO, NO, YES, YES, NO, NO, YES, YES],
];

/// The operator that is 1 where its left operand alone is.
const WITHOUT: Bin = Bin {
    v00: NO,
    v01: NO,
    v10: YES,
    v11: NO,
};

// The first table without the second, and the second without the first: their ones are not the same.
fn products_leave(rt: HostRuntime) -> Result<bool, Fail> {
    let mut bench = bench_of(rt.alloc(), &TABLES)?;
    let mut room = vec![in rt.alloc(); EMPTY; LEAST_ROOM]?;
    let room = room.as_mut_slice();
    let left = [NO, NO, NO, NO, NO, YES, NO, YES];
    let made = product(WITHOUT, FIRST, SECOND, room, &mut bench)
        .ok()
        .flatten();
    if !leaves(rt.alloc(), &left, made, room, &mut bench)? {
        return Ok(false);
    }
    let right = [NO, YES, NO, NO, YES, NO, NO, NO];
    let made = product(WITHOUT, SECOND, FIRST, room, &mut bench)
        .ok()
        .flatten();
    leaves(rt.alloc(), &right, made, room, &mut bench)
}

#[test]
fn an_operator_leaves_the_canonical_file(rt: HostRuntime) -> Result<(), Fail> {
    let leave = products_leave(rt)?;
    assert!(rt; leave);
    Ok(())
}

// A table without itself is 0 everywhere; both operands are one file.
fn product_of_one_leaves(rt: HostRuntime) -> Result<bool, Fail> {
    let mut bench = bench_of(rt.alloc(), &TABLES)?;
    let mut room = vec![in rt.alloc(); EMPTY; LEAST_ROOM]?;
    let room = room.as_mut_slice();
    let made = product(WITHOUT, FIRST, FIRST, room, &mut bench)
        .ok()
        .flatten();
    leaves(rt.alloc(), &[NO; 8], made, room, &mut bench)
}

#[test]
fn an_operator_takes_one_file_twice(rt: HostRuntime) -> Result<(), Fail> {
    let leave = product_of_one_leaves(rt)?;
    assert!(rt; leave);
    Ok(())
}

// The first table where the second variable is 1, and else the second table.
fn choice_leaves(rt: HostRuntime) -> Result<bool, Fail> {
    let mut bench = bench_of(rt.alloc(), &TABLES)?;
    let mut room = vec![in rt.alloc(); EMPTY; LEAST_ROOM]?;
    let room = room.as_mut_slice();
    let chosen = [NO, YES, NO, YES, YES, NO, YES, YES];
    let made = choice(THIRD, FIRST, SECOND, room, &mut bench)
        .ok()
        .flatten();
    leaves(rt.alloc(), &chosen, made, room, &mut bench)
}

#[test]
fn a_choice_leaves_the_canonical_file(rt: HostRuntime) -> Result<(), Fail> {
    let leave = choice_leaves(rt)?;
    assert!(rt; leave);
    Ok(())
}

// With some value of the second variable at least two are 1 where one of the others is, and with each value where both
// are.
fn quantifiers_leave(rt: HostRuntime) -> Result<bool, Fail> {
    let mut bench = bench_of(rt.alloc(), &TABLES)?;
    let mut room = vec![in rt.alloc(); EMPTY; LEAST_ROOM]?;
    let room = room.as_mut_slice();
    let some = [NO, YES, NO, YES, YES, YES, YES, YES];
    let made = quantified(Quant::Exists, FIRST, 1, room, &mut bench)
        .ok()
        .flatten();
    if !leaves(rt.alloc(), &some, made, room, &mut bench)? {
        return Ok(false);
    }
    let each = [NO, NO, NO, NO, NO, YES, NO, YES];
    let made = quantified(Quant::Forall, FIRST, 1, room, &mut bench)
        .ok()
        .flatten();
    leaves(rt.alloc(), &each, made, room, &mut bench)
}

#[test]
fn quantifiers_leave_the_canonical_files(rt: HostRuntime) -> Result<(), Fail> {
    let leave = quantifiers_leave(rt)?;
    assert!(rt; leave);
    Ok(())
}

// Where the first variable is 0 at least two are 1 where both others are, and where it is 1 where one of them is.
fn restrictions_leave(rt: HostRuntime) -> Result<bool, Fail> {
    let mut bench = bench_of(rt.alloc(), &TABLES)?;
    let mut room = vec![in rt.alloc(); EMPTY; LEAST_ROOM]?;
    let room = room.as_mut_slice();
    let without = [NO, NO, NO, YES, NO, NO, NO, YES];
    let made = restricted(FIRST, 0, false, room, &mut bench).ok().flatten();
    if !leaves(rt.alloc(), &without, made, room, &mut bench)? {
        return Ok(false);
    }
    let with = [NO, YES, YES, YES, NO, YES, YES, YES];
    let made = restricted(FIRST, 0, true, room, &mut bench).ok().flatten();
    leaves(rt.alloc(), &with, made, room, &mut bench)
}

#[test]
fn restrictions_leave_the_canonical_files(rt: HostRuntime) -> Result<(), Fail> {
    let leave = restrictions_leave(rt)?;
    assert!(rt; leave);
    Ok(())
}

/// Whether all variables are 1, whether at least two of them are, and always.
const RISING: [[bool; 8]; 3] = [
    [NO, NO, NO, NO, NO, NO, NO, YES],
    [NO, NO, NO, YES, NO, YES, YES, YES],
    [YES; 8],
];

// Of each two of these the earlier one implies the later one, and not the other way round.
fn implications_hold(rt: HostRuntime) -> Result<bool, Fail> {
    let mut bench = bench_of(rt.alloc(), &RISING)?;
    let mut room = vec![in rt.alloc(); EMPTY; LEAST_ROOM]?;
    let room = room.as_mut_slice();
    for (f, g, wanted) in [
        (FIRST, SECOND, true),
        (SECOND, FIRST, false),
        (SECOND, THIRD, true),
        (THIRD, SECOND, false),
        (SECOND, SECOND, true),
    ] {
        if implies(f, g, room, &mut bench).ok().flatten() != Some(wanted) {
            return Ok(false);
        }
    }
    Ok(true)
}

#[test]
fn implications_are_answered(rt: HostRuntime) -> Result<(), Fail> {
    let hold = implications_hold(rt)?;
    assert!(rt; hold);
    Ok(())
}

/// The truth values as tables, and the first variable.
const CONSTANT: [[bool; 8]; 3] = [[YES; 8], [NO; 8], [NO, NO, NO, NO, YES, YES, YES, YES]];

// What is always 1 doesn't imply what is always 0, whose root and that of their arcs are truth values.
fn constants_are_answered(rt: HostRuntime) -> Result<bool, Fail> {
    let mut bench = bench_of(rt.alloc(), &CONSTANT)?;
    let mut room = vec![in rt.alloc(); EMPTY; LEAST_ROOM]?;
    let room = room.as_mut_slice();
    for (f, g, wanted) in [
        (FIRST, SECOND, false),
        (SECOND, FIRST, true),
        (SECOND, THIRD, true),
        (FIRST, THIRD, false),
    ] {
        if implies(f, g, room, &mut bench).ok().flatten() != Some(wanted) {
            return Ok(false);
        }
    }
    Ok(true)
}

#[test]
fn implications_of_constants_are_answered(rt: HostRuntime) -> Result<(), Fail> {
    let answered = constants_are_answered(rt)?;
    assert!(rt; answered);
    Ok(())
}
