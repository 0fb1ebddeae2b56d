//! Which tables are found to be the same.
use crate::sweeping::{FIRST, SECOND, compare, put};
use crate::tables::{file_of, table_of};
use shelf_memory::Bench;
use std::test::Fail;

// Two tables are compared as they are, and each file with itself.
fn compares(rt: HostRuntime, n: u32, first: &[bool], second: &[bool]) -> Result<bool, Fail> {
    let mut bench = Bench::empty(rt.alloc());
    put(FIRST, file_of(rt.alloc(), n, first)?.as_slice(), &mut bench)?;
    put(
        SECOND,
        file_of(rt.alloc(), n, second)?.as_slice(),
        &mut bench,
    )?;
    let same = first == second;
    Ok(
        compare(n, FIRST, SECOND, &mut bench)? == Some(same)
            && compare(n, SECOND, FIRST, &mut bench)? == Some(same)
            && compare(n, FIRST, FIRST, &mut bench)? == Some(true),
    )
}

// A table, one that differs from it at a place, its complement, which has as many nodes, and the constant tables.
fn compares_a_table(rt: HostRuntime, n: u32, seed: u64) -> Result<bool, Fail> {
    let variables = if seed % 3 == 0 { 0x155 } else { usize::MAX };
    let table = table_of(rt.alloc(), n, variables, seed)?;
    let mut other = table_of(rt.alloc(), n, variables, seed)?;
    let mut changed = table_of(rt.alloc(), n, variables, seed)?;
    let mut constant = table_of(rt.alloc(), n, 0, seed)?;
    let place = (seed as usize).wrapping_mul(37) % changed.len().max(1);
    if let Some(value) = changed.as_mut_slice().get_mut(place) {
        *value = !*value;
    }
    for value in other.as_mut_slice() {
        *value = !*value;
    }
    let one = constant.as_slice().first().copied();
    for value in constant.as_mut_slice() {
        *value = one != Some(false);
    }
    let own = table_of(rt.alloc(), n, variables, seed)?;
    Ok(
        compares(rt, n, table.as_slice(), own.as_slice())?
            && compares(rt, n, table.as_slice(), changed.as_slice())?
            && compares(rt, n, table.as_slice(), other.as_slice())?
            && compares(rt, n, table.as_slice(), constant.as_slice())?,
    )
}

fn compares_tables(rt: HostRuntime) -> Result<bool, Fail> {
    for n in 0..11 {
        for seed in 1..13 {
            if !compares_a_table(rt, n, 16 * u64::from(n) + seed)? {
                return Ok(false);
            }
        }
    }
    Ok(true)
}

#[test]
fn tells_which_tables_are_the_same(rt: HostRuntime) -> Result<(), Fail> {
    let tells = compares_tables(rt)?;
    assert!(rt; tells);
    Ok(())
}

// Two variables have a node each, and the same pointers.
#[test]
fn tells_two_variables_apart(rt: HostRuntime) -> Result<(), Fail> {
    let apart = compares(
        rt,
        2,
        &[false, false, true, true],
        &[false, true, false, true],
    )?;
    assert!(rt; apart);
    Ok(())
}
