//! The values of tables at their assignments.
use crate::sweeping::{FIRST, evaluate, put};
use crate::tables::{file_of, table_of};
use shelf_memory::Bench;
use std::test::Fail;

/// A word of a script, behind which the bits stand.
const BEFORE: [u8; 5] = *b"eval ";

// The text with the digits of a place.
fn text_of(rt: HostRuntime, n: u32, place: usize) -> Result<Vec<u8>, Fail> {
    let mut text = Vec::new(rt.alloc());
    for byte in BEFORE {
        text.push(byte)?;
    }
    for level in 0..n.min(12) {
        let bit = place >> (n.min(12) - 1 - level) & 1 == 1;
        text.push(if bit { b'1' } else { b'0' })?;
    }
    text.push(b'\n')?;
    Ok(text)
}

// At each of so many places the value is the table's.
fn evaluates(rt: HostRuntime, n: u32, table: &[bool], step: usize) -> Result<bool, Fail> {
    let mut bench = Bench::empty(rt.alloc());
    put(FIRST, file_of(rt.alloc(), n, table)?.as_slice(), &mut bench)?;
    let mut place = 0usize;
    for value in table {
        if place % step.max(1) == 0 {
            let text = text_of(rt, n, place)?;
            if text.len() < 5 + n.min(12) as usize || n > 12 {
                return Ok(false);
            }
            if evaluate(n, text.as_slice(), 5, &mut bench)? != Some(*value) {
                return Ok(false);
            }
        }
        place = place.saturating_add(1);
    }
    Ok(true)
}

fn evaluates_tables(rt: HostRuntime) -> Result<bool, Fail> {
    for n in 0..7 {
        for seed in 1..9 {
            let variables = if seed % 3 == 0 { 0x15 } else { usize::MAX };
            let table = table_of(rt.alloc(), n, variables, 16 * u64::from(n) + seed)?;
            if !evaluates(rt, n, table.as_slice(), 1)? {
                return Ok(false);
            }
        }
    }
    let large = table_of(rt.alloc(), 10, usize::MAX, 7)?;
    let constant = table_of(rt.alloc(), 5, 0, 8)?;
    Ok(evaluates(rt, 10, large.as_slice(), 13)? && evaluates(rt, 5, constant.as_slice(), 1)?)
}

#[test]
fn gives_the_value_at_each_assignment(rt: HostRuntime) -> Result<(), Fail> {
    let gives = evaluates_tables(rt)?;
    assert!(rt; gives);
    Ok(())
}
