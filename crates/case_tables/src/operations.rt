//! What operations make of tables, place by place.
use bool_tables::{Bin, Quant};
use std::alloc::{AllocError, Global};

/// The operator whose four values are the binary digits of a number.
pub fn operator(digits: u32) -> Bin {
    Bin {
        v00: digits & 1 != 0,
        v01: digits & 2 != 0,
        v10: digits & 4 != 0,
        v11: digits & 8 != 0,
    }
}

fn value_at(table: &[bool], place: usize) -> bool {
    table.get(place).copied() == Some(true)
}

/// The table of an operator on two.
pub fn product_of(
    alloc: Global,
    digits: u32,
    left: &[bool],
    right: &[bool],
) -> Result<Vec<bool>, AllocError> {
    let op = operator(digits);
    let mut made = Vec::new(alloc);
    for place in 0..left.len() {
        made.push(op.value(value_at(left, place), value_at(right, place)))?;
    }
    Ok(made)
}

/// The table of the choice between two by a third.
pub fn choice_of(
    alloc: Global,
    test: &[bool],
    yes: &[bool],
    no: &[bool],
) -> Result<Vec<bool>, AllocError> {
    let mut made = Vec::new(alloc);
    for place in 0..test.len() {
        let chosen = if value_at(test, place) { yes } else { no };
        made.push(value_at(chosen, place))?;
    }
    Ok(made)
}

/// The bit of a level in the places of a table, or 0 where the table isn't of so many variables.
fn bit(n: u32, level: u32) -> usize {
    match n.checked_sub(level) {
        None | Some(0) => 0,
        Some(below) => 1usize << (below - 1).min(20),
    }
}

/// The table in which a variable has a value.
pub fn restricted_of(
    alloc: Global,
    n: u32,
    level: u32,
    value: bool,
    table: &[bool],
) -> Result<Vec<bool>, AllocError> {
    let mut made = Vec::new(alloc);
    let bit = bit(n, level);
    for place in 0..table.len() {
        let there = if value { place | bit } else { place & !bit };
        made.push(value_at(table, there))?;
    }
    Ok(made)
}

/// The table of a quantifier over a variable.
pub fn quantified_of(
    alloc: Global,
    n: u32,
    kind: Quant,
    level: u32,
    table: &[bool],
) -> Result<Vec<bool>, AllocError> {
    let low = restricted_of(alloc, n, level, false, table)?;
    let high = restricted_of(alloc, n, level, true, table)?;
    let digits = match kind {
        Quant::Exists => 0b1110,
        Quant::Forall => 0b1000,
    };
    product_of(alloc, digits, low.as_slice(), high.as_slice())
}
