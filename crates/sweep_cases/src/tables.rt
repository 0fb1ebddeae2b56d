//! Tables that look random and are the same in each run, and their canonical files.
use canon_file::plain_canon;
use std::alloc::{AllocError, Global};
use std::test::Fail;

/// The most variables of a table here.
const MOST: u32 = 12;

/// A table of `n` variables, whose values a seed gives. It depends on the variables alone whose bits are set.
pub(crate) fn table_of(
    alloc: Global,
    n: u32,
    variables: usize,
    seed: u64,
) -> Result<Vec<bool>, AllocError> {
    let mut state = seed.wrapping_mul(0x9e37_79b9_7f4a_7c15) | 1;
    let mut table: Vec<bool> = Vec::new(alloc);
    for place in 0..1usize << n.min(MOST) {
        state ^= state << 13;
        state ^= state >> 7;
        state ^= state << 17;
        let value = match table.as_slice().get(place & variables) {
            Some(value) => *value,
            None => state >> 63 == 1,
        };
        table.push(value)?;
    }
    Ok(table)
}

/// The canonical file of a table of `n` variables.
pub(crate) fn file_of(alloc: Global, n: u32, table: &[bool]) -> Result<Vec<u8>, Fail> {
    if n > MOST || table.len() != 1usize << n {
        return Err("no table".into());
    }
    Ok(plain_canon(alloc, n, table)?)
}
