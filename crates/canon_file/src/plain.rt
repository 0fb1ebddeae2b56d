ghost use Rattle.std.specs.Prelude.{◌≡◌, ◌^◌, ◌≤◌, ◌++◌, length, map, IfOk, OnOk};
ghost use Rattle.rec_words.specs.Words.{terminal};
ghost use Rattle.canon_file.specs.Canon.{trailer_bytes, canon_bytes};

use crate::level::{add_level, add_word};
use rec_words::{NODE_SIZE, Ptr};
use std::alloc::{AllocError, Global};

/// The canonical file of a table of at most 20 variables, made level by level from the whole table.
/// It is plain and slow, for tests and for comparison.
pub fn plain_canon(alloc: Global, n: u32, table: &[bool]) -> Result<Vec<u8>, AllocError>
    requires few { n ≤ 20 }
    requires whole { length table.now ≡ 2 ^ n }
    ensures { IfOk result (λ bytes. bytes.items ≡ canon_bytes n table.now) }
{
    let mut bytes = Vec::new(alloc);
    let mut pointers = terminals(alloc, table)?;
    for done in 0..n {
        let level = (n - 1 - done) as u16;
        pointers = add_level(alloc, level, pointers.as_slice(), &mut bytes)?;
    }
    let count = bytes.len() as u64 / NODE_SIZE;
    add_trailer(pointers[0], count, u64::from(n), &mut bytes)?;
    Ok(bytes)
}

/// Adds the end of a node file to the bytes.
fn add_trailer(root: Ptr, count: u64, n: u64, bytes: &mut Vec<u8>) -> Result<(), AllocError>
    ensures { OnOk result (bytes.new.items ≡ bytes.old.items ++ trailer_bytes root count n) }
{
    add_word(root.word(), bytes)?;
    add_word(count, bytes)?;
    add_word(n, bytes)
}

fn terminals(alloc: Global, table: &[bool]) -> Result<Vec<Ptr>, AllocError>
    ensures { IfOk result (λ pointers. pointers.items ≡ map terminal table.now) }
{
    table
        .iter()
        .map(|value| Ptr::terminal(*value))
        .collect(alloc)
}
