//! Numbers and tables that look random, and are the same in each run.
ghost use Rattle.std.specs.Prelude.{◌≡◌, ◌≤◌, ◌^◌, IfOk, length};

use std::alloc::{AllocError, Global};

/// A generator of numbers by sums, products and shifts (splitmix64).
#[derive(Clone, Copy)]
pub struct Random {
    state: u64,
}

impl Random {
    /// The generator of that seed.
    pub fn new(seed: u64) -> Random {
        Random {
            state: seed.wrapping_mul(0x9e37_79b9_7f4a_7c15) ^ 0x5851_f42d_4c95_7f2d,
        }
    }

    /// The next number of 64 bits.
    pub fn next(&mut self) -> u64 {
        self.state = self.state.wrapping_add(0x9e37_79b9_7f4a_7c15);
        let mixed = (self.state ^ (self.state >> 30)).wrapping_mul(0xbf58_476d_1ce4_e5b9);
        let more = (mixed ^ (mixed >> 27)).wrapping_mul(0x94d0_49bb_1331_11eb);
        more ^ (more >> 31)
    }

    /// One of the two truth values.
    pub fn bit(&mut self) -> bool {
        self.next() % 2 == 0
    }

    /// All places of a table, or those of some variables as chance has it.
    pub fn variables(&mut self) -> usize {
        let some = self.next() as usize;
        if self.bit() { some } else { usize::MAX }
    }

    /// A table of n variables that depends on these alone, each a bit of its places.
    pub fn table(
        &mut self,
        alloc: Global,
        n: u32,
        variables: usize,
    ) -> Result<Vec<bool>, AllocError>
        requires { n ≤ 20 }
        ensures { IfOk result (λ table. length table.items ≡ 2 ^ n) }
    {
        let mut table = Vec::new(alloc);
        for place in 0..1usize << n {
            let value = match table.as_slice().get(place & variables) {
                Some(value) => *value,
                None => self.bit(),
            };
            table.push(value)?;
        }
        Ok(table)
    }
}
