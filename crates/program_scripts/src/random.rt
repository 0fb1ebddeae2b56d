//! Numbers that look random, and are the same in each run.

/// A linear congruential generator.
#[derive(Clone, Copy)]
pub(crate) struct Random {
    state: u64,
}

impl Random {
    pub(crate) fn new(seed: u64) -> Random {
        let mut random = Random {
            state: seed.wrapping_mul(0x9e37_79b9_7f4a_7c15),
        };
        random.next();
        random
    }

    fn next(&mut self) -> u64 {
        self.state = self
            .state
            .wrapping_mul(6_364_136_223_846_793_005)
            .wrapping_add(1_442_695_040_888_963_407);
        self.state >> 33
    }

    /// A number below this one, or 0.
    pub(crate) fn below(&mut self, most: u64) -> u64 {
        let number = self.next();
        if most == 0 { 0 } else { number % most }
    }
}
