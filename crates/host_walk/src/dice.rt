//! Numbers that look random, the same for the same seed.

#[derive(Drop)]
pub(crate) struct Dice {
    state: u64,
}

impl Dice {
    pub(crate) fn new(seed: u64) -> Dice {
        Dice { state: seed }
    }

    /// A number below that many, or 0 where none is.
    pub(crate) fn below(&mut self, many: u64) -> u64 {
        self.state = self
            .state
            .wrapping_mul(6_364_136_223_846_793_005)
            .wrapping_add(1_442_695_040_888_963_407);
        let high = self.state >> 33;
        if many == 0 { 0 } else { high % many }
    }
}
