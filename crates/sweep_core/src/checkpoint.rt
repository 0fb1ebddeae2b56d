use run_tiers::Run;

/// What a sweep has to go on from after a stop. It is 16 KiB: hand it on by reference.
#[derive(Clone, Copy, Debug, PartialEq, Eq)]
pub struct Checkpoint {
    /// The number of the step.
    pub step: u32,
    /// 0 for the first sweep of a step, 1 for the reduction.
    pub sweep: u32,
    /// The turns that were made in the step.
    pub turns: u64,
    /// The part number from which on none was taken.
    pub next_part: u64,
    /// The budget of the run, in records.
    pub budget: u32,
    /// How many of the tables are in use, from 0 to 9.
    pub tables: u32,
    /// What the sweep keeps besides its runs. Words that it doesn't use are 0.
    pub carry: [u64; 250],
    /// The tables of runs: sixteen tiers of four slots each. A slot without a run has three words 0.
    pub runs: [[Run; 64]; 9],
}
