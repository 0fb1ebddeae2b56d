//! How far a step has come.
ghost use Rattle.std.specs.Prelude.{◌≡◌, ◌^◌, ◌<◌};

use sweep_core::Checkpoint;

/// The most turns between two checkpoints.
const MOST_BETWEEN: u64 = 65_536;

/// How far a step has come: what its checkpoints say of it.
#[derive(Clone, Copy, Debug, PartialEq, Eq)]
pub struct Going {
    /// The number of the step.
    pub step: u32,
    /// 0 for the first sweep of a step, 1 for the reduction.
    pub sweep: u32,
    /// The budget of the run, in records.
    pub budget: u32,
    /// The turns that were made in the step, or 2^64 - 1 where they are more.
    pub turns: u64,
    /// Those of them that the last checkpoint shows, or that were made before the first sweep where there is none.
    pub shown: u64,
    /// The last checkpoint of the step that is gated, if there is one.
    pub last: Option<Checkpoint>,
}

impl Going {
    ghost use Rattle.std.specs.Prelude.{◌-◌, ◌^◌, ◌<◌};
    ghost use Rattle.sweep_checkpoint.specs.Going.{interval_of};

    /// The budget, a number of 32 bits.
    pub fn records(&self) -> u32
        ensures is { result ≡ self.now.budget }
        ensures fits { result < 2 ^ 32 }
    {
        within_word(self.budget)
    }

    /// How many turns are made between two checkpoints.
    pub fn interval(&self) -> u64
        ensures { result ≡ interval_of self.now.budget }
    {
        u64::from(self.budget).min(MOST_BETWEEN).max(1)
    }

    /// How many turns no checkpoint shows.
    pub fn since(&self) -> u64
        ensures { result ≡ self.now.turns - self.now.shown }
    {
        self.turns.saturating_sub(self.shown)
    }
}

// The number, of which its type says that it has 32 bits.
fn within_word(number: u32) -> u32
    ensures is { result ≡ number }
    ensures fits { result < 2 ^ 32 }
{
    number
}
