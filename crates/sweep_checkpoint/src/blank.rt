//! What is filled.
ghost use Rattle.std.specs.Prelude.{◌≡◌, length};
ghost use Rattle.sweep_checkpoint.specs.Points.{blank_bytes, point_size};

use crate::layout::POINT_SIZE;
use run_tiers::Run;

// A slot without a run.
pub(crate) const NO_RUN: Run = Run {
    part: 0,
    next: 0,
    end: 0,
};

// As many bytes 0 as a checkpoint has.
#[tactic(auto, unfolding(crate::specs::Points::blank_bytes))]
pub(crate) fn blank() -> [u8; POINT_SIZE]
    ensures bytes { result ≡ blank_bytes }
    ensures len { length result ≡ point_size }
{
    [0u8; POINT_SIZE]
}
