//! The reduction of diagrams: from the arcs of a diagram that isn't reduced to the canonical node file of its table.
#![tactic(auto)]

mod ahead;
mod collecting;
mod ended;
mod forwarding;
mod lists;
mod numbering;
mod phase;
mod place;
mod queued;
mod reduce;
mod resume;
mod rules;
mod saved;
mod saved_phase;
mod settling;
mod source;
mod start;
mod turning;

pub use ended::ended_point;
pub use reduce::ReduceSweep;
