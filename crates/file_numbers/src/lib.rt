//! The numbers of the files in a folder: those of the job, and those of each step.
#![tactic(auto)]

mod job;
mod steps;

pub use job::{CATALOGUE, JOB, JOB_GATE, JOB_STEP, STEP_GATE};
pub use steps::{
    CHECKPOINT_GATE_PART, CHECKPOINT_PART, ENDS_PART, FIRST_RUN_PART, INNER_PART, NODES_PART,
    checkpoint_file, checkpoint_gate, ends_file, inner_file, node_file,
};
