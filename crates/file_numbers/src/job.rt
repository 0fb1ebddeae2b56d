//! The files that hold the job, the entries of its committed steps, and the gates of both.
use shelf_model::FileNo;

/// The step number of the job's files, which no step has.
pub const JOB_STEP: u32 = u32::MAX;

/// The bytes of the job.
pub const JOB: FileNo = FileNo {
    step: JOB_STEP,
    part: 0,
};

/// It isn't empty exactly where a job is stored.
pub const JOB_GATE: FileNo = FileNo {
    step: JOB_STEP,
    part: 1,
};

/// The entries of the steps, one behind the other.
pub const CATALOGUE: FileNo = FileNo {
    step: JOB_STEP,
    part: 2,
};

/// It has one byte for each committed step.
pub const STEP_GATE: FileNo = FileNo {
    step: JOB_STEP,
    part: 3,
};
