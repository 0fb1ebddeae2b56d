//! The files of a folder, and words that they are compared with. Numbers have the highest byte first.
use file_numbers::{
    CATALOGUE, CHECKPOINT_PART, FIRST_RUN_PART, JOB, JOB_GATE, NODES_PART, STEP_GATE,
};
use shelf_memory::Bench;
use shelf_model::FileNo;

/// The node files of the first four steps.
pub const FIRST: FileNo = FileNo {
    step: 0,
    part: NODES_PART,
};

pub const SECOND: FileNo = FileNo {
    step: 1,
    part: NODES_PART,
};

pub const THIRD: FileNo = FileNo {
    step: 2,
    part: NODES_PART,
};

pub const FOURTH: FileNo = FileNo {
    step: 3,
    part: NODES_PART,
};

/// The pointer to the truth value 0.
pub const ZERO: u64 = 0x8000_0000_0000_0000;

/// The pointer to the truth value 1.
pub const ONE: u64 = 0x8000_0000_0000_0001;

/// The highest number of level 0, of level 1 and of level 2.
pub const LEVEL_0: u64 = 0x0000_7fff_ffff_ffff;

pub const LEVEL_1: u64 = 0x0000_ffff_ffff_ffff;

pub const LEVEL_2: u64 = 0x0001_7fff_ffff_ffff;

/// The file of the second of three variables.
pub const SECOND_OF_THREE: &[u64] = &[LEVEL_1, ZERO, ONE, LEVEL_1, 1, 3];

/// The file of both of two variables.
pub const BOTH: &[u64] = &[LEVEL_1, ZERO, ONE, LEVEL_0, ZERO, LEVEL_1, LEVEL_0, 2, 2];

/// The file of not both.
pub const NOT_BOTH: &[u64] = &[LEVEL_1, ONE, ZERO, LEVEL_0, ONE, LEVEL_1, LEVEL_0, 2, 2];

/// The file of two variables that differ.
pub const DIFFERENT: &[u64] = &[
    LEVEL_1,
    ZERO,
    ONE,
    LEVEL_1 - 1,
    ONE,
    ZERO,
    LEVEL_0,
    LEVEL_1,
    LEVEL_1 - 1,
    LEVEL_0,
    3,
    2,
];

/// The files of both constants of two variables.
pub const NEVER: &[u64] = &[ZERO, 0, 2];

pub const ALWAYS: &[u64] = &[ONE, 0, 2];

/// More steps than the runs have whose files are compared as a whole.
const STEPS: u32 = 5;

/// Whether a file has these words and no other bytes.
pub fn has_words(bench: &Bench, f: FileNo, words: &[u64]) -> bool {
    let bytes = bench.file(f);
    for (k, word) in words.iter().enumerate() {
        let at = k.saturating_mul(8);
        match bytes.get(at..at.saturating_add(8)) {
            Some(part) if part == word.to_be_bytes().as_slice() => {}
            _ => return false,
        }
    }
    bytes.len() == words.len().saturating_mul(8)
}

/// Whether the parts of a step behind its node file are empty: its checkpoints, their gate and its arcs.
pub fn has_no_other_parts(bench: &Bench, step: u32) -> bool {
    for part in CHECKPOINT_PART..FIRST_RUN_PART {
        if !bench.file(FileNo { step, part }).is_empty() {
            return false;
        }
    }
    true
}

/// Whether the folder holds no job, no entry, no committed step, and nothing of a first step but maybe runs.
pub fn is_untouched(bench: &Bench) -> bool {
    for f in [JOB, JOB_GATE, CATALOGUE, STEP_GATE, FIRST] {
        if !bench.file(f).is_empty() {
            return false;
        }
    }
    has_no_other_parts(bench, 0)
}

/// Whether two folders hold the same job and entries, and gates of one length: what the bytes of a gate are means
/// nothing.
pub fn same_job(a: &Bench, b: &Bench) -> bool {
    a.file(JOB) == b.file(JOB)
        && a.file(CATALOGUE) == b.file(CATALOGUE)
        && a.file(JOB_GATE).len() == b.file(JOB_GATE).len()
        && a.file(STEP_GATE).len() == b.file(STEP_GATE).len()
}

/// Whether two folders of at most five steps hold the same job, entries and files of steps, but for their runs.
pub fn same_files(a: &Bench, b: &Bench) -> bool {
    for step in 0..STEPS {
        for part in NODES_PART..FIRST_RUN_PART {
            let f = FileNo { step, part };
            if a.file(f) != b.file(f) {
                return false;
            }
        }
    }
    same_job(a, b)
}
