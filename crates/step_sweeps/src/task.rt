use crate::StepOperation;
use top_down_sweep::OperandFiles;

/// A step that makes a diagram of `n` variables: its operation, the files of its operands, and its number.
#[derive(Clone, Copy)]
pub struct Making {
    pub operation: StepOperation,
    pub n: u32,
    pub operands: OperandFiles,
    pub number: u32,
}
