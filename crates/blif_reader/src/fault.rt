//! Why a netlist is refused.

ghost use Rattle.std.specs.Prelude.{◌≡◌};
ghost use Rattle.blif_reader.specs.declared.fault.Refusal.TheVariants.{Memory, Fault};

use std::alloc::{AllocError, AllocFailed};
use thiserror::Error;

/// What is wrong with a netlist. Each kind is written as its name.
#[derive(Clone, Copy, Debug, PartialEq, Eq, Error)]
pub enum BlifKind {
    /// Memory ran out.
    #[error("Memory")]
    Memory,
    /// A line begins with a full stop and no known word, or stands after the end.
    #[error("Keyword")]
    Keyword,
    /// The first line isn't the model's.
    #[error("NoModel")]
    NoModel,
    /// No line lists inputs.
    #[error("NoInputs")]
    NoInputs,
    /// A line is no row of the block at hand, or a block has no output.
    #[error("Row")]
    Row,
    /// A row's output differs from that of its block's first row.
    #[error("MixedOutputs")]
    MixedOutputs,
    /// A word that is used is no input and no block's output.
    #[error("Undriven")]
    Undriven,
    /// A word is an input or a block's output twice.
    #[error("DrivenTwice")]
    DrivenTwice,
    /// A block's output depends on itself.
    #[error("Cycle")]
    Cycle,
    /// The text has more than 4,194,304 bytes.
    #[error("TooLong")]
    TooLong,
    /// More than 65,535 words are inputs.
    #[error("TooManyVariables")]
    TooManyVariables,
}

/// The first fault of a netlist. The line is 0 where the fault is of no line.
#[derive(Clone, Copy, Debug, PartialEq, Eq, Error)]
#[error("line {line}: {kind}")]
pub struct BlifFault {
    pub line: u32,
    pub kind: BlifKind,
}

/// Why a step of the reader stops.
#[derive(Clone, Copy, Debug)]
pub(crate) enum Refusal {
    Memory,
    Fault(BlifFault),
}

impl From<AllocError> for Refusal {
    ghost from_gives = { λ _ e. e ≡ Memory };

    fn from(_e: AllocError) -> Refusal {
        Refusal::Memory
    }
}

impl<T: Drop> From<AllocFailed<T>> for Refusal {
    ghost from_gives = { λ _ e. e ≡ Memory };

    fn from(_e: AllocFailed<T>) -> Refusal {
        Refusal::Memory
    }
}

impl From<BlifFault> for Refusal {
    ghost from_gives = { λ f e. e ≡ Fault f };

    fn from(f: BlifFault) -> Refusal {
        Refusal::Fault(f)
    }
}
