//! Why a script gives no plan.

use std::alloc::{AllocError, AllocFailed};
use thiserror::Error;

/// What is wrong with a line of a script.
#[derive(Clone, Copy, Debug, PartialEq, Eq, Error)]
pub enum ScriptKind {
    #[error("Memory")]
    Memory,
    #[error("Word")]
    Word,
    #[error("UnknownName")]
    UnknownName,
    #[error("NameTaken")]
    NameTaken,
    #[error("Variable")]
    Variable,
    #[error("Bits")]
    Bits,
    #[error("Dropped")]
    Dropped,
    #[error("NameLength")]
    NameLength,
    #[error("TooLong")]
    TooLong,
    #[error("TooManySteps")]
    TooManySteps,
    #[error("NoNetlist")]
    NoNetlist,
    #[error("TooManyVariables")]
    TooManyVariables,
}

/// The first line that is at fault, counted from 1, and why. Where memory ran out, and where the script is too
/// long, the line is 0.
#[derive(Clone, Copy, Debug, PartialEq, Eq, Error)]
#[error("line {line}: {kind}")]
pub struct ScriptFault {
    pub line: u32,
    pub kind: ScriptKind,
}

/// Why a line isn't planned: memory ran out, or it is at fault.
#[derive(Clone, Copy, Debug, PartialEq, Eq)]
pub(crate) enum Refusal {
    Memory,
    Fault(ScriptKind),
}

impl From<AllocError> for Refusal {
    ghost use Rattle.std.specs.Prelude.{◌≡◌};
    ghost use Rattle.script_reader.specs.declared.fault.Refusal.TheVariants as refusal;

    ghost from_gives = { λ _ e. e ≡ refusal.Memory };

    fn from(_e: AllocError) -> Refusal {
        Refusal::Memory
    }
}

impl<T: Drop> From<AllocFailed<T>> for Refusal {
    ghost use Rattle.std.specs.Prelude.{◌≡◌};
    ghost use Rattle.script_reader.specs.declared.fault.Refusal.TheVariants as refusal;

    ghost from_gives = { λ _ e. e ≡ refusal.Memory };

    fn from(_e: AllocFailed<T>) -> Refusal {
        Refusal::Memory
    }
}

impl From<ScriptKind> for Refusal {
    ghost use Rattle.std.specs.Prelude.{◌≡◌};
    ghost use Rattle.script_reader.specs.declared.fault.Refusal.TheVariants as refusal;

    ghost from_gives = { λ kind e. e ≡ refusal.Fault kind };

    fn from(kind: ScriptKind) -> Refusal {
        Refusal::Fault(kind)
    }
}
