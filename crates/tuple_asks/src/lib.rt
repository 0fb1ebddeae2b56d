//! The asks of a sweep from the root down, the operands whose nodes they wait for, and what a checkpoint keeps of them.
#![tactic(auto)]

mod ask;
mod files;
mod members;
mod operand;
mod place;
mod place_words;
mod resuming;
mod rules;
mod saved;
mod saving;
mod sound;
mod starting;
mod stored;

pub use ask::{Ask, Member, Members};
pub use files::Files;
pub use members::{key_of, level_at};
pub use operand::{Operand, Operands};
pub use place::{Asking, Numbered, Phase, Place};
pub use saved::{SavedArcs, SavedMachine, SavedOperand};
pub use sound::{NOBODY, SoundAsk, Source};
pub use starting::READING;
