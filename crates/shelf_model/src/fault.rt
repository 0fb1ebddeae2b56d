use crate::FileNo;
use thiserror::Error;

/// A call of the station failed.
#[derive(Clone, Copy, Debug, PartialEq, Eq, Error)]
#[error("a call of the station failed")]
pub struct Failed;

/// Why what is read from a file, or written to it, can't go on.
#[derive(Clone, Copy, Debug, PartialEq, Eq, Error)]
pub enum StreamFault {
    /// A call of the folder failed.
    #[error("a call of the folder failed")]
    Shelf,
    /// The file doesn't hold what it should, from that byte on.
    #[error("damaged at byte {at}")]
    Damaged { file: FileNo, at: u64 },
}

impl From<Failed> for StreamFault {
    ghost use Rattle.std.specs.Prelude.{◌≡◌};
    ghost use Rattle.shelf_model.specs.declared.fault.StreamFault.TheVariants.{Shelf};

    ghost from_gives = { λ _ f. f ≡ Shelf };

    fn from(_: Failed) -> StreamFault {
        StreamFault::Shelf
    }
}
