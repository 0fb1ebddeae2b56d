use shelf_model::{Failed, FileNo, StreamFault};
use thiserror::Error;

/// Why a job can't be attached to a folder.
#[derive(Clone, Copy, Debug, PartialEq, Eq, Error)]
pub enum AttachFault {
    /// A call of the folder failed.
    #[error("a call of the folder failed")]
    Shelf,
    /// The file doesn't hold what it should, from that byte on.
    #[error("damaged at byte {at}")]
    Damaged { file: FileNo, at: u64 },
    /// Another job is stored. The byte is the first outside the budget, at 8 to 11, at which the two differ, or the
    /// shorter length.
    #[error("another job, which differs at byte {at}")]
    OtherJob { at: u64 },
}

impl From<Failed> for AttachFault {
    ghost use Rattle.std.specs.Prelude.{◌≡◌};
    ghost use Rattle.catalogue.specs.declared.fault.AttachFault.TheVariants.{Shelf};

    ghost from_gives = { λ _ f. f ≡ Shelf };

    fn from(_: Failed) -> AttachFault {
        AttachFault::Shelf
    }
}

impl From<StreamFault> for AttachFault {
    ghost use Rattle.std.specs.Prelude.{◌≡◌};
    ghost use Rattle.catalogue.specs.Faults.{attach_fault};

    ghost from_gives = { λ e f. f ≡ attach_fault e };

    fn from(fault: StreamFault) -> AttachFault {
        match fault {
            StreamFault::Shelf => AttachFault::Shelf,
            StreamFault::Damaged { file, at } => AttachFault::Damaged { file, at },
        }
    }
}
