use crate::{Failed, FileNo, StreamFault};
use thiserror::Error;

/// Why a sorter, a queue or a sweep can't go on.
#[derive(Clone, Copy, Debug, PartialEq, Eq, Error)]
pub enum SortFault {
    /// A call of the folder failed.
    #[error("a call of the folder failed")]
    Shelf,
    /// The file doesn't hold what it should, from that byte on.
    #[error("damaged at byte {at}")]
    Damaged { file: FileNo, at: u64 },
    /// A new file is needed, and the step has no part number left.
    #[error("the step has no part number left")]
    RunsSpent,
}

impl From<Failed> for SortFault {
    ghost use Rattle.std.specs.Prelude.{◌≡◌};
    ghost use Rattle.shelf_model.specs.declared.sort_fault.SortFault.TheVariants.{Shelf};

    ghost from_gives = { λ _ f. f ≡ Shelf };

    fn from(_: Failed) -> SortFault {
        SortFault::Shelf
    }
}

impl From<StreamFault> for SortFault {
    ghost use Rattle.std.specs.Prelude.{◌≡◌};
    ghost use Rattle.shelf_model.specs.SortFaults.{handed_on};

    ghost from_gives = { λ fault f. f ≡ handed_on fault };

    fn from(fault: StreamFault) -> SortFault {
        match fault {
            StreamFault::Shelf => SortFault::Shelf,
            StreamFault::Damaged { file, at } => SortFault::Damaged { file, at },
        }
    }
}
