use shelf_model::{FileNo, StreamFault};
use thiserror::Error;

/// Why a folder's diagrams can't be listed.
#[derive(Clone, Copy, Debug, PartialEq, Eq, Error)]
pub enum ListFault {
    /// A call of the folder failed.
    #[error("a call of the folder failed")]
    Shelf,
    /// A line couldn't be said.
    #[error("a line couldn't be said")]
    Say,
    /// The file doesn't hold what it should, from that byte on.
    #[error("damaged at byte {at}")]
    Damaged { file: FileNo, at: u64 },
}

impl From<StreamFault> for ListFault {
    ghost use Rattle.std.specs.Prelude.{◌≡◌};
    ghost use Rattle.diagram_list.specs.Faults.{list_fault};

    ghost from_gives = { λ e f. f ≡ list_fault e };

    fn from(fault: StreamFault) -> ListFault {
        match fault {
            StreamFault::Shelf => ListFault::Shelf,
            StreamFault::Damaged { file, at } => ListFault::Damaged { file, at },
        }
    }
}
