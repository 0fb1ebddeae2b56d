use thiserror::Error;

/// Why a list of words isn't read.
#[derive(Clone, Copy, Debug, PartialEq, Eq, Error)]
pub enum WordsFault {
    /// There was no memory.
    #[error("no memory")]
    Memory,
    /// The words have no reading.
    #[error("words that ask for nothing")]
    Usage,
}
