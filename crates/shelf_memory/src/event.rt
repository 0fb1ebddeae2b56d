use crate::change::Change;
use shelf_model::FileNo;

/// What one call did.
#[derive(Drop)]
pub enum Call {
    Nothing,
    Changed { file: FileNo, change: Change },
    Said(Vec<u8>),
}

/// What happened to the station: a call, or a file that was put between two calls.
#[derive(Drop)]
pub enum Event {
    Called(Call),
    Put { file: FileNo, bytes: Vec<u8> },
}
