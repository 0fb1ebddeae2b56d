//! The files of a sweep.
use shelf_model::FileNo;

/// The files of a sweep: the operands, one of them for each pointer of a tuple, and the two files of arcs that it
/// makes.
#[derive(Clone, Copy, Debug, PartialEq, Eq)]
pub struct Files {
    pub first: FileNo,
    pub second: FileNo,
    pub third: FileNo,
    pub inner: FileNo,
    pub ends: FileNo,
}
