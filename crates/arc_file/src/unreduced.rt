use rec_words::Ptr;
use shelf_model::FileNo;

/// The arcs of a diagram that isn't reduced yet: its root, the file of the arcs to nodes, that of the arcs to
/// truth values, and how many arcs each of them has.
#[derive(Clone, Copy, Debug, PartialEq, Eq)]
pub struct Unreduced {
    pub root: Ptr,
    pub inner: FileNo,
    pub inner_count: u64,
    pub ends: FileNo,
    pub ends_count: u64,
}
