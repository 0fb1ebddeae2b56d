use rec_words::Ptr;

/// The two pointers of a node. Rows are ordered by the low one, and then by the high one.
#[derive(Clone, Copy, Debug, PartialEq, Eq, PartialOrd, Ord)]
pub struct Row {
    pub low: Ptr,
    pub high: Ptr,
}
