use rec_words::Ptr;

/// Where a path leads.
#[derive(Clone, Copy, Debug, PartialEq, Eq)]
pub(crate) struct Next {
    pub(crate) pointer: Ptr,
}

/// How far the path of an evaluation was followed.
#[derive(Clone, Copy, Debug, PartialEq, Eq)]
pub(crate) enum Following {
    /// It leads to a node that isn't read yet, or to a truth value.
    To(Next),
    /// No node that was read is the one that it leads to. The node at that place is the first one above it.
    Past(u64),
    /// The truth value that it led to.
    Answered(bool),
}
