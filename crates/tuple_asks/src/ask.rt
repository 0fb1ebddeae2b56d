//! The asks of a sweep.
use rec_words::{Ptr, Uid};

/// A member of an ask: a pointer, which stands twice, or both pointers of a node of the key's level, which was read.
#[derive(Clone, Copy, PartialEq, Eq, PartialOrd, Ord)]
pub struct Member {
    pub low: Ptr,
    pub high: Ptr,
}

/// The members of an ask, one for each pointer of its tuple.
#[derive(Clone, Copy, PartialEq, Eq, PartialOrd, Ord)]
pub struct Members {
    pub first: Member,
    pub second: Member,
    pub third: Member,
}

/// An ask: who asked for the pointer of a tuple's function. The key is the node that is read next for it.
///
/// Asks are ordered by key first, and those for the same members by who asked: by the source, and its low side
/// before its high one.
#[derive(Clone, Copy, PartialEq, Eq, PartialOrd, Ord)]
pub struct Ask {
    pub key: Uid,
    pub members: Members,
    pub asker: u64,
}
