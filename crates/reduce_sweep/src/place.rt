use crate::phase::Phase;
use arc_file::Unreduced;
use rec_words::Ptr;

/// Where a reduction stands, but for what its lists and its files hold.
#[derive(Clone, Copy, Debug, PartialEq, Eq)]
pub(crate) struct Place {
    pub(crate) variables: u32,
    // The arcs that it began with.
    pub(crate) arcs: Unreduced,
    // The root's final pointer, once it is known, and before that the truth value 0.
    pub(crate) known: Ptr,
    // The level at hand, or between levels the one that was finished last, at first the number of variables.
    pub(crate) level: u32,
    pub(crate) phase: Phase,
}
