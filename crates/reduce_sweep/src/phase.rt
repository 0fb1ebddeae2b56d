use crate::source::Source;
use canon_file::Row;

/// How many rows of a level have a number, and the one that got its number last.
#[derive(Clone, Copy, Debug, PartialEq, Eq)]
pub(crate) struct Numbered {
    pub(crate) number: u64,
    pub(crate) last: Option<Row>,
}

impl Numbered {
    /// No row has a number yet.
    pub(crate) const NONE: Numbered = Numbered {
        number: 0,
        last: None,
    };
}

/// What a reduction does.
#[derive(Clone, Copy, Debug, PartialEq, Eq)]
pub(crate) enum Phase {
    /// No level is open: the next arc to be collected opens one.
    Between,
    /// Collects the sources of the level, the greatest first, this one at hand.
    Collect(Source),
    /// Gives numbers to the rows of the level.
    Number(Numbered),
    /// Forwards the final pointers of the sources along the arcs that lead to them.
    Forward,
    /// All is done, and the diagram has so many nodes.
    Ended(u64),
}
