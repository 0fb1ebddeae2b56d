ghost use Rattle.std.specs.Prelude.{◌≡◌};

use arc_diagrams::{FinalArc, SourceRow};
use rec_words::{Ptr, Uid};

/// A source whose arcs are being collected, and the final pointers of its sides, as far as they are known.
#[derive(Clone, Copy, Debug, PartialEq, Eq)]
pub(crate) struct Source {
    pub(crate) uid: Uid,
    pub(crate) low: Option<Ptr>,
    pub(crate) high: Option<Ptr>,
}

impl Source {
    ghost use Rattle.reduce_sweep.specs.Sources.{noted, first_noted, row_of};

    /// The source of an arc, of which that one is noted.
    pub(crate) fn of(arc: &FinalArc) -> Source
        ensures { result ≡ first_noted arc.now }
    {
        let none = Source {
            uid: arc.source,
            low: None,
            high: None,
        };
        none.noted(arc.high, arc.target)
    }

    /// The source with the final pointer of a side, unless one was known.
    pub(crate) fn noted(&self, high: bool, pointer: Ptr) -> Source
        ensures { result ≡ noted high pointer self.now }
    {
        if high {
            Source {
                uid: self.uid,
                low: self.low,
                high: Some(self.high.unwrap_or(pointer)),
            }
        } else {
            Source {
                uid: self.uid,
                low: Some(self.low.unwrap_or(pointer)),
                high: self.high,
            }
        }
    }

    /// The row of the source, in which a side without an arc leads to the truth value 0.
    pub(crate) fn row(&self) -> SourceRow
        ensures { result ≡ row_of self.now }
    {
        SourceRow {
            low: self.low.unwrap_or(Ptr::terminal(false)),
            high: self.high.unwrap_or(Ptr::terminal(false)),
            source: self.uid,
        }
    }
}
