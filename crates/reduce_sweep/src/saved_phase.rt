//! What a checkpoint keeps of what a reduction does.
ghost use Rattle.std.specs.Prelude.{◌≡◌};
ghost use Rattle.reduce_sweep.specs.SavedPhase.{pair_at, row_at};

use crate::phase::{Numbered, Phase};
use crate::source::Source;
use canon_file::Row;
use rec_words::{Ptr, Uid};
use saved_words::{Carried, Words};

// The final pointers of the sides of a source, as far as they are known.
type Sides = (Option<Ptr>, Option<Ptr>);

/// The source that is collected, how many rows have a number with the pair of the last one, that names are forwarded,
/// and how many nodes there are in the end: one of these at most, and none between levels.
#[derive(Clone, Copy)]
pub(crate) struct SavedPhase {
    pub(crate) collected: Option<(Uid, Sides)>,
    pub(crate) numbered: Option<(u64, Option<(Ptr, Ptr)>)>,
    pub(crate) forwards: bool,
    pub(crate) count: Option<u64>,
}

// Those of the source and of the rows, and then the others.
type Parts = (
    (Option<(Uid, Sides)>, Option<(u64, Option<(Ptr, Ptr)>)>),
    (bool, Option<u64>),
);

impl SavedPhase {
    ghost use Rattle.std.specs.Prelude.{◌≡◌};
    ghost use Rattle.reduce_sweep.specs.SavedPhase.{saved_phase, phase_of, parts_of};

    const NONE: SavedPhase = SavedPhase {
        collected: None,
        numbered: None,
        forwards: false,
        count: None,
    };

    /// What is kept of a phase.
    pub(crate) fn of(phase: Phase) -> SavedPhase
        ensures { result ≡ saved_phase phase }
    {
        match phase {
            Phase::Between => SavedPhase::NONE,
            Phase::Collect(source) => SavedPhase {
                collected: Some((source.uid, (source.low, source.high))),
                numbered: None,
                forwards: false,
                count: None,
            },
            Phase::Number(numbered) => SavedPhase {
                collected: None,
                numbered: Some((numbered.number, pair_of(numbered.last))),
                forwards: false,
                count: None,
            },
            Phase::Forward => SavedPhase {
                collected: None,
                numbered: None,
                forwards: true,
                count: None,
            },
            Phase::Ended(count) => SavedPhase {
                collected: None,
                numbered: None,
                forwards: false,
                count: Some(count),
            },
        }
    }

    /// The phase of which that is kept; None is answered where more is said than one phase says.
    pub(crate) fn phase(&self) -> Option<Phase>
        ensures { result ≡ phase_of self.now }
    {
        match (self.collected, self.numbered, self.forwards, self.count) {
            (None, None, false, None) => Some(Phase::Between),
            (Some((uid, (low, high))), None, false, None) => {
                Some(Phase::Collect(Source { uid, low, high }))
            }
            (None, Some((number, last)), false, None) => Some(Phase::Number(Numbered {
                number,
                last: row_of(last),
            })),
            (None, None, true, None) => Some(Phase::Forward),
            (None, None, false, Some(count)) => Some(Phase::Ended(count)),
            _ => None,
        }
    }

    fn parts(&self) -> Parts
        ensures { result ≡ parts_of self.now }
    {
        ((self.collected, self.numbered), (self.forwards, self.count))
    }
}

// The two pointers of a row.
fn pair_of(row: Option<Row>) -> Option<(Ptr, Ptr)>
    ensures { result ≡ pair_at row }
{
    match row {
        None => None,
        Some(row) => Some((row.low, row.high)),
    }
}

// The row of two pointers.
fn row_of(pair: Option<(Ptr, Ptr)>) -> Option<Row>
    ensures { result ≡ row_at pair }
{
    match pair {
        None => None,
        Some((low, high)) => Some(Row { low, high }),
    }
}

impl Carried for SavedPhase {
    ghost use Rattle.reduce_sweep.specs.SavedPhase.{phase_count, phase_words, IsSavedPhase, phase_long, phase_fits, phase_differs};

    ghost count = { phase_count };

    ghost words = { phase_words };

    ghost is_value = { IsSavedPhase };

    fn put(&self, into: &mut Words) {
        self.parts().put(into);
    }

    fn put_none(into: &mut Words) {
        Parts::put_none(into);
    }

    fn get(from: &mut Words) -> Option<SavedPhase> {
        let ((collected, numbered), (forwards, count)) = Parts::get(from)?;
        Some(SavedPhase {
            collected,
            numbered,
            forwards,
            count,
        })
    }

    fn get_none(from: &mut Words) -> bool {
        Parts::get_none(from)
    }

    ghost long = { phase_long };

    ghost fits = { phase_fits };

    ghost differ = { phase_differs };
}
