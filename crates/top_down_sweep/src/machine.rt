//! What works for a sweep from the root down, whichever operation it is for.
use arc_file::ArcWriter;
use level_queue::LevelQueue;
use run_merge::Parts;
use tuple_asks::{Operands, Place, SoundAsk};

/// The operands, the asks that are open, and the arcs that are made.
#[derive(Drop)]
pub(crate) struct Machine<'r> {
    pub(crate) place: Place,
    pub(crate) operands: Operands<'r>,
    pub(crate) queue: LevelQueue<'r, SoundAsk>,
    pub(crate) writer: ArcWriter<'r>,
    // The part numbers of its step that weren't taken.
    pub(crate) parts: Parts,
}
