//! Where the sources of a diagram stand in the room.
ghost use Rattle.std.specs.Prelude.{◌≡◌};
ghost use Rattle.room_reduction.specs.Index.{begin_in};

use rec_words::Rec;

/// The records through which files are read and written: as many as a piece has arcs.
pub(crate) const WINDOW: usize = 128;

/// What is kept of the sources of a diagram, beside their own records: how many there are, and a record for each level,
/// which says where those of the level begin.
#[derive(Clone, Copy)]
pub struct Index<'a> {
    pub levels: &'a [Rec],
    pub total: usize,
}

/// Where the sources of a level begin, as its record says.
pub fn begin_of(level: &Rec) -> u64
    ensures { result ≡ begin_in level.now }
{
    level.w[0]
}

/// Says in the record of a level where its sources begin.
pub(crate) fn put_begin(level: &mut Rec, begin: u64)
    ensures { begin_in level.new ≡ begin }
{
    level.w[0] = begin;
}
