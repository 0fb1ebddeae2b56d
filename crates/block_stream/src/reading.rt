use shelf_model::{FileNo, StreamFault};

/// Where a stream stands: the records that were read last wait in its window.
#[derive(Clone, Copy, Debug, PartialEq, Eq)]
pub struct Reading {
    /// The file that is read.
    pub(crate) file: FileNo,
    /// How many words its records have.
    pub(crate) words: usize,
    /// The place at which the stream is at its end.
    pub(crate) bound: u64,
    /// The place of the first record in the window.
    pub(crate) base: u64,
    /// How many records were read into the window.
    pub(crate) loaded: usize,
    /// How many of these stand before the place that the stream has come to.
    pub(crate) at: usize,
}

impl Reading {
    ghost use Rattle.std.specs.Prelude.{◌≡◌, ◌≤◌, ◌*◌, IfErr};
    ghost use Rattle.block_stream.specs.Records.{most_words};
    ghost use Rattle.block_stream.specs.Reads.{IsDamageAt};

    /// The damage of the record at a place.
    pub(crate) fn damage_at(&self, place: u64) -> StreamFault
        requires place { place ≤ most_words }
        requires words { self.now.words ≤ 8 }
        ensures { result ≡ StreamFault.Damaged self.now.file (place * (8 * self.now.words)) }
    {
        StreamFault::Damaged {
            file: self.file,
            at: byte_place(place, self.words),
        }
    }
}

ghost use Rattle.std.specs.Prelude.{◌≡◌, ◌≤◌, ◌*◌};
ghost use Rattle.block_stream.specs.Records.{most_words};

/// The place in bytes of a record.
pub(crate) fn byte_place(place: u64, words: usize) -> u64
    requires place { place ≤ most_words }
    requires words { words ≤ 8 }
    ensures { result ≡ place * (8 * words) }
{
    place * (8 * words as u64)
}
