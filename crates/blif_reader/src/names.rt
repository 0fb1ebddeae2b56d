//! The names of signals, end to end.

ghost use Rattle.std.specs.Prelude.{length};
ghost use Rattle.blif_reader.specs.Ends.{AreWithin};

/// Words, whose bytes stand end to end, and where each ends.
#[derive(Drop)]
pub(crate) struct Names {
    pub bytes: Vec<u8>,
    pub ends: Vec<usize>,
    ghost placed: { AreWithin ends.items (length bytes.items) },
}

impl Names {
    ghost use Rattle.std.specs.Prelude.{◌≡◌, ◌<◌, ◌≤◌, ◌∷◌, []};
    ghost use Rattle.std.specs.List.{slice_index_or};
    ghost use Rattle.blif_reader.specs.Views.{names_in};

    /// How many words there are.
    pub(crate) fn len(&self) -> usize
        ensures { result ≡ length (names_in self.now) }
    {
        self.ends.len()
    }

    /// Where the word at a place begins, and where it ends.
    #[tactic(auto, using(crate::proofs::WordEnds::start_at))]
    fn bounds(&self, place: usize) -> (usize, usize)
        requires { place < length self.now.ends.items }
        ensures start { result.0 ≡ slice_index_or (0 ∷ self.now.ends.items) place 0 }
        ensures end { result.1 ≡ slice_index_or self.now.ends.items place 0 }
        ensures rises { result.0 ≤ result.1 }
        ensures within { result.1 ≤ length self.now.bytes.items }
    {
        let end = self.ends[place];
        if place == 0 {
            return (0, end);
        }
        (self.ends[place - 1], end)
    }

    /// The word at a place.
    pub(crate) fn at(&self, place: usize) -> &[u8]
        requires { place < length (names_in self.now) }
        ensures { result.now ≡ slice_index_or (names_in self.now) place [] }
    {
        let (start, end) = self.bounds(place);
        &self.bytes[start..end]
    }
}
