//! The words, and the place of the next one.
/// How many words a checkpoint carries.
pub const MOST_WORDS: usize = 250;

/// The words that a checkpoint carries, and the place of the next one.
#[derive(Clone, Copy, Debug, PartialEq, Eq)]
pub struct Words {
    pub w: [u64; 250],
    pub at: usize,
}

impl Words {
    ghost use Rattle.std.specs.Prelude.{◌≡◌, ◌^◌, ◌<◌, [], ◌∷◌, replicate, IfSome, IfNone};
    ghost use Rattle.saved_words.specs.Places.{most_words, pushed, next_words, moved, IsRoom};

    /// 250 words 0, and the first place.
    pub fn blank() -> Words
        ensures room { IsRoom result }
        ensures at { result.at ≡ 0 }
        ensures w { result.w ≡ replicate most_words 0 }
    {
        Words { w: [0; 250], at: 0 }
    }

    /// Puts a word at the place, if that isn't the end, and goes on to the next one.
    pub fn push(&mut self, word: u64)
        ensures { self.new ≡ pushed word self.old }
    {
        if self.at < MOST_WORDS {
            self.w[self.at] = word;
            self.at += 1;
        }
    }

    /// The word at the place, if that isn't the end.
    pub fn next(&mut self) -> Option<u64>
        ensures found { IfSome result (λ word.
            (word ∷ [] ≡ next_words 1 self.old) × (self.new ≡ moved 1 self.old)) }
        ensures range { IfSome result (λ word. word < 2 ^ 64) }
        ensures none { IfNone result (next_words 1 self.old ≡ []) }
    {
        if self.at < MOST_WORDS {
            let word = self.w[self.at];
            self.at += 1;
            Some(word)
        } else {
            None
        }
    }
}
