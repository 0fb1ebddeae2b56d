//! The words of a text, with their places.

ghost use Rattle.std.specs.Prelude.{◌+◌, ◌<◌, ◌^◌, length};

use crate::search::{blanks_len, word_len};

/// A word: the place of its first byte, counted as the caller counts, and its bytes, of which there is one.
#[derive(Clone, Copy, Debug)]
pub struct Word<'a> {
    pub at: u32,
    pub bytes: &'a [u8],
}

/// The words that are left of a text. A blank, a tab or a carriage return separates them; every other byte
/// belongs to one.
#[derive(Drop)]
pub struct Words<'a> {
    rest: &'a [u8],
    at: u32,
    ghost small: { at + length rest.now < 2 ^ 32 },
}

impl<'a> Words<'a> {
    ghost use Rattle.std.specs.Prelude.{◌≡◌};
    ghost use Rattle.text_words.specs.Left.{words_left};
    ghost use Rattle.text_words.specs.Text.{words_from};

    /// The words of a text whose first byte has the given place.
    pub fn of(text: &'a [u8], at: u32) -> Words<'a>
        requires { at + length text.now < 2 ^ 32 }
        ensures { words_left result ≡ words_from at text.entry.now }
    {
        Words { rest: text, at }
    }
}

impl<'a> Iterator for Words<'a> {
    ghost use Rattle.std.specs.Iterator.{YieldsFirstBy, item_count};
    ghost use Rattle.text_words.specs.Left.{word_of, words_left};

    type Item = Word<'a>;

    ghost next_gives = { YieldsFirstBy word_of words_left };

    ghost remaining = { item_count words_left };

    fn next(&mut self) -> Option<Word<'a>> {
        let skipped = blanks_len(self.rest);
        let (_, text) = self.rest.split_at(skipped);
        let at = self.at + skipped as u32;
        let len = word_len(text);
        let (bytes, rest) = text.split_at(len);
        *self = Words {
            rest,
            at: at + len as u32,
        };
        if len == 0 {
            None
        } else {
            Some(Word { at, bytes })
        }
    }
}
