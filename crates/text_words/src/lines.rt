//! The lines of a text, with their numbers and places.

ghost use Rattle.std.specs.Prelude.{◌≡◌, ◌+◌, ◌<◌, ◌^◌, ◌∷◌, Some, length, option_map};
ghost use Rattle.text_words.specs.Text.{pieces_of, rest_len};

use crate::search::{code, line_len};
use crate::words::Words;

/// A line: its number, counted from 1, the place of its first byte in the text, counted from 0, and its
/// bytes without the line feed.
#[derive(Clone, Copy, Debug)]
pub struct Line<'a> {
    pub number: u32,
    pub at: u32,
    pub bytes: &'a [u8],
    ghost small: { at + length bytes.now < 2 ^ 32 },
}

impl<'a> Line<'a> {
    ghost use Rattle.text_words.specs.Left.{line_of, words_left};
    ghost use Rattle.text_words.specs.Text.{words_in};

    /// The words of the line in front of its comment.
    pub fn words(&self) -> Words<'a>
        ensures { words_left result ≡ words_in (line_of self.now) }
    {
        Words::of(code(self.bytes), self.at)
    }
}

/// The lines that are left of a text. A line ends with a line feed or with the text's end, so an empty
/// text has one.
#[derive(Drop)]
pub struct Lines<'a> {
    rest: Option<&'a [u8]>,
    number: u32,
    at: u32,
    ghost few: { number + rest_len (option_map (λ b. b.now) rest) < 2 ^ 32 },
    ghost small: { at + rest_len (option_map (λ b. b.now) rest) < 2 ^ 32 },
}

/// The first line, and what stands behind it.
fn split_line(text: &[u8]) -> (&[u8], Option<&[u8]>)
    ensures split { pieces_of (Some text.now) ≡ result.0.now ∷ pieces_of (option_map (λ b. b.now) result.1) }
    ensures size { length result.0.now + rest_len (option_map (λ b. b.now) result.1) ≡ length text.now }
{
    let n = line_len(text);
    if n >= text.len() {
        return (text, None);
    }
    let (_, after) = text.split_at(n + 1);
    (&text[..n], Some(after))
}

impl<'a> Iterator for Lines<'a> {
    ghost use Rattle.std.specs.Iterator.{YieldsFirstBy, item_count};
    ghost use Rattle.text_words.specs.Left.{line_of, lines_left};

    type Item = Line<'a>;

    ghost next_gives = { YieldsFirstBy line_of lines_left };

    ghost remaining = { item_count lines_left };

    fn next(&mut self) -> Option<Line<'a>> {
        let (bytes, rest) = split_line(self.rest?);
        let line = Line {
            number: self.number,
            at: self.at,
            bytes,
        };
        *self = Lines {
            rest,
            number: line.number + 1,
            at: line.at + bytes.len() as u32 + 1,
        };
        Some(line)
    }
}

impl<'a> Lines<'a> {
    ghost use Rattle.std.specs.Prelude.{IsNone, IfSome, []};
    ghost use Rattle.std.specs.List.{slice_split};
    ghost use Rattle.text_words.specs.Left.{lines_left};
    ghost use Rattle.text_words.specs.Text.{lines_of, numbered, is_feed};
    ghost use Rattle.text_words.specs.Places.{IsRest};

    /// The lines of a text, from the first on.
    pub fn of(text: &'a [u8]) -> Lines<'a>
        requires { length text.now < 4294967294 }
        ensures { lines_left result ≡ lines_of text.entry.now }
    {
        Lines {
            rest: Some(text),
            number: 1,
            at: 0,
        }
    }

    /// The lines of a text, of which the first has the given number, and its first byte the given place.
    pub fn starting_at(text: &'a [u8], number: u32, at: u32) -> Lines<'a>
        requires few { number + length text.now + 1 < 2 ^ 32 }
        requires small { at + length text.now + 1 < 2 ^ 32 }
        ensures { lines_left result ≡ numbered number at (slice_split is_feed text.entry.now) }
    {
        Lines {
            rest: Some(text),
            number,
            at,
        }
    }

    /// The number of the next line, and the text from its first byte on, where a line is left.
    pub fn rest(&self) -> Option<(u32, &'a [u8])>
        ensures none { IsNone result → lines_left self.now ≡ [] }
        ensures rest { IfSome result (λ r. IsRest (lines_left self.now) r.0 r.1.now) }
    {
        match self.rest {
            Some(text) => Some((self.number, text)),
            None => None,
        }
    }
}
