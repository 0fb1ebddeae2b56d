//! The lines of a netlist, joined where a backslash joins them, and their words.

ghost use Rattle.std.specs.Prelude.{◌≡◌, ℕ, ◌+◌, ◌-◌, ◌<◌, ◌≤◌, ◌^◌, ◌++◌, ◌∷◌, MatchOption, Some, List, [], length, take, drop, map};
ghost use Rattle.text_words.specs.Places.{IsRest};
ghost use Rattle.text_words.specs.Left.{line_of, lines_left};
ghost use Rattle.blif_reader.specs.Text.{code_of, trimmed, text_of, goes_on, words_of, joined, first_words};
ghost use Rattle.blif_reader.specs.Lines.{shape_in, with_word, with_words, IsNext};

use crate::grammar::Shape;
use crate::line::Line;
use text_words::{Lines, Words, is_blank_byte};

/// A text without the separators at its end.
fn without_blanks(text: &[u8]) -> &[u8]
    ensures { result.now ≡ trimmed text.now }
{
    let mut n = text.len();
    while n > 0 && is_blank_byte(text[n - 1]) {
        n -= 1;
    }
    &text[..n]
}

/// Whether the next line is joined to one with this text.
fn ends_with_backslash(code: &[u8]) -> bool
    ensures { result ≡ goes_on code.now }
{
    !code.is_empty() && code[code.len() - 1] == b'\\'
}

/// The text of a line, and whether the next line is joined to it.
fn code(line: &[u8]) -> (&[u8], bool)
    ensures text { result.0.now ≡ text_of (code_of line.now) }
    ensures joins { result.1 ≡ goes_on (code_of line.now) }
    ensures within { length result.0.now ≤ length line.now }
{
    let code = without_blanks(text_words::code(line));
    if ends_with_backslash(code) {
        (&code[..code.len() - 1], true)
    } else {
        (code, false)
    }
}

/// The shape of words and one word more.
fn with_word<'a>(shape: Shape<'a>, word: &'a [u8]) -> Shape<'a>
    requires { shape.count + 1 < 2 ^ 64 }
    ensures { shape_in result ≡ with_word (shape_in shape.entry) word.entry.now }
{
    Shape {
        first: if shape.count == 0 { word } else { shape.first },
        second: if shape.count == 1 { word } else { shape.second },
        count: shape.count + 1,
    }
}

/// The shape of words and those of a text.
fn with_text<'a>(shape: Shape<'a>, text: &'a [u8]) -> Shape<'a>
    requires small { length text.now < 2 ^ 32 }
    requires few { shape.count + 2 ^ 32 < 2 ^ 64 }
    ensures shape { shape_in result ≡ with_words (shape_in shape.entry) (words_of text.entry.now) }
    ensures count { result.count ≤ shape.entry.count + 2 ^ 32 }
{
    let mut sum = shape;
    for word in Words::of(text, 0) {
        sum = with_word(sum, word.bytes);
    }
    sum
}

/// The shape of words and those of the lines that are joined to theirs.
fn with_joined<'a>(shape: Shape<'a>, lines: &mut Lines<'a>) -> Shape<'a>
    requires none { shape.count ≡ 0 }
    requires lines { length (lines_left lines.old) < 2 ^ 32 }
    ensures shape { shape_in result
        ≡ with_words (shape_in shape.entry) (first_words (joined (lines_left lines.old))) }
    ensures behind { joined (lines_left lines.new) ≡ drop 1 (joined (lines_left lines.old)) }
    ensures fewer { length (lines_left lines.new) ≤ length (lines_left lines.old) - 1 }
{
    let mut sum = shape;
    'lines: while let Some(line) = lines.next() {
        let (text, joins) = code(line.bytes);
        sum = with_text(sum, text);
        if !joins {
            return sum;
        }
    }
    sum
}

/// The line that lines begin with, where there is one. The lines go on behind it.
pub(crate) fn next_line<'a>(lines: &mut Lines<'a>) -> Option<Line<'a>>
    ensures { MatchOption result (lines_left lines.old ≡ [])
        (λ l. IsNext (lines_left lines.old) l (lines_left lines.new)) }
{
    let (number, text) = lines.rest()?;
    let none = Shape {
        first: &text[..0],
        second: &text[..0],
        count: 0,
    };
    let shape = with_joined(none, lines);
    Some(Line {
        number,
        shape,
        text,
    })
}

/// The words that are left of a line and of those that are joined to it.
#[derive(Drop)]
pub(crate) struct JoinedWords<'a> {
    words: Words<'a>,
    joins: bool,
    lines: Lines<'a>,
}

impl<'a> JoinedWords<'a> {
    ghost use Rattle.blif_reader.specs.Text.{words_at};
    ghost use Rattle.blif_reader.specs.Lines.{words_left};

    /// No words.
    pub(crate) fn none() -> JoinedWords<'a>
        ensures { words_left result ≡ [] }
    {
        JoinedWords {
            words: Words::of(b"".as_slice(), 0),
            joins: false,
            lines: Lines::of(b"".as_slice()),
        }
    }

    /// The words of the line that a text begins with.
    pub(crate) fn of(text: &'a [u8], number: u32) -> JoinedWords<'a>
        requires { number + length text.now + 1 < 2 ^ 32 }
        ensures { words_left result ≡ words_at number text.entry.now }
    {
        JoinedWords {
            words: Words::of(&text[..0], 0),
            joins: true,
            lines: Lines::starting_at(text, number, 0),
        }
    }
}

impl<'a> Iterator for JoinedWords<'a> {
    ghost use Rattle.std.specs.Iterator.{YieldsFirstBy, item_count};
    ghost use Rattle.blif_reader.specs.Lines.{words_left};

    type Item = &'a [u8];

    ghost next_gives = { YieldsFirstBy (λ b. b.now) words_left };

    ghost remaining = { item_count words_left };

    fn next(&mut self) -> Option<&'a [u8]> {
        'lines: loop {
            if let Some(word) = self.words.next() {
                return Some(word.bytes);
            }
            if !self.joins {
                return None;
            }
            let Some(line) = self.lines.next() else {
                return None;
            };
            let (text, joins) = code(line.bytes);
            self.words = Words::of(text, 0);
            self.joins = joins;
        }
    }
}
