//! One line of a netlist as it was read.

ghost use Rattle.std.specs.Prelude.{◌+◌, ◌<◌, ◌^◌, length};
ghost use Rattle.blif_reader.specs.Text.{words_at};

use crate::grammar::{Kind, Shape};
use crate::lines::{JoinedWords, next_line};
use text_words::Lines;

/// A line with its kind, and the text from where the line begins. No words are kept, since those of all rows
/// would take many times the text's size: they are read again.
#[derive(Clone, Copy)]
pub(crate) struct Statement<'a> {
    pub line: u32,
    pub kind: Kind,
    pub text: &'a [u8],
    ghost worded: { 0 < length (words_at line text.now) },
    ghost small: { line + length text.now + 1 < 2 ^ 32 },
}

impl<'a> Statement<'a> {
    ghost use Rattle.std.specs.Prelude.{◌≡◌};
    ghost use Rattle.blif_reader.specs.Grammar.{shape_of};
    ghost use Rattle.blif_reader.specs.Netlist.{cells_of};
    ghost use Rattle.blif_reader.specs.Lines.{shape_in, words_left};
    ghost use Rattle.blif_reader.specs.Statements.{statement_of};

    /// The words of the line, which begin with the keyword, where it has one.
    pub(crate) fn words(&self) -> JoinedWords<'a>
        ensures { words_left result ≡ (statement_of self.now).words }
    {
        JoinedWords::of(self.text, self.line)
    }

    /// The first words of the line, and how many there are.
    pub(crate) fn shape(&self) -> Shape<'a>
        ensures { shape_in result ≡ shape_of (statement_of self.now).words }
    {
        let mut lines = Lines::starting_at(self.text, self.line, 0);
        match next_line(&mut lines) {
            Some(line) => line.shape,
            None => Shape {
                first: &self.text[..0],
                second: &self.text[..0],
                count: 0,
            },
        }
    }

    /// The characters of a row.
    pub(crate) fn cells(&self) -> &'a [u8]
        ensures { result.now ≡ cells_of (statement_of self.now).words }
    {
        let shape = self.shape();
        if shape.count == 1 {
            &shape.first[..0]
        } else {
            shape.first
        }
    }
}
