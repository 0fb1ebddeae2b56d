//! What kind of line a line is, by its words and by what stands before it.

ghost use Rattle.std.specs.Prelude.{◌≡◌};
ghost use Rattle.std.specs.List.{list_all};
ghost use Rattle.blif_reader.specs.Grammar.{is_dotted, keyword_of, is_cell, digit_of, row_value, row_of, kind_in, after};
ghost use Rattle.blif_reader.specs.Lines.{shape_in};

use crate::fault::BlifKind;

/// What a line is. A row has its output.
#[derive(Clone, Copy, Debug, PartialEq, Eq)]
pub(crate) enum Kind {
    Model,
    Inputs,
    Outputs,
    Names,
    Row(bool),
    End,
}

/// What stands before a line: nothing, no block that rows could belong to, a block with its number of
/// inputs and the output of its first row, or the end.
#[derive(Clone, Copy, Debug, PartialEq, Eq)]
pub(crate) enum Context {
    Start,
    Between,
    Block(usize, Option<bool>),
    Ended,
}

/// What the words of a line say of its kind: the first two, which are empty where there are none, and how many
/// there are.
#[derive(Clone, Copy)]
pub(crate) struct Shape<'a> {
    pub first: &'a [u8],
    pub second: &'a [u8],
    pub count: usize,
}

/// Whether a word begins with a full stop, as keywords do.
fn dotted(word: &[u8]) -> bool
    ensures { result ≡ is_dotted word.now }
{
    !word.is_empty() && word[0] == b'.'
}

/// What a line is that begins with this keyword and has so many words. Refuses a word that is none of the
/// grammar, and a block without an output.
fn keyword(word: &[u8], count: usize) -> Result<Kind, BlifKind>
    ensures { result ≡ keyword_of word.now count }
{
    if word == b".inputs".as_slice() {
        Ok(Kind::Inputs)
    } else if word == b".outputs".as_slice() {
        Ok(Kind::Outputs)
    } else if word == b".names".as_slice() {
        if count == 1 {
            Err(BlifKind::Row)
        } else {
            Ok(Kind::Names)
        }
    } else if word == b".end".as_slice() {
        Ok(Kind::End)
    } else {
        Err(BlifKind::Keyword)
    }
}

/// Whether a word has the characters of a row alone: `0`, `1` and `-`.
fn all_cells(word: &[u8]) -> bool
    ensures { result ≡ list_all is_cell word.now }
{
    word.iter().all(|b| *b == b'0' || *b == b'1' || *b == b'-')
}

/// The output that a word names.
fn digit(word: &[u8]) -> Option<bool>
    ensures { result ≡ digit_of word.now }
{
    if word == b"0".as_slice() {
        Some(false)
    } else if word == b"1".as_slice() {
        Some(true)
    } else {
        None
    }
}

/// The output of a row of a block with so many inputs, where the words are one.
fn value_of_row(inputs: usize, shape: &Shape) -> Option<bool>
    ensures { result ≡ row_value inputs (shape_in shape.now) }
{
    if inputs == 0 {
        if shape.count == 1 {
            return digit(shape.first);
        }
        return None;
    }
    if shape.count == 2 && shape.first.len() == inputs && all_cells(shape.first) {
        return digit(shape.second);
    }
    None
}

/// What a line is that begins with no keyword: a row of the block at hand. Refuses other words, a row without
/// a block, and one with another output than the rows before it.
fn row(context: Context, shape: &Shape) -> Result<Kind, BlifKind>
    ensures { result ≡ row_of context (shape_in shape.now) }
{
    match context {
        Context::Block(inputs, first) => match value_of_row(inputs, shape) {
            None => Err(BlifKind::Row),
            Some(value) => match first {
                Some(other) if other != value => Err(BlifKind::MixedOutputs),
                _ => Ok(Kind::Row(value)),
            },
        },
        _ => Err(BlifKind::Row),
    }
}

/// What a line with words is, or what is wrong with it.
pub(crate) fn line_kind(context: Context, shape: &Shape) -> Result<Kind, BlifKind>
    ensures { result ≡ kind_in context (shape_in shape.now) }
{
    match context {
        Context::Start => {
            if shape.first == b".model".as_slice() {
                Ok(Kind::Model)
            } else {
                Err(BlifKind::NoModel)
            }
        }
        Context::Ended => Err(BlifKind::Keyword),
        _ => {
            if dotted(shape.first) {
                keyword(shape.first, shape.count)
            } else {
                row(context, shape)
            }
        }
    }
}

/// What stands before the line behind this one.
pub(crate) fn context_after(context: Context, kind: Kind, count: usize) -> Context
    ensures { result ≡ after context kind count }
{
    match kind {
        Kind::Names => Context::Block(count.saturating_sub(2), None),
        Kind::Row(value) => match context {
            Context::Block(inputs, _) => Context::Block(inputs, Some(value)),
            _ => Context::Between,
        },
        Kind::End => Context::Ended,
        _ => Context::Between,
    }
}
