//! A line as it was read.

ghost use Rattle.std.specs.Prelude.{◌+◌, ◌<◌, ◌^◌, length};

use crate::grammar::Shape;

/// A line: its number, which is that of the first of those that are joined, what its words say of its kind, and
/// the text from its first byte on.
#[derive(Clone, Copy)]
pub(crate) struct Line<'a> {
    pub number: u32,
    pub shape: Shape<'a>,
    pub text: &'a [u8],
    ghost few: { number + length text.now + 1 < 2 ^ 32 },
}
