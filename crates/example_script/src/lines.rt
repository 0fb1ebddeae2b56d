//! The lines of the script: a word, names behind it, and a line feed.
ghost use Rattle.std.specs.Prelude.{◌≡◌, ◌++◌, ◌∷◌, map, OnOk};
ghost use Rattle.example_script.specs.Lines.{text_of, line};

use itoa::Buffer;
use std::alloc::AllocError;

/// A letter, with a number behind it.
#[derive(Clone, Copy, Debug, PartialEq, Eq)]
pub(crate) struct Name {
    pub(crate) letter: u8,
    pub(crate) number: u32,
}

impl Name {
    /// The name of that letter and number.
    pub(crate) fn of(letter: u8, number: u32) -> Name
        ensures { result ≡ record { letter = letter; number = number } }
    {
        Name { letter, number }
    }
}

/// Puts a line at the script's end.
pub(crate) fn put_line(word: &str, names: &[Name], script: &mut Vec<u8>) -> Result<(), AllocError>
    ensures { OnOk result (script.new.items ≡ script.old.items ++ line word.now (map text_of names.now)) }
{
    script.extend_from_slice(word.as_bytes())?;
    for name in names {
        put_name(*name, script)?;
    }
    script.push(b'\n')?;
    Ok(())
}

/// Puts a name behind a blank at the script's end.
pub(crate) fn put_name(name: Name, script: &mut Vec<u8>) -> Result<(), AllocError>
    ensures { OnOk result (script.new.items ≡ script.old.items ++ 32 ∷ text_of name) }
{
    script.push(b' ')?;
    script.push(name.letter)?;
    script.extend_from_slice(Buffer::new().format(name.number).as_bytes())
}
