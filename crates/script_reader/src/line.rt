//! Whether the words of a line are as many as its request takes, and of the right form.

ghost use Rattle.std.specs.Prelude.{◌≡◌};
ghost use Rattle.text_words.specs.Left.{word_of};
ghost use Rattle.script_reader.specs.Keywords.{is_bit_word, is_one, is_formed};
ghost use Rattle.script_reader.specs.Views.{words_of};

use crate::keyword::Keyword;
use text_words::Word;

/// Whether a word is 0 or 1.
fn is_bit(word: &Word<'_>) -> bool
    ensures { result ≡ is_bit_word (word_of word.now) }
{
    word.bytes == b"0".as_slice() || word.bytes == b"1".as_slice()
}

/// Whether a word is 1.
pub(crate) fn is_one(word: &Word<'_>) -> bool
    ensures { result ≡ is_one (word_of word.now) }
{
    word.bytes == b"1".as_slice()
}

/// Whether the words of a line are those of a request, behind other lines or not, with `n` variables. The first
/// word is the keyword.
pub(crate) fn is_formed(begun: bool, n: u32, keyword: Keyword, words: &[Word<'_>]) -> bool
    ensures { result ≡ is_formed begun n keyword (words_of words.now) }
{
    match keyword {
        Keyword::Vars => !begun,
        Keyword::Inputs => !begun && words.len() == 1,
        Keyword::Const => words.len() == 3 && is_bit(&words[2]),
        Keyword::Var => words.len() == 3,
        Keyword::Not => words.len() == 3,
        Keyword::Pair(_) => words.len() == 4,
        Keyword::Ite => words.len() == 5,
        Keyword::Quantify(_) => words.len() == 4,
        Keyword::Restrict => words.len() == 5 && is_bit(&words[4]),
        Keyword::Net => words.len() >= 3 && words.len() % 2 == 1,
        Keyword::Drop => words.len() == 2,
        Keyword::Same => words.len() == 3,
        Keyword::Leq => words.len() == 3,
        Keyword::Eval => words.len() == 3 || (words.len() == 2 && n == 0),
        Keyword::Size => words.len() == 2,
    }
}
