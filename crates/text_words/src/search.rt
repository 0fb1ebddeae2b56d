//! Where a line ends, where its comment begins, and where a word begins and ends.

ghost use Rattle.std.specs.Prelude.{◌≡◌, ◌≤◌, length};
ghost use Rattle.std.specs.List.{position_or_len};
ghost use Rattle.text_words.specs.Text.{is_feed, is_hash, is_blank, is_inner, code_of};

/// How many bytes stand before the first line feed; all, where there is none.
#[tactic(auto, using(crate::proofs::Searches::found_first))]
pub(crate) fn line_len(text: &[u8]) -> usize
    ensures first { result ≡ position_or_len is_feed text.now }
    ensures within { result ≤ length text.now }
{
    for (n, b) in text.iter().enumerate() {
        if *b == b'\n' {
            return n;
        }
    }
    text.len()
}

/// How many bytes stand before the first number sign; all, where there is none.
#[tactic(auto, using(crate::proofs::Searches::found_first))]
fn code_len(line: &[u8]) -> usize
    ensures first { result ≡ position_or_len is_hash line.now }
    ensures within { result ≤ length line.now }
{
    for (n, b) in line.iter().enumerate() {
        if *b == b'#' {
            return n;
        }
    }
    line.len()
}

/// A line without its comment, which a number sign begins.
pub fn code(line: &[u8]) -> &[u8]
    ensures { result.now ≡ code_of line.now }
{
    &line[..code_len(line)]
}

/// Whether a byte separates words: a blank, a tab or a carriage return.
pub fn is_blank_byte(b: u8) -> bool
    ensures { result ≡ is_blank b }
{
    b == b' ' || b == b'\t' || b == b'\r'
}

/// How many bytes the word has that a text begins with.
#[tactic(auto, using(crate::proofs::Searches::found_first))]
pub(crate) fn word_len(text: &[u8]) -> usize
    ensures first { result ≡ position_or_len is_blank text.now }
    ensures within { result ≤ length text.now }
{
    for (n, b) in text.iter().enumerate() {
        if is_blank_byte(*b) {
            return n;
        }
    }
    text.len()
}

/// Whether a byte belongs to a word.
fn is_word_byte(b: u8) -> bool
    ensures { result ≡ is_inner b }
{
    !is_blank_byte(b)
}

/// How many separators stand before the first word; all bytes, where there is none.
#[tactic(auto, using(crate::proofs::Searches::found_first))]
pub(crate) fn blanks_len(text: &[u8]) -> usize
    ensures first { result ≡ position_or_len is_inner text.now }
    ensures within { result ≤ length text.now }
{
    for (n, b) in text.iter().enumerate() {
        if is_word_byte(*b) {
            return n;
        }
    }
    text.len()
}
