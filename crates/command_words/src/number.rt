//! Numbers as options have them.
ghost use Rattle.std.specs.Prelude.{◌≡◌};
ghost use Rattle.std.specs.Str.{all_ascii_digits};
ghost use Rattle.command_words.specs.Numbers.{number_from};

/// The most digits that a number has.
const MOST_DIGITS: usize = 7;

/// Whether each byte is a decimal digit.
fn are_digits(word: &[u8]) -> bool
    ensures { result ≡ all_ascii_digits word.now }
{
    word.iter().all(|b| b.is_ascii_digit())
}

/// The number that one to seven decimal digits write, where it is from the least to the most.
pub(crate) fn number_from(least: u32, most: u32, word: &str) -> Option<u32>
    ensures { result ≡ number_from least most word.now }
{
    if word.len() > MOST_DIGITS || !are_digits(word.as_bytes()) {
        return None;
    }
    match word.parse::<u32>() {
        Ok(number) if least <= number && number <= most => Some(number),
        Ok(_) => None,
        Err(_) => None,
    }
}
