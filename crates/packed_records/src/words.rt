//! Words as numbers of 32 bits.
ghost use Rattle.std.specs.Prelude.{◌≡◌, IfSome};
ghost use Rattle.packed_records.specs.Numbers.{widened};

use rec_words::LEVEL_NUMBERS;

/// The word of the truth value 0. That of 1 is the next one.
const ZERO: u64 = 1 << 63;

/// How many words of a level have a number.
const LEVEL_WORDS: u64 = 1 << 16;

/// The level in a number that stands for a truth value.
const ENDS: u64 = 65_535;

/// The number that stands for a word: its level in the upper half, and in the lower half its number there, if that is
/// one of the first or of the last 32,768 of the level.
pub fn narrow(word: u64) -> Option<u32>
    ensures { IfSome result (λ number. widened number ≡ word) }
{
    if word >= ZERO {
        let end = word - ZERO;
        if end >= LEVEL_WORDS {
            return None;
        }
        return Some((ENDS * LEVEL_WORDS + end) as u32);
    }
    let level = word / LEVEL_NUMBERS;
    if level >= ENDS {
        return None;
    }
    let number = word % LEVEL_NUMBERS;
    if number < LEVEL_WORDS / 2 {
        return Some((level * LEVEL_WORDS + number) as u32);
    }
    if number < LEVEL_NUMBERS - LEVEL_WORDS / 2 {
        return None;
    }
    Some((level * LEVEL_WORDS + (number - (LEVEL_NUMBERS - LEVEL_WORDS))) as u32)
}

/// The word for which a number stands.
pub fn widen(number: u32) -> u64
    ensures { result ≡ widened number }
{
    let level = u64::from(number) / LEVEL_WORDS;
    let place = u64::from(number) % LEVEL_WORDS;
    if level == ENDS {
        return ZERO + place;
    }
    if place < LEVEL_WORDS / 2 {
        return level * LEVEL_NUMBERS + place;
    }
    level * LEVEL_NUMBERS + (place + (LEVEL_NUMBERS - LEVEL_WORDS))
}
