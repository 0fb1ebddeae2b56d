//! The two numbers of 32 bits in a word.
ghost use Rattle.std.specs.Prelude.{◌≡◌};
ghost use Rattle.packed_records.specs.Numbers.{lower, upper};

const HALF: u64 = 1 << 32;

/// The number in the lower half of a word.
pub(crate) fn lower_of(word: u64) -> u32
    ensures { result ≡ lower word }
{
    (word % HALF) as u32
}

/// The number in the upper half of a word.
pub(crate) fn upper_of(word: u64) -> u32
    ensures { result ≡ upper word }
{
    (word / HALF) as u32
}

/// A word with another number in its lower half.
pub(crate) fn with_lower(word: u64, number: u32) -> u64
    ensures lower { lower result ≡ number }
    ensures upper { upper result ≡ upper word }
{
    word / HALF * HALF + u64::from(number)
}

/// A word with another number in its upper half.
pub(crate) fn with_upper(word: u64, number: u32) -> u64
    ensures lower { lower result ≡ lower word }
    ensures upper { upper result ≡ number }
{
    u64::from(number) * HALF + word % HALF
}
