ghost use Rattle.std.specs.Prelude.{◌≡◌, ℕ, ◌+◌, ◌-◌, ◌^◌, ◌<◌, ◌≤◌, ◌==◌, IfSome};
ghost use Rattle.std.specs.Option.{SomeIff};
ghost use Rattle.rec_words.specs.Words.{IsPointer, IsNodeWord, IsTerminal, terminal, node_word, level_of, deepest_level, level_numbers};

use std::marker::Model;

/// The word of the truth value 0. That of 1 is the next one.
const ZERO: u64 = 1 << 63;

/// The deepest level of a node.
pub const DEEPEST_LEVEL: u16 = 65_534;

/// The most variables of a diagram: one for each level of a node.
pub const MOST_VARIABLES: u32 = 65_535;

/// How many numbers the nodes of a level can have.
pub const LEVEL_NUMBERS: u64 = 1 << 47;

/// A pointer of a diagram: a truth value, or a node by its level and its number there. A contract
/// sees its word. Pointers are ordered by level and then by number, and the truth values come last.
#[derive(Clone, Copy, Debug, PartialEq, Eq, PartialOrd, Ord)]
pub struct Ptr {
    word: u64,
}

impl Model for Ptr {
    ghost Value = { ℕ };

    ghost view = { λ p. p.word };

    ghost invariant = { λ p. IsPointer p.word };

    ghost inverse = { λ w. record { word = w } };
}

impl Ptr {
    /// The pointer to a truth value.
    pub fn terminal(value: bool) -> Ptr
        ensures { result ≡ terminal value }
    {
        Ptr {
            word: if value { ZERO + 1 } else { ZERO },
        }
    }

    /// The pointer to the node with that number in its level.
    pub fn node(level: u16, number: u64) -> Ptr
        requires level { level ≤ deepest_level }
        requires number { number < level_numbers }
        ensures { result ≡ node_word level number }
    {
        Ptr {
            word: u64::from(level) * LEVEL_NUMBERS + number,
        }
    }

    /// The pointer to the node of the row at a place of its level: the numbers of a level's rows count down
    /// from the highest one.
    pub fn of_row(level: u16, place: u64) -> Ptr
        requires level { level ≤ deepest_level }
        requires place { place < level_numbers }
        ensures { result ≡ node_word level (level_numbers - 1 - place) }
    {
        Ptr::node(level, LEVEL_NUMBERS - 1 - place)
    }

    /// The level of a node. A truth value has none.
    pub fn level(self) -> Option<u16>
        ensures level { SomeIff result (self < 2 ^ 63) (level_of self) }
        ensures below { IfSome result (λ level. level ≤ deepest_level) }
    {
        if self.word < ZERO {
            Some((self.word / LEVEL_NUMBERS) as u16)
        } else {
            None
        }
    }

    /// The truth value. A node has none.
    pub fn value(self) -> Option<bool>
        ensures { SomeIff result (IsTerminal self) (self == 2 ^ 63 + 1) }
    {
        if self.word < ZERO {
            None
        } else {
            Some(self.word == ZERO + 1)
        }
    }

    pub fn word(self) -> u64
        ensures value { result ≡ self }
        ensures pointer { IsPointer result }
    {
        self.word
    }

    /// The pointer with that word, where a pointer has it.
    pub fn from_word(word: u64) -> Option<Ptr>
        ensures { SomeIff result (IsPointer word) word }
    {
        if word < u64::from(MOST_VARIABLES) * LEVEL_NUMBERS || word == ZERO || word == ZERO + 1 {
            Some(Ptr { word })
        } else {
            None
        }
    }
}

/// The identifier of a node: a pointer that is no truth value. A contract sees its word.
#[derive(Clone, Copy, Debug, PartialEq, Eq, PartialOrd, Ord)]
pub struct Uid {
    word: u64,
}

impl Model for Uid {
    ghost Value = { ℕ };

    ghost view = { λ u. u.word };

    ghost invariant = { λ u. IsNodeWord u.word };

    ghost inverse = { λ w. record { word = w } };
}

impl Uid {
    /// The identifier of the node that is pointed to. A truth value has none.
    pub fn of(p: Ptr) -> Option<Uid>
        ensures { SomeIff result (p < 2 ^ 63) p }
    {
        if p.word < ZERO {
            Some(Uid { word: p.word })
        } else {
            None
        }
    }

    pub fn ptr(self) -> Ptr
        ensures value { result ≡ self }
        ensures node { IsNodeWord self }
    {
        Ptr { word: self.word }
    }
}
