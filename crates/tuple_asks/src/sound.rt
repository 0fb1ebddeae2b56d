//! What an ask keeps beyond its form.
ghost use Rattle.std.specs.Prelude.{◌≡◌, ◌≤◌, ◌/◌, nat_lt};
ghost use Rattle.std.specs.Option.{SomeIff};
ghost use Rattle.rec_words.specs.Words.{deepest_level, level_of, IsNodeWord};
ghost use Rattle.tuple_asks.specs.Soundness.{asker_word, asker_of, is_asker, asks_above, stands};
ghost use Rattle.tuple_asks.specs.Soundness.{is_keyed, is_sound};

use crate::ask::{Ask, Member};
use crate::members::level_at;
use rec_words::{Ptr, Uid};
use std::marker::Model;

/// The asker of the root's ask, which no node asks for.
pub const NOBODY: u64 = u64::MAX;

/// An ask that is sound: the key is the least of the members' nodes of its level that weren't read, all else lies
/// deeper, and the asker is a node of a level above the key's, or nobody. A contract sees the ask.
#[derive(Clone, Copy, PartialEq, Eq, PartialOrd, Ord)]
pub struct SoundAsk {
    ask: Ask,
}

impl Model for SoundAsk {
    ghost use Rattle.std.specs.Prelude.{◌≡◌, true};
    ghost use Rattle.tuple_asks.specs.declared.ask.Ask.{Ask};
    ghost use Rattle.tuple_asks.specs.Soundness.{is_sound};

    ghost Value = { Ask };

    ghost view = { λ s. s.ask };

    ghost invariant = { λ s. is_sound s.ask ≡ true };

    ghost inverse = { λ a. record { ask = a } };
}

impl SoundAsk {
    ghost use Rattle.std.specs.Prelude.{true};

    /// An ask that is known to be sound.
    pub fn new(ask: Ask) -> SoundAsk
        requires { is_sound ask ≡ true }
        ensures { result ≡ ask }
    {
        SoundAsk { ask }
    }

    /// The ask, where it is sound.
    pub fn of(ask: Ask) -> Option<SoundAsk>
        ensures { SomeIff result (is_sound ask ≡ true) ask }
    {
        if ask.is_sound() {
            Some(SoundAsk { ask })
        } else {
            None
        }
    }

    pub fn ask(self) -> Ask
        ensures value { result ≡ self }
        ensures sound { is_sound self ≡ true }
    {
        self.ask
    }
}

/// A node that asks, on one of its sides.
#[derive(Clone, Copy)]
pub struct Source {
    pub uid: Uid,
    pub high: bool,
}

impl Source {
    /// The word of an asker.
    pub fn word(&self) -> u64
        ensures { result ≡ asker_word self.now }
    {
        let side = if self.high { 1 } else { 0 };
        2 * self.uid.ptr().word() + side
    }

    /// The node and the side that a word says. The word of nobody says none.
    pub fn of_word(word: u64) -> Option<Source>
        ensures { SomeIff result (IsNodeWord (word / 2)) (asker_of word) }
    {
        let uid = Uid::of(Ptr::from_word(word / 2)?)?;
        Some(Source {
            uid,
            high: word % 2 == 1,
        })
    }
}

impl Ask {
    /// Whether a node asks.
    pub fn has_source(&self) -> bool
        ensures { result ≡ is_asker self.now.asker }
    {
        match Source::of_word(self.asker) {
            Some(_source) => true,
            None => false,
        }
    }

    // Whether the key is the least of the members' nodes of its level that weren't read, all else lies deeper, and
    // the asker is a node of a level above the key's, or nobody.
    fn is_sound(&self) -> bool
        ensures { result ≡ is_sound self.now }
    {
        self.is_keyed() && asks_above(self.asker, self.key)
    }

    // Whether the key is the least of the members' nodes of its level that weren't read, and all else lies deeper.
    fn is_keyed(&self) -> bool
        ensures { result ≡ is_keyed self.now }
    {
        let members = &self.members;
        let is_node = members.first.is_node(self.key)
            || members.second.is_node(self.key)
            || members.third.is_node(self.key);
        is_node
            && members.first.stands(self.key)
            && members.second.stands(self.key)
            && members.third.stands(self.key)
    }
}

impl Member {
    /// Whether the member is a pointer from that node on, or both pointers lie deeper than the node.
    fn stands(&self, key: Uid) -> bool
        ensures { result ≡ stands key self.now }
    {
        let level = level_at(key);
        if self.low == self.high {
            return self.low >= key.ptr();
        }
        is_deeper(self.low, level) && is_deeper(self.high, level)
    }
}

// Whether the asker is a node of a level above the key's, or nobody.
fn asks_above(asker: u64, key: Uid) -> bool
    ensures { result ≡ asks_above asker key }
{
    match Source::of_word(asker) {
        Some(source) => level_at(source.uid) < level_at(key),
        None => asker == NOBODY,
    }
}

// Whether a pointer is a truth value or a node of a deeper level.
fn is_deeper(pointer: Ptr, level: u16) -> bool
    requires { level ≤ deepest_level }
    ensures { result ≡ nat_lt level (level_of pointer) }
{
    match pointer.level() {
        Some(deeper) => level < deeper,
        None => true,
    }
}
