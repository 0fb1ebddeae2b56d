//! Where a sweep stands, but for what its queue and its files hold.
ghost use Rattle.std.specs.Prelude.{◌≡◌, ◌<◌, ◌^◌, ◌==◌, ◌&&◌, IfSome};

use crate::ask::{Ask, Members};
use crate::members::level_at;
use arc_file::Unreduced;
use rec_words::{Ptr, Uid};

/// The tuple that was numbered last, as it was asked for, and its number within the level.
#[derive(Clone, Copy)]
pub struct Numbered {
    pub key: Uid,
    pub members: Members,
    pub number: u64,
}

impl Numbered {
    ghost use Rattle.rec_words.specs.Words.{level_numbers};
    ghost use Rattle.tuple_asks.specs.Soundness.{identifier, answers};

    /// The identifier of the tuple.
    pub fn uid(&self) -> Uid
        requires { self.now.number < level_numbers }
        ensures { result ≡ identifier self.now }
    {
        match Uid::of(Ptr::node(level_at(self.key), self.number)) {
            Some(uid) => uid,
            None => unreachable!(),
        }
    }

    /// Whether that tuple is asked for.
    fn answers(&self, ask: &Ask) -> bool
        ensures { result ≡ answers self.now ask.now }
    {
        self.key == ask.key && self.members == ask.members
    }
}

/// What is known while asks are answered: the root's identifier, and the tuple that was numbered last.
#[derive(Clone, Copy)]
pub struct Asking {
    pub root: Uid,
    pub last: Option<Numbered>,
}

impl Asking {
    ghost use Rattle.rec_words.specs.Words.{level_numbers};
    ghost use Rattle.tuple_asks.specs.Soundness.{is_due, known, next_numbered};

    /// Whether such an ask may come: once a tuple has a number, only nodes ask.
    pub fn is_due(&self, ask: &Ask) -> bool
        ensures { result ≡ is_due self.now.last ask.now }
    {
        match &self.last {
            Some(_last) => ask.has_source(),
            None => true,
        }
    }

    /// The identifier of the tuple of that ask, where it was numbered last.
    pub fn known(&self, ask: &Ask) -> Option<Uid>
        requires { IfSome self.now.last (λ x. x.number < level_numbers) }
        ensures { result ≡ known self.now.last ask.now }
    {
        match &self.last {
            Some(last) if last.answers(ask) => Some(last.uid()),
            _ => None,
        }
    }

    /// Once the tuple of that ask is numbered: the next number of its level, or the number 0.
    pub fn next(&self, ask: &Ask) -> Numbered
        requires { IfSome self.now.last (λ x. x.number < 2 ^ 63) }
        ensures { result ≡ next_numbered self.now ask.now }
    {
        let number = match &self.last {
            Some(last) if level_at(last.key) == level_at(ask.key) => last.number + 1,
            _ => 0,
        };
        Numbered {
            key: ask.key,
            members: ask.members,
            number,
        }
    }
}

/// What a sweep does.
#[derive(Clone, Copy)]
pub enum Phase {
    /// The root wasn't asked for.
    Fresh,
    /// Answers asks.
    Asking(Asking),
    /// All is done, and these arcs are made.
    Ended(Unreduced),
}

/// What of a sweep is no stream, no list and no part number.
#[derive(Clone, Copy)]
pub struct Place {
    pub variables: u32,
    pub phase: Phase,
    // Whether an arc that was put leads to the truth value 1.
    pub has_one: bool,
}
