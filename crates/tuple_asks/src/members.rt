//! The members of asks, and the node that is read next for them.
ghost use Rattle.std.specs.Prelude.{◌≡◌, ◌<◌, ◌≤◌, ◌^◌, min};
ghost use Rattle.std.specs.Option.{SomeIff};
ghost use Rattle.rec_words.specs.Words.{deepest_level, level_of};
ghost use Rattle.top_down_laws.specs.Forms.{least};
ghost use Rattle.tuple_asks.specs.Members.{member, members_of, on_side, is_node, filled, waiting, all_waiting};

use crate::ask::{Member, Members};
use rec_words::{Node, Ptr, Uid};
use top_down::Tuple;

impl Member {
    /// A pointer as a member.
    pub fn of(pointer: Ptr) -> Member
        ensures { result ≡ member pointer }
    {
        Member {
            low: pointer,
            high: pointer,
        }
    }

    /// Whether the member is that node.
    pub fn is_node(&self, key: Uid) -> bool
        ensures { result ≡ is_node key self.now }
    {
        self.low == key.ptr() && self.high == key.ptr()
    }

    /// The member, or the pointers of the node that it is.
    pub fn filled(&self, key: Uid, hand: &Option<Node>) -> Member
        ensures { result ≡ filled key hand.now self.now }
    {
        match hand {
            Some(node) if node.uid == key && self.is_node(key) => Member {
                low: node.low,
                high: node.high,
            },
            _ => *self,
        }
    }

    /// The member's node, where it is one of that level that was not read, and a truth value else.
    pub fn waiting(&self, level: u16) -> Ptr
        requires { level ≤ deepest_level }
        ensures { result ≡ waiting level self.now }
    {
        if self.low == self.high && self.low.level() == Some(level) {
            self.low
        } else {
            Ptr::terminal(true)
        }
    }
}

impl Members {
    /// The pointers of a tuple as members.
    pub fn of(tuple: &Tuple) -> Members
        ensures { result ≡ members_of tuple.now }
    {
        Members {
            first: Member::of(tuple.first),
            second: Member::of(tuple.second),
            third: Member::of(tuple.third),
        }
    }

    /// The members' pointers on a side.
    pub fn on_side(&self, high: bool) -> Tuple
        ensures { result ≡ on_side high self.now }
    {
        if high {
            Tuple {
                first: self.first.high,
                second: self.second.high,
                third: self.third.high,
            }
        } else {
            Tuple {
                first: self.first.low,
                second: self.second.low,
                third: self.third.low,
            }
        }
    }

    /// The least of the members' nodes of that level that weren't read.
    pub fn next_key(&self, level: u16) -> Option<Uid>
        requires { level ≤ deepest_level }
        ensures { SomeIff result (least (all_waiting level self.now) < 2 ^ 63) (least (all_waiting level self.now)) }
    {
        key_of(&Tuple {
            first: self.first.waiting(level),
            second: self.second.waiting(level),
            third: self.third.waiting(level),
        })
    }
}

/// The least of a tuple's pointers, where that is a node.
pub fn key_of(tuple: &Tuple) -> Option<Uid>
    ensures { SomeIff result (least tuple.now < 2 ^ 63) (least tuple.now) }
{
    Uid::of(lesser(tuple.first, lesser(tuple.second, tuple.third)))
}

fn lesser(a: Ptr, b: Ptr) -> Ptr
    ensures { result ≡ min a b }
{
    if a <= b { a } else { b }
}

/// The level of a node.
pub fn level_at(uid: Uid) -> u16
    ensures level { result ≡ level_of uid }
    ensures below { result ≤ deepest_level }
{
    match uid.ptr().level() {
        Some(level) => level,
        None => unreachable!(),
    }
}
