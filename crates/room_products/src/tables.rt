//! The sources of the operator's diagram, of the nodes of both operands.
ghost use Rattle.std.specs.Prelude.{◌≡◌, ℕ, ◌*◌, ◌<◌, ◌≤◌, IfSome, length};
ghost use Rattle.top_down.specs.Operations.{product_rule, two};
ghost use Rattle.top_down.specs.Rules.{IsRule, IsAsked, table_for};
ghost use Rattle.top_down.specs.Tuples.{Targets};
ghost use Rattle.room_reduction.specs.Sources.{sources_in};
ghost use Rattle.room_products.specs.Goals.{GiveRows};
ghost use Rattle.room_products.specs.Operands.{nodes_of};
ghost use Rattle.room_products.specs.Joined.{AreOfTable};

use crate::checks::are_done;
use crate::goals::end_of;
use crate::levels::join_levels;
use crate::operands::{Nodes, Operands, index_nodes};
use crate::slots::add_slot;
use crate::sources::Progress;
use bool_tables::Bin;
use rec_words::Rec;
use room_reduction::Index;

/// A record of buckets that hold no slot.
const NO_SLOTS: Rec = Rec { w: [u64::MAX; 8] };

/// What is asked: an operator, and the words of the two roots that it is put to.
#[derive(Clone, Copy)]
pub(crate) struct Asked {
    pub(crate) op: Bin,
    pub(crate) first: u64,
    pub(crate) second: u64,
}

/// The sources of a diagram: the identifier of its root, and how many there are.
#[derive(Clone, Copy)]
pub(crate) struct Tabled {
    pub(crate) root: u64,
    pub(crate) count: usize,
}

/// Puts the sources of the diagram of an operator into the room, where these are the nodes of both operands, and their
/// roots are asked. None is given where it has more of them than there is room for, where it has none, and where the
/// nodes aren't those of diagrams.
pub(crate) fn join_nodes(
    asked: Asked,
    left: Nodes,
    right: Nodes,
    firsts: &mut [Rec],
    buckets: &mut [Rec],
    slots: &mut [Rec],
    sources: &mut [Rec],
) -> Option<Tabled>
    ensures within { IfSome result (λ t. t.count ≤ 4 * length slots.new) }
    ensures few { IfSome result (λ t. t.count ≤ 4 * length sources.new) }
    ensures joined { IfSome result (λ t. (n : ℕ) (targets : Targets) → n ≤ 65535 →
        IsRule n (product_rule asked.op) targets → GiveRows targets (nodes_of left.entry) (nodes_of right.entry) →
        IsAsked n (product_rule asked.op) 0 (two asked.first asked.second) →
        AreOfTable n t.root (table_for (product_rule asked.op) targets n 0 (two asked.first asked.second))
        (sources_in t.count sources.new)) }
{
    let (op, first, second) = (asked.op, asked.first, asked.second);
    if end_of(op, first, second).is_some() {
        return None;
    }
    if !index_nodes(left, right, firsts) {
        return None;
    }
    buckets.fill(NO_SLOTS);
    let root = add_slot(first, second, 0, slots, 0, firsts, buckets)?;
    let begun = Progress { count: 1, done: 0 };
    let operands = Operands { op, left, right };
    let ended = join_levels(operands, firsts, buckets, slots, sources, begun)?;
    let count = ended.count;
    if ended.done != count {
        return None;
    }
    let index = Index {
        levels: firsts,
        total: count,
    };
    if !are_done(slots, sources, index) {
        return None;
    }
    Some(Tabled { root, count })
}
