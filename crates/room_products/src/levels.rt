//! All pairs, level by level.
ghost use Rattle.std.specs.Prelude.{◌≡◌, ℕ, ◌+◌, ◌*◌, ◌<◌, ◌≤◌, IfSome, [], length};
ghost use Rattle.top_down.specs.declared.tuple.Tuple.{Tuple};
ghost use Rattle.top_down.specs.Operations.{product_rule};
ghost use Rattle.top_down.specs.Tuples.{Targets};
ghost use Rattle.top_down.specs.Rules.{IsRule};
ghost use Rattle.packed_records.specs.Packed.{packed};
ghost use Rattle.room_products.specs.Operands.{GiveRowsOf};
ghost use Rattle.room_products.specs.Joining.{IsJoining};

use crate::level::Level;
use crate::operands::Operands;
use crate::slots::NEXT;
use crate::sources::{Progress, join_slot};
use packed_records::number_at;
use rec_words::Rec;

/// Answers the pairs of the slots, from the first level down, each with its source.
pub(crate) fn join_levels(
    operands: Operands,
    firsts: &mut [Rec],
    buckets: &mut [Rec],
    slots: &mut [Rec],
    sources: &mut [Rec],
    begun: Progress,
) -> Option<Progress>
    requires within { begun.count ≤ 4 * length slots.old }
    requires done { begun.done ≤ 4 * length sources.old }
    ensures within { IfSome result (λ p. p.count ≤ 4 * length slots.new) }
    ensures done { IfSome result (λ p. p.done ≤ 4 * length sources.new) }
    ensures joined { IfSome result (λ p. (n root : ℕ) (roots : Tuple) (targets : Targets) → n ≤ 65535 →
        IsRule n (product_rule operands.entry.op) targets → GiveRowsOf targets operands.entry →
        IsJoining n root roots (product_rule operands.entry.op) targets [] (packed slots.old) firsts.old begun.count
        (packed sources.old) begun.done →
        IsJoining n root roots (product_rule operands.entry.op) targets [] (packed slots.new) firsts.new p.count
        (packed sources.new) p.done) }
{
    let mut now = begun;
    for level in 0..firsts.len() {
        now = join_level(operands, level, firsts, buckets, slots, sources, now)?;
    }
    Some(now)
}

// Answers the pairs that wait on a level.
fn join_level(
    operands: Operands,
    level: usize,
    firsts: &mut [Rec],
    buckets: &mut [Rec],
    slots: &mut [Rec],
    sources: &mut [Rec],
    begun: Progress,
) -> Option<Progress>
    requires level { level < length firsts.old }
    requires within { begun.count ≤ 4 * length slots.old }
    requires done { begun.done ≤ 4 * length sources.old }
    ensures within { IfSome result (λ p. p.count ≤ 4 * length slots.new) }
    ensures done { IfSome result (λ p. p.done ≤ 4 * length sources.new) }
    ensures joined { IfSome result (λ p. (n root : ℕ) (roots : Tuple) (targets : Targets) → n ≤ 65535 →
        IsRule n (product_rule operands.entry.op) targets → GiveRowsOf targets operands.entry →
        IsJoining n root roots (product_rule operands.entry.op) targets [] (packed slots.old) firsts.old begun.count
        (packed sources.old) begun.done →
        IsJoining n root roots (product_rule operands.entry.op) targets [] (packed slots.new) firsts.new p.count
        (packed sources.new) p.done) }
{
    let mut now = begun;
    let mut known = Level::of(&firsts[level]);
    let mut next = known.first_slot;
    known.begin = begun.done as u64;
    firsts[level] = known.to_rec();
    for _source in begun.done..4 * sources.len() {
        if next == 0 {
            return Some(now);
        }
        let place = next - 1;
        if place >= now.count as u64 {
            return None;
        }
        let place = place as usize;
        let count = join_slot(operands, place, firsts, buckets, slots, sources, now)?;
        now = Progress {
            count,
            done: now.done + 1,
        };
        next = u64::from(number_at(slots, place, NEXT));
    }
    if next == 0 { Some(now) } else { None }
}
