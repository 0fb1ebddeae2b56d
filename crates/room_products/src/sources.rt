//! The source of a slot's pair.
ghost use Rattle.std.specs.Prelude.{◌≡◌, ℕ, ◌+◌, ◌-◌, ◌*◌, ◌<◌, ◌≤◌, IsTrue, IfSome, [], length};
ghost use Rattle.run_files.specs.Items.{record_at};
ghost use Rattle.top_down.specs.declared.tuple.Tuple.{Tuple};
ghost use Rattle.top_down.specs.Operations.{product_rule};
ghost use Rattle.top_down.specs.Tuples.{Targets};
ghost use Rattle.top_down.specs.Rules.{IsRule};
ghost use Rattle.packed_records.specs.Packed.{packed};
ghost use Rattle.room_reduction.specs.Records.{uid_in, low_in, high_in};
ghost use Rattle.room_products.specs.Operands.{GiveRowsOf};
ghost use Rattle.room_products.specs.Joining.{IsJoining};

use crate::answers::answer_pair;
use crate::level::Level;
use crate::operands::{Operands, sides_of};
use crate::slots::{FIRST, ID, SECOND};
use packed_records::{put_record, word_at};
use rec_words::{LEVEL_NUMBERS, Rec};
use room_reduction::UID;

/// How many slots are used, and how many sources are done.
#[derive(Clone, Copy)]
pub(crate) struct Progress {
    pub(crate) count: usize,
    pub(crate) done: usize,
}

/// Puts the source of the pair at a place behind those that are done, and answers how many slots are used then.
pub(crate) fn join_slot(
    operands: Operands,
    place: usize,
    firsts: &mut [Rec],
    buckets: &mut [Rec],
    slots: &mut [Rec],
    sources: &mut [Rec],
    begun: Progress,
) -> Option<usize>
    requires within { begun.count ≤ 4 * length slots.old }
    ensures within { IfSome result (λ more. more ≤ 4 * length slots.new) }
    ensures done { IfSome result (λ more. begun.done < 4 * length sources.new) }
    ensures joined { IfSome result (λ more. (n root : ℕ) (roots : Tuple) (targets : Targets) → n ≤ 65535 →
        IsRule n (product_rule operands.entry.op) targets → GiveRowsOf targets operands.entry →
        IsJoining n root roots (product_rule operands.entry.op) targets [] (packed slots.old) firsts.old begun.count
        (packed sources.old) begun.done →
        IsJoining n root roots (product_rule operands.entry.op) targets [] (packed slots.new) firsts.new more
        (packed sources.new) (begun.done + 1)) }
{
    if place >= begun.count {
        return None;
    }
    let source = word_at(slots, place, ID);
    let level = source / LEVEL_NUMBERS;
    if level >= firsts.len() as u64 || level > 65_534 {
        return None;
    }
    let known = Level::of(&firsts[level as usize]);
    let level = level as u16;
    let (first, second) = (word_at(slots, place, FIRST), word_at(slots, place, SECOND));
    let lefts = sides_of(operands.left, known.left_nodes, level, first)?;
    let rights = sides_of(operands.right, known.right_nodes, level, second)?;
    let low = answer_pair(
        operands.op,
        lefts.0,
        rights.0,
        slots,
        begun.count,
        firsts,
        buckets,
    )?;
    let high = answer_pair(
        operands.op,
        lefts.1,
        rights.1,
        slots,
        low.count,
        firsts,
        buckets,
    )?;
    if !put_source(source, low.word, high.word, sources, begun.done) {
        return None;
    }
    Some(high.count)
}

// Puts a source behind those that are done, where it is greater than the last of them and there is room.
fn put_source(source: u64, low: u64, high: u64, sources: &mut [Rec], done: usize) -> bool
    ensures within { IsTrue result → done < 4 * length sources.new }
    ensures source { IsTrue result → uid_in (record_at (packed sources.new) done) ≡ source }
    ensures low { IsTrue result → low_in (record_at (packed sources.new) done) ≡ low }
    ensures high { IsTrue result → high_in (record_at (packed sources.new) done) ≡ high }
    ensures others { IsTrue result → (k : ℕ) → k < done →
        record_at (packed sources.new) k ≡ record_at (packed sources.old) k }
    ensures greater { IsTrue result → 0 < done → uid_in (record_at (packed sources.old) (done - 1)) < source }
{
    if done >= 4 * sources.len() {
        return false;
    }
    if done > 0 && word_at(sources, done - 1, UID) >= source {
        return false;
    }
    put_record(sources, done, [source, low, high, 0])
}
