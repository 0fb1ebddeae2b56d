//! The slots of the room: pairs of pointers that are to be answered.
ghost use Rattle.std.specs.Prelude.{◌≡◌, ◌≢◌, ℕ, ◌+◌, ◌-◌, ◌*◌, ◌<◌, ◌^◌, IfSome, length};
ghost use Rattle.top_down.specs.Operations.{two};
ghost use Rattle.top_down.specs.Tuples.{level_of_tuple};
ghost use Rattle.top_down.specs.Rules.{Rule, IsAsked};
ghost use Rattle.packed_records.specs.Packed.{packed};
ghost use Rattle.room_products.specs.Slots.{pair_at, id_at, used_at, AreSlots, KeepsSlots};

use crate::level::{Level, used_of};
use packed_records::{number_at, put_number, put_record, word_at};
use rec_words::{LEVEL_NUMBERS, Rec};

/// The columns of a slot: its pair of pointers, its identifier, and the place behind that of the next slot that waits
/// on its level, or 0.
pub(crate) const FIRST: usize = 0;

pub(crate) const SECOND: usize = 1;

pub(crate) const ID: usize = 2;

pub(crate) const NEXT: usize = 3;

/// How many buckets are looked at for a pair, one behind the other.
const PROBES: usize = 16;

/// How many identifiers of a level are used at most.
const MOST: u64 = 1 << 17;

/// How many slots are used at most: the place behind one is a number of 32 bits.
const MOST_SLOTS: usize = 4_294_967_295;

/// Where a pair is looked for: the place of its slot, where it has one, and the bucket that a new one gets.
#[derive(Clone, Copy)]
pub(crate) struct Looked {
    pub(crate) slot: Option<usize>,
    pub(crate) bucket: usize,
}

/// Looks for the slot of a pair. One that has no free bucket near may be missed.
pub(crate) fn look_up(
    first: u64,
    second: u64,
    slots: &[Rec],
    count: usize,
    buckets: &[Rec],
) -> Looked
    ensures { IfSome result.slot (λ k. (k < count) × (pair_at (packed slots.now) k ≡ two first second)) }
{
    let many = 16 * buckets.len();
    let home = home_of(first, second, many as u64) as usize;
    for probe in 0..PROBES {
        let next = home.saturating_add(probe);
        let bucket = if next < many { next } else { probe };
        let Some(place) = held_in(bucket, slots, count, buckets) else {
            return Looked { slot: None, bucket };
        };
        if word_at(slots, place, FIRST) == first && word_at(slots, place, SECOND) == second {
            return Looked {
                slot: Some(place),
                bucket,
            };
        }
    }
    Looked {
        slot: None,
        bucket: home,
    }
}

// The bucket at which a pair is looked for first, of so many.
fn home_of(first: u64, second: u64, many: u64) -> u64 {
    let mixed = first
        .wrapping_mul(0x9E37_79B9_7F4A_7C15)
        .wrapping_add(second.wrapping_mul(0xC2B2_AE3D_27D4_EB4F));
    let folded = (mixed ^ (mixed >> 29)).wrapping_mul(0xBF58_476D_1CE4_E5B9) >> 32;
    (folded * (many & 0xFFFF_FFFF)) >> 32
}

// The place of the slot that a bucket holds: one that is used.
fn held_in(bucket: usize, slots: &[Rec], count: usize, buckets: &[Rec]) -> Option<usize>
    ensures { IfSome result (λ k. (k < count) × (k < 4 * length slots.now)) }
{
    if bucket / 16 >= buckets.len() {
        return None;
    }
    let place = number_at(buckets, bucket / 4, bucket % 4) as usize;
    if place >= count || place >= 4 * slots.len() {
        return None;
    }
    Some(place)
}

/// Puts a pair into a new slot, behind those that wait on its level, and gives it the next identifier there.
pub(crate) fn add_slot(
    first: u64,
    second: u64,
    bucket: usize,
    slots: &mut [Rec],
    count: usize,
    firsts: &mut [Rec],
    buckets: &mut [Rec],
) -> Option<u64>
    ensures within { IfSome result (λ id. count < 4 * length slots.new) }
    ensures kept { IfSome result (λ id. KeepsSlots count (count + 1) (packed slots.old) (packed slots.new)) }
    ensures pair { IfSome result (λ id. pair_at (packed slots.new) count ≡ two first second) }
    ensures id { IfSome result (λ id. id_at (packed slots.new) count ≡ id) }
    ensures added { IfSome result (λ id. (n : ℕ) (rule : Rule) →
        IsAsked n rule (level_of_tuple (two first second)) (two first second) → level_of_tuple (two first second) < n →
        AreSlots n rule (packed slots.old) firsts.old count →
        AreSlots n rule (packed slots.new) firsts.new (count + 1)) }
{
    let level = first.min(second) / LEVEL_NUMBERS;
    if count >= (4 * slots.len()).min(MOST_SLOTS)
        || level >= firsts.len() as u64
        || level > 65_534
    {
        return None;
    }
    let level = level as usize;
    let used = used_of(&firsts[level]);
    if used >= MOST {
        return None;
    }
    let id = level as u64 * LEVEL_NUMBERS + used;
    if !put_record(slots, count, [first, second, id, 0]) {
        return None;
    }
    link_slot(level, count, slots, firsts);
    fill_bucket(bucket, count, buckets);
    Some(id)
}

// Puts the place of a slot into a bucket, where there is that one.
fn fill_bucket(bucket: usize, place: usize, buckets: &mut [Rec])
    requires place { place < 2 ^ 32 }
{
    if bucket / 16 < buckets.len() {
        put_number(buckets, bucket / 4, bucket % 4, place as u32);
    }
}

// Puts the slot at a place behind those that wait on a level, and counts its identifier.
fn link_slot(level: usize, place: usize, slots: &mut [Rec], firsts: &mut [Rec])
    requires level { level < length firsts.old }
    requires place { place < 2 ^ 32 - 1 }
    requires few { used_at firsts.old level < 2 ^ 17 }
    ensures pairs { (k : ℕ) → pair_at (packed slots.new) k ≡ pair_at (packed slots.old) k }
    ensures ids { (k : ℕ) → id_at (packed slots.new) k ≡ id_at (packed slots.old) k }
    ensures used { used_at firsts.new level ≡ used_at firsts.old level + 1 }
    ensures others { (i : ℕ) → i ≢ level → used_at firsts.new i ≡ used_at firsts.old i }
{
    let behind = place as u64 + 1;
    let known = Level::of(&firsts[level]);
    let used = used_of(&firsts[level]);
    let last = known.last_slot;
    if last > 0 && last <= 4 * slots.len() as u64 {
        put_number(slots, last as usize - 1, NEXT, behind as u32);
    }
    let first_slot = if last > 0 { known.first_slot } else { behind };
    let linked = Level {
        begin: known.begin,
        first_slot,
        last_slot: behind,
        used: used + 1,
        left_nodes: known.left_nodes,
        right_nodes: known.right_nodes,
    };
    firsts[level] = linked.to_rec();
}
