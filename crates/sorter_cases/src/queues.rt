// What no clause says of queues: they give what a plain list gives, with more items than the room has records.
ghost use Rattle.std.specs.Prelude.{◌≡◌, ◌≤◌, IsTrue, length};
ghost use Rattle.rec_words.specs.Records.{IsRec};
ghost use Rattle.level_queue.specs.Queues.{HoldsValues, Serves, IsNoLess};

use crate::sorters::{first_parts, key_of, next_random, put_plain, record_of};
use level_queue::LevelQueue;
use rec_words::Rec;
use run_merge::Parts;
use shelf_memory::Bench;
use shelf_model::{Shelf, SortFault};
use std::alloc::Global;
use std::test::Fail;

/// How many calls a queue is compared over before it is drained.
const TURNS: u64 = 12_000;

// Whether an item may be pushed.
fn is_no_less(item: &Rec, last: Option<Rec>) -> bool
    ensures { IsTrue result → IsNoLess ⟦<Rec as Ord>⟧.cmp last item.now }
{
    match last {
        Some(last) => !item.cmp(&last).is_lt(),
        None => true,
    }
}

// Pushes an item that may be pushed, and says whether it may.
pub(crate) fn push_item<S: Shelf>(
    item: Rec,
    queue: &mut LevelQueue<Rec>,
    parts: &mut Parts,
    shelf: &mut S,
) -> Result<bool, SortFault>
    requires values { HoldsValues IsRec (λ r. r.w) queue.old }
    requires serves { Serves parts.old queue.old }
    ensures values { HoldsValues IsRec (λ r. r.w) queue.new }
    ensures serves { Serves parts.new queue.new }
    ensures step { parts.new.step ≡ parts.old.step }
{
    let last = queue.last();
    if !is_no_less(&item, last) {
        return Ok(false);
    }
    queue.push(item, parts, shelf)?;
    Ok(true)
}

// One call of a queue, and whether its answer is that of the plain list, whose keys descend. The key of an item that is
// pushed is so much above that of the last one taken.
fn queue_turn<S: Shelf>(
    action: u64,
    above: u64,
    plain: &mut Vec<u64>,
    queue: &mut LevelQueue<Rec>,
    parts: &mut Parts,
    shelf: &mut S,
) -> Result<bool, Fail>
    requires values { HoldsValues IsRec (λ r. r.w) queue.old }
    requires serves { Serves parts.old queue.old }
    ensures values { HoldsValues IsRec (λ r. r.w) queue.new }
    ensures serves { Serves parts.new queue.new }
{
    match action {
        0 => Ok(queue.peek(shelf)?.map(key_of) == plain.last().copied()),
        1 => Ok(queue.take(parts, shelf)?.map(key_of) == plain.pop()),
        _ => {
            let key = queue.last().map_or(0, key_of).saturating_add(above);
            let pushed = push_item(record_of(key), queue, parts, shelf)?;
            put_plain(plain, key)?;
            Ok(pushed)
        }
    }
}

// Whether the answers of a queue are those of a plain list.
fn queue_agrees<S: Shelf>(
    alloc: Global,
    queue: &mut LevelQueue<Rec>,
    parts: &mut Parts,
    shelf: &mut S,
) -> Result<bool, Fail>
    requires values { HoldsValues IsRec (λ r. r.w) queue.old }
    requires serves { Serves parts.old queue.old }
{
    let mut plain = Vec::new(alloc);
    let mut random = 1;
    for turn in 0..2 * TURNS {
        random = next_random(random);
        let action = if turn < TURNS { (random >> 33) % 4 } else { 1 };
        if !queue_turn(
            action,
            (random >> 40) % 500,
            &mut plain,
            queue,
            parts,
            shelf,
        )? {
            return Ok(false);
        }
    }
    Ok(plain.is_empty())
}

// Whether a queue in the least room agrees with a plain list, and makes runs on the way.
fn least_queue_agrees(alloc: Global) -> Result<bool, Fail> {
    let mut room = vec![in alloc; Rec { w: [0; 8] }; 3072]?;
    let mut bench = Bench::empty(alloc);
    let mut parts = first_parts();
    let mut queue = LevelQueue::<Rec>::start(room.as_mut_slice());
    let agrees = queue_agrees(alloc, &mut queue, &mut parts, &mut bench)?;
    Ok(agrees && parts.next > 3)
}

#[test]
fn queues_give_what_a_plain_list_gives(rt: HostRuntime) -> Result<(), Fail> {
    assert!(rt; least_queue_agrees(rt.alloc())?);
    Ok(())
}
