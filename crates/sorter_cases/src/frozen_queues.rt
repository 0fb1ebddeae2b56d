// What no clause says: a queue that is frozen at any moments, and thawed over rooms of other lengths, gives what a
// plain list gives, also where one call failed, with a stop behind it.
ghost use Rattle.std.specs.Prelude.{◌≡◌, ◌≤◌, IfOk, IfSome, length};
ghost use Rattle.rec_words.specs.Records.{IsRec};
ghost use Rattle.level_queue.specs.Queues.{HoldsValues, Serves};
ghost use Rattle.level_queue.specs.Tables.{AreTables, ServeTables};

use crate::frozen::{MOST_CALLS, MOST_LIVES, Outcome, room_len, split_turns};
use crate::queues::push_item;
use crate::sorters::{first_parts, key_of, next_random, put_plain, record_of};
use level_queue::LevelQueue;
use rec_words::Rec;
use run_merge::{Parts, RunTable};
use shelf_memory::{Bench, Choice};
use shelf_model::{Shelf, SortFault};
use std::alloc::{AllocError, Global};
use std::test::Fail;

const EMPTY: Rec = Rec { w: [0; 8] };

/// How many calls are made before the queue is drained.
const TURNS: u64 = 4000;

/// One call: a push of a key, or a look at the first item or its taking, which give this key.
#[derive(Clone, Copy, Debug, PartialEq, Eq)]
enum Turn {
    Push(u64),
    Peek(Option<u64>),
    Take(Option<u64>),
}

// The calls, with the answers that a plain list gives. Each key that is pushed isn't below that of the last item
// taken.
fn queue_turns(alloc: Global) -> Result<Vec<Turn>, AllocError> {
    let mut plain = Vec::new(alloc);
    let mut turns = Vec::new(alloc);
    let mut random = 1;
    let mut last = 0u64;
    for turn in 0..2 * TURNS {
        random = next_random(random);
        let action = if turn < TURNS { (random >> 33) % 4 } else { 1 };
        if action == 0 {
            turns.push(Turn::Peek(plain.last().copied()))?;
        } else if action == 1 {
            let taken = plain.pop();
            last = taken.unwrap_or(last);
            turns.push(Turn::Take(taken))?;
        } else {
            let key = last.saturating_add((random >> 40) % 500);
            put_plain(&mut plain, key)?;
            turns.push(Turn::Push(key))?;
        }
    }
    Ok(turns)
}

// One call, and whether its answer is the one that is wanted.
fn turn_agrees<S: Shelf>(
    turn: Turn,
    queue: &mut LevelQueue<Rec>,
    parts: &mut Parts,
    shelf: &mut S,
) -> Result<bool, SortFault>
    requires values { HoldsValues IsRec (λ r. r.w) queue.old }
    requires serves { Serves parts.old queue.old }
    ensures values { HoldsValues IsRec (λ r. r.w) queue.new }
    ensures serves { Serves parts.new queue.new }
    ensures step { parts.new.step ≡ parts.old.step }
{
    match turn {
        Turn::Push(key) => push_item(record_of(key), queue, parts, shelf),
        Turn::Peek(key) => Ok(queue.peek(shelf)?.map(key_of) == key),
        Turn::Take(key) => Ok(queue.take(parts, shelf)?.map(key_of) == key),
    }
}

// Whether the answers of a queue are those that are wanted.
fn turns_agree<S: Shelf>(
    turns: &[Turn],
    queue: &mut LevelQueue<Rec>,
    parts: &mut Parts,
    shelf: &mut S,
) -> Result<bool, SortFault>
    requires values { HoldsValues IsRec (λ r. r.w) queue.old }
    requires serves { Serves parts.old queue.old }
    ensures values { HoldsValues IsRec (λ r. r.w) queue.new }
    ensures serves { Serves parts.new queue.new }
    ensures step { parts.new.step ≡ parts.old.step }
{
    for turn in turns {
        if !turn_agrees(*turn, queue, parts, shelf)? {
            return Ok(false);
        }
    }
    Ok(true)
}

// A life: a thaw, some calls, and a freeze. The tables and the last item taken are answered, or None where an answer
// was none that is wanted.
fn live<S: Shelf>(
    turns: &[Turn],
    frozen: &([RunTable; 3], Option<Rec>),
    room: &mut [Rec],
    parts: &mut Parts,
    shelf: &mut S,
) -> Result<Option<([RunTable; 3], Option<Rec>)>, SortFault>
    requires enough { 3072 ≤ length room.old }
    requires tables { AreTables frozen.now.0 }
    requires step { parts.old.step ≡ 0 }
    requires serves { ServeTables parts.old frozen.now.0 }
    ensures step { parts.new.step ≡ 0 }
    ensures tables { IfOk result (λ found. IfSome found (λ next. AreTables next.0)) }
    ensures serves { IfOk result (λ found. IfSome found (λ next. ServeTables parts.new next.0)) }
{
    let mut queue = LevelQueue::<Rec>::thaw(0, &frozen.0, frozen.1, room);
    if !turns_agree(turns, &mut queue, parts, shelf)? {
        return Ok(None);
    }
    let tables = queue.freeze(parts, shelf)?;
    Ok(Some((tables, queue.last())))
}

// The tables of a queue without items.
fn first_tables(
    room: &mut [Rec],
    parts: &mut Parts,
    bench: &mut Bench,
) -> Result<[RunTable; 3], SortFault>
    requires enough { 3072 ≤ length room.old }
    requires step { parts.old.step ≡ 0 }
    requires past { 3 ≤ parts.old.next }
    ensures step { parts.new.step ≡ 0 }
    ensures tables { IfOk result AreTables }
    ensures serves { IfOk result (ServeTables parts.new) }
{
    let mut queue = LevelQueue::<Rec>::start(room);
    queue.freeze(parts, bench)
}

// A life, or where a call of it failed, the tables and the parts before it.
fn live_on(
    turns: &[Turn],
    frozen: &([RunTable; 3], Option<Rec>),
    room: &mut [Rec],
    parts: &mut Parts,
    bench: &mut Bench,
) -> (([RunTable; 3], Option<Rec>), Outcome)
    requires enough { 3072 ≤ length room.old }
    requires tables { AreTables frozen.now.0 }
    requires step { parts.old.step ≡ 0 }
    requires serves { ServeTables parts.old frozen.now.0 }
    ensures step { parts.new.step ≡ 0 }
    ensures tables { AreTables result.0.0 }
    ensures serves { ServeTables parts.new result.0.0 }
{
    let mut given = *parts;
    match live(turns, frozen, room, &mut given, bench) {
        Ok(Some(next)) => {
            *parts = given;
            (next, Outcome::Through)
        }
        Err(SortFault::Shelf) => (*frozen, Outcome::CutShort),
        _ => (*frozen, Outcome::Wrong),
    }
}

// Whether the lives of a queue give what a plain list gives, where the call of that number over all lives fails. A
// stop comes behind each life, and a life in which a call failed is lived again from the tables before it.
fn lives_agree(alloc: Global, turns: &[Turn], choice: Choice, call: u64) -> Result<Outcome, Fail> {
    let mut bench = Bench::empty(alloc);
    let mut parts = first_parts();
    let mut least = vec![in alloc; EMPTY; 3072]?;
    let tables = first_tables(least.as_mut_slice(), &mut parts, &mut bench)?;
    let mut frozen = (tables, None);
    let mut outcome = Outcome::Through;
    let mut rest = turns;
    let mut random = 1;
    let mut failing = call;
    for _life in 0..MOST_LIVES {
        if rest.is_empty() {
            return Ok(outcome);
        }
        random = next_random(random);
        let (now, later) = split_turns(rest, random);
        let mut room = vec![in alloc; EMPTY; room_len(3072, random)]?;
        bench.fail_at(failing)?;
        let (next, lived) = live_on(now, &frozen, room.as_mut_slice(), &mut parts, &mut bench);
        frozen = next;
        match (lived, outcome) {
            (Outcome::Through, _) => {
                failing = failing.saturating_sub(bench.clock());
                rest = later;
            }
            (Outcome::CutShort, Outcome::Through) => {
                failing = u64::MAX;
                outcome = Outcome::CutShort;
            }
            _ => return Ok(Outcome::Wrong),
        }
        bench = bench.stop(choice)?;
    }
    Ok(Outcome::Wrong)
}

// Whether they do where each call fails in turn, whatever a stop leaves behind it.
fn failing_lives_agree(alloc: Global) -> Result<bool, Fail> {
    let turns = queue_turns(alloc)?;
    for call in 0..MOST_CALLS {
        for choice in [Choice::Firm, Choice::Present, Choice::Mixed(call)] {
            match lives_agree(alloc, turns.as_slice(), choice, call)? {
                Outcome::CutShort => {}
                Outcome::Through => return Ok(call > 100),
                Outcome::Wrong => return Ok(false),
            }
        }
    }
    Ok(false)
}

#[test]
fn queues_that_are_frozen_at_any_moment_give_what_a_plain_list_gives(
    rt: HostRuntime,
) -> Result<(), Fail> {
    assert!(rt; failing_lives_agree(rt.alloc())?);
    Ok(())
}
