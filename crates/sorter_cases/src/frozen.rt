// What no clause says: a sorter that is frozen at any moments of a pattern, and thawed over rooms of other lengths,
// gives what a plain list gives, also where one call failed, with a stop behind it.
ghost use Rattle.std.specs.Prelude.{◌≡◌, ◌≤◌, IfOk, IfSome, length};
ghost use Rattle.run_tiers.specs.Tables.{IsTable, ServeTable};

use crate::lives::first_table;
use crate::sorters::{
    ALL_KEYS, Keys, Pattern, Turn, first_parts, gives_up_to, next_random, push_down, turns_agree,
    turns_of,
};
use rec_words::Rec;
use run_merge::{Parts, RunTable, Sorter};
use shelf_memory::{Bench, Choice};
use shelf_model::{Shelf, SortFault};
use std::alloc::Global;
use std::test::Fail;

const EMPTY: Rec = Rec { w: [0; 8] };

/// How many items are pushed in a pattern.
const PUSHED: u64 = 1500;

/// How many calls are made at most between two freezes.
const MOST_TURNS: u64 = 600;

/// A pattern is over after fewer lives than that.
pub(crate) const MOST_LIVES: u64 = 1000;

/// A pattern takes fewer calls of the folder.
pub(crate) const MOST_CALLS: u64 = 5000;

/// How the lives ended that make the calls of a pattern.
#[derive(Clone, Copy, Debug, PartialEq, Eq)]
pub(crate) enum Outcome {
    /// All answers were those that are wanted, and no call failed.
    Through,
    /// They were, and a call failed.
    CutShort,
    /// An answer was none that is wanted.
    Wrong,
}

// The number of records of a room: so many at least, and up to 3,072 more.
pub(crate) fn room_len(least: usize, random: u64) -> usize
    requires { least ≤ 3072 }
    ensures { least ≤ result }
{
    least + ((random >> 45) % 3073) as usize
}

// The calls that are made until the next freeze, and the later ones.
pub(crate) fn split_turns<T>(turns: &[T], random: u64) -> (&[T], &[T]) {
    let most = (random >> 33) % MOST_TURNS;
    turns.split_at((most as usize).min(turns.len()))
}

// A life: a thaw, some calls, and a freeze. The table is answered, or None where an answer was none that is wanted.
fn live<S: Shelf>(
    turns: &[Turn],
    table: &RunTable,
    room: &mut [Rec],
    parts: &mut Parts,
    shelf: &mut S,
) -> Result<Option<RunTable>, SortFault>
    requires enough { 1024 ≤ length room.old }
    requires table { IsTable table.now }
    requires step { parts.old.step ≡ 0 }
    requires serves { ServeTable parts.old table.now }
    ensures step { parts.new.step ≡ 0 }
    ensures table { IfOk result (λ found. IfSome found IsTable) }
    ensures serves { IfOk result (λ found. IfSome found (ServeTable parts.new)) }
{
    let mut sorter = Sorter::<Rec>::thaw(0, table, room);
    if !turns_agree(turns, &mut sorter, parts, shelf)? {
        return Ok(None);
    }
    let frozen = sorter.freeze(parts, shelf)?;
    Ok(Some(frozen))
}

// A life, or where a call of it failed, the table and the parts before it.
fn live_on(
    turns: &[Turn],
    table: &RunTable,
    room: &mut [Rec],
    parts: &mut Parts,
    bench: &mut Bench,
) -> (RunTable, Outcome)
    requires enough { 1024 ≤ length room.old }
    requires table { IsTable table.now }
    requires step { parts.old.step ≡ 0 }
    requires serves { ServeTable parts.old table.now }
    ensures step { parts.new.step ≡ 0 }
    ensures table { IsTable result.0 }
    ensures serves { ServeTable parts.new result.0 }
{
    let mut given = *parts;
    match live(turns, table, room, &mut given, bench) {
        Ok(Some(next)) => {
            *parts = given;
            (next, Outcome::Through)
        }
        Err(SortFault::Shelf) => (*table, Outcome::CutShort),
        _ => (*table, Outcome::Wrong),
    }
}

// Whether the lives of a pattern give what a plain list gives, where the call of that number over all lives fails. A
// stop comes behind each life, and a life in which a call failed is lived again from the table before it.
fn lives_agree(alloc: Global, turns: &[Turn], choice: Choice, call: u64) -> Result<Outcome, Fail> {
    let mut bench = Bench::empty(alloc);
    let mut parts = first_parts();
    let mut least = vec![in alloc; EMPTY; 1024]?;
    let mut table = first_table(least.as_mut_slice(), &mut parts, &mut bench)?;
    let mut outcome = Outcome::Through;
    let mut rest = turns;
    let mut random = 1;
    let mut failing = call;
    for _life in 0..MOST_LIVES {
        if rest.is_empty() {
            return Ok(outcome);
        }
        random = next_random(random);
        let (now, later) = split_turns(rest, random);
        let mut room = vec![in alloc; EMPTY; room_len(1024, random)]?;
        bench.fail_at(failing)?;
        let (next, lived) = live_on(now, &table, room.as_mut_slice(), &mut parts, &mut bench);
        table = next;
        match (lived, outcome) {
            (Outcome::Through, _) => {
                failing = failing.saturating_sub(bench.clock());
                rest = later;
            }
            (Outcome::CutShort, Outcome::Through) => {
                failing = u64::MAX;
                outcome = Outcome::CutShort;
            }
            _ => return Ok(Outcome::Wrong),
        }
        bench = bench.stop(choice)?;
    }
    Ok(Outcome::Wrong)
}

// Whether they do where each call fails in turn, whatever a stop leaves behind it.
fn failing_lives_agree(alloc: Global, pattern: Pattern, keys: Keys) -> Result<bool, Fail> {
    let turns = turns_of(alloc, pattern, keys, PUSHED)?;
    for call in 0..MOST_CALLS {
        for choice in [Choice::Firm, Choice::Present, Choice::Mixed(call)] {
            match lives_agree(alloc, turns.as_slice(), choice, call)? {
                Outcome::CutShort => {}
                Outcome::Through => return Ok(call > 100),
                Outcome::Wrong => return Ok(false),
            }
        }
    }
    Ok(false)
}

// The first order of keys with which they don't.
fn wrong_order(alloc: Global, pattern: Pattern) -> Result<Option<Keys>, Fail> {
    for keys in ALL_KEYS {
        if !failing_lives_agree(alloc, pattern, keys)? {
            return Ok(Some(keys));
        }
    }
    Ok(None)
}

// Each pattern is a test of its own, for they take long.
#[test]
fn a_frozen_sorter_that_is_filled_and_drained_agrees(rt: HostRuntime) -> Result<(), Fail> {
    let wrong = wrong_order(rt.alloc(), Pattern::FillThenDrain)?;
    assert!(rt; wrong.is_none(), "{wrong:?}");
    Ok(())
}

#[test]
fn a_frozen_sorter_in_which_many_wait_agrees(rt: HostRuntime) -> Result<(), Fail> {
    let wrong = wrong_order(rt.alloc(), Pattern::Waiting)?;
    assert!(rt; wrong.is_none(), "{wrong:?}");
    Ok(())
}

#[test]
fn a_frozen_sorter_that_is_pushed_and_taken_in_turn_agrees(rt: HostRuntime) -> Result<(), Fail> {
    let wrong = wrong_order(rt.alloc(), Pattern::InTurn)?;
    assert!(rt; wrong.is_none(), "{wrong:?}");
    Ok(())
}

// Pushes so many items whose keys descend to that one, with a thaw before them and a freeze behind them.
pub(crate) fn push_frozen<S: Shelf>(
    least: u64,
    count: u64,
    table: &RunTable,
    room: &mut [Rec],
    parts: &mut Parts,
    shelf: &mut S,
) -> Result<RunTable, SortFault>
    requires enough { 1024 ≤ length room.old }
    requires table { IsTable table.now }
    requires step { parts.old.step ≡ 0 }
    requires serves { ServeTable parts.old table.now }
    ensures step { parts.new.step ≡ 0 }
    ensures table { IfOk result IsTable }
    ensures serves { IfOk result (ServeTable parts.new) }
{
    let mut sorter = Sorter::<Rec>::thaw(0, table, room);
    push_down(least, count, &mut sorter, parts, shelf)?;
    sorter.freeze(parts, shelf)
}

// Whether 100,000 records that are pushed from the greatest down, with a freeze behind each thousand and a room of
// another length for each, come back from the least up in the least room.
fn many_frozen_come_back(alloc: Global) -> Result<bool, Fail> {
    let mut bench = Bench::empty(alloc);
    let mut parts = first_parts();
    let mut least = vec![in alloc; EMPTY; 1024]?;
    let mut table = first_table(least.as_mut_slice(), &mut parts, &mut bench)?;
    for life in 0..100u64 {
        let len = 1024 + 31 * (life % 100) as usize;
        let mut room = vec![in alloc; EMPTY; len]?;
        table = push_frozen(
            1000 * (99 - life % 100),
            1000,
            &table,
            room.as_mut_slice(),
            &mut parts,
            &mut bench,
        )?;
    }
    let mut sorter = Sorter::<Rec>::thaw(0, &table, least.as_mut_slice());
    Ok(gives_up_to(100_000, &mut sorter, &mut bench)?)
}

#[test]
fn many_items_that_are_frozen_by_the_thousand_come_back(rt: HostRuntime) -> Result<(), Fail> {
    assert!(rt; many_frozen_come_back(rt.alloc())?);
    Ok(())
}
