// What no clause says: a sorter that is frozen again and again, and thawed over rooms of other lengths, gives one list,
// whatever a stop leaves behind each freeze, and where a call failed before it.
ghost use Rattle.std.specs.Prelude.{◌≡◌, ◌≤◌, IfOk, IfSome, length};
ghost use Rattle.rec_words.specs.Records.{IsRec};
ghost use Rattle.run_tiers.specs.declared.parts.Parts.{Parts};
ghost use Rattle.run_tiers.specs.Tables.{IsTable, ServeTable};
ghost use Rattle.run_merge.specs.Sorters.{HoldsValues, Serves};

use crate::sorters::{first_parts, key_of, record_of};
use rec_words::Rec;
use run_merge::{Parts, RunTable, Sorter};
use shelf_memory::{Bench, Choice};
use shelf_model::{Shelf, SortFault};
use std::alloc::Global;
use std::test::Fail;

const EMPTY: Rec = Rec { w: [0; 8] };

/// How many records the room of each life has.
const ROOMS: [usize; 4] = [1024, 4096, 1500, 2048];

/// How many items are pushed in a life.
const PUSHED: u64 = 1000;

/// How many are taken before it is frozen.
const TAKEN: u64 = 100;

// The keys of a life are above those of the lives before it.
fn key_at(life: u64, index: u64) -> u64 {
    life % 8 * PUSHED + index % PUSHED * 237 % PUSHED
}

// Pushes the items of a life.
fn push_life<S: Shelf>(
    life: u64,
    sorter: &mut Sorter<Rec>,
    parts: &mut Parts,
    shelf: &mut S,
) -> Result<(), SortFault>
    requires values { HoldsValues IsRec (λ r. r.w) sorter.old }
    requires serves { Serves parts.old sorter.old }
    ensures values { HoldsValues IsRec (λ r. r.w) sorter.new }
    ensures serves { Serves parts.new sorter.new }
    ensures step { parts.new.step ≡ parts.old.step }
{
    for index in 0..PUSHED {
        sorter.push(record_of(key_at(life, index)), parts, shelf)?;
    }
    Ok(())
}

// Whether a sorter gives the keys from one on up to another.
fn gives_between<S: Shelf>(
    from: u64,
    to: u64,
    sorter: &mut Sorter<Rec>,
    shelf: &mut S,
) -> Result<bool, SortFault>
    requires values { HoldsValues IsRec (λ r. r.w) sorter.old }
    ensures values { HoldsValues IsRec (λ r. r.w) sorter.new }
    ensures serves { (p : Parts) → Serves p sorter.old → Serves p sorter.new }
{
    for key in from..to {
        if sorter.next(shelf)?.map(key_of) != Some(key) {
            return Ok(false);
        }
    }
    Ok(true)
}

// A life: a thaw, pushes, takes that give the least keys, and a freeze. The table is answered, or None where an answer
// was none that is wanted.
fn live<S: Shelf>(
    life: u64,
    table: &RunTable,
    room: &mut [Rec],
    parts: &mut Parts,
    shelf: &mut S,
) -> Result<Option<RunTable>, SortFault>
    requires enough { 1024 ≤ length room.old }
    requires table { IsTable table.now }
    requires step { parts.old.step ≡ 0 }
    requires serves { ServeTable parts.old table.now }
    ensures step { parts.new.step ≡ 0 }
    ensures table { IfOk result (λ found. IfSome found IsTable) }
    ensures serves { IfOk result (λ found. IfSome found (ServeTable parts.new)) }
{
    let mut sorter = Sorter::<Rec>::thaw(0, table, room);
    push_life(life, &mut sorter, parts, shelf)?;
    let from = life % 8 * TAKEN;
    if !gives_between(from, from + TAKEN, &mut sorter, shelf)? {
        return Ok(None);
    }
    let frozen = sorter.freeze(parts, shelf)?;
    Ok(Some(frozen))
}

// A life, and the folder that a stop leaves behind it.
fn live_on(
    life: u64,
    choice: Choice,
    table: &RunTable,
    room: &mut [Rec],
    parts: &mut Parts,
    bench: Bench,
) -> Result<Option<(RunTable, Bench)>, Fail>
    requires enough { 1024 ≤ length room.old }
    requires table { IsTable table.now }
    requires step { parts.old.step ≡ 0 }
    requires serves { ServeTable parts.old table.now }
    ensures step { parts.new.step ≡ 0 }
    ensures table { IfOk result (λ found. IfSome found (λ next. IsTable next.0)) }
    ensures serves { IfOk result (λ found. IfSome found (λ next. ServeTable parts.new next.0)) }
{
    let mut bench = bench;
    let before = *parts;
    match live(life, table, room, parts, &mut bench) {
        Ok(Some(frozen)) => Ok(Some((frozen, bench.stop(choice)?))),
        Ok(None) => Ok(None),
        Err(SortFault::Shelf) => {
            *parts = before;
            live_again(life, choice, table, room, parts, bench.stop(choice)?)
        }
        Err(_) => Ok(None),
    }
}

// The same of a life that was cut short, in which no call fails.
fn live_again(
    life: u64,
    choice: Choice,
    table: &RunTable,
    room: &mut [Rec],
    parts: &mut Parts,
    bench: Bench,
) -> Result<Option<(RunTable, Bench)>, Fail>
    requires enough { 1024 ≤ length room.old }
    requires table { IsTable table.now }
    requires step { parts.old.step ≡ 0 }
    requires serves { ServeTable parts.old table.now }
    ensures step { parts.new.step ≡ 0 }
    ensures table { IfOk result (λ found. IfSome found (λ next. IsTable next.0)) }
    ensures serves { IfOk result (λ found. IfSome found (λ next. ServeTable parts.new next.0)) }
{
    let mut bench = bench;
    match live(life, table, room, parts, &mut bench)? {
        Some(frozen) => Ok(Some((frozen, bench.stop(choice)?))),
        None => Ok(None),
    }
}

// The table of a sorter without items, which is frozen with no call of the folder.
pub(crate) fn first_table(
    room: &mut [Rec],
    parts: &mut Parts,
    bench: &mut Bench,
) -> Result<RunTable, SortFault>
    requires enough { 1024 ≤ length room.old }
    requires step { parts.old.step ≡ 0 }
    requires past { 3 ≤ parts.old.next }
    ensures step { parts.new.step ≡ 0 }
    ensures table { IfOk result IsTable }
    ensures serves { IfOk result (ServeTable parts.new) }
{
    let mut sorter = Sorter::<Rec>::start(room);
    sorter.freeze(parts, bench)
}

// Whether a thawed sorter gives the keys that no life took, and then none.
fn gives_the_rest(
    lives: u64,
    table: &RunTable,
    room: &mut [Rec],
    bench: &mut Bench,
) -> Result<bool, SortFault>
    requires enough { 1024 ≤ length room.old }
    requires table { IsTable table.now }
{
    let mut sorter = Sorter::<Rec>::thaw(0, table, room);
    let all = gives_between(lives % 8 * TAKEN, lives % 8 * PUSHED, &mut sorter, bench)?;
    Ok(all && sorter.next(bench)?.is_none())
}

// Whether so many lives give one list, where a call of one of them fails.
fn lives_agree(
    alloc: Global,
    choice: Choice,
    lives: u64,
    failing: u64,
    call: u64,
) -> Result<bool, Fail>
    requires few { lives ≤ 4 }
{
    let mut bench = Bench::empty(alloc);
    let mut parts = first_parts();
    let mut least = vec![in alloc; EMPTY; 1024]?;
    let mut table = first_table(least.as_mut_slice(), &mut parts, &mut bench)?;
    if bench.clock() != 0 || parts.next != 3 {
        return Ok(false);
    }
    for life in 0..lives {
        let len = ROOMS[life as usize].max(1024);
        let mut room = vec![in alloc; EMPTY; len]?;
        if life == failing {
            bench.fail_at(call)?;
        }
        let next = live_on(life, choice, &table, room.as_mut_slice(), &mut parts, bench)?;
        let Some((frozen, after)) = next else {
            return Ok(false);
        };
        table = frozen;
        bench = after;
    }
    Ok(gives_the_rest(lives, &table, least.as_mut_slice(), &mut bench)?)
}

#[test]
fn frozen_sorters_go_on_over_other_rooms(rt: HostRuntime) -> Result<(), Fail> {
    for choice in [
        Choice::Firm,
        Choice::Present,
        Choice::Fill(255),
        Choice::Mixed(0),
    ] {
        let agree = lives_agree(rt.alloc(), choice, 4, 4, 0)?;
        assert!(rt; agree, "{choice:?}");
    }
    Ok(())
}

// Whether two lives do where a call of one of them fails, each of the first so many in turn.
fn failing_lives_agree(alloc: Global, failing: u64, calls: u64) -> Result<bool, Fail> {
    for call in 0..calls {
        let choice = if call % 2 == 0 {
            Choice::Firm
        } else {
            Choice::Fill(255)
        };
        if !lives_agree(alloc, choice, 2, failing, call)? {
            return Ok(false);
        }
    }
    Ok(true)
}

#[test]
fn a_first_life_that_a_failing_call_cut_short_is_lived_again(rt: HostRuntime) -> Result<(), Fail> {
    assert!(rt; failing_lives_agree(rt.alloc(), 0, 60)?);
    Ok(())
}

#[test]
fn a_thawed_life_that_a_failing_call_cut_short_is_lived_again(rt: HostRuntime) -> Result<(), Fail> {
    assert!(rt; failing_lives_agree(rt.alloc(), 1, 60)?);
    Ok(())
}
