//! Reductions that are saved behind every few turns, stopped, and rebuilt in another room.
ghost use Rattle.std.specs.Prelude.{◌≡◌, ◌≤◌, ◌^◌, IfOk, length};

use arc_file::{Arc, ArcWriter, Unreduced};
use case_lives::{EMPTY, ENDS, INNER, Lived, OUT, STEP, Way, going_from, reduce, room_len};
use case_tables::{Random, canon_of};
use rec_words::{Ptr, Rec, Uid};
use reduce_sweep::{ReduceSweep, ended_point};
use run_tiers::Run;
use shelf_memory::{Bench, Choice};
use std::alloc::Global;
use std::test::Fail;
use sweep_checkpoint::load;
use sweep_core::{Checkpoint, Sweep, Turn, run_some};

const BUDGET: u32 = 0x4000;

/// Each reduction here ends within fewer lives.
const MOST_LIVES: u64 = 4000;

/// Behind how many turns a reduction is saved, and which images of the folder it goes on in.
const WAYS: [(u64, Choice); 4] = [
    (1, Choice::Firm),
    (2, Choice::Present),
    (3, Choice::Mixed(1)),
    (7, Choice::Mixed(2)),
];

const NO_RUN: Run = Run {
    part: 0,
    next: 0,
    end: 0,
};

// The node of that number in its level, as an identifier.
fn uid_at(level: u32, number: u64) -> Result<Uid, Fail> {
    let pointer = Ptr::node(level.min(65_534) as u16, number.min(1 << 20));
    Ok(Uid::of(pointer).ok_or("no node")?)
}

// The arcs of a table of n variables, at least one, as a whole tree, which shares no node.
fn put_tree(n: u32, table: &[bool], bench: &mut Bench) -> Result<Unreduced, Fail>
    requires { n ≤ 16 }
    ensures files { IfOk result (λ made. (made.inner ≡ INNER) × (made.ends ≡ ENDS)) }
    ensures few { IfOk result (λ made. (made.inner_count ≤ 2 ^ 46) × (made.ends_count ≤ 2 ^ 46)) }
{
    let mut window = [EMPTY; 32];
    let mut writer = ArcWriter::start(INNER, ENDS, &mut window, bench)?;
    for level in 0..n {
        for number in 0..1u64 << level.min(16) {
            for high in [false, true] {
                let below = 2 * number + u64::from(high);
                let target = if level + 1 == n {
                    Ptr::terminal(table.get(below as usize).copied() == Some(true))
                } else {
                    uid_at(level + 1, below)?.ptr()
                };
                let source = uid_at(level, number)?;
                writer.put(
                    Arc {
                        source,
                        high,
                        target,
                    },
                    bench,
                )?;
            }
        }
    }
    Ok(writer.settle(uid_at(0, 0)?.ptr(), bench)?)
}

// A checkpoint of that moment, which the sweep fills.
fn unfilled(turns: u64) -> Checkpoint
    ensures { result.step ≡ 7 }
{
    Checkpoint {
        step: STEP,
        sweep: 1,
        turns,
        next_part: 0,
        budget: BUDGET,
        tables: 1,
        carry: [1; 250],
        runs: [[NO_RUN; 64]; 9],
    }
}

// A life of the reduction: it begins, or goes on from the last checkpoint.
fn live_on(
    n: u32,
    made: &Unreduced,
    every: u64,
    room: &mut [Rec],
    bench: &mut Bench,
) -> Result<Lived, Fail>
    requires room { 16384 ≤ length room.old }
    requires levels { n ≤ 16 }
    requires files { (made.now.inner ≡ INNER) × (made.now.ends ≡ ENDS) }
    requires few { (made.now.inner_count ≤ 2 ^ 46) × (made.now.ends_count ≤ 2 ^ 46) }
{
    let last = load(STEP, bench)?;
    let mut going = going_from(1, BUDGET, last);
    let lived = reduce(n, *made, Way::Saved(every), &mut going, room, bench)?;
    Ok(lived.ok_or("a checkpoint that doesn't fit")?)
}

// How a reduction ends that is saved and rebuilt behind every few turns. Lives are in two rooms in turn.
fn ends_with(
    n: u32,
    made: Unreduced,
    every: u64,
    choice: Choice,
    room: &mut [Rec],
    other: &mut [Rec],
    bench: Bench,
) -> Result<(Lived, Bench), Fail>
    requires room { 16384 ≤ length room.old }
    requires other { 16384 ≤ length other.old }
    requires levels { n ≤ 16 }
    requires files { (made.inner ≡ INNER) × (made.ends ≡ ENDS) }
    requires few { (made.inner_count ≤ 2 ^ 46) × (made.ends_count ≤ 2 ^ 46) }
{
    let mut bench = bench;
    for life in 0..MOST_LIVES {
        let lived = if life % 2 == 0 {
            live_on(n, &made, every, room, &mut bench)?
        } else {
            live_on(n, &made, every, other, &mut bench)?
        };
        bench = bench.stop(choice)?;
        if lived.turn == Turn::Ended {
            return Ok((lived, bench));
        }
    }
    Err(Fail::from("no end"))
}

// Whether the reduction of a random table ends with the canonical file and as many turns, saved or not; and whether
// the checkpoint of its end gives the count again.
fn comes_back(
    alloc: Global,
    n: u32,
    seed: u64,
    every: u64,
    choice: Choice,
    room: &mut [Rec],
    other: &mut [Rec],
) -> Result<bool, Fail>
    requires room { 16384 ≤ length room.old }
    requires other { 16384 ≤ length other.old }
    requires levels { n ≤ 16 }
{
    let table = Random::new(seed).table(alloc, n, usize::MAX)?;
    let canon = canon_of(alloc, n, table.as_slice())?;
    let mut whole = Bench::empty(alloc);
    let made = put_tree(n, table.as_slice(), &mut whole)?;
    let (wanted, whole) = ends_with(n, made, u64::MAX, choice, room, other, whole)?;
    let mut bench = Bench::empty(alloc);
    let made = put_tree(n, table.as_slice(), &mut bench)?;
    let (lived, bench) = ends_with(n, made, every, choice, room, other, bench)?;
    let same = lived == wanted
        && bench.file(OUT) == canon.as_slice()
        && whole.file(OUT) == canon.as_slice();
    let again = ends_again(n, lived, room, bench)?;
    Ok(same && again)
}

// Whether a reduction that has ended is rebuilt with its count, and leaves its file.
fn ends_again(n: u32, lived: Lived, room: &mut [Rec], bench: Bench) -> Result<bool, Fail>
    requires { 16384 ≤ length room.old }
{
    let mut bench = bench;
    let bytes = bench.file(OUT).len();
    let count = (bytes / 24).saturating_sub(1).min(1 << 20) as u64;
    let mut point = unfilled(lived.turns);
    ended_point(&mut point, OUT, n, count, 5);
    let fits = ReduceSweep::fits(&point);
    if !fits {
        return Ok(false);
    }
    let mut sweep = ReduceSweep::rebuild(&point, &[], room, &mut bench)?;
    let made = run_some(&mut sweep, 1, &mut bench)?;
    let ended = made.turn == Turn::Ended && sweep.count() == Some(count);
    Ok(ended && bench.file(OUT).len() == bytes)
}

// The first reduction that doesn't come back.
fn wrong_one(alloc: Global) -> Result<Option<(u32, u64, Choice)>, Fail> {
    let mut records = vec![in alloc; EMPTY; room_len(0)]?;
    let room = records.as_mut_slice();
    let mut more = vec![in alloc; EMPTY; room_len(116)]?;
    let other = more.as_mut_slice();
    for n in 1..5 {
        for (every, choice) in WAYS {
            if !comes_back(alloc, n, u64::from(n), every, choice, room, other)? {
                return Ok(Some((n, every, choice)));
            }
        }
    }
    Ok(None)
}

#[test]
fn a_reduction_that_is_saved_behind_every_few_turns_comes_back(
    rt: HostRuntime,
) -> Result<(), Fail> {
    let wrong = wrong_one(rt.alloc())?;
    assert!(rt; wrong.is_none(), "{wrong:?}");
    Ok(())
}
