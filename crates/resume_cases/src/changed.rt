//! Checkpoints in which a word is another one.
ghost use Rattle.std.specs.Prelude.{◌≤◌, length};

use crate::lives::{live_from, live_on};
use crate::plans::{Case, FEW, Plan};
use case_lives::{EMPTY, Lived, MADE, STEP, Way, going_from, room_len};
use case_tables::{FIRST, SECOND, put_bytes};
use file_numbers::{checkpoint_file, checkpoint_gate};
use rec_words::Rec;
use shelf_memory::Bench;
use shelf_model::{FileNo, SortFault};
use std::alloc::Global;
use std::test::Fail;
use sweep_checkpoint::load;
use sweep_core::{Checkpoint, Turn};

const BUDGET: u32 = 0x4000;

/// How many words are changed, one at a time: those of each kind, and some behind them.
const CHANGED: usize = 40;

// How many words a checkpoint of the kind has, and where those of its files stand.
fn words_of(plan: Plan) -> (usize, [usize; 2]) {
    match plan {
        Plan::Same(_) | Plan::Different(_, _) | Plan::Complement(_) => (10, [1, 4]),
        Plan::Value(_, _) => (11, [2, 2]),
        Plan::Pieces(_, _) => (7, [0, 2]),
    }
}

// The file whose two words stand at a place.
fn file_at(place: usize, point: &Checkpoint) -> FileNo {
    FileNo {
        step: (point.carry[place % 40] % (1 << 32)) as u32,
        part: point.carry[place.wrapping_add(1) % 40],
    }
}

fn nodes_in(f: FileNo, bench: &Bench) -> u64 {
    (bench.file(f).len() as u64 / 24).saturating_sub(1)
}

// No more turns than these are made from a checkpoint on.
fn most_turns(plan: Plan, point: &Checkpoint, bench: &Bench) -> u64 {
    let (_, [first, second]) = words_of(plan);
    let items = match plan {
        Plan::Same(_) | Plan::Different(_, _) | Plan::Complement(_) => {
            nodes_in(file_at(first, point), bench).saturating_add(nodes_in(
                file_at(second, point),
                bench,
            ))
        }
        Plan::Value(_, _) => nodes_in(file_at(first, point), bench),
        Plan::Pieces(_, _) => point.carry[4],
    };
    items.saturating_add(2)
}

// Whether that place is the only gated checkpoint's, or one in a file that the checkpoint names.
fn is_named(plan: Plan, point: &Checkpoint, f: FileNo, at: u64, bench: &Bench) -> bool {
    let (_, [first, second]) = words_of(plan);
    if f == checkpoint_file(STEP) {
        return at == 0;
    }
    let named = f == file_at(first, point) || f == file_at(second, point);
    named && at <= bench.file(f).len() as u64
}

// A folder in which the sweep was saved behind so many turns, and that checkpoint; none where it had ended by then.
fn saved_in(
    alloc: Global,
    case: &Case,
    turns: u64,
    room: &mut [Rec],
) -> Result<Option<(Bench, Checkpoint)>, Fail>
    requires { 16384 ≤ length room.old }
{
    let mut bench = case.bench(alloc)?;
    live_on(case, Way::Saved(turns), BUDGET, room, &mut bench)?;
    match load(STEP, &mut bench)? {
        Some(point) => Ok(Some((bench, point))),
        None if turns > 1 => Ok(None),
        None => Err(Fail::from("nothing is saved")),
    }
}

// The same files in a folder of their own.
fn copied(alloc: Global, bench: &Bench) -> Result<Bench, Fail> {
    let mut copied = Bench::empty(alloc);
    for f in [
        FIRST,
        SECOND,
        MADE,
        checkpoint_file(STEP),
        checkpoint_gate(STEP),
    ] {
        put_bytes(&mut copied, f, bench.file(f))?;
    }
    Ok(copied)
}

// Whether what goes on from a checkpoint of which the word at a place was changed is refused by its rules, ends within
// so many turns, or names a place of its. Where that word isn't one of its, or is the same, the answer is the same.
fn ends(
    case: &Case,
    place: usize,
    saved: &Checkpoint,
    point: &Checkpoint,
    room: &mut [Rec],
    bench: &mut Bench,
) -> bool
    requires { 16384 ≤ length room.old }
{
    let most = most_turns(case.plan, point, bench);
    let mut going = going_from(0, BUDGET, Some(*point));
    let lived = live_from(case, Way::Unsaved(most), &mut going, room, bench);
    let (words, _) = words_of(case.plan);
    let same = place >= words || point.carry == saved.carry;
    match lived {
        Ok(None) => !same,
        Ok(Some(Lived { turn, answer, .. })) => {
            turn == Turn::Ended && (!same || answer == Some(case.wanted))
        }
        Err(SortFault::Damaged { file, at }) => {
            !same && is_named(case.plan, point, file, at, bench)
        }
        Err(_) => false,
    }
}

// The first word whose change doesn't end well, of the checkpoint behind so many turns.
fn wrong_word(
    alloc: Global,
    case: &Case,
    turns: u64,
    room: &mut [Rec],
) -> Result<Option<usize>, Fail>
    requires { 16384 ≤ length room.old }
{
    let Some((bench, saved)) = saved_in(alloc, case, turns, room)? else {
        return Ok(None);
    };
    for place in 0..CHANGED {
        for value in [0, 1, saved.carry[place].wrapping_add(1), 1 << 63] {
            let mut point = saved;
            point.carry[place] = value;
            let mut folder = copied(alloc, &bench)?;
            if !ends(case, place, &saved, &point, room, &mut folder) {
                return Ok(Some(place));
            }
        }
    }
    Ok(None)
}

// The same of the first checkpoints of a plan.
fn wrong_turn(alloc: Global, plan: Plan) -> Result<Option<(u64, usize)>, Fail> {
    let case = plan.case(alloc)?;
    let mut records = vec![in alloc; EMPTY; room_len(0)]?;
    let room = records.as_mut_slice();
    for turns in 1..6 {
        if let Some(place) = wrong_word(alloc, &case, turns, room)? {
            return Ok(Some((turns, place)));
        }
    }
    Ok(None)
}

#[test]
fn a_checkpoint_with_another_word_ends_or_names_a_place(rt: HostRuntime) -> Result<(), Fail> {
    for plan in FEW {
        let wrong = wrong_turn(rt.alloc(), plan)?;
        assert!(rt; wrong.is_none(), "{plan:?}, {wrong:?}");
    }
    Ok(())
}
