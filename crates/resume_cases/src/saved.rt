//! Sweeps that are saved behind every few turns, stopped, and rebuilt in another room.
ghost use Rattle.std.specs.Prelude.{◌≤◌, length};

use crate::lives::live_on;
use crate::plans::{Case, PLANS, Plan};
use case_lives::{EMPTY, Lived, Way, room_len};
use rec_words::Rec;
use shelf_memory::Choice;
use std::alloc::Global;
use std::test::Fail;
use sweep_core::Turn;

const BUDGET: u32 = 0x4000;

/// The budget of every second life.
const OTHER_BUDGET: u32 = 0x40_0000;

/// Each sweep here ends within fewer turns.
const MOST_TURNS: u64 = 200;

/// Which images are taken.
const STOPS: [Choice; 6] = [
    Choice::Firm,
    Choice::Present,
    Choice::Fill(255),
    Choice::Mixed(0),
    Choice::Mixed(1),
    Choice::Mixed(2),
];

/// The sweep of a case that nothing stops: how many turns it makes, where its answer is the one that is wanted.
pub(crate) fn turns_of(alloc: Global, case: &Case, room: &mut [Rec]) -> Result<u64, Fail>
    requires { 16384 ≤ length room.old }
{
    let mut bench = case.bench(alloc)?;
    let way = Way::Unsaved(MOST_TURNS);
    match live_on(case, way, BUDGET, room, &mut bench)? {
        Some(
            Lived {
                turn: Turn::Ended,
                answer,
                turns,
            },
        ) if answer == Some(case.wanted) => Ok(turns),
        _ => Err(Fail::from("a sweep that nothing stops")),
    }
}

/// What comes of a life, where the sweep was to end after so many turns.
#[derive(Clone, Copy, Debug, PartialEq, Eq)]
enum Outcome {
    /// It made all turns of the life, and hasn't ended.
    GoesOn,
    /// It has ended as it has to.
    Ended,
    /// Anything else.
    Wrong,
}

// What comes of the life of that number, each of so many turns.
fn come_of(case: &Case, lived: Option<Lived>, made: u64, wanted: u64) -> Outcome {
    let Some(lived) = lived else {
        return Outcome::Wrong;
    };
    match lived.turn {
        Turn::Ended if lived.answer == Some(case.wanted) && lived.turns == wanted => Outcome::Ended,
        Turn::More if lived.answer.is_none() && lived.turns == made => Outcome::GoesOn,
        _ => Outcome::Wrong,
    }
}

// Whether a sweep that is saved and rebuilt behind every few turns ends with the same answer after as many turns, and
// once more where it is rebuilt from its last checkpoint again. Lives are in two rooms and of two budgets in turn.
fn comes_back(
    alloc: Global,
    case: &Case,
    every: u64,
    choice: Choice,
    room: &mut [Rec],
    other: &mut [Rec],
) -> Result<bool, Fail>
    requires room { 16384 ≤ length room.old }
    requires other { 16384 ≤ length other.old }
{
    let wanted = turns_of(alloc, case, room)?;
    let way = Way::Saved(every);
    let mut bench = case.bench(alloc)?;
    for life in 0..MOST_TURNS {
        let lived = if life % 2 == 0 {
            live_on(case, way, BUDGET, room, &mut bench)?
        } else {
            live_on(case, way, OTHER_BUDGET, other, &mut bench)?
        };
        bench = bench.stop(choice)?;
        let made = every.wrapping_mul(life + 1);
        match come_of(case, lived, made, wanted) {
            Outcome::GoesOn => {}
            Outcome::Wrong => return Ok(false),
            Outcome::Ended => {
                let lived = live_on(case, way, BUDGET, room, &mut bench)?;
                return Ok(lived.is_some_and(|again| again.turn == Turn::Ended
                    && again.answer == Some(case.wanted)));
            }
        }
    }
    Ok(false)
}

// The first number of turns and stop with which it doesn't.
fn wrong_stop(alloc: Global, plan: Plan) -> Result<Option<(u64, Choice)>, Fail> {
    let case = plan.case(alloc)?;
    let mut records = vec![in alloc; EMPTY; room_len(0)]?;
    let room = records.as_mut_slice();
    let mut more = vec![in alloc; EMPTY; room_len(116)]?;
    let other = more.as_mut_slice();
    for every in [1, 2, 3, 7] {
        for choice in STOPS {
            if !comes_back(alloc, &case, every, choice, room, other)? {
                return Ok(Some((every, choice)));
            }
        }
    }
    Ok(None)
}

#[test]
fn a_sweep_that_is_saved_behind_every_few_turns_comes_back(rt: HostRuntime) -> Result<(), Fail> {
    for plan in PLANS {
        let wrong = wrong_stop(rt.alloc(), plan)?;
        assert!(rt; wrong.is_none(), "{plan:?}, {wrong:?}");
    }
    Ok(())
}
