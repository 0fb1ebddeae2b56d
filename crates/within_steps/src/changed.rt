//! Checkpoints that the step can't have saved: they are refused at their place, and without them it begins anew. Those
//! that a run with another budget saved are as good as its own.
use crate::folders::{copied, folder_of, with_bytes};
use crate::lives::{EMPTY, LEAST_ROOM, Whole, ends_like, is_saved, live, whole_in};
use crate::steps::{NUMBER, Request, Tried};
use case_tables::put_bytes;
use file_numbers::{checkpoint_file, checkpoint_gate, node_file};
use rec_words::Rec;
use shelf_memory::{Bench, Choice};
use shelf_model::SortFault;
use std::alloc::Global;
use std::process::Abort;
use std::test::Fail;

/// The bytes of a checkpoint.
const POINT_SIZE: usize = 16_384;

/// Its words in front: the step, the sweep, the turns, the next part number, the budget, and how many tables it has.
const STEP: usize = 0;

const SWEEP: usize = 1;

const TURNS: usize = 2;

const NEXT_PART: usize = 3;

const BUDGET: usize = 4;

const TABLES: usize = 5;

/// What a word of a checkpoint is changed to.
#[derive(Clone, Copy)]
enum Change {
    /// The next number.
    Next,
    /// The number of the other sweep.
    Other,
    /// A sweep that no step has.
    NoSweep,
    /// The first part number that is too great for the turns.
    TooGreat,
    /// More tables than there may be.
    TooMany,
    /// More records than 32 bits can say.
    TooWide,
}

/// What is changed in each case.
const CHANGES: &[(usize, Change)] = &[
    (STEP, Change::Next),
    (SWEEP, Change::Other),
    (SWEEP, Change::NoSweep),
    (NEXT_PART, Change::TooGreat),
    (BUDGET, Change::TooWide),
    (TABLES, Change::TooMany),
];

/// The budget of the step's own run, and others that a run may have had which saved it, or that none may have.
const OWN_BUDGET: u64 = 16_384;

const OTHER_BUDGETS: &[u64] = &[0, 4_194_304, (1 << 32) - 1];

/// The words that name files in a checkpoint, with what they are: where two operands and the arcs are named, one
/// operand and the arcs, the steps of the arcs and the nodes, two operands that are compared, and one that is
/// evaluated.
const OF_TWO: &[(usize, u64)] = &[
    (8, 0),
    (9, 0),
    (12, 1),
    (13, 0),
    (16, 1),
    (17, 0),
    (20, 2),
    (21, 3),
    (23, 2),
    (24, 4),
];

const OF_ONE: &[(usize, u64)] = &[
    (8, 0),
    (9, 0),
    (12, 0),
    (13, 0),
    (16, 0),
    (17, 0),
    (20, 2),
    (21, 3),
    (23, 2),
    (24, 4),
];

const REDUCED: &[(usize, u64)] = &[(10, 2), (13, 2), (16, 2), (17, 0)];

const COMPARED: &[(usize, u64)] = &[(7, 0), (8, 0), (10, 1), (11, 0)];

const EVALUATED: &[(usize, u64)] = &[(8, 0), (9, 0)];

// The word at a place, the highest byte first.
fn word_at(bytes: &[u8], at: usize) -> u64 {
    let mut word = 0u64;
    if let Some(eight) = bytes.get(at..at.saturating_add(8)) {
        for byte in eight {
            word = (word << 8) | u64::from(*byte);
        }
    }
    word
}

// What a word of the checkpoint at a place is changed to.
fn changed_word(points: &[u8], place: usize, word: usize, change: Change) -> u64 {
    let old = word_at(points, place.saturating_add(8 * (word % 2048)));
    match change {
        Change::Next => old.wrapping_add(1),
        Change::Other => 1u64.saturating_sub(old),
        Change::NoSweep => 2,
        Change::TooGreat => 513 + word_at(points, place.saturating_add(8 * TURNS)) / 16,
        Change::TooMany => 10,
        Change::TooWide => 1 << 32,
    }
}

// Puts the step's checkpoints, with another word at a byte of them.
fn put_word(
    alloc: Global,
    points: &[u8],
    at: usize,
    word: u64,
    bench: &mut Bench,
) -> Result<(), Fail> {
    let changed = with_bytes(alloc, points, at, &word.to_be_bytes())?;
    put_bytes(bench, checkpoint_file(NUMBER), changed.as_slice())
}

// Whether a step is refused at the place of its last checkpoint, of which a word is changed.
fn is_refused(
    alloc: Global,
    request: &Request,
    saved: &Bench,
    place: usize,
    word: usize,
    change: Change,
    room: &mut [Rec],
) -> Result<bool, Fail> {
    let points = saved.file(checkpoint_file(NUMBER));
    let other = changed_word(points, place, word, change);
    let at = place.saturating_add(8 * (word % 2048));
    let mut bench = copied(alloc, NUMBER, saved)?;
    put_word(alloc, points, at, other, &mut bench)?;
    let refused = SortFault::Damaged {
        file: checkpoint_file(NUMBER),
        at: place as u64,
    };
    Ok(live(request, None, room, &mut bench).err() == Some(refused))
}

// The first word of a case whose change isn't refused, or which isn't as it should be.
fn wrong_word(
    alloc: Global,
    request: &Request,
    saved: &Bench,
    place: usize,
    files: &[(usize, u64)],
    room: &mut [Rec],
) -> Result<Option<usize>, Fail> {
    for (word, change) in CHANGES {
        if !is_refused(alloc, request, saved, place, *word, *change, room)? {
            return Ok(Some(*word));
        }
    }
    let points = saved.file(checkpoint_file(NUMBER));
    for (word, named) in files {
        let at = place.saturating_add(8 * (*word % 2048));
        let is_named = word_at(points, at) == *named;
        if !is_named || !is_refused(alloc, request, saved, place, *word, Change::Next, room)? {
            return Ok(Some(*word));
        }
    }
    Ok(None)
}

// What a step comes to that goes on from its last checkpoint, of which the budget is changed.
fn behind_budget(
    alloc: Global,
    request: &Request,
    saved: &Bench,
    place: usize,
    budget: u64,
    room: &mut [Rec],
) -> Result<Whole, Fail> {
    let points = saved.file(checkpoint_file(NUMBER));
    let mut bench = copied(alloc, NUMBER, saved)?;
    put_word(
        alloc,
        points,
        place.saturating_add(8 * BUDGET),
        budget,
        &mut bench,
    )?;
    whole_in(request, room, bench)
}

// Whether it comes to another entry, another file or other calls with that budget than with that of its own run.
fn minds_budget(
    alloc: Global,
    request: &Request,
    saved: &Bench,
    place: usize,
    budget: u64,
    own: &Whole,
    room: &mut [Rec],
) -> Result<bool, Fail> {
    let other = behind_budget(alloc, request, saved, place, budget, room)?;
    let f = node_file(NUMBER);
    Ok(other.lived != own.lived || other.bench.file(f) != own.bench.file(f))
}

// The first budget with which it does.
fn minded_budget(
    alloc: Global,
    request: &Request,
    saved: &Bench,
    place: usize,
    room: &mut [Rec],
) -> Result<Option<u64>, Fail> {
    let own = behind_budget(alloc, request, saved, place, OWN_BUDGET, room)?;
    for budget in OTHER_BUDGETS {
        if minds_budget(alloc, request, saved, place, *budget, &own, room)? {
            return Ok(Some(*budget));
        }
    }
    Ok(None)
}

// A folder with the same files, but with the gate of the step's checkpoints cut.
fn ungated(alloc: Global, saved: &Bench) -> Result<Bench, Fail> {
    let mut bench = copied(alloc, NUMBER, saved)?;
    put_bytes(&mut bench, checkpoint_gate(NUMBER), b"")?;
    Ok(bench)
}

// Whether the step begins anew there.
fn begins_anew(
    alloc: Global,
    request: &Request,
    folder: &Bench,
    saved: &Bench,
    room: &mut [Rec],
) -> Result<bool, Fail> {
    let whole = whole_in(request, room, copied(alloc, NUMBER, folder)?)?;
    let mut bench = ungated(alloc, saved)?;
    let lived = ends_like(request, &whole, room, &mut bench);
    Ok(lived.is_some_and(|lived| lived.calls >= whole.lived.calls))
}

// A copy of the folder in which the step was stopped once its gate counts so many checkpoints.
fn saved_behind(
    alloc: Global,
    request: &Request,
    saves: u64,
    folder: &Bench,
    room: &mut [Rec],
) -> Result<Bench, Fail> {
    let mut bench = copied(alloc, NUMBER, folder)?;
    if !is_saved(alloc, request, saves, Choice::Present, room, &mut bench)? {
        return Err(Fail::from("so many checkpoints aren't gated"));
    }
    Ok(bench)
}

/// Of a checkpoint, the first word whose change isn't refused, or none; the first budget that changes anything, or none;
/// and whether the step begins anew without its gate.
type Found = (Option<usize>, Option<u64>, bool);

// What is found of the step's checkpoint of that number, counted from 1, in that folder.
fn found_in(
    alloc: Global,
    request: &Request,
    saves: u64,
    files: &[(usize, u64)],
    folder: &Bench,
    room: &mut [Rec],
) -> Result<Found, Fail> {
    let saved = saved_behind(alloc, request, saves, folder, room)?;
    let place = POINT_SIZE.wrapping_mul(saves.saturating_sub(1) as usize);
    let wrong = wrong_word(alloc, request, &saved, place, files, room)?;
    let minded = minded_budget(alloc, request, &saved, place, room)?;
    let anew = begins_anew(alloc, request, folder, &saved, room)?;
    Ok((wrong, minded, anew))
}

// So it is in the least room.
fn found(alloc: Global, tried: Tried, saves: u64, files: &[(usize, u64)]) -> Result<Found, Fail> {
    let folder = folder_of(alloc, tried)?;
    let mut records = vec![in alloc; EMPTY; LEAST_ROOM]?;
    let room = records.as_mut_slice();
    found_in(alloc, &tried.request(), saves, files, &folder, room)
}

// Each such checkpoint is refused, another budget changes nothing, and without checkpoints the step begins anew.
fn is_guarded(
    rt: &impl Abort,
    alloc: Global,
    tried: Tried,
    saves: u64,
    files: &[(usize, u64)],
) -> Result<(), Fail> {
    let (wrong, minded, anew) = found(alloc, tried, saves, files)?;
    let is_so = wrong.is_none() && minded.is_none() && anew;
    assert!(rt; is_so, "word {wrong:?}, budget {minded:?}, {anew}");
    Ok(())
}

#[test]
fn a_checkpoint_of_other_arcs_is_refused(rt: HostRuntime) -> Result<(), Fail> {
    is_guarded(&rt, rt.alloc(), Tried::Both, 2, OF_TWO)
}

#[test]
fn a_checkpoint_of_another_reduction_is_refused(rt: HostRuntime) -> Result<(), Fail> {
    is_guarded(&rt, rt.alloc(), Tried::Both, 8, REDUCED)
}

#[test]
fn a_checkpoint_of_another_quantifier_is_refused(rt: HostRuntime) -> Result<(), Fail> {
    is_guarded(&rt, rt.alloc(), Tried::Some, 1, OF_ONE)
}

#[test]
fn a_checkpoint_of_another_implication_is_refused(rt: HostRuntime) -> Result<(), Fail> {
    is_guarded(&rt, rt.alloc(), Tried::Implies, 1, OF_TWO)
}

#[test]
fn a_checkpoint_of_another_comparison_is_refused(rt: HostRuntime) -> Result<(), Fail> {
    is_guarded(&rt, rt.alloc(), Tried::Same, 1, COMPARED)
}

#[test]
fn a_checkpoint_of_another_evaluation_is_refused(rt: HostRuntime) -> Result<(), Fail> {
    is_guarded(&rt, rt.alloc(), Tried::Value, 1, EVALUATED)
}
