//! The step of the example script of size 15 that makes the largest diagram, saved in one room and gone on with in
//! another.
use crate::folders::copied;
use crate::lives::{EMPTY, LEAST_ROOM, MOST_ROOM, Whole, is_saved, live, whole_in};
use crate::words::{EQUAL, NODES, committed_to, equality};
use example_script::gen_script;
use file_numbers::node_file;
use rec_words::Rec;
use run_tiers::Run;
use shelf_memory::{Bench, Choice};
use std::alloc::Global;
use std::process::Abort;
use std::test::Fail;
use sweep_checkpoint::load;
use sweep_core::Checkpoint;

/// The room of a run: the least one, or the largest one.
#[derive(Clone, Copy, Debug)]
enum Room {
    Least,
    Largest,
}

impl Room {
    fn records(self) -> usize {
        match self {
            Room::Least => LEAST_ROOM,
            Room::Largest => MOST_ROOM,
        }
    }

    /// That room, of the records of the largest one.
    fn part_of(self, records: &mut [Rec]) -> &mut [Rec] {
        let count = self.records().min(records.len());
        &mut records[..count]
    }
}

/// Lives of the step that are stopped, each with its room, how many checkpoints are gated at the stop, and what the
/// stop leaves; the room of the life that goes on to the end; and whether that makes the step in as many turns in all
/// as one in the least room that nothing stops.
type Moved = (&'static [(Room, u64, Choice)], Room, bool);

const MOVED: &[Moved] = &[
    // Arcs are made to their end, and then reduced by a sweep.
    (
        &[
            (Room::Least, 2, Choice::Present),
            (Room::Largest, 3, Choice::Fill(255)),
        ],
        Room::Least,
        true,
    ),
    // Arcs are made to their end, and then reduced in the room.
    (&[(Room::Least, 6, Choice::Mixed(0))], Room::Largest, false),
    // Arcs are reduced by a sweep to its end, though a larger room could hold them.
    (
        &[
            (Room::Least, 22, Choice::Mixed(2)),
            (Room::Largest, 23, Choice::Present),
        ],
        Room::Least,
        true,
    ),
];

// How many records the runs of a table hold.
fn records_of(table: &[Run; 64]) -> u64 {
    let mut records = 0u64;
    for run in table {
        records = records.saturating_add(run.end.saturating_sub(run.next));
    }
    records
}

// How many those of a checkpoint hold.
fn records_in(point: &Checkpoint) -> u64 {
    let mut records = 0u64;
    for table in &point.runs {
        records = records.saturating_add(records_of(table));
    }
    records
}

// The room of the last life that was stopped in that folder, which is what the stops leave; none where one wasn't.
fn last_stopped(
    alloc: Global,
    lives: &[(Room, u64, Choice)],
    records: &mut [Rec],
    bench: &mut Bench,
) -> Result<Option<Room>, Fail> {
    let request = equality();
    let mut last = Room::Least;
    for (room, saves, choice) in lives {
        let part = room.part_of(records);
        if !is_saved(alloc, &request, *saves, *choice, part, bench)? {
            return Ok(None);
        }
        last = *room;
    }
    Ok(Some(last))
}

// Whether the last checkpoint of the step was saved in that room, and how many records its runs hold.
fn last_in(room: Room, bench: &mut Bench) -> Result<(bool, u64), Fail> {
    let Some(point) = load(EQUAL, bench)? else {
        return Ok((false, 0));
    };
    let records = room.records();
    Ok((point.budget as usize == records, records_in(&point)))
}

// Whether a life in that folder ends with the file of one in the least room that nothing stopped, and with its entry,
// but for the next part number, and fewer turns where these aren't to be as many.
fn ends_as(
    whole: &Whole,
    as_many_turns: bool,
    room: &mut [Rec],
    bench: &mut Bench,
) -> Result<bool, Fail> {
    let wanted = whole.lived.entry;
    let mut entry = live(&equality(), None, room, bench)?.entry;
    let right_turns = if as_many_turns {
        entry.turns == wanted.turns
    } else {
        entry.turns < wanted.turns
    };
    entry.turns = wanted.turns;
    entry.parts = wanted.parts;
    let f = node_file(EQUAL);
    let same_file = bench.file(f) == whole.bench.file(f);
    Ok(right_turns && entry == wanted && entry.count == NODES && same_file)
}

// What of a step that goes on in other rooms isn't as it should be.
fn fault_in(
    alloc: Global,
    whole: &Whole,
    moved: Moved,
    records: &mut [Rec],
    bench: &mut Bench,
) -> Result<Option<&'static str>, Fail> {
    let (lives, to, as_many_turns) = moved;
    let Some(from) = last_stopped(alloc, lives, records, bench)? else {
        return Ok(Some("a stop"));
    };
    let (is_saved, held) = last_in(from, bench)?;
    let ended = ends_as(whole, as_many_turns, to.part_of(records), bench)?;
    let (is_moved, _) = last_in(to, bench)?;
    Ok(if !is_saved {
        Some("the room of the last checkpoint")
    } else if held <= LEAST_ROOM as u64 {
        Some("what was queued")
    } else if !ended {
        Some("the end")
    } else if !is_moved {
        Some("the room of a later checkpoint")
    } else {
        None
    })
}

// So it is in a copy of that folder.
fn fault_of(
    alloc: Global,
    folder: &Bench,
    whole: &Whole,
    moved: Moved,
    records: &mut [Rec],
) -> Result<Option<&'static str>, Fail> {
    let mut bench = copied(alloc, EQUAL, folder)?;
    fault_in(alloc, whole, moved, records, &mut bench)
}

// What the step comes to in the least room, where nothing stops it.
fn undisturbed(alloc: Global, folder: &Bench, records: &mut [Rec]) -> Result<Whole, Fail> {
    let bench = copied(alloc, EQUAL, folder)?;
    let room = Room::Least.part_of(records);
    whole_in(&equality(), room, bench)
}

// The folder in which all steps before that one are committed.
fn folder_before(alloc: Global) -> Result<Bench, Fail> {
    let script = gen_script(alloc, 15)?;
    committed_to(alloc, script.as_slice(), EQUAL)
}

// The step goes on in the other room in each case.
fn goes_on(
    rt: &impl Abort,
    alloc: Global,
    folder: &Bench,
    records: &mut [Rec],
) -> Result<(), Fail> {
    let whole = undisturbed(alloc, folder, records)?;
    for moved in MOVED {
        let fault = fault_of(alloc, folder, &whole, *moved, records)?;
        assert!(rt; fault.is_none(), "{moved:?}: {fault:?}");
    }
    Ok(())
}

#[test]
fn a_step_goes_on_in_another_room(rt: HostRuntime) -> Result<(), Fail> {
    let folder = folder_before(rt.alloc())?;
    let mut records = vec![in rt.alloc(); EMPTY; MOST_ROOM]?;
    goes_on(&rt, rt.alloc(), &folder, records.as_mut_slice())
}
