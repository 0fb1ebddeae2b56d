//! Checkpoints in which a word is another one, or whose files have another byte: a look refuses them.
ghost use Rattle.std.specs.Prelude.{◌≤◌, length};

use crate::asked::Meant;
use crate::cases::{Kind, Other, Plan};
use crate::looked::Looked;
use crate::shapes::Shape;
use crate::words::{Point, SLOTS, Wrong, copy_of, flip, flip_byte};
use case_lives::{EMPTY, ENDS, INNER, MADE, OUT, STEP, room_len};
use rec_words::Rec;
use shelf_memory::Bench;
use shelf_model::FileNo;
use std::alloc::Global;
use std::test::Fail;

/// Each sweep here ends within fewer lives.
const MOST_LIVES: u64 = 500;

// The places of the words that a sweep keeps and that may be others.
//
// Of a sweep from the root down fewer nodes at hand may have been read, which are then read again, and the last ask
// that was taken may be an earlier one. Of a reduction the level may be one that has no arcs, the root's final pointer
// anything until its level is finished, the last arc that was taken an earlier one, and that names are forwarded means
// nothing where there are none. How far files were read means nothing once the answer of a comparison is known. More
// nodes of an evaluation may be given than it needs. Pieces that the file of a copy doesn't have may stand.
fn spare_words(kind: Kind, point: Point<'_>) -> &'static [usize] {
    match kind {
        Kind::Own(_) | Kind::OfStep(_) | Kind::Implication(_) => {
            &[4, 5, 8, 9, 12, 13, 31, 32, 33, 34, 35, 36, 37, 38, 39]
        }
        Kind::Reduction(_) => &[1, 3, 24, 27, 28, 29, 30],
        Kind::Comparison(_) if point.has(8) => &[3, 6, 7, 8],
        Kind::Comparison(_) => &[8],
        Kind::Value(_) => &[4, 9],
        Kind::Copy(_) => &[5],
    }
}

// Whether a place is one of these.
fn is_among(place: usize, places: &[usize]) -> bool {
    for one in places {
        if *one == place {
            return true;
        }
    }
    false
}

/// How many changes were made, how many of them weren't noticed, and the place of the last of these.
#[derive(Clone, Copy)]
struct Tally {
    changes: u64,
    missed: u64,
    place: usize,
}

impl Tally {
    // Counts a change of a word or of a byte at a place.
    fn note(&mut self, place: usize, noticed: bool) {
        self.changes = self.changes.saturating_add(1);
        if !noticed {
            self.missed = self.missed.saturating_add(1);
            self.place = place;
        }
    }
}

/// Bytes of a file: so many, from one on with such a distance.
#[derive(Clone, Copy)]
struct Bytes {
    file: FileNo,
    first: usize,
    distance: usize,
    count: u64,
}

// Puts a file of these bytes; refused where they are too many for one.
fn put_file(bench: &mut Bench, file: FileNo, bytes: &[u8]) -> Result<(), Wrong> {
    if bytes.len() > 1 << 40 {
        return Err(Wrong::Memory);
    }
    match bench.put_file(file, bytes) {
        Ok(()) => Ok(()),
        Err(_failed) => Err(Wrong::Memory),
    }
}

/// No bytes.
const NO_BYTES: Bytes = Bytes {
    file: MADE,
    first: 0,
    distance: 0,
    count: 0,
};

// Those of a file: so many, from one on with such a distance.
fn bytes_in(file: FileNo, first: usize, distance: usize, count: u64) -> Bytes {
    Bytes {
        file,
        first,
        distance,
        count,
    }
}

// The bytes that are changed in the files of a checkpoint: of sources of arcs and of truth values that arcs lead to; of
// nodes that a reduction keeps; and of what a copy made.
fn bytes_of(kind: Kind, point: Point<'_>) -> [Bytes; 3] {
    match kind {
        Kind::Own(_) | Kind::OfStep(_) | Kind::Implication(_) => [
            bytes_in(INNER, 7, 16, point.carried(16)),
            bytes_in(ENDS, 7, 16, point.carried(19)),
            bytes_in(ENDS, 15, 16, point.carried(19)),
        ],
        Kind::Reduction(_) => {
            let kept = bytes_in(OUT, 23, 24, point.carried(12));
            [kept, NO_BYTES, NO_BYTES]
        }
        Kind::Copy(_) => {
            let made = bytes_in(MADE, 0, 512, point.carried(6) / 512);
            [made, NO_BYTES, NO_BYTES]
        }
        _ => [NO_BYTES; 3],
    }
}

// The tables in whose runs a byte of each record is changed, with its place: that of the asker in the queue; of a
// reduction those of final pointers in the queue, in rows and in names.
fn records_of(kind: Kind) -> &'static [(usize, usize)] {
    match kind {
        Kind::Own(_) | Kind::OfStep(_) | Kind::Implication(_) => &[(0, 63)],
        Kind::Reduction(_) => &[(0, 23), (3, 7), (3, 15), (4, 15)],
        _ => &[],
    }
}

/// A plan whose checkpoints are changed.
#[derive(Clone, Copy)]
struct Scene<'a> {
    alloc: Global,
    looked: &'a Looked,
}

impl<'a> Scene<'a> {
    // Changes a word of a checkpoint, from its front on. It is as before then.
    fn change_word(&self, place: usize, bytes: &mut [u8], bench: &Bench, tally: &mut Tally) {
        flip(bytes, place);
        let point = Point { bytes: &*bytes };
        let checked = self.looked.check(self.alloc, point, bench);
        tally.note(place, checked.is_err());
        flip(bytes, place);
    }

    // Changes the first words that a sweep keeps.
    fn change_words(&self, bytes: &mut [u8], bench: &Bench, tally: &mut Tally) {
        let spare = spare_words(self.looked.plan.kind, Point { bytes: &*bytes });
        for place in 0..60usize {
            if !is_among(place, spare) {
                self.change_word(place.saturating_add(6), bytes, bench, tally);
            }
        }
    }

    // Changes the words of the runs in a table of which records are left.
    fn change_runs(&self, table: usize, bytes: &mut [u8], bench: &Bench, tally: &mut Tally) {
        let front = table.saturating_mul(192).saturating_add(256);
        for word in 0..192usize {
            let point = Point { bytes: &*bytes };
            let run = point.slot(table, word / 3);
            if run.next < run.end {
                self.change_word(front.saturating_add(word), bytes, bench, tally);
            }
        }
    }

    // Changes those of the tables whose records count.
    fn change_tables(&self, bytes: &mut [u8], bench: &Bench, tally: &mut Tally) {
        let tables: &[usize] = match self.looked.plan.kind {
            Kind::Own(_) | Kind::OfStep(_) | Kind::Implication(_) => &[0],
            Kind::Reduction(_) => &[0, 3],
            _ => &[],
        };
        for table in tables {
            self.change_runs(*table, bytes, bench, tally);
        }
    }

    // Changes a byte of a file.
    fn flip_byte(&self, file: FileNo, at: usize, bench: &mut Bench) -> Result<(), Wrong> {
        let mut changed = copy_of(self.alloc, bench.file(file))?;
        flip_byte(changed.as_mut_slice(), at);
        put_file(bench, file, changed.as_slice())
    }

    // Changes bytes of a file, one at a time. It is as before then.
    fn change_bytes(
        &self,
        bytes: Bytes,
        bench: &mut Bench,
        tally: &mut Tally,
    ) -> Result<(), Wrong> {
        let mut at = bytes.first;
        let mut all = Ok(());
        for _change in 0..bytes.count {
            let changed = self.flip_byte(bytes.file, at, bench);
            let checked = self.looked.look(self.alloc, bench);
            tally.note(at, checked.is_err());
            let back = self.flip_byte(bytes.file, at, bench);
            all = all.and(changed).and(back);
            at = at.saturating_add(bytes.distance);
        }
        all
    }

    // Changes that byte of each record in the runs of a table that wasn't read.
    fn change_records(
        &self,
        table: usize,
        byte: usize,
        point: Point<'_>,
        bench: &mut Bench,
        tally: &mut Tally,
    ) -> Result<(), Wrong> {
        let mut all = Ok(());
        for slot in 0..SLOTS {
            let run = point.slot(table, slot);
            let file = FileNo {
                step: STEP,
                part: run.part,
            };
            let first = (run.next as usize).saturating_mul(64).saturating_add(byte);
            let bytes = bytes_in(file, first, 64, run.end.saturating_sub(run.next));
            all = all.and(self.change_bytes(bytes, bench, tally));
        }
        all
    }

    // Changes what stands in the files of a checkpoint.
    fn change_files(
        &self,
        point: Point<'_>,
        bench: &mut Bench,
        tally: &mut Tally,
    ) -> Result<(), Wrong> {
        let mut all = Ok(());
        for bytes in bytes_of(self.looked.plan.kind, point) {
            all = all.and(self.change_bytes(bytes, bench, tally));
        }
        for (table, byte) in records_of(self.looked.plan.kind) {
            all = all.and(self.change_records(*table, *byte, point, bench, tally));
        }
        all
    }

    // Changes the last checkpoint and its files.
    fn change_all(&self, bench: &mut Bench, tally: &mut Tally) -> Result<(), Wrong> {
        let mut copy = copy_of(self.alloc, Point::last_of(bench)?.bytes)?;
        self.change_words(copy.as_mut_slice(), bench, tally);
        self.change_tables(copy.as_mut_slice(), bench, tally);
        let point = Point {
            bytes: copy.as_slice(),
        };
        self.change_files(point, bench, tally)
    }

    // The changes of all checkpoints, from the folder on in which the sweep begins.
    fn change_lives(&self, room: &mut [Rec], bench: &mut Bench) -> Result<Tally, Fail>
        requires { 16384 ≤ length room.old }
    {
        let mut tally = Tally {
            changes: 0,
            missed: 0,
            place: 0,
        };
        for _life in 0..MOST_LIVES {
            if self.looked.has_ended(1, room, bench)? {
                return Ok(tally);
            }
            self.change_all(bench, &mut tally)?;
        }
        Err(Fail::from("no end"))
    }
}

/// A sweep whose checkpoints, one behind each turn, are changed; and how many changes are noticed at least.
struct Row {
    name: &'static str,
    kind: Kind,
    variables: u32,
    least: u64,
}

// The changes of all checkpoints of a row.
fn change_row(alloc: Global, row: &Row, room: &mut [Rec]) -> Result<Tally, Fail>
    requires { 16384 ≤ length room.old }
{
    let plan = Plan {
        kind: row.kind,
        variables: row.variables,
        seed: 3,
    };
    let (looked, mut bench) = Looked::of(alloc, plan)?;
    let scene = Scene {
        alloc,
        looked: &looked,
    };
    scene.change_lives(room, &mut bench)
}

/// One of each kind. The value of an exclusive or, and that of its complement, always hangs on both operands.
const ROWS: &[Row] = &[
    Row {
        name: "a step's operator",
        kind: Kind::OfStep(Meant::Operator(6)),
        variables: 3,
        least: 600,
    },
    Row {
        name: "an operator",
        kind: Kind::Own(Meant::Operator(9)),
        variables: 3,
        least: 600,
    },
    Row {
        name: "an implication",
        kind: Kind::Implication(true),
        variables: 3,
        least: 500,
    },
    Row {
        name: "a reduction of a tree",
        kind: Kind::Reduction(Shape::Tree),
        variables: 3,
        least: 1500,
    },
    Row {
        name: "a reduction of nodes with two arcs to them",
        kind: Kind::Reduction(Shape::Counting),
        variables: 4,
        least: 2500,
    },
    Row {
        name: "a comparison",
        kind: Kind::Comparison(Other::Complement),
        variables: 4,
        least: 150,
    },
    Row {
        name: "an evaluation",
        kind: Kind::Value(5),
        variables: 4,
        least: 200,
    },
    Row {
        name: "a copy",
        kind: Kind::Copy(3),
        variables: 10,
        least: 150,
    },
];

// The first row of which a change wasn't noticed, or fewer were made than it has to have: how many were made, how many
// weren't noticed, and the place of the last of these.
fn first_short_in(
    alloc: Global,
    room: &mut [Rec],
) -> Result<Option<(&'static str, u64, u64, usize)>, Fail>
    requires { 16384 ≤ length room.old }
{
    for row in ROWS {
        let tally = change_row(alloc, row, room)?;
        if tally.missed > 0 || tally.changes < row.least {
            return Ok(Some((row.name, tally.changes, tally.missed, tally.place)));
        }
    }
    Ok(None)
}

// The same in a room of its own.
fn first_short(alloc: Global) -> Result<Option<(&'static str, u64, u64, usize)>, Fail> {
    let mut records = vec![in alloc; EMPTY; room_len(0)]?;
    first_short_in(alloc, records.as_mut_slice())
}

#[test]
fn a_checkpoint_that_is_changed_stands_for_nothing_wanted(rt: HostRuntime) -> Result<(), Fail> {
    let short = first_short(rt.alloc())?;
    assert!(rt; short.is_none(), "{short:?}");
    Ok(())
}
