//! What the bytes of a checkpoint and of the runs that it names say, word by word.
//!
//! The places are those of docs/FORMATS.md. Nothing here calls a sweep.

use case_lives::STEP;
use shelf_memory::Bench;
use shelf_model::FileNo;
use std::alloc::Global;

/// Why a checkpoint doesn't stand for what it has to.
#[derive(Clone, Copy, Debug)]
pub(crate) enum Wrong {
    /// There is no memory to look at it.
    Memory,
    /// It isn't there wholly, or nothing is wanted of it.
    Missing,
    /// A word in front isn't that of the step, of its part numbers or of its tables.
    Front,
    /// A word that says whether others are there is neither 0 nor 1, or it is 0 and the others aren't.
    Flag,
    /// A word isn't 0 that the sweep doesn't use.
    Unused,
    /// It names other files, another operation, or other variables.
    Task,
    /// A run isn't whole, doesn't ascend, or stands where none may.
    Run,
    /// An arc file has fewer arcs than were kept, or they aren't arcs in its order.
    Arcs,
    /// A file of nodes, or of a copy, has less than was kept, or something else.
    Nodes,
    /// A node at hand isn't there, or lies behind one that is still to be read.
    Hand,
    /// An item that waits isn't one of such a sweep, or comes no later than the last one that was taken.
    Waiting,
    /// A node has a number that isn't the next one.
    Number,
    /// A side leads nowhere, or is there more than once.
    Side,
    /// A function or an answer isn't the one that it has to be.
    Value,
}

/// Refuses for that reason what doesn't hold.
pub(crate) fn ask_for(holds: bool, wrong: Wrong) -> Result<(), Wrong> {
    if holds { Ok(()) } else { Err(wrong) }
}

/// Refuses two values that differ, or of which one isn't there.
pub(crate) fn check_equal(
    one: Result<bool, Wrong>,
    other: Result<bool, Wrong>,
) -> Result<(), Wrong> {
    match (one, other) {
        (Ok(one), Ok(other)) => ask_for(one == other, Wrong::Value),
        (Err(wrong), _) | (_, Err(wrong)) => Err(wrong),
    }
}

/// Puts an item behind others.
pub(crate) fn put<T: Drop>(into: &mut Vec<T>, item: T) -> Result<(), Wrong> {
    match into.push(item) {
        Ok(()) => Ok(()),
        Err(_failed) => Err(Wrong::Memory),
    }
}

/// A copy of bytes.
pub(crate) fn copy_of(alloc: Global, bytes: &[u8]) -> Result<Vec<u8>, Wrong> {
    match Vec::from_slice(alloc, bytes) {
        Ok(copy) => Ok(copy),
        Err(_failed) => Err(Wrong::Memory),
    }
}

/// The files of the step's checkpoints and of their gate.
const POINTS: FileNo = FileNo { step: 7, part: 1 };

const GATE: FileNo = FileNo { step: 7, part: 2 };

/// The bytes of a checkpoint, and where in it, in words, what a sweep keeps and the tables begin.
const POINT_SIZE: usize = 16_384;

const CARRIED_AT: usize = 6;

const TABLES_AT: usize = 256;

const TABLE_WORDS: usize = 192;

pub(crate) const SLOTS: usize = 64;

/// The bytes of a record of a run.
const RECORD: usize = 64;

/// The word of bytes at a place, counted in words, the highest byte first; or 0 behind their end.
pub(crate) fn word_in(bytes: &[u8], place: usize) -> u64 {
    let first = place.saturating_mul(8);
    let mut eight = [0u8; 8];
    if let Some(word) = bytes.get(first..first.saturating_add(8)) {
        eight.copy_from_slice(word);
    }
    u64::from_be_bytes(eight)
}

/// Makes a byte one with another last digit.
pub(crate) fn flip_byte(bytes: &mut [u8], at: usize) {
    if let Some(byte) = bytes.get_mut(at) {
        *byte ^= 1;
    }
}

/// The same of the word of bytes at a place.
pub(crate) fn flip(bytes: &mut [u8], place: usize) {
    flip_byte(bytes, place.saturating_mul(8).saturating_add(7));
}

/// A record of a run, or some words of a checkpoint, by their bytes.
#[derive(Clone, Copy)]
pub(crate) struct Record<'a> {
    bytes: &'a [u8],
}

impl<'a> Record<'a> {
    /// Its word at a place, or 0 behind its end.
    pub(crate) fn word(&self, place: usize) -> u64 {
        word_in(self.bytes, place)
    }

    /// Whether the first words of it, so many, come before those of another one.
    pub(crate) fn precedes(&self, other: Record<'_>, words: usize) -> bool {
        for place in 0..words {
            let (mine, its) = (self.word(place), other.word(place));
            if mine != its {
                return mine < its;
            }
        }
        false
    }
}

/// A run that a table names: its part, the record that is read next, and how many it has.
#[derive(Clone, Copy)]
pub(crate) struct Slot {
    pub(crate) part: u64,
    pub(crate) next: u64,
    pub(crate) end: u64,
}

/// What the words of the checkpoints of a kind of sweep have to be.
pub(crate) struct Form {
    /// The number of the sweep in its step, and that of its tables.
    pub(crate) sweep: u64,
    pub(crate) tables: u64,
    /// The files that they name, and from which places on.
    pub(crate) files: &'static [(usize, FileNo)],
    /// The places of words that say whether others are there, and how many these are.
    pub(crate) flags: &'static [(usize, usize)],
    /// How many words the sweep keeps.
    pub(crate) words: usize,
}

/// A checkpoint, by its bytes.
#[derive(Clone, Copy)]
pub(crate) struct Point<'a> {
    pub(crate) bytes: &'a [u8],
}

impl<'a> Point<'a> {
    /// The last gated checkpoint of the step.
    pub(crate) fn last_of(bench: &'a Bench) -> Result<Point<'a>, Wrong> {
        let end = bench.file(GATE).len().saturating_mul(POINT_SIZE);
        let start = end.saturating_sub(POINT_SIZE);
        match bench.file(POINTS).get(start..end) {
            Some(bytes) if start < end => Ok(Point { bytes }),
            _ => Err(Wrong::Missing),
        }
    }

    // The word at a place from the front of the checkpoint on.
    fn word(&self, place: usize) -> u64 {
        word_in(self.bytes, place)
    }

    /// The word that the sweep keeps at a place.
    pub(crate) fn carried(&self, place: usize) -> u64 {
        self.word(place.saturating_add(CARRIED_AT))
    }

    /// Refuses it where the sweep keeps another word at a place than that one, which its task has.
    pub(crate) fn check_word(&self, place: usize, word: u64) -> Result<(), Wrong> {
        ask_for(self.carried(place) == word, Wrong::Task)
    }

    // Refuses it where its front isn't that of such a sweep of the step.
    fn check_front(&self, sweep: u64, tables: u64) -> Result<(), Wrong> {
        let is_of = self.word(0) == u64::from(STEP) && self.word(1) == sweep;
        let parts = self.word(3) >= 3 && self.word(3) <= 1 << 32;
        let few = self.word(2) < 1 << 62;
        let front = is_of && parts && few && self.word(5) == tables;
        ask_for(front, Wrong::Front)
    }

    // Whether it names that file from a place on.
    fn names(&self, place: usize, file: FileNo) -> bool {
        let part = self.carried(place.saturating_add(1)) == file.part;
        part && self.carried(place) == u64::from(file.step)
    }

    // Refuses it where it names another file from one of these places on.
    fn check_names(&self, files: &[(usize, FileNo)]) -> Result<(), Wrong> {
        for (place, file) in files {
            if !self.names(*place, *file) {
                return Err(Wrong::Task);
            }
        }
        Ok(())
    }

    // Whether so many words are 0, from the front of the checkpoint on.
    fn is_zero(&self, from: usize, count: usize) -> bool {
        for place in 0..count {
            if self.word(from.saturating_add(place)) != 0 {
                return false;
            }
        }
        true
    }

    // Refuses it where a word isn't 0 that the sweep keeps from a place on.
    fn check_unused(&self, from: usize) -> Result<(), Wrong> {
        let front = from.saturating_add(CARRIED_AT);
        let count = TABLES_AT.saturating_sub(front);
        ask_for(self.is_zero(front, count), Wrong::Unused)
    }

    /// Refuses it where a run stands in one of so many tables from one on.
    pub(crate) fn check_no_runs(&self, first: usize, tables: usize) -> Result<(), Wrong> {
        let front = first.saturating_mul(TABLE_WORDS).saturating_add(TABLES_AT);
        let count = tables.saturating_mul(TABLE_WORDS);
        ask_for(self.is_zero(front, count), Wrong::Run)
    }

    /// Whether the words behind that one are there.
    pub(crate) fn has(&self, flag: usize) -> bool {
        self.carried(flag) == 1
    }

    // Whether a word is 1, or it and the words behind it, so many, are 0.
    fn is_flag(&self, flag: usize, words: usize) -> bool {
        let front = flag.saturating_add(CARRIED_AT);
        self.has(flag) || self.is_zero(front, words.saturating_add(1))
    }

    // Refuses it where one of these words isn't 1, and it and the words behind it, so many, aren't 0.
    fn check_flags(&self, flags: &[(usize, usize)]) -> Result<(), Wrong> {
        for (flag, words) in flags {
            if !self.is_flag(*flag, *words) {
                return Err(Wrong::Flag);
            }
        }
        Ok(())
    }

    /// Refuses it where its words haven't that form.
    pub(crate) fn check_form(&self, form: &Form) -> Result<(), Wrong> {
        self.check_front(form.sweep, form.tables)
            .and(self.check_names(form.files))
            .and(self.check_flags(form.flags))
            .and(self.check_unused(form.words))
    }

    /// The word behind that one, where it is there.
    pub(crate) fn maybe(&self, flag: usize) -> Option<u64> {
        let word = self.carried(flag.saturating_add(1));
        self.has(flag).then_some(word)
    }

    /// So many words behind that one as a record, where they are there.
    pub(crate) fn maybe_record(&self, flag: usize, words: usize) -> Option<Record<'a>> {
        let front = flag.saturating_add(CARRIED_AT).saturating_add(1);
        let first = front.saturating_mul(8);
        let end = words.saturating_mul(8).saturating_add(first);
        match self.bytes.get(first..end) {
            Some(bytes) => self.has(flag).then_some(Record { bytes }),
            None => None,
        }
    }

    /// The run in a slot of a table; three words 0 where none stands there.
    pub(crate) fn slot(&self, table: usize, slot: usize) -> Slot {
        let front = table.saturating_mul(TABLE_WORDS).saturating_add(TABLES_AT);
        let at = front.saturating_add(slot.saturating_mul(3));
        Slot {
            part: self.word(at),
            next: self.word(at.saturating_add(1)),
            end: self.word(at.saturating_add(2)),
        }
    }

    // Whether a run may stand in a table: its part is one of those that were taken behind the files of arcs; or whether
    // none stands there.
    fn may_stand(&self, run: Slot) -> bool {
        let none = run.part == 0 && run.next == 0 && run.end == 0;
        let taken = run.part >= 5 && run.part < self.word(3);
        none || taken && run.next <= run.end && run.end <= 1 << 44
    }

    // Puts behind others the records of a run that weren't read, which ascend by so many words.
    fn add_run<'b>(
        &self,
        run: Slot,
        width: usize,
        bench: &'b Bench,
        into: &mut Vec<Record<'b>>,
    ) -> Result<(), Wrong> {
        let file = FileNo {
            step: STEP,
            part: run.part,
        };
        let first = (run.next as usize).saturating_mul(RECORD);
        let end = (run.end as usize).saturating_mul(RECORD);
        match bench.file(file).get(first..end) {
            Some(bytes) if self.may_stand(run) => add_all(bytes, width, into),
            _ => Err(Wrong::Run),
        }
    }

    /// Puts behind others what waits in the runs of a table, which ascend by so many words: the records from the next
    /// one of each on.
    pub(crate) fn add_waiting<'b>(
        &self,
        table: usize,
        width: usize,
        bench: &'b Bench,
        into: &mut Vec<Record<'b>>,
    ) -> Result<(), Wrong> {
        let mut all = Ok(());
        for slot in 0..SLOTS {
            all = all.and(self.add_run(self.slot(table, slot), width, bench, into));
        }
        all
    }
}

// Puts records behind others, which ascend by so many words.
fn add_all<'b>(bytes: &'b [u8], width: usize, into: &mut Vec<Record<'b>>) -> Result<(), Wrong> {
    let mut last = Record { bytes: &[] };
    let mut all = Ok(());
    for bytes in bytes.chunks_exact(RECORD) {
        let record = Record { bytes };
        let ascends = ask_for(!record.precedes(last, width), Wrong::Run);
        all = all.and(ascends).and(put(into, record));
        last = record;
    }
    all
}
