//! A walk of calls that a seed chooses, over a real folder and one in memory.
use crate::dice::Dice;
use crate::pair;
use crate::pair::Real;
use host_station::HostStation;
use shelf_memory::Bench;
use shelf_model::{FileNo, PIECE, Shelf, Station};
use std::alloc::Global;
use std::test::Fail;

/// The text that is fetched has so many bytes.
pub(crate) const TEXT_LEN: usize = 5000;

/// So many steps are written as one that sweeps does, at a time.
const SWEPT: u32 = 5;

/// So many pairs of steps are written as copies are, at a time.
const COPIED: u32 = 4;

/// What a walk goes over.
#[derive(Drop)]
pub(crate) struct Walk<'w> {
    pub(crate) alloc: Global,
    pub(crate) folder: &'w str,
    /// The path of a text.
    pub(crate) text: &'w str,
    /// How many files are used.
    pub(crate) files: u64,
    /// Whether each sync of a file is said before and after it.
    pub(crate) marks: bool,
}

impl<'w> Walk<'w> {
    /// Makes that many calls, and answers the first that wasn't answered alike.
    pub(crate) fn go(
        &self,
        calls: u64,
        dice: &mut Dice,
        real: &mut Real<'_>,
        bench: &mut Bench,
    ) -> Result<Option<u64>, Fail> {
        if !pair::enter(self.folder, real, bench) {
            return Ok(Some(0));
        }
        for k in 0..self.files {
            if !pair::whole(file_of(k), real, bench) {
                return Ok(Some(0));
            }
        }
        for call in 0..calls {
            if !self.take(dice, real, bench)? {
                return Ok(Some(call));
            }
        }
        Ok(None)
    }

    /// Writes the files of some steps as a step that sweeps does: its arcs to nodes, its arcs to truth values
    /// and its node file, after which the arcs are cut. The last step's arcs stay, as where a run was stopped.
    /// Answers whether all was answered alike.
    pub(crate) fn sweep(
        &self,
        first: u32,
        dice: &mut Dice,
        real: &mut Real<'_>,
        bench: &mut Bench,
    ) -> Result<bool, Fail> {
        for step in first..first.saturating_add(SWEPT) {
            for part in [3u64, 4, 0] {
                if !self.write(FileNo { step, part }, dice, real, bench)? {
                    return Ok(false);
                }
            }
            let arcs = FileNo { step, part: 3 };
            let ends = FileNo { step, part: 4 };
            let is_last = step == first.saturating_add(SWEPT - 1);
            if !is_last && !(pair::cut(arcs, 0, real, bench) && pair::cut(ends, 0, real, bench)) {
                return Ok(false);
            }
        }
        Ok(true)
    }

    /// Writes the node files of some steps, which write no other, as copies do. Two are written before either is
    /// synced, and the later one is synced first. Answers whether all was answered alike.
    pub(crate) fn copy(
        &self,
        first: u32,
        dice: &mut Dice,
        real: &mut Real<'_>,
        bench: &mut Bench,
    ) -> Result<bool, Fail> {
        for k in 0..COPIED {
            let step = first.saturating_add(2 * k);
            let one = FileNo { step, part: 0 };
            let other = FileNo {
                step: step.saturating_add(1),
                part: 0,
            };
            let is_alike = put_some(one, dice, real, bench)
                && put_some(other, dice, real, bench)
                && self.sync(other, real, bench)?
                && self.sync(one, real, bench)?
                && pair::whole(one, real, bench)
                && pair::whole(other, real, bench);
            if !is_alike {
                return Ok(false);
            }
        }
        Ok(true)
    }

    // Writes a file anew, syncs it and reads it.
    fn write(
        &self,
        f: FileNo,
        dice: &mut Dice,
        real: &mut Real<'_>,
        bench: &mut Bench,
    ) -> Result<bool, Fail> {
        Ok(
            pair::cut(f, 0, real, bench)
                && put_some(f, dice, real, bench)
                && self.sync(f, real, bench)?
                && pair::whole(f, real, bench),
        )
    }

    // Makes one call, and answers whether both answered alike.
    fn take(&self, dice: &mut Dice, real: &mut Real<'_>, bench: &mut Bench) -> Result<bool, Fail> {
        let f = file_of(dice.below(self.files));
        let size = bench.file(f).len() as u64;
        let place = place_in(size, dice);
        match dice.below(100) {
            0..=34 => Ok(put_some(f, dice, real, bench)),
            35..=64 => Ok(pair::read_at(f, place, dice.below(3000) as usize, real, bench)),
            65..=72 => Ok(pair::len(f, real, bench)),
            73..=80 => Ok(pair::cut(f, place, real, bench)),
            81..=90 => self.sync(f, real, bench),
            91 => Ok(pair::enter(self.folder, real, bench)),
            92..=95 => {
                let at = place_in(TEXT_LEN as u64, dice);
                Ok(pair::fetch(self.text, at, dice.below(3000) as usize, real, bench))
            }
            96 => Ok(pair::fetch("no/such/text", 0, 1, real, bench)),
            _ => Ok(pair::whole(f, real, bench)),
        }
    }

    // Syncs a file, between two lines that are said where marks are wanted.
    fn sync(&self, f: FileNo, real: &mut Real<'_>, bench: &mut Bench) -> Result<bool, Fail> {
        if !self.marks {
            return Ok(pair::sync(f, real, bench));
        }
        let step = f.step;
        let part = f.part;
        let line = format!(in self.alloc; "sync s{step}p{part}\n")?;
        Ok(mark(line.as_str(), real) && pair::sync(f, real, bench) && mark("synced\n", real))
    }
}

// Says a line on the real station alone.
fn mark(line: &str, real: &mut Real<'_>) -> bool {
    let bytes = line.as_bytes();
    if bytes.is_empty() || bytes.len() > PIECE {
        return false;
    }
    real.say(bytes).is_ok()
}

// The number of one of the files. The first is a number that no step has.
fn file_of(k: u64) -> FileNo {
    if k == 0 {
        return FileNo {
            step: u32::MAX,
            part: 1,
        };
    }
    FileNo {
        step: (k / 5 % 1000) as u32,
        part: k % 5,
    }
}

// A place: mostly within that many bytes, sometimes at the front, behind the end, or far from it.
fn place_in(size: u64, dice: &mut Dice) -> u64 {
    match dice.below(20) {
        0 => 0,
        1 => size,
        2 => size.saturating_add(dice.below(5000)),
        3 => 1 << 45,
        4 => u64::MAX,
        _ => dice.below(size),
    }
}

fn put_some(f: FileNo, dice: &mut Dice, real: &mut Real<'_>, bench: &mut Bench) -> bool {
    let mut piece = [0u8; PIECE];
    let first = dice.below(256);
    for i in 0..PIECE {
        piece[i] = (first.wrapping_add(i as u64) % 251) as u8;
    }
    let size = (dice.below(PIECE as u64) as usize).min(PIECE - 1) + 1;
    pair::append(f, &piece[..size], real, bench)
}

/// Whether a station that entered no folder fails each call of it.
pub(crate) fn fails_outside(rt: &HostRuntime) -> bool {
    let f = file_of(1);
    let mut real = HostStation::new(rt, rt.alloc());
    let mut buf = [0u8; 8];
    real.len(f).is_err()
        && real.read_at(f, 0, &mut buf).is_err()
        && real.append(f, 0, &[1]).is_err()
        && real.cut(f, 0).is_err()
        && real.sync(f).is_err()
}

/// Whether an append fails whose place isn't the file's end, and leaves the file.
pub(crate) fn refuses_other_places(folder: &str, rt: &HostRuntime) -> bool {
    let f = file_of(0);
    let mut real = HostStation::new(rt, rt.alloc());
    if real.enter(folder).is_err() {
        return false;
    }
    let Ok(size) = real.len(f) else {
        return false;
    };
    real.append(f, size.wrapping_add(1), &[1]).is_err() && real.len(f) == Ok(size)
}
