//! The files of a folder that are open.
ghost use Rattle.std.specs.Prelude.{◌<◌, IfOk, IfSome, vec_len};

use crate::handle::Handle;
use shelf_model::FileNo;
use std::alloc::Global;
use std::fs::OpenFile;
use std::io;
use std::os::unix::fs::FileExt;

/// How many files are held open, where the process may have so many.
const MOST_OPEN: usize = 4000;

/// A file that one of the last calls used, so many of them, is taken for one in use.
const CALLS_IN_USE: u64 = 320;

/// How many places are remembered, so that a file is mostly found at once.
const PLACES: usize = 4096;

/// The open files. One that isn't in use is given up for another one.
#[derive(Drop)]
pub(crate) struct Handles<F> {
    pub(crate) all: Vec<Handle<F>>,
    /// Where files stood last, each remembered at its own [`turn_of`]. Another may stand there now.
    places: [usize; PLACES],
    /// Which of them is looked at first for one to give up.
    hand: usize,
    calls: u64,
    /// Whether bytes were written whose sync failed, or that were given up unsynced: a later sync
    /// might answer Ok without them.
    pub(crate) is_lost: bool,
}

impl<F: FileExt + OpenFile + Drop> Handles<F> {
    /// No file is open yet. Takes no memory.
    pub(crate) fn new(alloc: Global) -> Handles<F> {
        Handles {
            all: Vec::new(alloc),
            places: [0; PLACES],
            hand: 0,
            calls: 0,
            is_lost: false,
        }
    }

    /// The place of a file's handle, which counts as used now.
    pub(crate) fn place_of(&mut self, f: FileNo) -> Option<usize>
        ensures { IfSome result (λ i. i < vec_len self.new.all) }
    {
        let i = self.look_up(f)?;
        self.calls = self.calls.saturating_add(1);
        self.all[i].used = self.calls;
        self.places[turn_of(f)] = i;
        Some(i)
    }

    /// Where it stood last, or else where it is found among all.
    fn look_up(&self, f: FileNo) -> Option<usize>
        ensures { IfSome result (λ i. i < vec_len self.now.all) }
    {
        let i = self.places[turn_of(f)];
        if i < self.all.len() && self.all[i].number == f {
            return Some(i);
        }
        self.all.iter().position(|handle| handle.number == f)
    }

    /// Keeps one more handle, and answers its place.
    pub(crate) fn add(&mut self, handle: Handle<F>) -> io::Result<usize>
        ensures { IfOk result (λ i. i < vec_len self.new.all) }
    {
        self.calls = self.calls.saturating_add(1);
        let f = handle.number;
        self.all.push(handle)?;
        let i = self.all.len() - 1;
        self.all[i].used = self.calls;
        self.places[turn_of(f)] = i;
        Ok(i)
    }

    /// Whether as many files are open as may be.
    pub(crate) fn are_full(&self) -> bool {
        self.all.len() >= MOST_OPEN
    }

    /// Gives up a handle, of those that weren't changed since their sync and aren't in use where there
    /// are any. One that was changed is synced first. Answers whether there was one.
    pub(crate) fn give_up(&mut self) -> io::Result<bool> {
        let Some(i) = self.in_turn() else {
            return Ok(false);
        };
        let mut handle = self.all.swap_remove(i);
        if handle.is_changed
            && let Err(e) = handle.sync()
        {
            self.is_lost = true;
            return Err(e);
        }
        Ok(true)
    }

    /// The one whose turn it is, where it can be given up as it is. Otherwise they are all looked at.
    fn in_turn(&mut self) -> Option<usize>
        ensures { IfSome result (λ i. i < vec_len self.new.all) }
    {
        if self.hand >= self.all.len() {
            self.hand = 0;
        }
        let i = self.hand;
        self.hand = self.hand.saturating_add(1);
        match self.all.get(i) {
            Some(handle) if !rank_of(handle, self.calls).0 => Some(i),
            _ => self.longest_unused(),
        }
    }

    /// The one of the least rank.
    fn longest_unused(&self) -> Option<usize>
        ensures { IfSome result (λ i. i < vec_len self.now.all) }
    {
        let calls = self.calls;
        let first = self.all.iter().map(|handle| rank_of(handle, calls)).min()?;
        self.all
            .iter()
            .position(|handle| rank_of(handle, calls) == first)
    }

    /// Lets go of a file's handle.
    pub(crate) fn forget(&mut self, f: FileNo) {
        if let Some(i) = self.place_of(f) {
            let handle = self.all.swap_remove(i);
            self.is_lost = self.is_lost || handle.is_changed;
        }
    }

    /// Gives up all handles.
    pub(crate) fn give_up_all(&mut self) -> io::Result<()> {
        for _ in 0..self.all.len() {
            self.give_up()?;
        }
        Ok(())
    }
}

/// Which of the remembered places is a file's. Parts of a step have different ones, and so have the node files of steps
/// that follow one another.
fn turn_of(f: FileNo) -> usize
    ensures { result < 4096 }
{
    (u64::from(f.step).wrapping_add(f.part) % PLACES as u64) as usize
}

/// The handle with the least rank is given up first, after so many calls. Files that are read in turn would be opened
/// at each call if one of them were given up for the next.
fn rank_of<F>(handle: &Handle<F>, calls: u64) -> (bool, u64) {
    let is_in_use = calls.saturating_sub(handle.used) < CALLS_IN_USE;
    (handle.is_changed || is_in_use, handle.used)
}
