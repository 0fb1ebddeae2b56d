//! Which files of a folder are known to be absent.
ghost use Rattle.std.specs.Prelude.{◌<◌};

use file_numbers::{JOB_STEP, NODES_PART};
use shelf_model::FileNo;
use std::io::Read;
use std::str;

/// How many parts of one step are known each by itself.
const PARTS: u64 = 64;

/// A listing takes at most so many reads.
const MOST_READS: u32 = u32::MAX;

/// What is known of the files of steps. No step from `nodes` on has a node file, and none behind `step` has another
/// file. Of the other files of that step there are, of its first 64 parts, those alone that have their bit, and none
/// from the end on. Of what is left it isn't known whether it is there.
///
/// It grows with what is seen and made. It isn't changed where a file is let go, so that a file that was
/// made is never taken for absent.
#[derive(Clone, Copy)]
pub(crate) struct Known {
    nodes: u32,
    step: u32,
    parts: u64,
    end: u64,
}

impl Known {
    /// Nothing is known.
    pub(crate) fn nothing() -> Known {
        Known {
            nodes: u32::MAX,
            step: u32::MAX,
            parts: u64::MAX,
            end: u64::MAX,
        }
    }

    /// What a listing of a folder tells, which gives its names, each ended by a NUL. Where it fails, that
    /// is nothing.
    pub(crate) fn of_listing<D: Read>(listing: &mut D) -> Known {
        let mut known = Known {
            nodes: 0,
            step: 0,
            parts: 0,
            end: 0,
        };
        let mut names = [0u8; 4096];
        for _ in 0..MOST_READS {
            match listing.read(&mut names) {
                Ok(0) => return known,
                Ok(count) => known.see_names(&names[..count]),
                Err(_) => return Known::nothing(),
            }
        }
        Known::nothing()
    }

    /// Takes the files with these names for ones that may be there.
    fn see_names(&mut self, names: &[u8]) {
        for name in names.split(|byte| *byte == 0) {
            if let Some(f) = file_of(name) {
                self.see(f);
            }
        }
    }

    /// Takes a file for one that may be there from now on.
    pub(crate) fn see(&mut self, f: FileNo) {
        if f.step == JOB_STEP {
            return;
        }
        if f.part == NODES_PART {
            self.nodes = self.nodes.max(f.step.saturating_add(1));
            return;
        }
        if f.step > self.step {
            self.step = f.step;
            self.parts = 0;
            self.end = 0;
        }
        if f.step < self.step {
            return;
        }
        self.end = self.end.max(f.part.saturating_add(1));
        if f.part < PARTS {
            self.parts |= 1 << f.part;
        }
    }

    /// Whether a file is sure not to be there. The files beside the steps' are asked for.
    pub(crate) fn is_absent(&self, f: FileNo) -> bool {
        if f.step == JOB_STEP {
            return false;
        }
        if f.part == NODES_PART {
            return f.step >= self.nodes;
        }
        if f.step != self.step {
            return f.step > self.step;
        }
        if f.part < PARTS {
            self.parts >> f.part & 1 == 0
        } else {
            f.part >= self.end
        }
    }
}

/// The file that has a name.
fn file_of(name: &[u8]) -> Option<FileNo> {
    let name = str::from_utf8(name).ok()?;
    let (step, part) = name.strip_prefix("s")?.split_once('p')?;
    Some(FileNo {
        step: step.parse().ok()?,
        part: part.parse().ok()?,
    })
}
