//! An open file of a folder.
ghost use Rattle.std.specs.Prelude.{◌≤◌, IfOk, length};

use shelf_model::{FileNo, PIECE};
use std::fs::{Metadata, OpenFile};
use std::io;
use std::io::ErrorKind;
use std::os::unix::fs::{FileExt, MetadataExt};

/// An open file of a folder: its length, and what of it isn't synced. It is read and written at places, so that
/// none has to be gone to first.
#[derive(Drop)]
pub(crate) struct Handle<F> {
    pub(crate) number: FileNo,
    file: F,
    pub(crate) len: u64,
    /// How many of the bytes still stand that stood when it was opened. 0 once it was synced.
    older: u64,
    /// Whether it has bytes that were changed since it was opened or synced.
    pub(crate) is_changed: bool,
    /// Whether it was synced and stands as its last sync left it, its length among that.
    is_synced: bool,
    /// The call that used it last, or 0 where it was cut to nothing since, or none did.
    pub(crate) used: u64,
}

impl<F: FileExt + OpenFile + Drop> Handle<F> {
    /// A handle of a regular file of that length that was just opened.
    pub(crate) fn of(number: FileNo, file: F, len: u64) -> Handle<F> {
        Handle {
            number,
            file,
            len,
            older: len,
            is_changed: false,
            is_synced: false,
            used: 0,
        }
    }

    /// Reads from a byte on. Behind the file's end there is nothing to read.
    pub(crate) fn read_at(&self, at: u64, buf: &mut [u8]) -> io::Result<usize>
        ensures { IfOk result (λ count. count ≤ length buf.old) }
    {
        if self.len <= at {
            return Ok(0);
        }
        // No more is asked for than there is: a read that meets the end would be followed by another one.
        let most = (self.len - at).min(buf.len() as u64) as usize;
        let wanted = &mut buf[..most];
        self.file.read_exact_at(wanted, at)?;
        Ok(most)
    }

    /// Writes behind the last byte, which has to be the one before that place.
    pub(crate) fn append(&mut self, at: u64, bytes: &[u8]) -> io::Result<()> {
        if at != self.len {
            return Err(io::Error::from(ErrorKind::InvalidInput));
        }
        self.change();
        self.file.write_all_at(bytes, at)?;
        self.len = at.saturating_add(bytes.len() as u64);
        Ok(())
    }

    /// Cuts the file to a length, where it is longer. Refuses where the system does, and has the old length then.
    pub(crate) fn cut(&mut self, to: u64) -> io::Result<()> {
        if to < self.len {
            self.change();
            self.file.set_len(to)?;
            self.len = to;
            self.older = self.older.min(to);
        }
        if to == 0 {
            self.is_changed = false;
            self.used = 0;
        }
        Ok(())
    }

    /// Takes the file for one that is changed, before a call that may do so and fail.
    fn change(&mut self) {
        self.is_changed = true;
        self.is_synced = false;
    }

    /// Syncs the file, unless it stands as its last sync left it. Refuses where a call fails; what was changed then
    /// still counts as changed.
    pub(crate) fn sync(&mut self) -> io::Result<()> {
        if self.is_synced {
            return Ok(());
        }
        if self.older > 0 {
            self.write_again()?;
        }
        self.file.sync_all()?;
        self.older = 0;
        self.is_changed = false;
        self.is_synced = true;
        Ok(())
    }

    /// Writes the end again of what stood in the file when it was opened. Where a sync of an earlier
    /// process failed, the system may have dropped that end and take it for written.
    fn write_again(&self) -> io::Result<()> {
        let mut piece = [0u8; PIECE];
        let len = self.older.min(PIECE as u64) as usize;
        let from = self.older - len as u64;
        self.file.read_exact_at(&mut piece[..len], from)?;
        self.file.write_all_at(&piece[..len], from)
    }
}

/// Whether an open file is the one that was seen at a name, which was no link then.
pub(crate) fn are_one(seen: &Metadata, opened: &Metadata) -> bool {
    seen.ino() == opened.ino() && seen.dev() == opened.dev()
}
