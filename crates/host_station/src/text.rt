//! The text that was fetched last.
ghost use Rattle.std.specs.Prelude.{◌≤◌, IfOk, length};

use crate::bytes::read_full;
use crate::folder::Folder;
use std::alloc::Global;
use std::fs::{OpenFile, OpenOptions};
use std::io;
use std::io::{ErrorKind, Read, Seek, SeekFrom};
use std::os::unix::fs::FileExt;
use std::rt::Files;

/// The text that was fetched last, held open, and where its handle stands.
#[derive(Drop)]
pub(crate) struct OpenText<F> {
    alloc: Global,
    path: String,
    file: Option<F>,
    at: u64,
}

impl<F: Read + Seek + FileExt + OpenFile + Drop> OpenText<F> {
    /// No text was fetched yet. Takes no memory.
    pub(crate) fn new(alloc: Global) -> OpenText<F> {
        OpenText {
            alloc,
            path: String::new(alloc),
            file: None,
            at: 0,
        }
    }

    /// Reads from a byte of the text at a path on. To open it, a file of the folder may be given up.
    pub(crate) fn fetch<R: Files<File = F>>(
        &mut self,
        rt: &R,
        folder: &mut Folder<F>,
        path: &str,
        at: u64,
        buf: &mut [u8],
    ) -> io::Result<usize>
        ensures { IfOk result (λ count. count ≤ length buf.old) }
    {
        // A file that was opened for another path is given up even where this path has no text.
        let last = self.file.take();
        let held = if self.path.as_str() == path {
            last
        } else {
            None
        };
        let (mut file, stands) = match held {
            Some(file) => (file, self.at),
            None => {
                self.path = String::from_str(self.alloc, path)?;
                let mut how = OpenOptions::new();
                how.read(true);
                (folder.open(rt, &how, path)?, 0)
            }
        };
        if stands != at && !has_place(&mut file, at)? {
            return Ok(0);
        }
        let count = read_full(&mut file, buf)?;
        self.at = at.saturating_add(count as u64);
        self.file = Some(file);
        Ok(count)
    }
}

/// Goes to a place, unless no file can be so long.
fn has_place<F: Seek>(file: &mut F, at: u64) -> io::Result<bool> {
    match file.seek(SeekFrom::Start(at)) {
        Ok(_) => Ok(true),
        Err(e) if e.kind() == ErrorKind::InvalidInput => Ok(false),
        Err(e) => Err(e),
    }
}
