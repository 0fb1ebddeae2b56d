//! The station over the real outside.
use crate::bytes::write_full;
use crate::folder::Folder;
use crate::text::OpenText;
use shelf_model::{Failed, FileNo, LONGEST, Shelf, Station};
use std::alloc::Global;
use std::io;
use std::os::unix::fs::FileExt;
use std::rt::Files;

/// The real folder, texts and standard output. It tells nothing of their content: this is the edge
/// where the outside is trusted.
///
/// Want of memory in a call counts as a fault of that call, but where a file is only made ahead of its step. A count
/// that has reached its last value stays there.
#[derive(Drop)]
pub struct HostStation<R: Files> {
    rt: R,
    folder: Folder<R::File>,
    text: OpenText<R::File>,
    text_faults: u64,
    folder_faults: u64,
    say_faults: u64,
}

impl<R: Files + Print + Clone + Drop> HostStation<R>
where
    R::File: FileExt,
{
    /// A station that hasn't entered a folder. It takes no memory.
    pub fn new(rt: R, alloc: Global) -> HostStation<R> {
        HostStation {
            rt,
            folder: Folder::new(alloc),
            text: OpenText::new(alloc),
            text_faults: 0,
            folder_faults: 0,
            say_faults: 0,
        }
    }
}

impl<R: Files + Print + Clone + Drop> Shelf for HostStation<R>
where
    R::File: FileExt,
{
    ghost use Rattle.std.specs.Prelude.{false};
    ghost use Rattle.std.proofs.lemmas.Bool.{false≢true};
    ghost use Rattle.host_station.specs.Untold.{nothing};

    ghost tells = { λ s. false };

    ghost world = { λ s. nothing };

    ghost faults = { λ s. record { folder = s.folder_faults; say = s.say_faults; text = λ path. s.text_faults } };

    ghost files_are = { λ s told. absurd (false≢true told) };

    fn len(&mut self, f: FileNo) -> Result<u64, Failed> {
        match self.folder.len(&self.rt, f) {
            Ok(len) => Ok(len),
            Err(_) => Err(self.folder_failed(f)),
        }
    }

    fn read_at(&mut self, f: FileNo, at: u64, buf: &mut [u8]) -> Result<usize, Failed> {
        match self.folder.read_at(&self.rt, f, at, buf) {
            Ok(count) => Ok(count),
            Err(_) => Err(self.folder_failed(f)),
        }
    }

    fn append(&mut self, f: FileNo, at: u64, bytes: &[u8]) -> Result<(), Failed> {
        if at > LONGEST - bytes.len() as u64 {
            return Err(self.folder_failed(f));
        }
        match self.folder.append(&self.rt, f, at, bytes) {
            Ok(()) => Ok(()),
            Err(_) => Err(self.folder_failed(f)),
        }
    }

    fn cut(&mut self, f: FileNo, to: u64) -> Result<(), Failed> {
        match self.folder.cut(&self.rt, f, to) {
            Ok(()) => Ok(()),
            Err(_) => Err(self.folder_failed(f)),
        }
    }

    fn sync(&mut self, f: FileNo) -> Result<(), Failed> {
        match self.folder.sync(&self.rt, f) {
            Ok(()) => Ok(()),
            Err(_) => Err(self.folder_failed(f)),
        }
    }
}

impl<R: Files + Print + Clone + Drop> Station for HostStation<R>
where
    R::File: FileExt,
{
    fn enter(&mut self, path: &str) -> Result<(), Failed> {
        match self.folder.enter(&self.rt, path) {
            Ok(()) => Ok(()),
            Err(_) => {
                self.folder_faults = self.folder_faults.saturating_add(1);
                Err(Failed)
            }
        }
    }

    fn fetch(&mut self, path: &str, at: u64, buf: &mut [u8]) -> Result<usize, Failed> {
        match self.text.fetch(&self.rt, &mut self.folder, path, at, buf) {
            Ok(count) => Ok(count),
            Err(_) => {
                self.text_faults = self.text_faults.saturating_add(1);
                Err(Failed)
            }
        }
    }

    fn say(&mut self, bytes: &[u8]) -> Result<(), Failed> {
        match write_full(&mut io::writer(&self.rt), bytes) {
            Ok(()) => Ok(()),
            Err(_) => {
                self.say_faults = self.say_faults.saturating_add(1);
                Err(Failed)
            }
        }
    }
}

impl<R: Files + Print + Clone + Drop> HostStation<R>
where
    R::File: FileExt,
{
    ghost use Rattle.std.specs.Prelude.{◌≡◌, ◌≤◌, min, ◌+◌, ◌-◌, ◌^◌};

    /// Counts a fault of the folder, and lets go of the file, which may be longer or shorter than its handle
    /// has it.
    fn folder_failed(&mut self, f: FileNo) -> Failed
        ensures later { self.old.folder_faults ≤ self.new.folder_faults }
        ensures folder { min (self.old.folder_faults + 1) (2 ^ 64 - 1) ≤ self.new.folder_faults }
        ensures say { self.new.say_faults ≡ self.old.say_faults }
        ensures text { self.new.text_faults ≡ self.old.text_faults }
    {
        self.folder.forget(f);
        self.folder_faults = self.folder_faults.saturating_add(1);
        Failed
    }
}
