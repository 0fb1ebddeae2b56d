// The calls that are to fail.
ghost use Rattle.std.specs.Prelude.{◌≡◌, ℕ, OnOk, OnErr, ◌==◌, ◌||◌, false, None};
ghost use Rattle.std.specs.Bool.{nat_le};
ghost use Rattle.shelf_model.specs.declared.file_no.FileNo.{FileNo};
ghost use Rattle.shelf_memory.specs.Files.{stored_in};
ghost use Rattle.shelf_memory.specs.Failures.{is_listed, is_met, seen};

use crate::change::Stored;
use crate::files::bytes_of;
use shelf_model::FileNo;
use std::alloc::{AllocError, Global};
use std::collections::{BTreeMap, BTreeSet};

/// A file that is watched: from the first moment at which it has that many bytes every later call fails.
#[derive(Clone, Copy)]
pub struct Watch {
    pub file: FileNo,
    pub size: u64,
    pub met: bool,
}

/// The calls that are to fail: those of these numbers, those from a number on, and those after a file was long enough.
#[derive(Drop)]
pub struct Failures {
    pub at: BTreeSet<u64>,
    pub from: Option<u64>,
    pub watch: Option<Watch>,
}

impl Failures {
    pub fn none(alloc: Global) -> Failures
        ensures listed { (n : ℕ) → is_listed result n ≡ false }
        ensures watch { result.watch ≡ None }
    {
        Failures {
            at: BTreeSet::new(alloc),
            from: None,
            watch: None,
        }
    }

    /// Whether the call of that number is to fail.
    pub fn names(&self, call: u64) -> bool
        ensures { result ≡ (is_listed self.now call || is_met self.now.watch) }
    {
        if let Some(watch) = self.watch {
            if watch.met {
                return true;
            }
        }
        if let Some(from) = self.from {
            if from <= call {
                return true;
            }
        }
        self.at.contains(&call)
    }

    pub fn list(&mut self, call: u64) -> Result<(), AllocError>
        ensures ok { OnOk result ((n : ℕ) → is_listed self.new n ≡ (n == call || is_listed self.old n)) }
        ensures err { OnErr result ((n : ℕ) → is_listed self.new n ≡ is_listed self.old n) }
        ensures watch { self.new.watch ≡ self.old.watch }
    {
        self.at.insert(call)?;
        Ok(())
    }

    pub fn list_from(&mut self, call: u64)
        ensures listed { (n : ℕ) → is_listed self.new n ≡ (nat_le call n || is_listed self.old n) }
        ensures watch { self.new.watch ≡ self.old.watch }
    {
        match self.from {
            Some(from) if from <= call => {}
            _ => self.from = Some(call),
        }
    }

    /// Looks whether the file that is watched is long enough.
    pub fn observe(&mut self, files: &BTreeMap<FileNo, Stored>)
        ensures watch { self.new.watch ≡ seen self.old.watch (stored_in files.now) }
        ensures listed { (n : ℕ) → is_listed self.new n ≡ is_listed self.old n }
    {
        if let Some(watch) = self.watch {
            let met = watch.met || watch.size <= bytes_of(files, watch.file).len() as u64;
            self.watch = Some(Watch { met, ..watch });
        }
    }
}
