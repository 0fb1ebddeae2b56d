// One file in memory, and what a call does to it.
ghost use Rattle.std.specs.Prelude.{◌≡◌, OnOk, OnErr, IfOk, length};
ghost use Rattle.shelf_model.specs.File.{no_file};
ghost use Rattle.shelf_memory.specs.Stored.{IsStored};

use std::alloc::{AllocError, Global};

/// What a call does to one file.
#[derive(Drop)]
pub enum Change {
    /// A piece is put at the end.
    Appended(Vec<u8>),
    /// An append of so many bytes fails.
    Torn(u64),
    /// The file is cut to a length.
    Cut(u64),
    /// A cut to a length fails.
    Loosened(u64),
    /// All bytes are made sure.
    Synced,
}

/// A file: what a read gives, the length that a stop leaves, and the greatest length that it may leave.
#[derive(Drop)]
pub struct Stored {
    pub bytes: Vec<u8>,
    pub firm: u64,
    pub reach: u64,
    ghost is_stored: { IsStored bytes.items firm reach },
}

impl Stored {
    ghost use Rattle.std.specs.Prelude.{◌+◌, ◌≤◌};
    ghost use Rattle.shelf_model.specs.File.{firm_file, appended};
    ghost use Rattle.shelf_model.specs.Calls.{longest};
    ghost use Rattle.shelf_memory.specs.Changes.{file_of, changed, FitsIn};

    pub fn empty(alloc: Global) -> Stored
        ensures { file_of result ≡ no_file }
    {
        Stored {
            bytes: Vec::new(alloc),
            firm: 0,
            reach: 0,
        }
    }

    /// A file of these bytes, all of them sure.
    pub fn firm(alloc: Global, bytes: &[u8]) -> Result<Stored, AllocError>
        requires { length bytes.now ≤ longest }
        ensures { IfOk result (λ stored. file_of stored ≡ firm_file bytes.now) }
    {
        let size = bytes.len() as u64;
        Ok(Stored {
            bytes: Vec::from_slice(alloc, bytes)?,
            firm: size,
            reach: size,
        })
    }

    /// Want of memory leaves the file as it was.
    pub fn apply(&mut self, change: &Change) -> Result<(), AllocError>
        requires { FitsIn change.now (file_of self.old) }
        ensures ok { OnOk result (file_of self.new ≡ changed change.now (file_of self.old)) }
        ensures err { OnErr result (file_of self.new ≡ file_of self.old) }
    {
        match change {
            Change::Appended(piece) => self.append(piece)?,
            Change::Torn(count) => self.reach = self.reach.max(self.bytes.len() as u64 + *count),
            Change::Cut(to) => {
                self.firm = self.firm.min(*to);
                self.bytes.truncate(*to as usize);
            }
            Change::Loosened(to) => self.firm = self.firm.min(*to),
            Change::Synced => {
                self.firm = self.bytes.len() as u64;
                self.reach = self.firm;
            }
        }
        Ok(())
    }

    fn append(&mut self, piece: &[u8]) -> Result<(), AllocError>
        requires { length self.old.bytes.items + length piece.now ≤ longest }
        ensures ok { OnOk result (file_of self.new ≡ appended piece.now (file_of self.old)) }
        ensures err { OnErr result (file_of self.new ≡ file_of self.old) }
    {
        self.bytes.extend_from_slice(piece)?;
        self.reach = self.reach.max(self.bytes.len() as u64);
        Ok(())
    }
}
