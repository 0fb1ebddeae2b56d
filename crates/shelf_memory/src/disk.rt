// The folder and what was said, with all that happened to them.
ghost use Rattle.std.specs.Prelude.{◌≡◌, OnOk, OnErr, ◌+◌, ◌-◌, ◌^◌, ◌<◌, ◌≤◌, length, is_err, min};
ghost use Rattle.shelf_memory.specs.Files.{stored_in};
ghost use Rattle.shelf_memory.specs.Past.{Agrees};

use crate::change::{Change, Stored};
use crate::event::{Call, Event};
use crate::files::{change_file, put_stored};
use crate::reads::count_read;
use shelf_model::FileNo;
use std::alloc::{AllocError, Global};
use std::collections::BTreeMap;

/// The files and what was said, with their past, for as long as the clock counts calls.
///
/// At its last value the clock stands, and nothing is known of the past any more: growth was refused,
/// or there were that many calls.
#[derive(Drop)]
pub struct Disk {
    pub alloc: Global,
    pub clock: u64,
    pub files: BTreeMap<FileNo, Stored>,
    pub said: Vec<u8>,
    pub events: Vec<Event>,
    ghost agrees: { clock < 2 ^ 64 - 1 → Agrees clock (stored_in files) said.items events.items },
}

impl Disk {
    ghost use Rattle.shelf_model.specs.declared.file_no.FileNo.{FileNo};
    ghost use Rattle.shelf_model.specs.File.{no_file, firm_file, appended};
    ghost use Rattle.shelf_memory.specs.Events.{moment_of};
    ghost use Rattle.shelf_model.specs.Calls.{longest};
    ghost use Rattle.shelf_memory.specs.Changes.{changed, FitsIn};
    ghost use Rattle.shelf_memory.specs.Disks.{Stays, StaysBut, Ticked, SameMoment, SameFolder, clock_after};
    ghost use Rattle.std.specs.Prelude.{ℕ, true, ◌≢◌, [], ◌++◌, ◌∷◌, vec_len, vec_capacity};
    ghost use Rattle.shelf_memory.specs.declared.event.Event.TheVariants.{Called};
    ghost use Rattle.shelf_memory.specs.Reads.{read_count};
    ghost use Rattle.shelf_memory.specs.Texts.{raised};

    pub fn empty(alloc: Global) -> Disk
        ensures clock { result.clock ≡ 0 }
        ensures files { (q : FileNo) → stored_in result.files q ≡ no_file }
        ensures said { result.said.items ≡ [] }
    {
        Disk {
            alloc,
            clock: 0,
            files: BTreeMap::new(alloc),
            said: Vec::new(alloc),
            events: Vec::new(alloc),
        }
    }

    /// A call that changes nothing.
    pub fn keep(&mut self) -> Result<(), AllocError>
        ensures stays { Stays self.old self.new }
        ensures clock { self.new.clock ≡ clock_after (is_err result) self.old.clock }
        ensures past { self.new.clock < 2 ^ 64 - 1 → Ticked self.old self.new }
        ensures same { self.new.clock < 2 ^ 64 - 1 → SameMoment self.old self.new }
    {
        let was = self.clock;
        self.clock = u64::MAX;
        self.events.reserve(1)?;
        self.note(was, Call::Nothing);
        Ok(())
    }

    /// A call that reads a file and changes nothing. Want of memory leaves the counts of reads as they were.
    pub fn read(&mut self, reads: &mut BTreeMap<FileNo, u64>, f: FileNo) -> Result<(), AllocError>
        ensures ok { OnOk result (read_count reads.new f ≡ raised true (read_count reads.old f)) }
        ensures err { OnErr result ((q : FileNo) → read_count reads.new q ≡ read_count reads.old q) }
        ensures others { (q : FileNo) → q ≢ f → read_count reads.new q ≡ read_count reads.old q }
        ensures stays { Stays self.old self.new }
        ensures clock { self.new.clock ≡ clock_after (is_err result) self.old.clock }
        ensures past { self.new.clock < 2 ^ 64 - 1 → Ticked self.old self.new }
        ensures same { self.new.clock < 2 ^ 64 - 1 → SameMoment self.old self.new }
    {
        let was = self.clock;
        self.clock = u64::MAX;
        self.events.reserve(1)?;
        count_read(reads, f)?;
        self.note(was, Call::Nothing);
        Ok(())
    }

    /// A call that changes one file. Want of memory leaves each file as it was.
    pub fn change(&mut self, f: FileNo, change: Change) -> Result<(), AllocError>
        requires { FitsIn change (stored_in self.old.files f) }
        ensures ok { OnOk result (stored_in self.new.files f ≡ changed change (stored_in self.old.files f)) }
        ensures err { OnErr result (Stays self.old self.new) }
        ensures others { StaysBut f self.old self.new }
        ensures clock { self.new.clock ≡ clock_after (is_err result) self.old.clock }
        ensures past { self.new.clock < 2 ^ 64 - 1 → Ticked self.old self.new }
    {
        let was = self.clock;
        self.clock = u64::MAX;
        self.events.reserve(1)?;
        change_file(self.alloc, &mut self.files, f, &change)?;
        self.note(was, Call::Changed { file: f, change });
        Ok(())
    }

    /// A call that puts a piece at the end of a file. Want of memory leaves each file as it was.
    pub fn append(&mut self, f: FileNo, piece: &[u8]) -> Result<(), AllocError>
        requires { length (stored_in self.old.files f).bytes + length piece.now ≤ longest }
        ensures ok { OnOk result (stored_in self.new.files f ≡ appended piece.now (stored_in self.old.files f)) }
        ensures err { OnErr result (Stays self.old self.new) }
        ensures others { StaysBut f self.old self.new }
        ensures clock { self.new.clock ≡ clock_after (is_err result) self.old.clock }
        ensures past { self.new.clock < 2 ^ 64 - 1 → Ticked self.old self.new }
    {
        match Vec::from_slice(self.alloc, piece) {
            Ok(copy) => self.change(f, Change::Appended(copy)),
            Err(refused) => {
                self.clock = u64::MAX;
                Err(refused)
            }
        }
    }

    /// A call that says a piece. Want of memory leaves what was said as it was.
    pub fn say(&mut self, piece: &[u8]) -> Result<(), AllocError>
        ensures ok { OnOk result (self.new.said.items ≡ self.old.said.items ++ piece.now) }
        ensures err { OnErr result (self.new.said.items ≡ self.old.said.items) }
        ensures files { (q : FileNo) → stored_in self.new.files q ≡ stored_in self.old.files q }
        ensures clock { self.new.clock ≡ clock_after (is_err result) self.old.clock }
        ensures past { self.new.clock < 2 ^ 64 - 1 → Ticked self.old self.new }
        ensures folder { self.new.clock < 2 ^ 64 - 1 → SameFolder self.old self.new }
    {
        let was = self.clock;
        self.clock = u64::MAX;
        let copy = Vec::from_slice(self.alloc, piece)?;
        self.events.reserve(1)?;
        self.said.extend_from_slice(piece)?;
        self.note(was, Call::Said(copy));
        Ok(())
    }

    /// Puts a file between two calls. Want of memory leaves all as it was.
    pub fn put_file(&mut self, f: FileNo, bytes: &[u8]) -> Result<(), AllocError>
        requires { length bytes.now ≤ longest }
        ensures ok { OnOk result (stored_in self.new.files f ≡ firm_file bytes.now) }
        ensures err { OnErr result (Stays self.old self.new × (self.new.events.items ≡ self.old.events.items)) }
        ensures others { StaysBut f self.old self.new }
        ensures clock { self.new.clock ≡ self.old.clock }
        ensures past { self.old.clock < 2 ^ 64 - 1 → (k : ℕ) → k < self.old.clock →
            moment_of self.new.events.items k ≡ moment_of self.old.events.items k }
    {
        let stored = Stored::firm(self.alloc, bytes)?;
        let copy = Vec::from_slice(self.alloc, bytes)?;
        self.events.reserve(1)?;
        put_stored(&mut self.files, f, stored)?;
        self.events.push_reserved(Event::Put {
            file: f,
            bytes: copy,
        });
        Ok(())
    }

    // Makes the call an event, with its clock as it was before the call.
    fn note(&mut self, was: u64, call: Call)
        requires reserved { vec_len self.old.events < vec_capacity self.old.events }
        requires dark { self.old.clock ≡ 2 ^ 64 - 1 }
        requires agrees { was + 1 < 2 ^ 64 - 1 →
            Agrees (was + 1) (stored_in self.old.files) self.old.said.items
            (self.old.events.items ++ Called call ∷ []) }
        ensures stays { Stays self.old self.new }
        ensures clock { self.new.clock ≡ min (was + 1) (2 ^ 64 - 1) }
        ensures events { self.new.clock < 2 ^ 64 - 1 →
            self.new.events.items ≡ self.old.events.items ++ Called call ∷ [] }
    {
        if was < u64::MAX - 1 {
            self.events.push_reserved(Event::Called(call));
            self.clock = was + 1;
        }
    }
}
