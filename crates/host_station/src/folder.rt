//! A real folder of numbered files.
ghost use Rattle.std.specs.Prelude.{◌^◌, ◌<◌, ◌≤◌, IfOk, IfSome, length, vec_len};

use crate::handle::{Handle, are_one};
use crate::handles::Handles;
use crate::known::Known;
use file_numbers::{
    CHECKPOINT_PART, ENDS_PART, FIRST_RUN_PART, INNER_PART, JOB_GATE, JOB_STEP, NODES_PART,
    checkpoint_file, checkpoint_gate, ends_file, node_file,
};
use shelf_model::{FileNo, LONGEST};
use std::alloc::Global;
use std::fs::{Metadata, OpenFile, OpenOptions};
use std::io::ErrorKind;
use std::os::unix::fs::FileExt;
use std::rt::Files;
use std::{fs, io};

/// How many runs of a step are made at once: their names take one sync of the folder.
const RUNS_AT_ONCE: u64 = 8;

/// The node files of at most so many steps are made ahead.
const MOST_AHEAD: u32 = 64;

/// A real folder, whose file `(step, part)` is `sSTEPpPART`. A file that isn't there is empty, and
/// nothing but an append makes one. Only regular files are files of the folder.
///
/// Names that were made are synced with the first sync after them, for a power cut could take away
/// a name as well as bytes.
#[derive(Drop)]
pub(crate) struct Folder<F> {
    alloc: Global,
    path: String,
    is_entered: bool,
    handles: Handles<F>,
    known: Known,
    /// The folder itself, open since its first sync.
    itself: Option<F>,
    /// Whether a file's name may not be synced.
    unsure_names: bool,
    /// Whether the folder's own name may not be synced.
    unsure_folder: bool,
}

impl<F: FileExt + OpenFile + Drop> Folder<F> {
    /// No folder was entered yet. Takes no memory.
    pub(crate) fn new(alloc: Global) -> Folder<F> {
        Folder {
            alloc,
            path: String::new(alloc),
            is_entered: false,
            handles: Handles::new(alloc),
            known: Known::nothing(),
            itself: None,
            unsure_names: false,
            unsure_folder: false,
        }
    }

    /// Makes the folder where it isn't there.
    ///
    /// A run that was stopped may have left names unsynced, so none counts as synced at first. The
    /// folder's own name is synced where a job is stored, for that needed a sync.
    ///
    /// Refuses where the folder can't be made or is none, where a file that was held open can't be synced, and for
    /// want of memory. A folder has to be entered again then.
    pub(crate) fn enter<R: Files<File = F>>(&mut self, rt: &R, path: &str) -> io::Result<()> {
        self.is_entered = false;
        self.known = Known::nothing();
        self.itself = None;
        self.handles.give_up_all()?;
        let is_made = make_folder(rt, path)?;
        self.path = String::from_str(self.alloc, path)?;
        self.known = self.list(rt)?;
        self.is_entered = true;
        self.unsure_names = true;
        self.unsure_folder = true;
        if !is_made && self.stores_job(rt)? {
            self.unsure_folder = false;
        }
        Ok(())
    }

    /// The length of a file. Refuses where it can't be opened, or is longer than 2^50 bytes.
    pub(crate) fn len<R: Files<File = F>>(&mut self, rt: &R, f: FileNo) -> io::Result<u64>
        ensures { IfOk result (λ n. n ≤ 2 ^ 50) }
    {
        let Some(i) = self.find(rt, f)? else {
            return Ok(0);
        };
        let len = self.handles.all[i].len;
        if len > LONGEST {
            return Err(io::Error::from(ErrorKind::FileTooLarge));
        }
        Ok(len)
    }

    /// Reads a file from a byte on. Refuses where it can't be opened or read; the buffer may be written in part then.
    pub(crate) fn read_at<R: Files<File = F>>(
        &mut self,
        rt: &R,
        f: FileNo,
        at: u64,
        buf: &mut [u8],
    ) -> io::Result<usize>
        ensures { IfOk result (λ count. count ≤ length buf.old) }
    {
        let Some(i) = self.find(rt, f)? else {
            return Ok(0);
        };
        self.handles.all[i].read_at(at, buf)
    }

    /// Writes behind a file's last byte, and makes the file where it isn't there. Refuses where that byte isn't the
    /// one before `at`, or a call fails; a part of the bytes may be written then.
    pub(crate) fn append<R: Files<File = F>>(
        &mut self,
        rt: &R,
        f: FileNo,
        at: u64,
        bytes: &[u8],
    ) -> io::Result<()> {
        let i = match self.find(rt, f)? {
            Some(i) => i,
            None if at == 0 => self.make(rt, f)?,
            None => return Err(io::Error::from(ErrorKind::InvalidInput)),
        };
        self.handles.all[i].append(at, bytes)
    }

    /// Cuts a file to a length, where it is longer. Refuses where it can't be opened or cut.
    pub(crate) fn cut<R: Files<File = F>>(&mut self, rt: &R, f: FileNo, to: u64) -> io::Result<()> {
        let Some(i) = self.find(rt, f)? else {
            return Ok(());
        };
        self.handles.all[i].cut(to)
    }

    /// Syncs a file, and the names that may not be synced. After one that failed all later ones
    /// fail: the system may take for written what it dropped.
    pub(crate) fn sync<R: Files<File = F>>(&mut self, rt: &R, f: FileNo) -> io::Result<()> {
        if self.handles.is_lost {
            return Err(io::Error::from(ErrorKind::Other));
        }
        let synced = self.sync_with_names(rt, f);
        self.handles.is_lost = self.handles.is_lost || synced.is_err();
        synced
    }

    /// Lets go of a file's handle, which may not have the file's length after a call that failed.
    pub(crate) fn forget(&mut self, f: FileNo) {
        self.handles.forget(f);
    }

    /// Syncs a file, the folder where a name in it may not be synced, and the folder's own name likewise.
    fn sync_with_names<R: Files<File = F>>(&mut self, rt: &R, f: FileNo) -> io::Result<()> {
        if let Some(i) = self.find(rt, f)? {
            self.handles.all[i].sync()?;
        }
        if self.unsure_names {
            self.sync_itself(rt)?;
            self.unsure_names = false;
        }
        if self.unsure_folder {
            self.open_folder(rt, "/..")?.sync_all()?;
            self.unsure_folder = false;
        }
        Ok(())
    }

    /// Syncs the folder itself, which stays open for the next time.
    fn sync_itself<R: Files<File = F>>(&mut self, rt: &R) -> io::Result<()> {
        let itself = match self.itself.take() {
            Some(itself) => itself,
            None => self.open_folder(rt, "")?,
        };
        itself.sync_all()?;
        self.itself = Some(itself);
        Ok(())
    }

    /// Opens the folder at the end of that way from this one.
    fn open_folder<R: Files<File = F>>(&mut self, rt: &R, way: &str) -> io::Result<F> {
        let path = format!(in self.alloc; "{}{way}", self.path)?;
        let mut how = OpenOptions::new();
        how.read(true);
        self.open(rt, &how, path.as_str())
    }

    /// What the folder's names tell. Where they can't be listed, that is nothing: then each file is asked for.
    fn list<R: Files<File = F>>(&self, rt: &R) -> io::Result<Known> {
        let path = format!(in self.alloc; "{}/", self.path)?;
        match rt.open_dir(path.as_str()) {
            Ok(mut listing) => Ok(Known::of_listing(&mut listing)),
            Err(_) => Ok(Known::nothing()),
        }
    }

    /// The place of a file's handle, opened where it wasn't open. There is none where the file isn't
    /// there.
    fn find<R: Files<File = F>>(&mut self, rt: &R, f: FileNo) -> io::Result<Option<usize>>
        ensures { IfOk result (λ found. IfSome found (λ i. i < vec_len self.new.handles.all)) }
    {
        // A file that is open was seen, so that one that is known to be absent needn't be looked for.
        if self.known.is_absent(f) {
            return Ok(None);
        }
        if let Some(i) = self.handles.place_of(f) {
            return Ok(Some(i));
        }
        let path = self.path_of(f)?;
        match fs::symlink_metadata(rt, path.as_str()) {
            Ok(seen) => {
                let handle = self.open_seen(rt, f, path.as_str(), &seen)?;
                Ok(Some(self.handles.add(handle)?))
            }
            Err(e) if e.kind() == ErrorKind::NotFound => Ok(None),
            Err(e) => Err(e),
        }
    }

    /// Opens a regular file that was seen at its name. Links aren't followed: one that was put there
    /// since leads to another file. A file's number may change with its first opening for writing,
    /// so the name is looked at once more.
    fn open_seen<R: Files<File = F>>(
        &mut self,
        rt: &R,
        f: FileNo,
        path: &str,
        seen: &Metadata,
    ) -> io::Result<Handle<F>> {
        if !seen.is_file() {
            return Err(io::Error::from(ErrorKind::InvalidInput));
        }
        let mut how = OpenOptions::new();
        how.read(true).write(true);
        let file = self.open(rt, &how, path)?;
        let opened = file.metadata()?;
        let is_file = opened.is_file();
        if is_file
            && (are_one(seen, &opened) || are_one(&fs::symlink_metadata(rt, path)?, &opened))
        {
            Ok(Handle::of(f, file, opened.len()))
        } else {
            Err(io::Error::from(ErrorKind::InvalidInput))
        }
    }

    /// Makes a file that isn't there, and answers the place of its handle.
    ///
    /// With a step's arcs the files are made that it writes after them, with arcs and with a node file the node files
    /// of later steps, with a checkpoint its gate, and with a run the step's checkpoints and the next runs, so that one
    /// sync of the folder covers all their names. They are empty, as those are that aren't there.
    fn make<R: Files<File = F>>(&mut self, rt: &R, f: FileNo) -> io::Result<usize>
        ensures { IfOk result (λ i. i < vec_len self.new.handles.all) }
    {
        if f.part == INNER_PART {
            self.make_early(rt, ends_file(f.step))?;
        }
        if f.part == INNER_PART || f.part == ENDS_PART {
            self.make_early(rt, node_file(f.step))?;
        }
        if f.part == NODES_PART || f.part == INNER_PART || f.part == ENDS_PART {
            self.make_nodes_ahead(rt, f.step);
        }
        if f.part == CHECKPOINT_PART || f.part >= FIRST_RUN_PART {
            self.make_early(rt, checkpoint_gate(f.step))?;
        }
        if f.part >= FIRST_RUN_PART {
            self.make_early(rt, checkpoint_file(f.step))?;
            self.make_runs_early(rt, f)?;
        }
        self.make_alone(rt, f)
    }

    /// Makes the node files of some steps behind that one, those that are known to be absent: of as many steps as there
    /// are before it, and at most 64, so that a small job leaves few of them empty, and a large one mostly waits for no
    /// sync of the folder. Where one can't be made that is left to its step, with those behind it.
    fn make_nodes_ahead<R: Files<File = F>>(&mut self, rt: &R, step: u32) {
        let behind = step.saturating_add(1);
        let end = behind.saturating_add(step.min(MOST_AHEAD)).min(JOB_STEP);
        for later in behind..end {
            let f = node_file(later);
            if self.known.is_absent(f) {
                let Ok(i) = self.make_alone(rt, f) else {
                    return;
                };
                // Until it is used it is given up before others.
                self.handles.all[i].used = 0;
            }
        }
    }

    /// Makes the runs of a step behind that one.
    fn make_runs_early<R: Files<File = F>>(&mut self, rt: &R, f: FileNo) -> io::Result<()> {
        let behind = f.part.saturating_add(1);
        for part in behind..f.part.saturating_add(RUNS_AT_ONCE) {
            self.make_early(rt, FileNo { step: f.step, part })?;
        }
        Ok(())
    }

    /// Makes a part of a step that isn't written yet, unless it may be there.
    fn make_early<R: Files<File = F>>(&mut self, rt: &R, f: FileNo) -> io::Result<()> {
        if self.known.is_absent(f) {
            self.make_alone(rt, f)?;
        }
        Ok(())
    }

    /// Makes one file that isn't there, and answers the place of its handle.
    fn make_alone<R: Files<File = F>>(&mut self, rt: &R, f: FileNo) -> io::Result<usize>
        ensures { IfOk result (λ i. i < vec_len self.new.handles.all) }
    {
        let path = self.path_of(f)?;
        let mut how = OpenOptions::new();
        how.read(true).write(true).create_new(true);
        // A call that fails may have made it all the same.
        self.unsure_names = true;
        self.known.see(f);
        let file = self.open(rt, &how, path.as_str())?;
        self.handles.add(Handle::of(f, file, 0))
    }

    /// Opens a file at a path. Where the process may have no more open, files of the folder are given
    /// up, and at last the folder's own handle.
    pub(crate) fn open<R: Files<File = F>>(
        &mut self,
        rt: &R,
        how: &OpenOptions,
        path: &str,
    ) -> io::Result<F> {
        if self.handles.are_full() {
            self.handles.give_up()?;
        }
        for _ in 0..self.handles.all.len() {
            match how.open(rt, path) {
                Err(e) if are_spent(&e) => {}
                opened => return opened,
            }
            self.handles.give_up()?;
        }
        match how.open(rt, path) {
            Err(e) if are_spent(&e) => {}
            opened => return opened,
        }
        self.itself = None;
        how.open(rt, path)
    }

    /// Whether the folder stores a job.
    fn stores_job<R: Files<File = F>>(&self, rt: &R) -> io::Result<bool> {
        let path = self.path_of(JOB_GATE)?;
        match fs::symlink_metadata(rt, path.as_str()) {
            Ok(gate) => Ok(gate.is_file() && gate.len() > 0),
            Err(_) => Ok(false),
        }
    }

    /// The path of a file. Refuses where no folder is entered, and for want of memory.
    fn path_of(&self, f: FileNo) -> io::Result<String> {
        if !self.is_entered {
            return Err(io::Error::from(ErrorKind::Other));
        }
        let step = f.step;
        let part = f.part;
        Ok(format!(in self.alloc; "{}/s{step}p{part}", self.path)?)
    }
}

/// Makes a folder where there is none, and answers whether it did.
fn make_folder<R: Files>(rt: &R, path: &str) -> io::Result<bool> {
    match fs::create_dir(rt, path) {
        Ok(()) => Ok(true),
        Err(e) if e.kind() == ErrorKind::AlreadyExists => {
            if fs::metadata(rt, path)?.is_dir() {
                Ok(false)
            } else {
                Err(io::Error::from(ErrorKind::NotADirectory))
            }
        }
        Err(e) => Err(e),
    }
}

/// Whether the process, or the system, may have no more files open.
fn are_spent(e: &io::Error) -> bool {
    match e.raw_os_error() {
        Some(code) => code == 23 || code == 24,
        None => false,
    }
}
