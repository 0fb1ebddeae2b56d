ghost use Rattle.std.specs.Prelude.{◌≡◌, ◌+◌, ◌-◌, ◌^◌, ◌<◌, ◌≤◌};

use crate::change::Change;
use crate::counts::Counts;
use crate::disk::Disk;
use crate::failures::{Failures, Watch};
use crate::files::bytes_of;
use crate::reads::count_of;
use crate::texts::{Text, put_text};
use shelf_model::{Failed, FileNo};
use std::alloc::{AllocError, Global};
use std::collections::BTreeMap;

/// A station in memory with one folder, whatever path is entered.
///
/// It tells its content while its clock is below its last value. Where memory is refused in a call, the
/// call fails, the clock goes to that value, and it stays there.
#[derive(Drop)]
pub struct Bench {
    pub(crate) alloc: Global,
    pub(crate) disk: Disk,
    pub(crate) texts: BTreeMap<String, Text>,
    pub(crate) failures: Failures,
    pub(crate) counts: Counts,
    pub(crate) reads: BTreeMap<FileNo, u64>,
    ghost counts_are: { disk.clock < 2 ^ 64 - 1 → (counts.strays ≤ disk.clock) × (counts.starved ≡ 0) },
}

impl Bench {
    ghost use Rattle.std.specs.Prelude.{ℕ, List, [], None, Some, false, IsTrue, ◌≢◌, ◌==◌, ◌||◌, length, OnOk, OnErr};
    ghost use Rattle.std.specs.Bool.{nat_le};
    ghost use Rattle.shelf_model.specs.declared.file_no.FileNo.{FileNo};
    ghost use Rattle.shelf_model.specs.File.{no_file};
    ghost use Rattle.shelf_model.specs.World.{now};
    ghost use Rattle.shelf_model.specs.Calls.{Told, OnShelf, SameBut, longest};
    ghost use Rattle.shelf_model.specs.File.{appended};
    ghost use Rattle.shelf_model.specs.World.{file};
    ghost use Rattle.shelf_model.specs.Faults.{OnlyFolder};
    ghost use Rattle.shelf_memory.specs.Changes.{changed, FitsIn};
    ghost use Rattle.shelf_memory.specs.Files.{stored_in};
    ghost use Rattle.shelf_memory.specs.Benches.{IsFresh, StandsStill, StandsStillBut, PutsFile, watch_of, SameTexts, SameFailures, tells_of, world_of, faults_of, clock_of, starved_of, file_at, said_of, reads_of, lists, is_spent, fails_next, FailsExactly, SameReads, CountsRead};

    /// A station with no files, texts or said bytes. It takes no memory.
    pub fn empty(alloc: Global) -> Bench
        ensures fresh { IsFresh result }
        ensures files { (f : FileNo) → file (world_of result) f ≡ no_file }
        ensures stored { (f : FileNo) → file_at result f ≡ no_file }
        ensures texts { (path : List ℕ) → (world_of result).texts path ≡ None }
    {
        Bench {
            alloc,
            disk: Disk::empty(alloc),
            texts: BTreeMap::new(alloc),
            failures: Failures::none(alloc),
            counts: Counts::NONE,
            reads: BTreeMap::new(alloc),
        }
    }

    /// Puts a text at a path. Its count of faults is the one that the path had.
    pub fn put_text(&mut self, path: &str, bytes: &[u8]) -> Result<(), AllocError>
        ensures ok { OnOk result ((world_of self.new).texts path.now ≡ Some bytes.now) }
        ensures err { OnErr result (SameTexts self.old self.new) }
        ensures others { (q : List ℕ) → q ≢ path.now → (world_of self.new).texts q ≡ (world_of self.old).texts q }
        ensures still { StandsStill self.old self.new }
        ensures failures { SameFailures self.old self.new }
    {
        put_text(
            self.alloc,
            &mut self.texts,
            self.counts.pathless,
            path,
            bytes,
        )
    }

    /// Puts a file of these bytes, all of them firm, in the place of the one of its number.
    pub fn put_file(&mut self, f: FileNo, bytes: &[u8]) -> Result<(), AllocError>
        requires { length bytes.now ≤ longest }
        ensures ok { OnOk result (PutsFile f bytes.now self.old self.new) }
        ensures err { OnErr result (StandsStill self.old self.new × SameFailures self.old self.new) }
        ensures still { StandsStillBut f self.old self.new }
        ensures texts { SameTexts self.old self.new }
        ensures lists { (n : ℕ) → lists self.new n ≡ lists self.old n }
    {
        self.disk.put_file(f, bytes)?;
        self.failures.observe(&self.disk.files);
        Ok(())
    }

    /// Makes the call of that number fail; the first call has number 0.
    pub fn fail_at(&mut self, call: u64) -> Result<(), AllocError>
        ensures ok { OnOk result ((n : ℕ) → lists self.new n ≡ (n == call || lists self.old n)) }
        ensures err { OnErr result (SameFailures self.old self.new) }
        ensures watch { watch_of self.new ≡ watch_of self.old }
        ensures still { StandsStill self.old self.new }
        ensures texts { SameTexts self.old self.new }
    {
        self.failures.list(call)
    }

    /// Makes every call fail from that number on.
    pub fn fail_from(&mut self, call: u64)
        ensures lists { (n : ℕ) → lists self.new n ≡ (nat_le call n || lists self.old n) }
        ensures watch { watch_of self.new ≡ watch_of self.old }
        ensures still { StandsStill self.old self.new }
        ensures texts { SameTexts self.old self.new }
    {
        self.failures.list_from(call);
    }

    /// Makes every call fail after the first moment, from now on, at which the file has at least that many bytes.
    ///
    /// It takes the place of the file that was watched before. It takes no memory.
    pub fn fail_when(&mut self, f: FileNo, size: u64)
        ensures watch { watch_of self.new ≡ Some (record {
          file = f;
          size = size;
          met = nat_le size
              (length (file_at self.old f).bytes);
        }) }
        ensures lists { (n : ℕ) → lists self.new n ≡ lists self.old n }
        ensures still { StandsStill self.old self.new }
        ensures texts { SameTexts self.old self.new }
    {
        self.failures.watch = Some(Watch {
            file: f,
            size,
            met: false,
        });
        self.failures.observe(&self.disk.files);
    }

    /// What a read of the whole file gives.
    pub fn file(&self, f: FileNo) -> &[u8]
        ensures stored { result.now ≡ (file_at self.now f).bytes }
        ensures told { IsTrue (tells_of self.now) → result.now ≡ (file (world_of self.now) f).bytes }
    {
        bytes_of(&self.disk.files, f)
    }

    /// All that was said.
    pub fn said(&self) -> &[u8]
        ensures kept { result.now ≡ said_of self.now }
        ensures told { IsTrue (tells_of self.now) → result.now ≡ (now (world_of self.now)).said }
    {
        &self.disk.said
    }

    /// The number of calls that were made, or the last value where nothing is told.
    pub fn clock(&self) -> u64
        ensures { result ≡ clock_of self.now }
    {
        self.disk.clock
    }

    /// How often memory was refused in a call.
    pub fn starved(&self) -> u64
        ensures { result ≡ starved_of self.now }
    {
        self.counts.starved
    }

    /// How often `read_at` was called on the file since the station was made, or 2^64 - 1 where it was more often.
    ///
    /// Calls that failed are counted too, but none in which memory was refused. It takes no memory; the first read
    /// of a file does, for its count.
    pub fn reads(&self, f: FileNo) -> u64
        ensures { result ≡ reads_of self.now f }
    {
        count_of(&self.reads, f)
    }

    /// Whether the next call is to fail.
    pub(crate) fn fails_next(&self) -> bool
        ensures { result ≡ fails_next self.now }
    {
        self.failures.names(self.disk.clock)
    }

    // A call that reaches for the folder and changes nothing.
    pub(crate) fn look(&mut self, fails: bool) -> Result<(), Failed>
        ensures content { Told tells_of self.old self.new
            (OnShelf (world_of self.old) (world_of self.new) × (now (world_of self.new) ≡ now (world_of self.old))) }
        ensures faults { OnlyFolder (faults_of self.old) (faults_of self.new) result }
        ensures exactly { FailsExactly (IsTrue fails) result self.old self.new }
        ensures reads { SameReads self.old self.new }
    {
        let refused = self.disk.keep().is_err();
        self.failures.observe(&self.disk.files);
        self.counts.end_folder_call(fails, refused)
    }

    // A call that reads a file, is counted as that, and changes nothing.
    pub(crate) fn look_into(&mut self, f: FileNo, fails: bool) -> Result<(), Failed>
        ensures content { Told tells_of self.old self.new
            (OnShelf (world_of self.old) (world_of self.new) × (now (world_of self.new) ≡ now (world_of self.old))) }
        ensures faults { OnlyFolder (faults_of self.old) (faults_of self.new) result }
        ensures exactly { FailsExactly (IsTrue fails) result self.old self.new }
        ensures reads { CountsRead f result self.old self.new }
    {
        let refused = self.disk.read(&mut self.reads, f).is_err();
        self.failures.observe(&self.disk.files);
        self.counts.end_folder_call(fails, refused)
    }

    // A call that changes one file. Where it is to fail, the change leaves the bytes of the file.
    pub(crate) fn reach(&mut self, f: FileNo, change: Change, fails: bool) -> Result<(), Failed>
        requires fits { FitsIn change (stored_in self.old.disk.files f) }
        requires harmless { IsTrue fails → (changed change (file_at self.old f)).bytes ≡ (file_at self.old f).bytes }
        ensures content { Told tells_of self.old self.new
            (OnShelf (world_of self.old) (world_of self.new) × SameBut f (world_of self.old) (world_of self.new)
            × (file (world_of self.new) f ≡ changed change (file (world_of self.old) f))) }
        ensures faults { OnlyFolder (faults_of self.old) (faults_of self.new) result }
        ensures exactly { FailsExactly (IsTrue fails) result self.old self.new }
        ensures reads { SameReads self.old self.new }
    {
        let refused = self.disk.change(f, change).is_err();
        self.failures.observe(&self.disk.files);
        self.counts.end_folder_call(fails, refused)
    }

    // A call that puts a piece at the end of a file.
    pub(crate) fn put(&mut self, f: FileNo, piece: &[u8]) -> Result<(), Failed>
        requires { length (file_at self.old f).bytes + length piece.now ≤ longest }
        ensures content { Told tells_of self.old self.new
            (OnShelf (world_of self.old) (world_of self.new) × SameBut f (world_of self.old) (world_of self.new)
            × (file (world_of self.new) f ≡ appended piece.now (file (world_of self.old) f))) }
        ensures faults { OnlyFolder (faults_of self.old) (faults_of self.new) result }
        ensures exactly { FailsExactly (IsTrue false) result self.old self.new }
        ensures reads { SameReads self.old self.new }
    {
        let refused = self.disk.append(f, piece).is_err();
        self.failures.observe(&self.disk.files);
        self.counts.end_folder_call(false, refused)
    }
}
