use crate::Bench;
use crate::piece::copy_piece;
use crate::texts::{count_fault, find_text, raise};
use shelf_model::{Failed, Station};

// The path of the station's folder.
const HOME: &str = "FOLDER";

/// A call fails exactly where it is to fail, where a path has no text, or where memory was refused in it.
impl Station for Bench {
    ghost use Rattle.std.specs.Prelude.{◌≡◌, IsTrue, IfOk, ◌≤◌, ◌⊎◌, None, length};
    ghost use Rattle.shelf_model.specs.Calls.{Told, Entered, Fetched, Said};
    ghost use Rattle.shelf_model.specs.Faults.{OnlyFolder, OnlySay, OnlyText, OtherTextsSame};
    ghost use Rattle.shelf_memory.specs.Benches.{tells_of, world_of, faults_of, fails_next, FailsExactly, SameReads};
    ghost use Rattle.shelf_memory.specs.Texts.{text_at};

    fn enter(&mut self, path: &str) -> Result<(), Failed>
        ensures content { Told tells_of self.old self.new
            (Entered path.now result (world_of self.old) (world_of self.new)) }
        ensures faults { OnlyFolder (faults_of self.old) (faults_of self.new) result }
        ensures exactly { FailsExactly (IsTrue (fails_next self.old)) result self.old self.new }
        ensures reads { SameReads self.old self.new }
    {
        let fails = self.fails_next();
        let home = path == HOME;
        let refused = self.disk.keep().is_err();
        self.failures.observe(&self.disk.files);
        self.counts.end_entry(home, fails, refused)
    }

    fn fetch(&mut self, path: &str, at: u64, buf: &mut [u8]) -> Result<usize, Failed>
        ensures content { Told tells_of self.old self.new
            (Fetched path.now at buf.old buf.new result (world_of self.old) (world_of self.new)) }
        ensures faults { OnlyText path.now (faults_of self.old) (faults_of self.new) result }
        ensures others { IsTrue (tells_of self.new) →
            OtherTextsSame path.now (world_of self.old) (faults_of self.old) (faults_of self.new) }
        ensures most { IfOk result (λ k. k ≤ length buf.old) }
        ensures exactly { FailsExactly (IsTrue (fails_next self.old) ⊎
            (text_at self.old.texts path.now ≡ None)) result self.old self.new }
        ensures reads { SameReads self.old self.new }
    {
        let fails = self.fails_next();
        let refused = self.disk.keep().is_err();
        self.failures.observe(&self.disk.files);
        self.counts.starved = raise(refused, self.counts.starved);
        if !(fails || refused) {
            if let Some(text) = find_text(&self.texts, path) {
                return Ok(copy_piece(text, at, buf));
            }
        }
        count_fault(&mut self.texts, &mut self.counts.pathless, path);
        Err(Failed)
    }

    fn say(&mut self, bytes: &[u8]) -> Result<(), Failed>
        ensures content { Told tells_of self.old self.new
            (Said bytes.now result (world_of self.old) (world_of self.new)) }
        ensures faults { OnlySay (faults_of self.old) (faults_of self.new) result }
        ensures exactly { FailsExactly (IsTrue (fails_next self.old)) result self.old self.new }
        ensures reads { SameReads self.old self.new }
    {
        if self.fails_next() {
            return self.keep_silent();
        }
        let refused = self.disk.say(bytes).is_err();
        self.failures.observe(&self.disk.files);
        self.counts.end_saying(false, refused)
    }
}

impl Bench {
    ghost use Rattle.std.specs.Prelude.{◌≡◌, ◌<◌, IsErr};
    ghost use Rattle.shelf_model.specs.World.{now};
    ghost use Rattle.shelf_model.specs.Calls.{Told, Elsewhere};
    ghost use Rattle.shelf_model.specs.Faults.{OnlySay};
    ghost use Rattle.shelf_memory.specs.Benches.{tells_of, world_of, faults_of, FailsExactly, SameReads};

    // A saying that fails, and says nothing.
    fn keep_silent(&mut self) -> Result<(), Failed>
        ensures content { Told tells_of self.old self.new
            (Elsewhere (world_of self.old) (world_of self.new) × (now (world_of self.new) ≡ now (world_of self.old))) }
        ensures faults { OnlySay (faults_of self.old) (faults_of self.new) result }
        ensures exactly { FailsExactly Unit result self.old self.new }
        ensures reads { SameReads self.old self.new }
    {
        let refused = self.disk.keep().is_err();
        self.failures.observe(&self.disk.files);
        self.counts.end_saying(true, refused)
    }
}
