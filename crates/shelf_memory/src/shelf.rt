use crate::Bench;
use crate::change::Change;
use crate::files::bytes_of;
use crate::piece::copy_piece;
use shelf_model::{Failed, FileNo, LONGEST, Shelf};

/// A call fails exactly where it is to fail, where it would make a file too long, or where memory was refused in it.
impl Shelf for Bench {
    ghost use Rattle.std.specs.Prelude.{◌≡◌, IsTrue, IsErr, IfOk, ◌+◌, ◌<◌, ◌≤◌, ◌⊎◌, length, max};
    ghost use Rattle.shelf_model.specs.World.{file};
    ghost use Rattle.shelf_model.specs.Calls.{Told, Measured, DidRead, Appended, WasCut, Synced, longest, most_piece};
    ghost use Rattle.shelf_model.specs.Faults.{OnlyFolder};
    ghost use Rattle.shelf_memory.specs.Benches.{tells_of, world_of, faults_of, file_at, fails_next, FailsExactly, SameReads, CountsRead};
    ghost use Rattle.shelf_memory.specs.Laws.{all_are_files};

    ghost tells = { tells_of };

    ghost world = { world_of };

    ghost faults = { faults_of };

    ghost files_are = { all_are_files };

    fn len(&mut self, f: FileNo) -> Result<u64, Failed>
        ensures content { Told tells_of self.old self.new (Measured f result (world_of self.old) (world_of self.new)) }
        ensures faults { OnlyFolder (faults_of self.old) (faults_of self.new) result }
        ensures most { IfOk result (λ n. n ≤ longest) }
        ensures exactly { FailsExactly (IsTrue (fails_next self.old)) result self.old self.new }
        ensures reads { SameReads self.old self.new }
    {
        let fails = self.fails_next();
        let size = bytes_of(&self.disk.files, f).len() as u64;
        self.look(fails)?;
        Ok(size)
    }

    fn read_at(&mut self, f: FileNo, at: u64, buf: &mut [u8]) -> Result<usize, Failed>
        ensures content { Told tells_of self.old self.new
            (DidRead f at buf.old buf.new result (world_of self.old) (world_of self.new)) }
        ensures faults { OnlyFolder (faults_of self.old) (faults_of self.new) result }
        ensures most { IfOk result (λ k. k ≤ length buf.old) }
        ensures exactly { FailsExactly (IsTrue (fails_next self.old)) result self.old self.new }
        ensures reads { CountsRead f result self.old self.new }
    {
        let fails = self.fails_next();
        self.look_into(f, fails)?;
        Ok(copy_piece(bytes_of(&self.disk.files, f), at, buf))
    }

    fn append(&mut self, f: FileNo, at: u64, bytes: &[u8]) -> Result<(), Failed>
        requires small { (0 < length bytes.now) × (length bytes.now ≤ most_piece) }
        requires at_end { IsTrue (tells_of self.old) → at ≡ length (file (world_of self.old) f).bytes }
        ensures content { Told tells_of self.old self.new
            (Appended f bytes.now result (world_of self.old) (world_of self.new)) }
        ensures faults { OnlyFolder (faults_of self.old) (faults_of self.new) result }
        ensures most { longest < at + length bytes.now → IsErr result }
        ensures exactly { FailsExactly (IsTrue (fails_next self.old) ⊎
            (longest < max at (length (file_at self.old f).bytes) + length bytes.now)) result self.old self.new }
        ensures reads { SameReads self.old self.new }
    {
        let fails = self.fails_next();
        let size = bytes_of(&self.disk.files, f).len() as u64;
        let count = bytes.len() as u64;
        if LONGEST - count < at.max(size) {
            return self.look(true);
        }
        if fails {
            return self.reach(f, Change::Torn(count), true);
        }
        self.put(f, bytes)
    }

    fn cut(&mut self, f: FileNo, to: u64) -> Result<(), Failed>
        ensures content { Told tells_of self.old self.new (WasCut f to result (world_of self.old) (world_of self.new)) }
        ensures faults { OnlyFolder (faults_of self.old) (faults_of self.new) result }
        ensures exactly { FailsExactly (IsTrue (fails_next self.old)) result self.old self.new }
        ensures reads { SameReads self.old self.new }
    {
        if self.fails_next() {
            return self.reach(f, Change::Loosened(to), true);
        }
        self.reach(f, Change::Cut(to), false)
    }

    fn sync(&mut self, f: FileNo) -> Result<(), Failed>
        ensures content { Told tells_of self.old self.new (Synced f result (world_of self.old) (world_of self.new)) }
        ensures faults { OnlyFolder (faults_of self.old) (faults_of self.new) result }
        ensures exactly { FailsExactly (IsTrue (fails_next self.old)) result self.old self.new }
        ensures reads { SameReads self.old self.new }
    {
        if self.fails_next() {
            return self.look(true);
        }
        self.reach(f, Change::Synced, false)
    }
}
