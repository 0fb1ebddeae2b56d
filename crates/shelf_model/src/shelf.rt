use crate::{Failed, FileNo};

/// The most bytes that one call reads, appends or says.
pub const PIECE: usize = 2048;

/// The most bytes of a file.
pub const LONGEST: u64 = 1 << 50;

/// A folder of numbered files. All files are there, and each is empty at first.
///
/// A file has its bytes, a firm length that a stop leaves, and a reach that what a stop leaves never
/// passes. A buffer or a piece has from 1 to 2,048 bytes, and a file at most 2^50.
pub trait Shelf {
    ghost use Rattle.std.specs.Prelude.{◌≡◌, Bool, IsTrue, IsErr, IfOk, ◌+◌, ◌^◌, ◌<◌, ◌≤◌, length};
    ghost use Rattle.shelf_model.specs.declared.file_no.FileNo.{FileNo};
    ghost use Rattle.shelf_model.specs.File.{IsFile};
    ghost use Rattle.shelf_model.specs.World.{World, file};
    ghost use Rattle.shelf_model.specs.Calls.{Told, Measured, DidRead, Appended, WasCut, Synced, longest, most_piece};
    ghost use Rattle.shelf_model.specs.Faults.{Faults, OnlyFolder};

    /// Whether the station tells its content. What is claimed of content holds where it does.
    ghost tells: { Self → Bool };

    /// The content, with its past.
    ghost world: { Self → World };

    /// The counts of faults.
    ghost faults: { Self → Faults };

    /// The length of a file in bytes.
    fn len(&mut self, f: FileNo) -> Result<u64, Failed>
        ensures content { Told tells self.old self.new (Measured f result (world self.old) (world self.new)) }
        ensures faults { OnlyFolder (faults self.old) (faults self.new) result }
        ensures most { IfOk result (λ n. n ≤ longest) };

    /// Reads from byte `at` on, and answers how many bytes of the buffer were filled: all of it, or
    /// fewer where the file ends.
    fn read_at(&mut self, f: FileNo, at: u64, buf: &mut [u8]) -> Result<usize, Failed>
        requires small { (0 < length buf.old) × (length buf.old ≤ most_piece) }
        ensures content { Told tells self.old self.new
            (DidRead f at buf.old buf.new result (world self.old) (world self.new)) }
        ensures faults { OnlyFolder (faults self.old) (faults self.new) result }
        ensures most { IfOk result (λ k. k ≤ length buf.old) };

    /// Puts a piece at the end of a file, whose length is `at`.
    fn append(&mut self, f: FileNo, at: u64, bytes: &[u8]) -> Result<(), Failed>
        requires small { (0 < length bytes.now) × (length bytes.now ≤ most_piece) }
        requires at_end { IsTrue (tells self.old) → at ≡ length (file (world self.old) f).bytes }
        ensures content { Told tells self.old self.new (Appended f bytes.now result (world self.old) (world self.new)) }
        ensures faults { OnlyFolder (faults self.old) (faults self.new) result }
        ensures most { longest < at + length bytes.now → IsErr result };

    /// Cuts a file that is longer to a length.
    fn cut(&mut self, f: FileNo, to: u64) -> Result<(), Failed>
        ensures content { Told tells self.old self.new (WasCut f to result (world self.old) (world self.new)) }
        ensures faults { OnlyFolder (faults self.old) (faults self.new) result };

    /// Makes a file sure: after it a stop leaves what a read gives.
    fn sync(&mut self, f: FileNo) -> Result<(), Failed>
        ensures content { Told tells self.old self.new (Synced f result (world self.old) (world self.new)) }
        ensures faults { OnlyFolder (faults self.old) (faults self.new) result };

    /// In every file what is firm lies within the bytes, and the bytes within the reach.
    ghost files_are: { (s : Self) → IsTrue (tells s) → (f : FileNo) → IsFile (file (world s) f) };
}
