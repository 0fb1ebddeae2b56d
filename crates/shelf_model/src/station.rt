use crate::{Failed, Shelf};

/// All of the outside: the folder, the texts that the program is given, and what it says.
pub trait Station: Shelf {
    ghost use Rattle.std.specs.Prelude.{◌≡◌, Bool, IsTrue, IfOk, ◌<◌, ◌≤◌, length};
    ghost use Rattle.shelf_model.specs.Calls.{Told, Entered, Fetched, Said, most_piece};
    ghost use Rattle.shelf_model.specs.Faults.{OnlyFolder, OnlySay, OnlyText, OtherTextsSame};

    /// Enters the folder whose files the other calls mean, and makes it where it isn't there.
    fn enter(&mut self, path: &str) -> Result<(), Failed>
        ensures content { Told Self.tells self.old self.new
            (Entered path.now result (Self.world self.old) (Self.world self.new)) }
        ensures faults { OnlyFolder (Self.faults self.old) (Self.faults self.new) result };

    /// Reads the text at a path from byte `at` on, as `read_at` reads a file. A path without a text
    /// fails.
    fn fetch(&mut self, path: &str, at: u64, buf: &mut [u8]) -> Result<usize, Failed>
        requires small { (0 < length buf.old) × (length buf.old ≤ most_piece) }
        ensures content { Told Self.tells self.old self.new
            (Fetched path.now at buf.old buf.new result (Self.world self.old) (Self.world self.new)) }
        ensures faults { OnlyText path.now (Self.faults self.old) (Self.faults self.new) result }
        ensures others { IsTrue (Self.tells self.new) →
            OtherTextsSame path.now (Self.world self.old) (Self.faults self.old) (Self.faults self.new) }
        ensures most { IfOk result (λ k. k ≤ length buf.old) };

    /// Says a piece: standard output. After `Failed` a front part of it was said.
    fn say(&mut self, bytes: &[u8]) -> Result<(), Failed>
        requires small { (0 < length bytes.now) × (length bytes.now ≤ most_piece) }
        ensures content { Told Self.tells self.old self.new
            (Said bytes.now result (Self.world self.old) (Self.world self.new)) }
        ensures faults { OnlySay (Self.faults self.old) (Self.faults self.new) result };
}
