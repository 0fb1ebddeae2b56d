// The next life of a station in memory.
use crate::change::Stored;
use crate::choice::chosen;
use crate::texts::Text;
use crate::{Bench, Choice};
use shelf_model::FileNo;
use std::alloc::{AllocError, Global};
use std::collections::BTreeMap;

impl Bench {
    ghost use Rattle.std.specs.Prelude.{◌≡◌, ℕ, List, None, IsTrue, OnOk, IfOk};
    ghost use Rattle.shelf_model.specs.declared.file_no.FileNo.{FileNo};
    ghost use Rattle.shelf_model.specs.File.{no_file, firm_file};
    ghost use Rattle.shelf_model.specs.Folder.{Image, bytes_in, IsImage};
    ghost use Rattle.shelf_model.specs.World.{now, file};
    ghost use Rattle.shelf_memory.specs.Choices.{chosen_of};
    ghost use Rattle.shelf_memory.specs.Files.{stored_in};
    ghost use Rattle.shelf_memory.specs.Texts.{text_at};
    ghost use Rattle.shelf_memory.specs.Benches.{IsFresh, SameTexts, file_at, world_of, tells_of};

    /// The next life over what a stop leaves: the same texts, and the files as the choice takes them, all firm.
    pub fn stop(self, choice: Choice) -> Result<Bench, AllocError>
        ensures fresh { IfOk result (λ next. IsFresh next) }
        ensures files { IfOk result (λ next. (f : FileNo) →
            file (world_of next) f ≡ firm_file (chosen_of choice f (file_at self f))) }
        ensures told { IfOk result (λ next. IsTrue (tells_of self) → (f : FileNo) →
            file (world_of next) f ≡ firm_file (chosen_of choice f (file (world_of self) f))) }
        ensures texts { IfOk result (λ next. (path : List ℕ) →
            (world_of next).texts path ≡ (world_of self).texts path) }
        ensures image { IfOk result (λ next. IsTrue (tells_of self) →
            (image : Image) × IsImage (now (world_of self)).folder image
            × ((f : FileNo) → file (world_of next) f ≡ firm_file (bytes_in image f))) }
    {
        let mut next = Bench::empty(self.alloc);
        next.take_texts(&self.texts)?;
        next.take_files(self.alloc, choice, &self.disk.files)?;
        Ok(next)
    }

    fn take_texts(&mut self, texts: &BTreeMap<String, Text>) -> Result<(), AllocError>
        requires fresh { IsFresh self.old }
        requires none { (q : List ℕ) → (world_of self.old).texts q ≡ None }
        requires files { (f : FileNo) → file_at self.old f ≡ no_file }
        ensures fresh { OnOk result (IsFresh self.new) }
        ensures texts { OnOk result ((q : List ℕ) → (world_of self.new).texts q ≡ text_at texts.now q) }
        ensures files { (f : FileNo) → file_at self.new f ≡ no_file }
    {
        for (path, text) in texts {
            self.put_text(path.as_str(), &text.bytes)?;
        }
        Ok(())
    }

    fn take_files(
        &mut self,
        alloc: Global,
        choice: Choice,
        files: &BTreeMap<FileNo, Stored>,
    ) -> Result<(), AllocError>
        requires fresh { IsFresh self.old }
        requires files { (f : FileNo) → file_at self.old f ≡ no_file }
        ensures fresh { OnOk result (IsFresh self.new) }
        ensures files { OnOk result ((f : FileNo) →
            file_at self.new f ≡ firm_file (chosen_of choice f (stored_in files.now f))) }
        ensures texts { SameTexts self.old self.new }
    {
        for (f, stored) in files {
            let bytes = chosen(alloc, choice, *f, stored)?;
            self.put_file(*f, &bytes)?;
        }
        Ok(())
    }
}
