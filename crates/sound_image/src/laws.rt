//! Laws of sound images, each the contract of a function that does nothing.
ghost use Rattle.std.specs.Prelude.{ℕ, ◌+◌, ◌≤◌, List, []};
ghost use Rattle.shelf_model.specs.declared.file_no.FileNo.{FileNo};
ghost use Rattle.shelf_model.specs.Folder.{Image, bytes_in, IsImage, AreFiles};
ghost use Rattle.shelf_model.specs.World.{Moment};
ghost use Rattle.catalogue.specs.Commits.{DuringCommits, AreCommitted};
ghost use Rattle.sound_image.specs.Jobs.{Job, AreFew};
ghost use Rattle.sound_image.specs.Sound.{IsShown, IsSound, RestsOnSteps};
ghost use Rattle.sound_image.specs.Holds.{Holds, NoneGated};
ghost use Rattle.sound_image.specs.Waiting.{Waits, IsSoundWithin};

/// The empty folder is sound for every job.
pub fn empty_is_sound()
    ensures { (job : Job) → IsSound job (λ f. []) }
{}

/// A sound image shows its committed steps.
pub fn sound_is_shown()
    ensures { (job : Job) (r : FileNo → List ℕ) → IsSound job r → IsShown job r }
{}

/// At each moment at which steps that wait are committed together every image is sound, with the steps that were
/// committed before or more of them, up to all that wait.
pub fn waiting_steps_are_committed_soundly()
    ensures { (job : Job) (committed waiting : ℕ) (old m : Moment) (image : Image)
        → AreFiles old.folder → AreFew job → RestsOnSteps job → Waits job committed (committed + waiting) old.folder
        → DuringCommits committed waiting old m → IsImage m.folder image
        → IsSoundWithin job committed (committed + waiting) (bytes_in image) }
{}

/// After it the folder holds all of them, and no step behind them has a gated checkpoint.
pub fn committed_steps_are_held()
    ensures { (job : Job) (committed waiting : ℕ) (old m : Moment)
        → AreFiles old.folder → AreFew job → RestsOnSteps job → Waits job committed (committed + waiting) old.folder
        → 1 ≤ waiting → DuringCommits committed waiting old m → AreCommitted committed waiting old.folder m.folder
        → Holds job (committed + waiting) m.folder × NoneGated job (committed + waiting) m.folder }
{}
