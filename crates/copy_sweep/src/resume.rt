//! What a copy looks at before it goes on from a checkpoint.
ghost use Rattle.std.specs.Prelude.{◌≡◌, ◌≢◌, ◌↔◌, ◌+◌, ◌*◌, ◌≤◌, min, IsTrue, IfErr, IfSome, IfNone, OnOk, length, take};
ghost use Rattle.copy_sweep.specs.declared.copy.CopyTask.{CopyTask};
ghost use Rattle.shelf_model.specs.World.{now, file};
ghost use Rattle.shelf_model.specs.Calls.{Told, longest, most_piece};
ghost use Rattle.shelf_model.specs.Moments.{Ran, Stays};
ghost use Rattle.run_tiers.specs.Faults.{OnlySortShelf};
ghost use Rattle.sweep_core.specs.Saving.{reads_of};
ghost use Rattle.copy_sweep.specs.Resumes.{OnlyBehind, IsShortFault, IsMisfitFault, pieces_of, KeepsRules, Fits, Names};

use crate::saved::Saved;
use crate::{CopySweep, CopyTask};
use file_numbers::{INNER_PART, checkpoint_file};
use rec_words::NODE_SIZE;
use saved_words::value_of;
use shelf_model::{FileNo, LONGEST, PIECE, Shelf, SortFault};
use sweep_core::{Checkpoint, checkpoint_place, is_made_part, is_read_part};

// A piece in bytes.
pub(crate) const STEP: u64 = PIECE as u64;

impl<'r> CopySweep<'r> {
    /// Whether a checkpoint keeps the rules of a copy's. It takes no memory.
    pub fn fits(point: &Checkpoint) -> bool
        ensures { IsTrue result ↔ Fits point.now }
    {
        match value_of::<Saved>(&point.carry) {
            Some(saved) => point.tables == 0 && saved.keeps_rules(point),
            None => false,
        }
    }
}

impl<'r> CopySweep<'r> {
    /// What a checkpoint says is copied, if its words are those of a copy. It takes no memory.
    pub fn named(point: &Checkpoint) -> Option<CopyTask>
        ensures found { IfSome result (Names point.now) }
        ensures none { IfNone result ((task : CopyTask) → ¬ Names point.now task) }
    {
        match value_of::<Saved>(&point.carry) {
            Some(saved) => Some(saved.task),
            None => None,
        }
    }
}

impl Saved {
    // Whether it may stand in a checkpoint.
    fn keeps_rules(&self, point: &Checkpoint) -> bool
        ensures { IsTrue result ↔ KeepsRules point.now self.now }
    {
        let parts = point.next_part;
        let files = INNER_PART <= parts
            && is_made_part(self.task.to, point.step, parts)
            && is_read_part(self.task.from, point.step, parts)
            && self.task.from != self.task.to;
        let counts = self.task.pieces <= LONGEST / STEP && self.turns <= self.task.pieces;
        files && counts && self.kept <= self.turns * STEP
    }

    // Has as many bytes kept as the turns put there of the file that is read.
    pub(crate) fn agree<S: Shelf>(&self, step: u32, shelf: &mut S) -> Result<(), SortFault>
        requires few { self.now.turns * most_piece ≤ longest }
        ensures agrees { OnOk result (IsTrue (S.tells shelf.new) →
            self.now.kept ≡ min (pieces_of self.now) (length (file (S.world shelf.old) self.now.task.from).bytes)) }
        ensures damage { IfErr result (λ e. IsTrue (S.tells shelf.new) →
            IsMisfitFault step self.now (reads_of (S.world shelf.old)) e) }
        ensures content { Told S.tells shelf.old shelf.new
            (Ran (Stays (now (S.world shelf.old))) (S.world shelf.old) (S.world shelf.new)) }
        ensures calls { IsTrue (S.tells shelf.new) →
            (S.world shelf.new).clock ≤ (S.world shelf.old).clock + 2 }
        ensures kind { IfErr result (λ e. e ≢ SortFault.RunsSpent) }
        ensures faults { OnlySortShelf (S.faults shelf.old) (S.faults shelf.new) result }
    {
        let whole = shelf.len(self.task.from)?;
        if self.kept == whole.min(self.turns * STEP) {
            return Ok(());
        }
        let at = checkpoint_place(step, shelf)?;
        Err(SortFault::Damaged {
            file: checkpoint_file(step),
            at,
        })
    }
}

// Cuts a file to the bytes that were kept of it, which it has to have.
pub(crate) fn cut_behind<S: Shelf>(made: FileNo, kept: u64, shelf: &mut S) -> Result<(), SortFault>
    ensures cut { OnOk result (IsTrue (S.tells shelf.new) →
        (file (S.world shelf.new) made).bytes ≡ take kept (file (S.world shelf.old) made).bytes) }
    ensures long { OnOk result (IsTrue (S.tells shelf.new) →
        kept ≤ length (file (S.world shelf.old) made).bytes) }
    ensures damage { IfErr result (λ e. IsTrue (S.tells shelf.new) →
        IsShortFault made kept (reads_of (S.world shelf.old)) e) }
    ensures content { Told S.tells shelf.old shelf.new
        (Ran (OnlyBehind made kept (now (S.world shelf.old))) (S.world shelf.old) (S.world shelf.new)) }
    ensures calls { IsTrue (S.tells shelf.new) → (S.world shelf.new).clock ≤ (S.world shelf.old).clock + 2 }
    ensures kind { IfErr result (λ e. e ≢ SortFault.RunsSpent) }
    ensures faults { OnlySortShelf (S.faults shelf.old) (S.faults shelf.new) result }
{
    let len = shelf.len(made)?;
    if len < kept {
        return Err(SortFault::Damaged {
            file: made,
            at: len / NODE_SIZE * NODE_SIZE,
        });
    }
    if len > kept {
        shelf.cut(made, kept)?;
    }
    Ok(())
}
