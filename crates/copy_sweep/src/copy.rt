use crate::resume::{STEP, cut_behind};
use crate::saved::Saved;
use node_file::copy_piece;
use rec_words::Rec;
use run_tiers::Parts;
use saved_words::{value_of, words_of};
use shelf_model::{FileNo, PIECE, Shelf, SortFault};
use std::marker::PhantomData;
use sweep_core::{Checkpoint, Sweep, Turn, fill_without_runs};

/// The copy of a file: which file is read, which one is made, and how many pieces of 2,048 bytes are copied. Where the
/// file that is read has no more, all of it is.
#[derive(Clone, Copy, Debug, PartialEq, Eq)]
pub struct CopyTask {
    pub from: FileNo,
    pub to: FileNo,
    pub pieces: u64,
}

/// A copy under way. Its place is how many turns were made: one for each piece that stands, and one more once all of
/// them are synced.
///
/// After a refusal the sweep isn't used again.
#[derive(Clone, Copy, Debug, PartialEq, Eq)]
pub struct CopySweep<'r> {
    pub(crate) task: CopyTask,
    pub(crate) parts: Parts,
    pub(crate) turns: u64,
    // It uses no room.
    pub(crate) room: PhantomData<&'r ()>,
}

impl<'r> CopySweep<'r> {
    ghost use Rattle.std.specs.Prelude.{◌≡◌, ◌≢◌, ◌*◌, ◌<◌, ◌≤◌, IsTrue, IfOk, IfErr};
    ghost use Rattle.shelf_model.specs.Calls.{Told, longest, most_piece};
    ghost use Rattle.block_stream.specs.Writes.{Cut};
    ghost use Rattle.run_tiers.specs.Faults.{OnlySortShelf};
    ghost use Rattle.sweep_core.specs.Sweeps.{StaysEnded};
    ghost use Rattle.copy_sweep.specs.Copies.{IsReady, IsInStep, HasCopied, IsFailure, fuel_of, Turned};

    /// Begins a copy: the file that is made is cut to nothing. It takes none of the parts.
    pub fn start<S: Shelf>(
        task: CopyTask,
        parts: Parts,
        shelf: &mut S,
    ) -> Result<CopySweep<'r>, SortFault>
        requires apart { task.from ≢ task.to }
        requires few { task.pieces * most_piece ≤ longest }
        ensures begun { IfOk result (λ sweep.
            (sweep.task ≡ task) × (sweep.parts ≡ parts) × (sweep.turns ≡ 0)) }
        ensures ready { IfOk result IsReady }
        ensures in_step { IfOk result (λ sweep. IsTrue (S.tells shelf.new) → IsInStep sweep (S.world shelf.new)) }
        ensures trusts { IfOk result (λ sweep. IsTrue (S.tells shelf.new) → HasCopied sweep (S.world shelf.new)) }
        ensures cause { IfErr result IsFailure }
        ensures content { Told S.tells shelf.old shelf.new (Cut 1 task.to 0 (S.world shelf.old) (S.world shelf.new)) }
        ensures faults { OnlySortShelf (S.faults shelf.old) (S.faults shelf.new) result }
    {
        shelf.cut(task.to, 0)?;
        Ok(CopySweep {
            task,
            parts,
            turns: 0,
            room: PhantomData,
        })
    }

    /// The part numbers that weren't taken: those that it began with.
    pub fn parts(&self) -> Parts
        ensures { result ≡ self.now.parts }
    {
        self.parts
    }

    // Copies the next piece.
    fn copy_one<S: Shelf>(&mut self, shelf: &mut S) -> Result<Turn, SortFault>
        requires ready { IsReady self.old }
        requires in_step { IsTrue (S.tells shelf.old) → IsInStep self.old (S.world shelf.old) }
        requires more { self.old.turns < self.old.task.pieces }
        ensures { Turned S.tells S.world S.faults shelf.old shelf.new self.old self.new result }
    {
        let at = self.turns * PIECE as u64;
        copy_piece(self.task.from, self.task.to, at, shelf)?;
        self.turns += 1;
        Ok(Turn::More)
    }

    // Syncs what was copied, if that isn't done.
    fn finish<S: Shelf>(&mut self, shelf: &mut S) -> Result<Turn, SortFault>
        requires ready { IsReady self.old }
        requires in_step { IsTrue (S.tells shelf.old) → IsInStep self.old (S.world shelf.old) }
        requires copied { self.old.task.pieces ≤ self.old.turns }
        ensures turned { Turned S.tells S.world S.faults shelf.old shelf.new self.old self.new result }
        ensures ended { fuel_of self.old ≡ 0 → StaysEnded shelf.old shelf.new self.old self.new result }
    {
        if self.turns > self.task.pieces {
            return Ok(Turn::Ended);
        }
        shelf.sync(self.task.to)?;
        self.turns += 1;
        Ok(Turn::Ended)
    }
}

impl<'r> Sweep<'r> for CopySweep<'r> {
    ghost use Rattle.std.specs.Prelude.{ℕ, List};
    ghost use Rattle.copy_sweep.specs.declared.copy.CopyTask.{CopyTask};
    ghost use Rattle.copy_sweep.specs.Resumes.{copy_saving, Blames, stays, apart};
    ghost use Rattle.copy_sweep.specs.Copies.{accounts, fuel_of, left_of, Copies, IsReady, IsInStep, HasCopied, IsFailure};

    ghost Job = { List ℕ };

    ghost remains = { Copies };

    ghost fuel = { fuel_of };

    ghost left = { λ sweep world bytes. left_of sweep };

    ghost accounts = { accounts };

    ghost damaged = { λ sweep world e. IsFailure e };

    ghost blames = { Blames };

    ghost Task = { CopyTask };

    ghost task = { λ sweep. sweep.task };

    ghost saving = { copy_saving };

    ghost ready = { IsReady };

    ghost in_step = { IsInStep };

    ghost trusts = { HasCopied };

    ghost trusted = { λ sweep world bytes copies. copies.copied };

    fn turn<S: Shelf>(&mut self, shelf: &mut S) -> Result<Turn, SortFault> {
        if self.turns < self.task.pieces {
            self.copy_one(shelf)
        } else {
            self.finish(shelf)
        }
    }

    fn carry<S: Shelf>(&mut self, shelf: &mut S, into: &mut Checkpoint) -> Result<(), SortFault> {
        let made = self.task.to;
        shelf.sync(made)?;
        let len = shelf.len(made)?;
        // A turn that synced the pieces is made again.
        let turns = self.turns.min(self.task.pieces);
        let saved = Saved {
            task: self.task,
            turns,
            kept: len.min(turns * STEP),
        };
        fill_without_runs(into, self.parts.next, words_of(saved));
        Ok(())
    }

    fn rebuild<S: Shelf>(
        from: &Checkpoint,
        text: &'r [u8],
        room: &'r mut [Rec],
        shelf: &mut S,
    ) -> Result<CopySweep<'r>, SortFault> {
        let Some(saved) = value_of::<Saved>(&from.carry) else {
            unreachable!();
        };
        saved.agree(from.step, shelf)?;
        cut_behind(saved.task.to, saved.kept, shelf)?;
        Ok(CopySweep {
            task: saved.task,
            parts: Parts {
                step: from.step,
                next: from.next_part,
            },
            turns: saved.turns,
            room: PhantomData,
        })
    }

    ghost stays = { stays };

    ghost apart = { apart };
}
