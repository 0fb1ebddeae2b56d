//! What a checkpoint keeps of an evaluation, and how that goes on from it.
ghost use Rattle.std.specs.Prelude.{◌≡◌, ◌≢◌, ◌↔◌, ℕ, ◌+◌, ◌^◌, ◌≤◌, IsTrue, OnOk, IfOk, IfErr, length};
ghost use Rattle.shelf_model.specs.declared.file_no.FileNo.{FileNo};
ghost use Rattle.shelf_model.specs.Calls.{Told};
ghost use Rattle.shelf_model.specs.Moments.{Ran, Stays};
ghost use Rattle.shelf_model.specs.World.{now};
ghost use Rattle.run_tiers.specs.Faults.{OnlySortShelf};
ghost use Rattle.sweep_core.specs.Carries.{OnlyCutBehind};
ghost use Rattle.sweep_core.specs.Saving.{IsOfStep, reads_of};
ghost use Rattle.sweep_core.specs.Sweeps.{IsNoDamage};
ghost use Rattle.restrict_eval.specs.Eval.{accounts, task_of, turns_left, IsReady, IsInStep, Evaluated, OneTable};
ghost use Rattle.restrict_eval.specs.Eval.{RemainsOf, IsPlaceAt};
ghost use Rattle.restrict_eval.specs.EvalResumes.{eval_saving, Fits, Names, Evaluates, RestsOn, StandsFor, Blames};
ghost use Rattle.restrict_eval.specs.EvalResumes.{KeepsRules, saved_of, IsPassedFault};

use crate::EvalSweep;
use crate::following::Following;
use crate::resuming::begin_at;
use crate::saved_eval::SavedEval;
use file_numbers::{INNER_PART, checkpoint_file};
use node_reading::Unread;
use rec_words::{NODE_SIZE, Rec};
use run_merge::Parts;
use saved_words::value_of;
use shelf_model::{FileNo, LONGEST, Shelf, SortFault};
use sweep_core::{Checkpoint, checkpoint_place, is_read_part};

impl<'r> EvalSweep<'r> {
    /// Whether a checkpoint keeps the rules of an evaluation's that reads that text. It takes no memory.
    pub fn fits(point: &Checkpoint, text: &[u8]) -> bool
        ensures { IsTrue result ↔ Fits point.now text.now }
    {
        match value_of::<SavedEval>(&point.carry) {
            Some(saved) => point.tables == 0 && saved.keeps_rules(point, text),
            None => false,
        }
    }

    /// Whether a checkpoint says that this file of `n` variables is evaluated, at the bits from that byte of the text
    /// on. It takes no memory.
    pub fn names(point: &Checkpoint, n: u32, file: FileNo, at: u32) -> bool
        ensures { IsTrue result ↔ Evaluates point.now n file at }
    {
        match value_of::<SavedEval>(&point.carry) {
            Some(saved) => saved.n == n && saved.unread.file == file && saved.at == at,
            None => false,
        }
    }

    // What a checkpoint keeps of it.
    pub(crate) fn saved(&self) -> SavedEval
        ensures { result ≡ saved_of self.now }
    {
        let (pointer, passed, answer) = match self.state {
            Following::To(next) => (Some(next.pointer), None, None),
            Following::Past(place) => (None, Some(place), None),
            Following::Answered(answer) => (None, None, Some(answer)),
        };
        SavedEval {
            n: self.nodes.trailer().n,
            at: self.at,
            unread: Unread {
                file: self.nodes.file(),
                place: self.nodes.place(),
            },
            pointer,
            passed,
            answer,
        }
    }

    /// The evaluation that goes on from a checkpoint, as `Sweep::rebuild` says, at the bits of that text.
    pub fn rebuild<S: Shelf>(
        from: &Checkpoint,
        text: &'r [u8],
        room: &'r mut [Rec],
        shelf: &mut S,
    ) -> Result<EvalSweep<'r>, SortFault>
        requires fits { Fits from.now text.now }
        requires room { 16384 ≤ length room.old }
        ensures ready { IfOk result IsReady }
        ensures in_step { IfOk result (λ s. IsTrue (S.tells shelf.new) → IsInStep s (S.world shelf.new)) }
        ensures reads { IfOk result (λ s. s.text.now ≡ text.entry.now) }
        ensures parts { IfOk result (λ s. (accounts.step s ≡ from.now.step) × (accounts.next s ≡ from.now.next_part)) }
        ensures files { IfOk result (λ s. IsOfStep (accounts.makes s) (eval_saving.operands (task_of s))
            (accounts.step s) (accounts.next s)) }
        ensures operands { IfOk result (λ s. (f : FileNo) → eval_saving.operands (task_of s) f → (n : ℕ) →
            RestsOn from.now f n) }
        ensures names { IfOk result (λ s. Names from.now (task_of s)) }
        ensures text { IfOk result (λ s. Fits from.now (task_of s).text) }

        // what remains
        ensures remains { IfOk result (λ s. IsTrue (S.tells shelf.new) → (d : OneTable) (turns : ℕ) →
            StandsFor from.now text.now (reads_of (S.world shelf.old)) d turns →
            (RemainsOf s (S.world shelf.new) d) × (turns_left s ≤ turns)) }
        ensures damage { IfErr result (λ e. IsTrue (S.tells shelf.new) → Blames from.now (S.world shelf.old) e) }
        ensures undamaged { IfErr result (λ e. IsTrue (S.tells shelf.new) → (d : OneTable) (turns : ℕ) →
            StandsFor from.now text.now (reads_of (S.world shelf.old)) d turns → IsNoDamage e) }

        // what the call leaves, and what it costs
        ensures content { Told S.tells shelf.old shelf.new
            (Ran (OnlyCutBehind from.now (RestsOn from.now) (now (S.world shelf.old)))
            (S.world shelf.old) (S.world shelf.new)) }
        ensures calls { IsTrue (S.tells shelf.new) → (task : Evaluated) → Names from.now task →
            (S.world shelf.new).clock
            ≤ (S.world shelf.old).clock + 2 ^ 20 + eval_saving.reading task (reads_of (S.world shelf.old)) }
        ensures kind { IfErr result (λ e. e ≢ SortFault.RunsSpent) }
        ensures faults { OnlySortShelf (S.faults shelf.old) (S.faults shelf.new) result }
    {
        let Some(saved) = value_of::<SavedEval>(&from.carry) else {
            unreachable!();
        };
        let Some(state) = saved.following() else {
            unreachable!();
        };
        let nodes = begin_at(saved.unread, saved.n, from.step, room, shelf)?;
        let count = nodes.trailer().count;
        passes_some(&state, count, from.step, shelf)?;
        Ok(EvalSweep {
            nodes,
            file: saved.unread.file,
            text,
            at: saved.at,
            state,
            parts: Parts {
                step: from.step,
                next: from.next_part,
            },
        })
    }
}

impl SavedEval {
    // Whether it may stand in a checkpoint.
    fn keeps_rules(&self, point: &Checkpoint, text: &[u8]) -> bool
        ensures { IsTrue result ↔ KeepsRules point.now text.now self.now }
    {
        let other = is_read_part(self.unread.file, point.step, point.next_part);
        let few = self.unread.place <= LONGEST / NODE_SIZE;
        let end = u64::from(self.at).checked_add(u64::from(self.n));
        let bits = end.is_some_and(|end| end <= text.len() as u64);
        INNER_PART <= point.next_part && other && few && bits && self.following().is_some()
    }
}

// Has the place that a path passed among so many nodes.
fn passes_some<S: Shelf>(
    state: &Following,
    count: u64,
    step: u32,
    shelf: &mut S,
) -> Result<(), SortFault>
    ensures place { OnOk result (IsPlaceAt state.now count) }
    ensures damage { IfErr result (λ e. IsTrue (S.tells shelf.new) →
        IsPassedFault step state.now count (reads_of (S.world shelf.old)) e) }
    ensures content { Told S.tells shelf.old shelf.new
        (Ran (Stays (now (S.world shelf.old))) (S.world shelf.old) (S.world shelf.new)) }
    ensures calls { IsTrue (S.tells shelf.new) → (S.world shelf.new).clock ≤ (S.world shelf.old).clock + 1 }
    ensures kind { IfErr result (λ e. e ≢ SortFault.RunsSpent) }
    ensures faults { OnlySortShelf (S.faults shelf.old) (S.faults shelf.new) result }
{
    let Following::Past(place) = *state else {
        return Ok(());
    };
    if place < count {
        return Ok(());
    }
    let at = checkpoint_place(step, shelf)?;
    Err(SortFault::Damaged {
        file: checkpoint_file(step),
        at,
    })
}
