use crate::{Checkpoint, Turn};
use rec_words::Rec;
use shelf_model::{Shelf, SortFault};

/// Work on diagrams that is done in small turns, each of which handles one item of a queue or of a file. Between two
/// turns it can be saved, and goes on from there.
///
/// A sweep is seen by what remains of its job: a relation between the sweep, the folder and the job, which
/// each turn keeps. A turn changes no file but the sweep's own, and keeps of these what was kept; it leaves
/// fewer turns, makes few calls and takes few parts. After a refusal a sweep isn't used again.
///
/// What is saved is a checkpoint, which rests on the fronts of some files. It stands for what remained of the sweep's
/// job, and still does where those fronts are the same.
pub trait Sweep<'r>: Sized {
    ghost use Rattle.std.specs.Prelude.{◌≡◌, ◌≢◌, ℕ, ◌+◌, ◌*◌, ◌^◌, ◌<◌, ◌≤◌, IsTrue, IsErrOf, OnOk, IfOk, IfErr, List, length, take};
    ghost use Rattle.shelf_model.specs.declared.file_no.FileNo.{FileNo};
    ghost use Rattle.shelf_model.specs.declared.sort_fault.SortFault.{SortFault};
    ghost use Rattle.shelf_model.specs.Calls.{Told};
    ghost use Rattle.shelf_model.specs.Moments.{Ran};
    ghost use Rattle.shelf_model.specs.World.{World, now, file};
    ghost use Rattle.run_tiers.specs.Faults.{OnlySortShelf};
    ghost use Rattle.sweep_core.specs.declared.checkpoint.Checkpoint.{Checkpoint};
    ghost use Rattle.sweep_core.specs.Accounts.{Accounts, Leaves};
    ghost use Rattle.sweep_core.specs.Sweeps.{Falls, MovesOn, AtEnd, IsFirm, StaysEnded, IsNoDamage};
    ghost use Rattle.sweep_core.specs.Saving.{Saving, IsOfStep, IsRestingPlace, SameHead, IsFilled, IsSure, reads_of};
    ghost use Rattle.sweep_core.specs.Tables.{records_named};
    ghost use Rattle.sweep_core.specs.Carries.{Carries, IsUsed, IsStill, OnlyCutBehind};

    /// What a sweep of this kind is to do.
    ghost Job: { Type 0 };

    /// What the sweep has done so far, with what remains of it, does the job.
    ghost remains: { Self → World → Job → Type 0 };

    /// What falls with each turn, whatever the folder answers. It is 0 once the sweep has ended.
    ghost fuel: { Self → ℕ };

    /// No more turns than these remain of the job, of a folder that tells its content.
    ghost left: { Self → World → Job → ℕ };

    /// Which files the sweep may change, and what it owes.
    ghost accounts: { Accounts Self };

    /// Where a file is damaged, once a turn has said so.
    ghost damaged: { Self → World → SortFault → Type 0 };

    /// Where a file is damaged, once a rebuild has said so.
    ghost blames: { Checkpoint → World → SortFault → Type 0 };

    /// What no turn changes, as the files that are read.
    ghost Task: { Type 0 };

    ghost task: { Self → Task };

    /// What is seen of its checkpoints.
    ghost saving: { Saving Task Job };

    /// What is true of the sweep between turns, whatever the folder holds.
    ghost ready: { Self → Type 0 };

    /// What it knows of its files is as they say: how long those are that it writes, and what was read of others.
    ghost in_step: { Self → World → Type 0 };

    /// What stands in its files is what its turns put there.
    ghost trusts: { Self → World → Type 0 };

    /// So it is where something remains of a job.
    ghost trusted: { (s : Self) (world : World) (job : Job) → remains s world job → trusts s world };

    /// Handles one item, or ends the sweep: then all that it made is synced. Once it has ended, each further
    /// turn answers so and does nothing.
    fn turn<S: Shelf>(&mut self, shelf: &mut S) -> Result<Turn, SortFault>
        requires ready { ready self.old }
        requires in_step { IsTrue (S.tells shelf.old) → in_step self.old (S.world shelf.old) }
        ensures ready { OnOk result (ready self.new) }
        ensures in_step { OnOk result (IsTrue (S.tells shelf.new) → in_step self.new (S.world shelf.new)) }
        ensures falls { Falls (fuel self.old) (fuel self.new) result }
        ensures ended { fuel self.old ≡ 0 → StaysEnded shelf.old shelf.new self.old self.new result }
        ensures firm { AtEnd result (IsTrue (S.tells shelf.new) → (f : FileNo) →
            accounts.makes self.new f → IsFirm (file (S.world shelf.new) f)) }

        // what remains
        ensures keeps { OnOk result (IsTrue (S.tells shelf.new) → (job : Job) →
            remains self.old (S.world shelf.old) job → remains self.new (S.world shelf.new) job) }
        ensures fewer { IsTrue (S.tells shelf.new) → (job : Job) → remains self.old (S.world shelf.old) job →
            MovesOn 1 (left self.old (S.world shelf.old) job) (left self.new (S.world shelf.new) job) result }
        ensures trusts { OnOk result (IsTrue (S.tells shelf.new) →
            trusts self.old (S.world shelf.old) → trusts self.new (S.world shelf.new)) }
        ensures damage { IfErr result (λ e. IsTrue (S.tells shelf.new) →
            trusts self.old (S.world shelf.old) → damaged self.new (S.world shelf.new) e) }
        ensures undamaged { IfErr result (λ e. IsTrue (S.tells shelf.new) → (job : Job) →
            remains self.old (S.world shelf.old) job → IsNoDamage e) }

        // what the call leaves, and what it costs
        ensures leaves { Leaves S.tells S.world S.faults accounts 224 12 shelf.old shelf.new self.old self.new result }
        ensures same { task self.new ≡ task self.old }
        ensures spent { IsErrOf result SortFault.RunsSpent → 2 ^ 32 ≤ accounts.next self.new };

    /// Fills a checkpoint, whose step, sweep, turns and budget stand there, with what the sweep goes on from, and
    /// makes sure all that it rests on but the operands, where something remains of a job: the files of a rebuilt sweep
    /// may be shorter than its checkpoint says. What remains stays what it was. A sweep that has ended has nothing to
    /// go on from.
    ///
    /// A refusal is one of the folder, of a damaged run, or for want of a part number. After it the sweep isn't used
    /// again.
    fn carry<S: Shelf>(&mut self, shelf: &mut S, into: &mut Checkpoint) -> Result<(), SortFault>
        requires ready { ready self.old }
        requires works { 0 < fuel self.old }
        requires in_step { IsTrue (S.tells shelf.old) → in_step self.old (S.world shelf.old) }
        requires files { IsOfStep (accounts.makes self.old) (saving.operands (task self.old))
            (accounts.step self.old) (accounts.next self.old) }
        requires step { into.old.step ≡ accounts.step self.old }
        ensures ready { OnOk result (ready self.new) }
        ensures in_step { OnOk result (IsTrue (S.tells shelf.new) → in_step self.new (S.world shelf.new)) }
        ensures same { task self.new ≡ task self.old }
        ensures fuel { OnOk result (fuel self.new ≡ fuel self.old) }
        ensures keeps { OnOk result (IsTrue (S.tells shelf.new) → (job : Job) →
            remains self.old (S.world shelf.old) job → remains self.new (S.world shelf.new) job) }
        ensures left { OnOk result (IsTrue (S.tells shelf.new) → (job : Job) →
            remains self.old (S.world shelf.old) job →
            left self.new (S.world shelf.new) job ≤ left self.old (S.world shelf.old) job) }
        ensures trusts { OnOk result (IsTrue (S.tells shelf.new) →
            trusts self.old (S.world shelf.old) → trusts self.new (S.world shelf.new)) }

        // what is saved
        ensures head { SameHead into.old into.new }
        ensures filled { OnOk result (IsFilled (accounts.next self.new) into.new) }
        ensures names { OnOk result (saving.names into.new (task self.old)) }
        ensures fits { OnOk result (saving.fits into.new (saving.text (task self.old))) }
        ensures stands { OnOk result (IsTrue (S.tells shelf.new) → (job : Job) →
            remains self.old (S.world shelf.old) job →
            saving.stands into.new (saving.text (task self.old)) (reads_of (S.world shelf.new)) job
            (left self.new (S.world shelf.new) job)) }
        ensures sure { OnOk result (IsTrue (S.tells shelf.new) → (job : Job) →
            remains self.old (S.world shelf.old) job → (f : FileNo) (n : ℕ) → saving.rests into.new f n →
            IsSure (accounts.makes self.old) (saving.operands (task self.old)) (S.world shelf.new) f n) }

        ensures still { OnOk result ((later : World) → ((f : FileNo) →
            IsUsed (accounts.makes self.old) (saving.operands (task self.old)) into.new f →
            file later f ≡ file (S.world shelf.new) f) →
            IsStill (in_step self.new) (trusts self.new) (remains self.new) (left self.new)
            (S.world shelf.new) later) }

        // what the call leaves, and what it costs
        ensures leaves { Carries S.tells S.world S.faults accounts 65536 4608 shelf.old shelf.new
            self.old self.new result }
        ensures damage { IfErr result (λ e. IsTrue (S.tells shelf.new) →
            trusts self.old (S.world shelf.old) → damaged self.new (S.world shelf.new) e) }
        ensures undamaged { IfErr result (λ e. IsTrue (S.tells shelf.new) → (job : Job) →
            remains self.old (S.world shelf.old) job → IsNoDamage e) }
        ensures spent { IsErrOf result SortFault.RunsSpent → 2 ^ 32 ≤ accounts.next self.new };

    /// The sweep that goes on from a checkpoint, which is the last one of its step that is gated. It reads the text,
    /// and the room is its own.
    ///
    /// A refusal is one of the folder, or names a damaged place. After it the room's records are any.
    fn rebuild<S: Shelf>(
        from: &Checkpoint,
        text: &'r [u8],
        room: &'r mut [Rec],
        shelf: &mut S,
    ) -> Result<Self, SortFault>
        requires fits { saving.fits from.now text.now }
        requires room { 16384 ≤ length room.old }
        ensures ready { IfOk result ready }
        ensures in_step { IfOk result (λ sweep. IsTrue (S.tells shelf.new) → in_step sweep (S.world shelf.new)) }
        ensures parts { IfOk result (λ sweep.
            (accounts.step sweep ≡ from.now.step) × (accounts.next sweep ≡ from.now.next_part)) }
        ensures files { IfOk result (λ sweep. IsOfStep (accounts.makes sweep)
            (saving.operands (task sweep)) (accounts.step sweep) (accounts.next sweep)) }
        ensures operands { IfOk result (λ sweep. (f : FileNo) → saving.operands (task sweep) f → (n : ℕ) →
            saving.rests from.now f n) }
        ensures names { IfOk result (λ sweep. saving.names from.now (task sweep)) }
        ensures text { IfOk result (λ sweep. saving.fits from.now (saving.text (task sweep))) }

        // what remains
        ensures remains { IfOk result (λ sweep. IsTrue (S.tells shelf.new) → (job : Job) (turns : ℕ) →
            saving.stands from.now text.now (reads_of (S.world shelf.old)) job turns →
            (remains sweep (S.world shelf.new) job) × (left sweep (S.world shelf.new) job ≤ turns)) }
        ensures damage { IfErr result (λ e. IsTrue (S.tells shelf.new) → blames from.now (S.world shelf.old) e) }
        ensures undamaged { IfErr result (λ e. IsTrue (S.tells shelf.new) → (job : Job) (turns : ℕ) →
            saving.stands from.now text.now (reads_of (S.world shelf.old)) job turns → IsNoDamage e) }

        // what the call leaves, and what it costs
        ensures content { Told S.tells shelf.old shelf.new
            (Ran (OnlyCutBehind from.now (saving.rests from.now) (now (S.world shelf.old)))
            (S.world shelf.old) (S.world shelf.new)) }
        ensures calls { IsTrue (S.tells shelf.new) → (task : Task) → saving.names from.now task →
            (S.world shelf.new).clock
            ≤ (S.world shelf.old).clock + 2 ^ 20 + saving.reading task (reads_of (S.world shelf.old)) }
        ensures credit { IfOk result (λ sweep. accounts.credit sweep ≤ 64 * records_named from.now) }
        ensures stock { IfOk result (λ sweep. accounts.stock sweep ≤ 50688) }
        ensures kind { IfErr result (λ e. e ≢ SortFault.RunsSpent) }
        ensures faults { OnlySortShelf (S.faults shelf.old) (S.faults shelf.new) result };

    /// With the fronts that it rests on alone, a checkpoint stands for the same.
    ghost stays: { (c : Checkpoint) (text : List ℕ) (old new : FileNo → List ℕ) (job : Job) (turns : ℕ) →
        saving.fits c text →
        ((f : FileNo) (n : ℕ) → saving.rests c f n → take n (new f) ≡ take n (old f)) →
        saving.stands c text old job turns → saving.stands c text new job turns };

    /// No sweep of the step writes what a checkpoint rests on, from that checkpoint on.
    ghost apart: { (c : Checkpoint) (text : List ℕ) (f : FileNo) (n : ℕ) →
        saving.fits c text → saving.rests c f n → IsRestingPlace c f };
}
