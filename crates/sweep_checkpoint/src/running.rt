//! A sweep that goes on to its end, and is saved at times.
ghost use Rattle.std.specs.Prelude.{◌≡◌, ◌⊎◌, ◌+◌, ◌-◌, ◌^◌, ◌<◌, ◌≤◌, ◌*◌, ℕ, min, max, IsTrue, IsErrOf, OnOk, OnErr, IfOk, IfErr, length};
ghost use Rattle.shelf_model.specs.declared.file_no.FileNo.{FileNo};
ghost use Rattle.shelf_model.specs.Calls.{Told};
ghost use Rattle.shelf_model.specs.Folder.{Image, IsImage, bytes_in, file_in};
ghost use Rattle.shelf_model.specs.Moments.{Ran, Throughout, OnlyChanged};
ghost use Rattle.shelf_model.specs.World.{Moment, now, file};
ghost use Rattle.file_numbers.specs.Files.{checkpoint_file};
ghost use Rattle.run_tiers.specs.Faults.{OnlySortShelf};
ghost use Rattle.sweep_core.specs.Accounts.{StayEmpty};
ghost use Rattle.sweep_core.specs.Saving.{IsOfStep};
ghost use Rattle.sweep_core.specs.Sweeps.{IsFirm, IsNoDamage};
ghost use Rattle.sweep_core.specs.Carries.{OnlySaved};
ghost use Rattle.sweep_checkpoint.specs.Saves.{gated_size, IsGateSure};
ghost use Rattle.sweep_checkpoint.specs.Stops.{AreStops, ImagesShow, stop_calls};
ghost use Rattle.sweep_checkpoint.specs.Going.{IsOfGoing, IsLeftAlone, IsAsBefore, GoesOn, Stands, AreSure, IsShort, SameGoing, SameShown, IsShown, IsPaidTo, interval_of, first_owed, TakesParts, TakesCalls};

use crate::due::save_if_due;
use crate::going::Going;
use shelf_model::{Shelf, SortFault};
use sweep_core::{Sweep, Turn, run_some};

/// Makes turns of a sweep until it ends, and saves it before the first turn that has min(budget, 65,536) turns or more
/// behind it that no checkpoint shows, while the turns of its step are below 2^61. One that was rebuilt may have ended:
/// then no save may be due, and the one turn that is made ends it.
///
/// At each moment the last checkpoint that is gated, and all that it rests on, stands whole in each image that a stop
/// may leave: the one that was there before, or one of this sweep. What a turn, a save or the folder refuses is handed
/// on as it is; after it neither is used again.
pub fn run_saved<'r, P: Sweep<'r>, S: Shelf>(
    sweep: &mut P,
    going: &mut Going,
    shelf: &mut S,
) -> Result<(), SortFault>
    requires ready { P.ready sweep.old }
    requires works { (0 < P.fuel sweep.old)
        ⊎ (going.old.turns - going.old.shown < interval_of going.old.budget) }
    requires in_step { IsTrue (S.tells shelf.old) → P.in_step sweep.old (S.world shelf.old) }
    requires files { IsOfStep (P.accounts.makes sweep.old) (P.saving.operands (P.task sweep.old))
        (P.accounts.step sweep.old) (P.accounts.next sweep.old) }
    requires step { going.old.step ≡ P.accounts.step sweep.old }
    requires sweep { going.old.sweep ≤ 1 }
    ensures ready { OnOk result (P.ready sweep.new) }
    ensures in_step { OnOk result (IsTrue (S.tells shelf.new) → P.in_step sweep.new (S.world shelf.new)) }
    ensures ended { OnOk result (P.fuel sweep.new ≡ 0) }
    ensures firm { OnOk result (IsTrue (S.tells shelf.new) → (f : FileNo) →
        P.accounts.makes sweep.new f → IsFirm (file (S.world shelf.new) f)) }
    ensures going { SameGoing going.old going.new }
    ensures recent { OnOk result (going.new.turns < 2 ^ 61 →
        going.new.turns - going.new.shown ≤ interval_of going.old.budget) }
    ensures made { OnOk result (min (going.old.turns + 1) (2 ^ 64 - 1) ≤ going.new.turns) }
    ensures grew { OnOk result ((going.old.turns ≤ going.new.turns) × (0 < going.new.turns)) }
    ensures late { going.old.shown ≤ going.old.turns → going.new.shown ≤ going.new.turns }
    ensures shown { OnOk result (IsTrue (S.tells shelf.new) →
        SameShown going.old going.new (now (S.world shelf.old)).folder (now (S.world shelf.new)).folder
        ⊎ IsShown going.old.step going.new (now (S.world shelf.new)).folder) }

    // what the turns and the saves take
    ensures counted { OnOk result (going.new.turns < 2 ^ 64 - 1 → (saves : ℕ)
        × (interval_of going.old.budget * saves + going.old.shown ≤ going.new.shown)
        × TakesParts P.accounts (going.new.turns - going.old.turns) saves sweep.old sweep.new
        × (IsTrue (S.tells shelf.new) → TakesCalls P.accounts (going.new.turns - going.old.turns) saves
        (first_owed going.old.last (P.accounts.next sweep.old)) (S.world shelf.old) (S.world shelf.new)
        sweep.old sweep.new)) }
    ensures refused { OnErr result (going.new.turns < 2 ^ 64 - 1 → (saves : ℕ)
        × (interval_of going.old.budget * saves + going.old.shown ≤ going.new.shown)
        × (IsTrue (S.tells shelf.new) → TakesCalls P.accounts
        (going.new.turns - going.old.turns + interval_of going.old.budget) (saves + 1)
        (first_owed going.old.last (P.accounts.next sweep.old)) (S.world shelf.old) (S.world shelf.new)
        sweep.old sweep.new)) }
    ensures few_calls { IsTrue (S.tells shelf.new) → (job : P.Job) → P.remains sweep.old (S.world shelf.old) job →
        (saves : ℕ)
        × (interval_of going.old.budget * saves + going.old.shown
        ≤ max going.old.shown (going.old.turns + P.left sweep.old (S.world shelf.old) job))
        × TakesParts P.accounts (P.left sweep.old (S.world shelf.old) job + 1) saves sweep.old sweep.new
        × TakesCalls P.accounts (P.left sweep.old (S.world shelf.old) job + 1) saves
        (first_owed going.old.last (P.accounts.next sweep.old)) (S.world shelf.old) (S.world shelf.new)
        sweep.old sweep.new
        × OnOk result (interval_of going.old.budget * saves + going.old.shown ≤ going.new.shown) }
    ensures later { OnOk result (P.accounts.next sweep.old ≤ P.accounts.next sweep.new) }
    ensures within { OnOk result (P.accounts.next sweep.old ≤ 2 ^ 32 → P.accounts.next sweep.new ≤ 2 ^ 32) }
    ensures owed { OnOk result (first_owed going.old.last (P.accounts.next sweep.old)
        ≤ first_owed going.new.last (P.accounts.next sweep.new)) }
    ensures paid { OnOk result (going.new.turns < 2 ^ 64 - 1 → IsPaidTo P.accounts going.old sweep.old →
        IsPaidTo P.accounts going.new sweep.new) }

    // what remains
    ensures keeps { OnOk result (IsTrue (S.tells shelf.new) → (job : P.Job) →
        P.remains sweep.old (S.world shelf.old) job → P.remains sweep.new (S.world shelf.new) job) }
    ensures few { OnOk result (IsTrue (S.tells shelf.new) → (job : P.Job) →
        P.remains sweep.old (S.world shelf.old) job →
        going.new.turns ≤ going.old.turns + P.left sweep.old (S.world shelf.old) job + 1) }
    ensures trusts { OnOk result (IsTrue (S.tells shelf.new) →
        P.trusts sweep.old (S.world shelf.old) → P.trusts sweep.new (S.world shelf.new)) }
    ensures damage { IfErr result (λ e. IsTrue (S.tells shelf.new) → P.trusts sweep.old (S.world shelf.old) →
        P.damaged sweep.new (S.world shelf.new) e
        ⊎ IsShort going.old.step (P.accounts.next sweep.new) (now (S.world shelf.new)).folder e) }
    ensures undamaged { IfErr result (λ e. IsTrue (S.tells shelf.new) → (job : P.Job) →
        P.remains sweep.old (S.world shelf.old) job →
        gated_size going.old.step (now (S.world shelf.old)).folder
        ≤ length (file (S.world shelf.old) (checkpoint_file going.old.step)).bytes → IsNoDamage e) }
    ensures covered { IfErr result (λ e. IsTrue (S.tells shelf.new) → P.trusts sweep.old (S.world shelf.old) →
        gated_size going.old.step (now (S.world shelf.old)).folder
        ≤ length (file (S.world shelf.old) (checkpoint_file going.old.step)).bytes →
        P.damaged sweep.new (S.world shelf.new) e ⊎ IsNoDamage e) }
    ensures covers { OnOk result (IsTrue (S.tells shelf.new) →
        gated_size going.old.step (now (S.world shelf.old)).folder
        ≤ length (file (S.world shelf.old) (checkpoint_file going.old.step)).bytes →
        gated_size going.old.step (now (S.world shelf.new)).folder
        ≤ length (file (S.world shelf.new) (checkpoint_file going.old.step)).bytes) }

    // what a stop may leave at any moment, and what is left at the end
    ensures changes { Told S.tells shelf.old shelf.new
        (Ran (OnlyChanged (IsOfGoing (P.accounts.makes sweep.old) going.old.step) (now (S.world shelf.old)))
        (S.world shelf.old) (S.world shelf.new)) }
    ensures alone { IsTrue (S.tells shelf.new) → (f : FileNo) →
        IsLeftAlone (P.accounts.makes sweep.old) going.old.step (P.accounts.next sweep.old) f →
        (file (S.world shelf.new) f).bytes ≡ (file (S.world shelf.old) f).bytes }
    // nothing is put into a file of the step whose part wasn't taken
    ensures untaken { OnOk result (IsTrue (S.tells shelf.new) → StayEmpty (P.accounts.makes sweep.old) going.old.step
        (P.accounts.next sweep.new) (S.world shelf.old) (S.world shelf.new)) }
    ensures images { IsTrue (S.tells shelf.new) → (job : P.Job) → P.remains sweep.old (S.world shelf.old) job →
        AreSure (P.saving.operands (P.task sweep.old)) going.old.step (now (S.world shelf.old)).folder →
        IsPaidTo P.accounts going.old sweep.old →
        Throughout (S.world shelf.old) (S.world shelf.new) (λ (m : Moment). (image : Image) → IsImage m.folder image →
        IsAsBefore (P.accounts.makes sweep.old) going.old.step (P.accounts.next sweep.old)
        (now (S.world shelf.old)).folder (bytes_in image)
        ⊎ GoesOn P.saving going.old.step going.old.sweep (P.task sweep.old) job
        (going.old.turns + P.left sweep.old (S.world shelf.old) job) (bytes_in image)) }
    ensures stands { OnOk result (IsTrue (S.tells shelf.new) → (job : P.Job) →
        P.remains sweep.old (S.world shelf.old) job →
        AreSure (P.saving.operands (P.task sweep.old)) going.old.step (now (S.world shelf.old)).folder →
        IsPaidTo P.accounts going.old sweep.old →
        OnlySaved (P.accounts.makes sweep.old) going.old.step (P.accounts.next sweep.old)
        (now (S.world shelf.old)) (now (S.world shelf.new))
        ⊎ Stands P.saving (P.accounts.makes sweep.old) (P.saving.operands (P.task sweep.old)) going.old.step
        (P.accounts.next sweep.new) going.old.sweep (P.task sweep.old) job
        (going.old.turns + P.left sweep.old (S.world shelf.old) job) (now (S.world shelf.new)).folder) }

    // what a stop costs at any moment, where the gate is sure: for each turn that it leaves shown beyond those of
    // before 229 calls, and those of an interval and a save
    ensures stops { IsTrue (S.tells shelf.new) → IsGateSure going.old.step (now (S.world shelf.old)).folder →
        16384 ≤ interval_of going.old.budget → going.old.shown ≤ going.old.turns → (job : P.Job) →
        P.remains sweep.old (S.world shelf.old) job →
        going.old.turns + P.left sweep.old (S.world shelf.old) job < 2 ^ 61 →
        AreStops going.old.step going.old.shown ((S.world shelf.old).clock + stop_calls P.accounts going.old sweep.old)
        (S.world shelf.old) (S.world shelf.new) }
    ensures showed { OnOk result (IsTrue (S.tells shelf.new) →
        IsGateSure going.old.step (now (S.world shelf.old)).folder → going.old.shown ≤ going.old.turns →
        ImagesShow going.old.step going.old.shown going.new.shown
        (now (S.world shelf.old)).folder (now (S.world shelf.new)).folder) }
    ensures same { P.task sweep.new ≡ P.task sweep.old }
    ensures step { P.accounts.step sweep.new ≡ P.accounts.step sweep.old }
    ensures spent { IsErrOf result SortFault.RunsSpent → 2 ^ 32 ≤ P.accounts.next sweep.new }
    ensures faults { OnlySortShelf (S.faults shelf.old) (S.faults shelf.new) result }
{
    'turns: loop {
        save_if_due(sweep, going, shelf)?;
        let most = going.interval().saturating_sub(going.since()).max(1);
        let made = run_some(sweep, most, shelf)?;
        going.turns = going.turns.saturating_add(made.turns);
        if made.turn == Turn::Ended {
            return Ok(());
        }
    }
}
