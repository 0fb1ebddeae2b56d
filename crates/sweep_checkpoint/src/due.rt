//! Saving a sweep where it is, when that is due.
ghost use Rattle.std.specs.Prelude.{◌≡◌, ◌⊎◌, ◌+◌, ◌-◌, ◌^◌, ◌<◌, ◌≤◌, IsTrue, IsErrOf, OnOk, OnErr, IfErr, length};
ghost use Rattle.shelf_model.specs.declared.file_no.FileNo.{FileNo};
ghost use Rattle.shelf_model.specs.Calls.{Told};
ghost use Rattle.shelf_model.specs.Folder.{Image, IsImage, bytes_in};
ghost use Rattle.shelf_model.specs.Moments.{Ran, Throughout, OnlyChanged};
ghost use Rattle.shelf_model.specs.World.{Moment, now, file};
ghost use Rattle.file_numbers.specs.Files.{checkpoint_file};
ghost use Rattle.run_tiers.specs.Faults.{OnlySortShelf};
ghost use Rattle.sweep_core.specs.Accounts.{StayEmpty};
ghost use Rattle.sweep_core.specs.Saving.{IsOfStep};
ghost use Rattle.sweep_core.specs.Sweeps.{IsNoDamage};
ghost use Rattle.sweep_core.specs.Carries.{OnlySaved};
ghost use Rattle.sweep_checkpoint.specs.Saves.{gated_size, IsGateSure};
ghost use Rattle.sweep_checkpoint.specs.Stops.{shown_turns, ShowsAsBefore, ImagesShow};
ghost use Rattle.sweep_checkpoint.specs.Going.{IsOfGoing, IsLeftAlone, IsAsBefore, GoesOn, Stands, AreSure, IsShort, SameGoing, SameShown, IsShown, IsPaidTo, interval_of, TakesParts, TakesCalls, WasNotSaved, WasSaved};
ghost use Rattle.sweep_checkpoint.specs.Retires.{first_taken};

use crate::blank::NO_RUN;
use crate::going::Going;
use crate::retiring::retire;
use crate::saving::save;
use shelf_model::{Shelf, SortFault};
use sweep_core::{Checkpoint, Sweep};

/// From so many turns on a step isn't saved any more.
const TURNS_END: u64 = 1 << 61;

/// The most parts of a step.
const MOST_PARTS: u64 = 1 << 32;

/// Saves the sweep where it is, and gives up the runs that the older checkpoint names and the new one doesn't: where
/// the turns that no checkpoint shows are as many as an interval or more, while those of the step are below 2^61.
///
/// A refusal is one of the sweep's own or of the folder, or more part numbers were taken than a checkpoint may say.
pub(crate) fn save_if_due<'r, P: Sweep<'r>, S: Shelf>(
    sweep: &mut P,
    going: &mut Going,
    shelf: &mut S,
) -> Result<(), SortFault>
    requires ready { P.ready sweep.old }
    requires works { (0 < P.fuel sweep.old)
        ⊎ (going.old.turns - going.old.shown < interval_of going.old.budget) }
    requires in_step { IsTrue (S.tells shelf.old) → P.in_step sweep.old (S.world shelf.old) }
    requires files { IsOfStep (P.accounts.makes sweep.old) (P.saving.operands (P.task sweep.old))
        (P.accounts.step sweep.old) (P.accounts.next sweep.old) }
    requires step { going.old.step ≡ P.accounts.step sweep.old }
    requires sweep { going.old.sweep ≤ 1 }
    ensures ready { OnOk result (P.ready sweep.new) }
    ensures in_step { OnOk result (IsTrue (S.tells shelf.new) → P.in_step sweep.new (S.world shelf.new)) }
    ensures fuel { OnOk result (P.fuel sweep.new ≡ P.fuel sweep.old) }
    ensures going { SameGoing going.old going.new }
    ensures turns { going.new.turns ≡ going.old.turns }
    ensures due { OnOk result (going.new.turns < 2 ^ 61 →
        (going.new.turns - going.new.shown < interval_of going.old.budget) ⊎ (going.new.shown ≡ going.new.turns)) }
    ensures parts { OnOk result (
        WasNotSaved P.accounts going.old going.new (S.world shelf.old) (S.world shelf.new) sweep.old sweep.new
        ⊎ WasSaved P.accounts going.old going.new sweep.old sweep.new) }
    ensures refused { OnErr result ((going.new ≡ going.old)
        × (going.old.shown + interval_of going.old.budget ≤ going.old.turns)) }
    ensures calls { IsTrue (S.tells shelf.new) → TakesCalls P.accounts 0 1 (first_taken going.old.last)
        (S.world shelf.old) (S.world shelf.new) sweep.old sweep.new }
    ensures takes { TakesParts P.accounts 0 1 sweep.old sweep.new }
    ensures shown { OnOk result (IsTrue (S.tells shelf.new) →
        SameShown going.old going.new (now (S.world shelf.old)).folder (now (S.world shelf.new)).folder
        ⊎ IsShown going.old.step going.new (now (S.world shelf.new)).folder) }

    // what remains
    ensures keeps { OnOk result (IsTrue (S.tells shelf.new) → (job : P.Job) →
        P.remains sweep.old (S.world shelf.old) job → P.remains sweep.new (S.world shelf.new) job) }
    ensures left { OnOk result (IsTrue (S.tells shelf.new) → (job : P.Job) →
        P.remains sweep.old (S.world shelf.old) job →
        P.left sweep.new (S.world shelf.new) job ≤ P.left sweep.old (S.world shelf.old) job) }
    ensures trusts { OnOk result (IsTrue (S.tells shelf.new) →
        P.trusts sweep.old (S.world shelf.old) → P.trusts sweep.new (S.world shelf.new)) }
    ensures damage { IfErr result (λ e. IsTrue (S.tells shelf.new) → P.trusts sweep.old (S.world shelf.old) →
        P.damaged sweep.new (S.world shelf.new) e
        ⊎ IsShort going.old.step (P.accounts.next sweep.new) (now (S.world shelf.new)).folder e) }
    ensures undamaged { IfErr result (λ e. IsTrue (S.tells shelf.new) → (job : P.Job) →
        P.remains sweep.old (S.world shelf.old) job →
        gated_size going.old.step (now (S.world shelf.old)).folder
        ≤ length (file (S.world shelf.old) (checkpoint_file going.old.step)).bytes → IsNoDamage e) }
    ensures covered { IfErr result (λ e. IsTrue (S.tells shelf.new) → P.trusts sweep.old (S.world shelf.old) →
        gated_size going.old.step (now (S.world shelf.old)).folder
        ≤ length (file (S.world shelf.old) (checkpoint_file going.old.step)).bytes →
        P.damaged sweep.new (S.world shelf.new) e ⊎ IsNoDamage e) }
    ensures covers { OnOk result (IsTrue (S.tells shelf.new) →
        gated_size going.old.step (now (S.world shelf.old)).folder
        ≤ length (file (S.world shelf.old) (checkpoint_file going.old.step)).bytes →
        gated_size going.old.step (now (S.world shelf.new)).folder
        ≤ length (file (S.world shelf.new) (checkpoint_file going.old.step)).bytes) }

    // what a stop may leave at any moment, and what is left at the end
    ensures changes { Told S.tells shelf.old shelf.new
        (Ran (OnlyChanged (IsOfGoing (P.accounts.makes sweep.old) going.old.step) (now (S.world shelf.old)))
        (S.world shelf.old) (S.world shelf.new)) }
    ensures alone { IsTrue (S.tells shelf.new) → (f : FileNo) →
        IsLeftAlone (P.accounts.makes sweep.old) going.old.step (P.accounts.next sweep.old) f →
        (file (S.world shelf.new) f).bytes ≡ (file (S.world shelf.old) f).bytes }
    // nothing is put into a file of the step whose part wasn't taken
    ensures untaken { OnOk result (IsTrue (S.tells shelf.new) → StayEmpty (P.accounts.makes sweep.old) going.old.step
        (P.accounts.next sweep.new) (S.world shelf.old) (S.world shelf.new)) }
    ensures images { IsTrue (S.tells shelf.new) → (job : P.Job) → P.remains sweep.old (S.world shelf.old) job →
        AreSure (P.saving.operands (P.task sweep.old)) going.old.step (now (S.world shelf.old)).folder →
        (going.old.turns < 2 ^ 64 - 1 → IsPaidTo P.accounts going.old sweep.old) →
        Throughout (S.world shelf.old) (S.world shelf.new) (λ (m : Moment). (image : Image) → IsImage m.folder image →
        IsAsBefore (P.accounts.makes sweep.old) going.old.step (P.accounts.next sweep.old)
        (now (S.world shelf.old)).folder (bytes_in image)
        ⊎ GoesOn P.saving going.old.step going.old.sweep (P.task sweep.old) job
        (going.old.turns + P.left sweep.old (S.world shelf.old) job) (bytes_in image)) }
    ensures stands { OnOk result (IsTrue (S.tells shelf.new) → (job : P.Job) →
        P.remains sweep.old (S.world shelf.old) job →
        AreSure (P.saving.operands (P.task sweep.old)) going.old.step (now (S.world shelf.old)).folder →
        (going.old.turns < 2 ^ 64 - 1 → IsPaidTo P.accounts going.old sweep.old) →
        OnlySaved (P.accounts.makes sweep.old) going.old.step (P.accounts.next sweep.old)
        (now (S.world shelf.old)) (now (S.world shelf.new))
        ⊎ Stands P.saving (P.accounts.makes sweep.old) (P.saving.operands (P.task sweep.old)) going.old.step
        (P.accounts.next sweep.new) going.old.sweep (P.task sweep.old) job
        (going.old.turns + P.left sweep.old (S.world shelf.old) job) (now (S.world shelf.new)).folder) }
    // what a stop leaves shown of the step, where the gate is sure: what it did, or the turns at which it is saved
    ensures shows { IsTrue (S.tells shelf.new) → IsGateSure going.old.step (now (S.world shelf.old)).folder →
        Throughout (S.world shelf.old) (S.world shelf.new) (λ (m : Moment). (image : Image) → IsImage m.folder image →
        ShowsAsBefore going.old.step (now (S.world shelf.old)).folder (bytes_in image)
        ⊎ (shown_turns going.old.step (bytes_in image) ≡ going.old.turns)) }
    ensures showed { OnOk result (IsTrue (S.tells shelf.new) →
        IsGateSure going.old.step (now (S.world shelf.old)).folder → going.old.shown ≤ going.old.turns →
        IsGateSure going.old.step (now (S.world shelf.new)).folder × ImagesShow going.old.step going.old.shown
        going.new.shown (now (S.world shelf.old)).folder (now (S.world shelf.new)).folder) }
    ensures same { P.task sweep.new ≡ P.task sweep.old }
    ensures made { (f : FileNo) → P.accounts.makes sweep.new f → P.accounts.makes sweep.old f }
    ensures making { (f : FileNo) → P.accounts.makes sweep.old f → P.accounts.makes sweep.new f }
    ensures step { P.accounts.step sweep.new ≡ P.accounts.step sweep.old }
    ensures later { P.accounts.next sweep.old ≤ P.accounts.next sweep.new }
    ensures within { P.accounts.next sweep.old ≤ 2 ^ 32 → P.accounts.next sweep.new ≤ 2 ^ 32 }
    ensures spent { IsErrOf result SortFault.RunsSpent → 2 ^ 32 ≤ P.accounts.next sweep.new }
    ensures faults { OnlySortShelf (S.faults shelf.old) (S.faults shelf.new) result }
{
    if going.since() < going.interval() {
        return Ok(());
    }
    if going.turns >= TURNS_END {
        return Ok(());
    }
    let mut point = Checkpoint {
        step: going.step,
        sweep: going.sweep,
        turns: going.turns,
        next_part: 0,
        budget: going.records(),
        tables: 0,
        carry: [0; 250],
        runs: [[NO_RUN; 64]; 9],
    };
    sweep.carry(shelf, &mut point)?;
    // More part numbers were taken than a checkpoint may say.
    if point.next_part > MOST_PARTS {
        return Err(SortFault::RunsSpent);
    }
    save(&point, shelf)?;
    retire(going.last.as_ref(), &point, shelf)?;
    going.last = Some(point);
    going.shown = going.turns;
    Ok(())
}
