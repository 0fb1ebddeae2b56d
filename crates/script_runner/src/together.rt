//! Drops that are committed together with the step before them: they write no file, so that one commit does for all.
ghost use Rattle.std.specs.Prelude.{◌≡◌, ℕ, ◌+◌, ◌-◌, ◌*◌, ◌<◌, ◌≤◌, [], false, IsTrue, OnOk, IfOk, length, get_or};
ghost use Rattle.bool_tables.specs.declared.steps.Step.TheVariants as variants;
ghost use Rattle.shelf_model.specs.declared.file_no.FileNo.{FileNo};
ghost use Rattle.shelf_model.specs.World.{now, file};
ghost use Rattle.shelf_model.specs.Calls.{Told};
ghost use Rattle.shelf_model.specs.Moments.{Ran};
ghost use Rattle.shelf_model.specs.Faults.{OnlyFolder};
ghost use Rattle.catalogue.specs.Entries.{IsEntry};
ghost use Rattle.catalogue.specs.Commits.{IsReady, DuringPut};
ghost use Rattle.step_work.specs.Plans.{no_step};
ghost use Rattle.step_work.specs.Tuples.{sweeps};
ghost use Rattle.sound_image.specs.Files.{node_file};
ghost use Rattle.sound_image.specs.Steps.{IsBehind};
ghost use Rattle.step_engine.specs.OneFile.{OnlyTidied};
ghost use Rattle.script_runner.specs.Calls.{cut_calls};
ghost use Rattle.script_runner.specs.Together.{AreDrops, IsEntryWith, ArePutTogether, DuringTogether, AreTogether};
ghost use Rattle.script_runner.specs.Together.{OnlyEmptied, IsDropped, TidiedTogether};

use bool_tables::{Planned, Step};
use catalogue::{Entry, MOST_WAITING, commit_waiting, put_entry};
use file_numbers::node_file;
use shelf_model::{Failed, Shelf};
use step_engine::{drop_entry, tidy, tidy_gone_on};

/// The end of the drops behind a step: the first step behind it that is none, `until` or 1,024 steps on.
pub(crate) fn drops_end(steps: &[Planned], number: u32, until: u32) -> u32
    requires within { (number < until) × (until ≤ length steps.now) }
    ensures behind { (number < result) × (result ≤ until) }
    ensures few { result ≤ number + 1024 }
    ensures drops { AreDrops steps.now (number + 1) result }
{
    let mut end = number + 1;
    while end < until && ((end - number) as usize) < MOST_WAITING {
        let Step::Drop { .. } = steps[end as usize].step else {
            return end;
        };
        end += 1;
    }
    end
}

/// Commits a step that was made, together with the drops behind it up to the step `end`. The answer is the entry of the
/// last one.
///
/// After `Failed` some of them are committed, the first ones, or none.
pub(crate) fn commit_together<S: Shelf>(
    steps: &[Planned],
    entry: &Entry,
    end: u32,
    shelf: &mut S,
) -> Result<Entry, Failed>
    requires entry { IsEntry entry.now }
    requires within { (entry.now.number < end) × (end ≤ length steps.now) × (end ≤ entry.now.number + 1024) }
    requires drops { AreDrops steps.now (entry.now.number + 1) end }
    requires ready { IsTrue (S.tells shelf.old) → IsReady entry.now.number (now (S.world shelf.old)).folder }
    ensures content { Told S.tells shelf.old shelf.new
        (Ran (DuringTogether steps.now entry.now end (now (S.world shelf.old)))
        (S.world shelf.old) (S.world shelf.new)) }
    ensures ok { OnOk result (IsTrue (S.tells shelf.new)
        → AreTogether steps.now entry.now end (now (S.world shelf.new)).folder) }
    ensures last { IfOk result (λ e. (e.number + 1 ≡ end) × IsEntryWith steps.now entry.now e.number e) }
    ensures calls { IsTrue (S.tells shelf.new) → (S.world shelf.new).clock
        ≤ (S.world shelf.old).clock + (2 * (end - entry.now.number) + 3) }
    ensures faults { OnlyFolder (S.faults shelf.old) (S.faults shelf.new) result }
{
    let number = entry.number;
    let last = put_together(steps, entry, end, shelf)?;
    commit_waiting(number, end - number, shelf)?;
    Ok(last)
}

/// Puts the entry of a step that was made, and those of the drops behind it up to the step `end`. The answer is the
/// last one. None of them is committed yet.
fn put_together<S: Shelf>(
    steps: &[Planned],
    entry: &Entry,
    end: u32,
    shelf: &mut S,
) -> Result<Entry, Failed>
    requires entry { IsEntry entry.now }
    requires within { (entry.now.number < end) × (end ≤ length steps.now) }
    requires drops { AreDrops steps.now (entry.now.number + 1) end }
    requires ready { IsTrue (S.tells shelf.old) → IsReady entry.now.number (now (S.world shelf.old)).folder }
    ensures content { Told S.tells shelf.old shelf.new
        (Ran (DuringPut entry.now.number entry.now (now (S.world shelf.old)))
        (S.world shelf.old) (S.world shelf.new)) }
    ensures ok { OnOk result (IsTrue (S.tells shelf.new)
        → ArePutTogether steps.now entry.now end (now (S.world shelf.new)).folder) }
    ensures last { IfOk result (λ e. (e.number + 1 ≡ end) × IsEntryWith steps.now entry.now e.number e) }
    ensures calls { IsTrue (S.tells shelf.new) → (S.world shelf.new).clock
        ≤ (S.world shelf.old).clock + 2 * (end - entry.now.number) }
    ensures faults { OnlyFolder (S.faults shelf.old) (S.faults shelf.new) result }
{
    let number = entry.number;
    put_entry(entry, number, shelf)?;
    let mut last = *entry;
    for k in number + 1..end {
        let Step::Drop { gone } = steps[k as usize].step else {
            unreachable!();
        };
        last = drop_entry(k, gone);
        put_entry(&last, number, shelf)?;
    }
    Ok(last)
}

/// Empties what a committed step leaves behind, and the files that the drops behind it drop, up to the step `end`. It
/// takes fewer calls where something was gated of the step before it was run.
pub(crate) fn tidy_together<S: Shelf>(
    steps: &[Planned],
    entry: &Entry,
    gone_on: bool,
    end: u32,
    shelf: &mut S,
) -> Result<(), Failed>
    requires within { (entry.now.number < end) × (end ≤ length steps.now) }
    requires drops { AreDrops steps.now (entry.now.number + 1) end }
    ensures content { Told S.tells shelf.old shelf.new
        (Ran (TidiedTogether steps.now entry.now end (now (S.world shelf.old)))
        (S.world shelf.old) (S.world shelf.new)) }
    ensures calls { IsTrue (S.tells shelf.new) → (S.world shelf.new).clock ≤ (S.world shelf.old).clock
        + (cut_calls gone_on (get_or steps.now entry.now.number no_step).step entry.now.parts
        + (end - (entry.now.number + 1))) }
    // what they drop is empty
    ensures empty { OnOk result (IsTrue (S.tells shelf.new) → (k gone : ℕ) → entry.now.number ≤ k → k < end
        → (get_or steps.now k no_step).step ≡ variants.Drop gone
        → (file (S.world shelf.new) (node_file gone)).bytes ≡ []) }
    // and so is what the step leaves behind
    ensures behind { OnOk result (IsTrue (S.tells shelf.new) → gone_on ≡ false
        → IsTrue (sweeps (get_or steps.now entry.now.number no_step).step) → (f : FileNo)
        → IsBehind entry.now.number entry.now.parts f → (file (S.world shelf.new) f).bytes ≡ []) }
    ensures faults { OnlyFolder (S.faults shelf.old) (S.faults shelf.new) result }
{
    tidy_up(&steps[entry.number as usize], entry, gone_on, shelf)?;
    empty_dropped(steps, entry.number + 1, end, shelf)
}

/// Empties what a committed step leaves behind, of which something was gated before it was run, or nothing.
fn tidy_up<S: Shelf>(
    planned: &Planned,
    entry: &Entry,
    gone_on: bool,
    shelf: &mut S,
) -> Result<(), Failed>
    ensures content { Told S.tells shelf.old shelf.new
        (Ran (OnlyTidied planned.now.step entry.now.number entry.now.parts (now (S.world shelf.old)))
        (S.world shelf.old) (S.world shelf.new)) }
    ensures calls { IsTrue (S.tells shelf.new) → (S.world shelf.new).clock
        ≤ (S.world shelf.old).clock + cut_calls gone_on planned.now.step entry.now.parts }
    ensures empty { OnOk result (IsTrue (S.tells shelf.new) → (gone : ℕ) → planned.now.step ≡ variants.Drop gone →
        (file (S.world shelf.new) (node_file gone)).bytes ≡ []) }
    ensures behind { OnOk result (IsTrue (S.tells shelf.new) → gone_on ≡ false → IsTrue (sweeps planned.now.step)
        → (f : FileNo) → IsBehind entry.now.number entry.now.parts f → (file (S.world shelf.new) f).bytes ≡ []) }
    ensures faults { OnlyFolder (S.faults shelf.old) (S.faults shelf.new) result }
{
    if gone_on {
        tidy_gone_on(planned, entry, shelf)
    } else {
        tidy(planned, entry, shelf)
    }
}

/// Empties the files of the diagrams that some of these steps drop, from one of them up to another.
pub(crate) fn empty_dropped<S: Shelf>(
    steps: &[Planned],
    from: u32,
    until: u32,
    shelf: &mut S,
) -> Result<(), Failed>
    requires within { (from ≤ until) × (until ≤ length steps.now) }
    ensures content { Told S.tells shelf.old shelf.new
        (Ran (OnlyEmptied (IsDropped steps.now from until) (now (S.world shelf.old)))
        (S.world shelf.old) (S.world shelf.new)) }
    ensures calls { IsTrue (S.tells shelf.new)
        → (S.world shelf.new).clock ≤ (S.world shelf.old).clock + (until - from) }
    ensures empty { OnOk result (IsTrue (S.tells shelf.new) → (k gone : ℕ) → from ≤ k → k < until
        → (get_or steps.now k no_step).step ≡ variants.Drop gone
        → (file (S.world shelf.new) (node_file gone)).bytes ≡ []) }
    ensures faults { OnlyFolder (S.faults shelf.old) (S.faults shelf.new) result }
{
    for k in from..until {
        if let Step::Drop { gone } = steps[k as usize].step {
            shelf.cut(node_file(gone), 0)?;
        }
    }
    Ok(())
}
