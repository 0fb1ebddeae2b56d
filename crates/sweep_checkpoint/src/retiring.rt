//! Giving up the runs of an older checkpoint.
ghost use Rattle.std.specs.Prelude.{◌≡◌, ◌↔◌, ◌+◌, ◌-◌, ◌*◌, ◌≤◌, IsTrue, OnOk, IfErr, length};
ghost use Rattle.std.specs.Option.{option_copied};
ghost use Rattle.shelf_model.specs.World.{now};
ghost use Rattle.shelf_model.specs.Calls.{Told};
ghost use Rattle.shelf_model.specs.Moments.{Ran, OnlyChanged};
ghost use Rattle.shelf_model.specs.Faults.{OnlyFolder, OnlyShelf};
ghost use Rattle.sweep_checkpoint.specs.Rules.{tables_in_use};
ghost use Rattle.sweep_checkpoint.specs.Retires.{NamedIn, NamedAmong, IsGivenUp, IsDropped, IsBetween, Emptied, first_taken};

use file_numbers::FIRST_RUN_PART;
use run_tiers::Run;
use shelf_model::{Failed, FileNo, Shelf, StreamFault};
use sweep_core::Checkpoint;

/// Cuts the runs that the older checkpoint names, or whose parts were taken since, and that the new one doesn't name.
///
/// The new one has to be gated, and its gate sure. Parts 3 and 4, the arcs of the step, stay.
pub fn retire<S: Shelf>(
    older: Option<&Checkpoint>,
    newer: &Checkpoint,
    shelf: &mut S,
) -> Result<(), StreamFault>
    ensures content { Told S.tells shelf.old shelf.new
        (Ran (OnlyChanged (IsGivenUp (option_copied older.entry) newer.now) (now (S.world shelf.old)))
        (S.world shelf.old) (S.world shelf.new)) }
    ensures ok { OnOk result (IsTrue (S.tells shelf.new)
        → Emptied (IsGivenUp (option_copied older.entry) newer.now) (S.world shelf.old) (S.world shelf.new)) }
    ensures calls { IsTrue (S.tells shelf.new)
        → (S.world shelf.new).clock ≤ (S.world shelf.old).clock + 576
        + (newer.now.next_part - first_taken (option_copied older.entry)) }
    ensures cause { IfErr result (λ fault. fault ≡ StreamFault.Shelf) }
    ensures faults { OnlyShelf (S.faults shelf.old) (S.faults shelf.new) result }
{
    let Some(point) = older else {
        give_up_taken(FIRST_RUN_PART, newer, shelf)?;
        return Ok(());
    };
    give_up_tables(tables_of(point), newer, shelf)?;
    give_up_taken(FIRST_RUN_PART.max(point.next_part), newer, shelf)?;
    Ok(())
}

// The tables that are in use.
fn tables_of(point: &Checkpoint) -> &[[Run; 64]]
    ensures tables { result.now ≡ tables_in_use point.now }
    ensures few { length result.now ≤ 9 }
{
    let count = point.tables as usize;
    if count < 9 {
        &point.runs[..count]
    } else {
        &point.runs
    }
}

// Whether a table names a part.
fn is_named_among(table: &[Run], part: u64) -> bool
    ensures { IsTrue result ↔ NamedAmong part table.now }
{
    for k in 0..table.len() {
        let run = table[k];
        if run.part == part {
            return true;
        }
    }
    false
}

// Whether one of the tables names a part.
fn is_named_in(tables: &[[Run; 64]], part: u64) -> bool
    ensures { IsTrue result ↔ NamedIn part tables.now }
{
    for k in 0..tables.len() {
        let table = tables[k];
        if is_named_among(&table, part) {
            return true;
        }
    }
    false
}

// Cuts the file of a part that the checkpoint doesn't name.
fn give_up<S: Shelf>(part: u64, new: &Checkpoint, shelf: &mut S) -> Result<(), Failed>
    ensures content { Told S.tells shelf.old shelf.new
        (Ran (OnlyChanged (IsDropped new.now (λ p. p ≡ part)) (now (S.world shelf.old)))
        (S.world shelf.old) (S.world shelf.new)) }
    ensures ok { OnOk result (IsTrue (S.tells shelf.new)
        → Emptied (IsDropped new.now (λ p. p ≡ part)) (S.world shelf.old) (S.world shelf.new)) }
    ensures calls { IsTrue (S.tells shelf.new)
        → (S.world shelf.new).clock ≤ (S.world shelf.old).clock + 1 }
    ensures faults { OnlyFolder (S.faults shelf.old) (S.faults shelf.new) result }
{
    if part < FIRST_RUN_PART {
        return Ok(());
    }
    if is_named_in(tables_of(new), part) {
        return Ok(());
    }
    shelf.cut(
        FileNo {
            step: new.step,
            part,
        },
        0,
    )
}

// Gives up the runs of a table that the checkpoint doesn't name.
fn give_up_table<S: Shelf>(table: &[Run], new: &Checkpoint, shelf: &mut S) -> Result<(), Failed>
    ensures content { Told S.tells shelf.old shelf.new
        (Ran (OnlyChanged (IsDropped new.now (λ p. NamedAmong p table.now)) (now (S.world shelf.old)))
        (S.world shelf.old) (S.world shelf.new)) }
    ensures ok { OnOk result (IsTrue (S.tells shelf.new)
        → Emptied (IsDropped new.now (λ p. NamedAmong p table.now)) (S.world shelf.old) (S.world shelf.new)) }
    ensures calls { IsTrue (S.tells shelf.new)
        → (S.world shelf.new).clock ≤ (S.world shelf.old).clock + length table.now }
    ensures faults { OnlyFolder (S.faults shelf.old) (S.faults shelf.new) result }
{
    for k in 0..table.len() {
        let run = table[k];
        give_up(run.part, new, shelf)?;
    }
    Ok(())
}

// Gives up the runs of tables that the checkpoint doesn't name.
fn give_up_tables<S: Shelf>(
    tables: &[[Run; 64]],
    new: &Checkpoint,
    shelf: &mut S,
) -> Result<(), Failed>
    ensures content { Told S.tells shelf.old shelf.new
        (Ran (OnlyChanged (IsDropped new.now (λ p. NamedIn p tables.now)) (now (S.world shelf.old)))
        (S.world shelf.old) (S.world shelf.new)) }
    ensures ok { OnOk result (IsTrue (S.tells shelf.new)
        → Emptied (IsDropped new.now (λ p. NamedIn p tables.now)) (S.world shelf.old) (S.world shelf.new)) }
    ensures calls { IsTrue (S.tells shelf.new)
        → (S.world shelf.new).clock ≤ (S.world shelf.old).clock + 64 * length tables.now }
    ensures faults { OnlyFolder (S.faults shelf.old) (S.faults shelf.new) result }
{
    for k in 0..tables.len() {
        let table = tables[k];
        give_up_table(&table, new, shelf)?;
    }
    Ok(())
}

// Gives up the parts from one on that were taken, and that the checkpoint doesn't name.
fn give_up_taken<S: Shelf>(first: u64, new: &Checkpoint, shelf: &mut S) -> Result<(), Failed>
    ensures content { Told S.tells shelf.old shelf.new
        (Ran (OnlyChanged (IsDropped new.now (IsBetween first new.now.next_part)) (now (S.world shelf.old)))
        (S.world shelf.old) (S.world shelf.new)) }
    ensures ok { OnOk result (IsTrue (S.tells shelf.new)
        → Emptied (IsDropped new.now (IsBetween first new.now.next_part)) (S.world shelf.old) (S.world shelf.new)) }
    ensures calls { IsTrue (S.tells shelf.new)
        → (S.world shelf.new).clock ≤ (S.world shelf.old).clock + (new.now.next_part - first) }
    ensures faults { OnlyFolder (S.faults shelf.old) (S.faults shelf.new) result }
{
    let end = new.next_part;
    let mut part = first;
    while part < end {
        give_up(part, new, shelf)?;
        part += 1;
    }
    Ok(())
}
