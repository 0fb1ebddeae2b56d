//! Which diagrams the committed steps drop.
ghost use Rattle.std.specs.Prelude.{◌≡◌, ℕ, ◌+◌, ◌<◌, ◌≤◌, ◌||◌, false, length, slice_index_or, IsTrue, OnOk, IfErr};
ghost use Rattle.shelf_model.specs.World.{now};
ghost use Rattle.shelf_model.specs.Calls.{Told};
ghost use Rattle.shelf_model.specs.Moments.{Ran, Stays};
ghost use Rattle.shelf_model.specs.Faults.{OnlyShelf};
ghost use Rattle.catalogue.specs.Counts.{count_in, present};
ghost use Rattle.diagram_list.specs.Listing.{drops};
ghost use Rattle.diagram_list.specs.Lists.{WereRead, LacksEntry};

use catalogue::{Entry, entry};
use shelf_model::{Shelf, StreamFault};

/// Reads the entries of all committed steps, and marks the steps whose diagrams they drop.
pub(crate) fn mark_dropped<S: Shelf>(
    done: u32,
    dropped: &mut [bool],
    shelf: &mut S,
) -> Result<(), StreamFault>
    requires committed { IsTrue (S.tells shelf.old)
        → done ≡ count_in (present (now (S.world shelf.old)).folder) }
    ensures content { Told S.tells shelf.old shelf.new
        (Ran (Stays (now (S.world shelf.old))) (S.world shelf.old) (S.world shelf.new)) }
    ensures ok { OnOk result (IsTrue (S.tells shelf.new)
        → WereRead done (present (now (S.world shelf.old)).folder) dropped.new) }
    ensures err { IfErr result (λ fault. IsTrue (S.tells shelf.new)
        → LacksEntry done (present (now (S.world shelf.old)).folder) fault) }
    ensures len { length dropped.new ≡ length dropped.old }
    ensures calls { IsTrue (S.tells shelf.new)
        → (S.world shelf.new).clock ≤ (S.world shelf.old).clock + done }
    ensures faults { OnlyShelf (S.faults shelf.old) (S.faults shelf.new) result }
{
    dropped.fill(false);
    for k in 0..done {
        let made = entry(k, shelf)?;
        mark(&made, dropped);
    }
    Ok(())
}

/// Marks the step that an entry drops, if it drops one.
fn mark(made: &Entry, dropped: &mut [bool])
    ensures marks { (k : ℕ) → k < length dropped.old
        → slice_index_or dropped.new k false ≡ (slice_index_or dropped.old k false || drops k made.now) }
    ensures len { length dropped.new ≡ length dropped.old }
{
    if made.kind == 2 && made.count < dropped.len() as u64 {
        dropped[made.count as usize] = true;
    }
}
