//! A reading of a canonical file that begins at a place that was saved.
ghost use Rattle.std.specs.Prelude.{◌≡◌, ◌≢◌, ◌+◌, ◌-◌, ◌≤◌, Bool, IsTrue, List, IfOk, IfErr, length, take};
ghost use Rattle.shelf_model.specs.Calls.{Told};
ghost use Rattle.shelf_model.specs.Moments.{Ran, Stays};
ghost use Rattle.shelf_model.specs.World.{now};
ghost use Rattle.canon_file.specs.Canon.{canon_nodes};
ghost use Rattle.node_file.specs.Canonical.{IsCanonicalFile};
ghost use Rattle.node_file.specs.Readers.{file_of, trailer_of, left_of, loads_of, AreLeft};
ghost use Rattle.run_tiers.specs.Faults.{OnlySortShelf};
ghost use Rattle.sweep_core.specs.Saving.{reads_of};
ghost use Rattle.sweep_core.specs.Sweeps.{IsNoDamage};
ghost use Rattle.node_reading.specs.Reading.{bytes_of, count_of, IsBegun, IsReading};
ghost use Rattle.restrict_eval.specs.Canonical.{IsCanonical};
ghost use Rattle.node_reading.specs.Resuming.{IsPlaceFault};

use node_file::NodeReader;
use node_file::laws::canonical_files_are_read;
use node_reading::{Unread, resume_at};
use rec_words::Rec;
use shelf_model::{Shelf, SortFault};

/// Begins before the nodes that stand at a place and behind it, each of which is read, eight of them at least by one
/// call of the folder. A file that has fewer nodes shows that the last checkpoint of the step is damaged.
pub(crate) fn begin_at<'r, S: Shelf>(
    unread: Unread,
    n: u32,
    step: u32,
    window: &'r mut [Rec],
    shelf: &mut S,
) -> Result<NodeReader<'r>, SortFault>
    requires enough { 8 ≤ length window.old }
    ensures file { IfOk result (λ r. file_of r ≡ unread.file) }
    ensures variables { IfOk result (λ r. (trailer_of r).n ≡ n) }
    ensures begun { IfOk result IsBegun }
    ensures place { IfOk result (λ r. left_of r ≡ unread.place) }
    ensures reads { IfOk result (λ r. IsTrue (S.tells shelf.new) → IsReading r (S.world shelf.new)) }
    ensures canonical { IfOk result (λ r. IsTrue (S.tells shelf.new) → (t : List Bool) →
        IsCanonicalFile n t unread.file (S.world shelf.old) → IsCanonical n t r (S.world shelf.new)) }
    ensures left { IfOk result (λ r. IsTrue (S.tells shelf.new) → (t : List Bool) →
        IsCanonicalFile n t unread.file (S.world shelf.old) →
        AreLeft r (bytes_of r (S.world shelf.new)) (take unread.place (canon_nodes n t))) }
    ensures undamaged { IfErr result (λ e. IsTrue (S.tells shelf.new) → (t : List Bool) →
        IsCanonicalFile n t unread.file (S.world shelf.old) → unread.place ≤ length (canon_nodes n t) →
        IsNoDamage e) }
    ensures damage { IfErr result (λ e. IsTrue (S.tells shelf.new) →
        IsPlaceFault n step unread (reads_of (S.world shelf.old)) e) }
    ensures content { Told S.tells shelf.old shelf.new
        (Ran (Stays (now (S.world shelf.old))) (S.world shelf.old) (S.world shelf.new)) }
    ensures calls { IsTrue (S.tells shelf.new) → (S.world shelf.new).clock
        ≤ (S.world shelf.old).clock + 3
        + loads_of (count_of (reads_of (S.world shelf.old) unread.file) - unread.place) }
    ensures kind { IfErr result (λ e. e ≢ SortFault.RunsSpent) }
    ensures faults { OnlySortShelf (S.faults shelf.old) (S.faults shelf.new) result }
{
    // The file of a table holds the table's nodes.
    canonical_files_are_read();
    let nodes = resume_at(unread, n, step, window, shelf)?;
    Ok(nodes)
}
