//! A reading that begins at a place that was saved.
ghost use Rattle.std.specs.Prelude.{◌≡◌, ◌≢◌, ◌+◌, ◌-◌, ◌≤◌, ℕ, IsTrue, List, IfOk, IfErr, length, take};
ghost use Rattle.rec_words.specs.declared.node.Node.{Node};
ghost use Rattle.shelf_model.specs.Calls.{Told};
ghost use Rattle.shelf_model.specs.Moments.{Ran, Stays};
ghost use Rattle.shelf_model.specs.World.{now};
ghost use Rattle.node_file.specs.Nodes.{HasNodes};
ghost use Rattle.node_file.specs.Readers.{file_of, trailer_of, left_of, loads_of, AreLeft};
ghost use Rattle.run_tiers.specs.Faults.{OnlySortShelf};
ghost use Rattle.sweep_core.specs.Saving.{reads_of};
ghost use Rattle.sweep_core.specs.Sweeps.{IsNoDamage};
ghost use Rattle.node_reading.specs.Reading.{bytes_of, count_of, IsBegun, IsReading};
ghost use Rattle.node_reading.specs.Resuming.{IsPlaceFault};

use file_numbers::checkpoint_file;
use node_file::NodeReader;
use rec_words::Rec;
use shelf_model::{FileNo, Shelf, SortFault};
use sweep_core::checkpoint_place;

/// A file, and how many of its nodes weren't given yet.
#[derive(Clone, Copy, Debug, PartialEq, Eq)]
pub struct Unread {
    pub file: FileNo,
    pub place: u64,
}

/// Begins before the nodes that stand at a place and behind it, each of which is read, eight of them at least by one
/// call of the folder. A file that has fewer nodes shows that the last checkpoint of the step is damaged.
pub fn resume_at<'r, S: Shelf>(
    unread: Unread,
    n: u32,
    step: u32,
    window: &'r mut [Rec],
    shelf: &mut S,
) -> Result<NodeReader<'r>, SortFault>
    requires enough { 8 ≤ length window.old }
    ensures file { IfOk result (λ r. file_of r ≡ unread.file) }
    ensures variables { IfOk result (λ r. (trailer_of r).n ≡ n) }
    ensures begun { IfOk result IsBegun }
    ensures place { IfOk result (λ r. left_of r ≡ unread.place) }
    ensures within { IfOk result (λ r. unread.place ≤ (trailer_of r).count) }
    ensures reads { IfOk result (λ r. IsTrue (S.tells shelf.new) → IsReading r (S.world shelf.new)) }
    ensures nodes { IfOk result (λ r. IsTrue (S.tells shelf.new) → (root : ℕ) → (xs : List Node) →
        HasNodes n root xs (reads_of (S.world shelf.old) unread.file) →
        ((trailer_of r).root ≡ root) × ((trailer_of r).count ≡ length xs)
        × AreLeft r (bytes_of r (S.world shelf.new)) (take unread.place xs)) }
    ensures undamaged { IfErr result (λ e. IsTrue (S.tells shelf.new) → (root : ℕ) → (xs : List Node) →
        HasNodes n root xs (reads_of (S.world shelf.old) unread.file) → unread.place ≤ length xs → IsNoDamage e) }
    ensures damage { IfErr result (λ e. IsTrue (S.tells shelf.new) →
        IsPlaceFault n step unread (reads_of (S.world shelf.old)) e) }
    ensures content { Told S.tells shelf.old shelf.new
        (Ran (Stays (now (S.world shelf.old))) (S.world shelf.old) (S.world shelf.new)) }
    ensures calls { IsTrue (S.tells shelf.new) → (S.world shelf.new).clock
        ≤ (S.world shelf.old).clock + 3
        + loads_of (count_of (reads_of (S.world shelf.old) unread.file) - unread.place) }
    ensures kind { IfErr result (λ e. e ≢ SortFault.RunsSpent) }
    ensures faults { OnlySortShelf (S.faults shelf.old) (S.faults shelf.new) result }
{
    let nodes = NodeReader::resume(unread.file, n, unread.place, window, shelf)?;
    if nodes.place() < unread.place {
        let at = checkpoint_place(step, shelf)?;
        return Err(SortFault::Damaged {
            file: checkpoint_file(step),
            at,
        });
    }
    Ok(nodes)
}
