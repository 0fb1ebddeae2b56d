//! The tables of checkpoints.
ghost use Rattle.std.specs.Prelude.{◌≡◌, ◌↔◌, ◌<◌, IsTrue};
ghost use Rattle.top_down_sweep.specs.Resumes.{HasQueue};
ghost use Rattle.top_down_sweep.specs.Resumes as resumes;
ghost use Rattle.tuple_asks.specs.SavedRules as saved;

use run_merge::{Parts, RunTable};
use sweep_core::Checkpoint;

/// Whether a checkpoint has the three tables of a queue, which its parts can serve.
pub(crate) fn has_queue(point: &Checkpoint) -> bool
    ensures { IsTrue result ↔ HasQueue point.now }
{
    let parts = Parts {
        step: point.step,
        next: point.next_part,
    };
    point.tables == 3
        && table_in(point, 0).is_lawful(&parts)
        && table_in(point, 1).is_empty()
        && table_in(point, 2).is_empty()
}

/// The tables of its queue.
pub(crate) fn queue_tables(point: &Checkpoint) -> [RunTable; 3]
    ensures { result ≡ resumes.queue_tables point.now }
{
    [table_in(point, 0), table_in(point, 1), table_in(point, 2)]
}

// The table of that number.
fn table_in(point: &Checkpoint, k: usize) -> RunTable
    requires { k < 9 }
    ensures { result ≡ saved.table_in point.now k }
{
    RunTable {
        runs: point.runs[k],
    }
}
