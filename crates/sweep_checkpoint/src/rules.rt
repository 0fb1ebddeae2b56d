//! The rules that a checkpoint's runs keep.
ghost use Rattle.std.specs.Prelude.{◌≡◌, ◌↔◌, IsTrue, All};
ghost use Rattle.sweep_checkpoint.specs.Rules.{IsSlot};

use run_tiers::Run;

/// The most records of a run.
const MOST_RECORDS: u64 = 1 << 44;

// Whether a slot has no run, or one of a part that was taken, with no more taken from it than it has.
fn keeps_slot(run: &Run, next_part: u64) -> bool
    ensures { IsTrue result ↔ IsSlot next_part run.now }
{
    let unused = run.part == 0 && run.next == 0 && run.end == 0;
    let taken = 3 <= run.part && run.part < next_part;
    unused || (taken && run.next <= run.end && run.end <= MOST_RECORDS)
}

// Whether each slot of a table is so.
fn keeps_table(table: &[Run], next_part: u64) -> bool
    ensures { IsTrue result ↔ All (IsSlot next_part) table.now }
{
    for k in 0..table.len() {
        let run = table[k];
        if !keeps_slot(&run, next_part) {
            return false;
        }
    }
    true
}

/// Whether each slot of some tables has no run, or one of a part that was taken.
pub(crate) fn keeps_tables(tables: &[[Run; 64]], next_part: u64) -> bool
    ensures { IsTrue result ↔ All (All (IsSlot next_part)) tables.now }
{
    for k in 0..tables.len() {
        let table = tables[k];
        if !keeps_table(&table, next_part) {
            return false;
        }
    }
    true
}
