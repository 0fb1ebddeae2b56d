//! Checkpoints that a sweep fills: one without runs, or one with the tables of its runs.
ghost use Rattle.std.specs.Prelude.{◌≡◌, ◌≤◌, length, map};
ghost use Rattle.run_tiers.specs.declared.run.RunTable.{RunTable};
ghost use Rattle.sweep_core.specs.Saving.{SameHead, IsFilled};
ghost use Rattle.sweep_core.specs.Tables.{tables_in_use};

use crate::Checkpoint;
use run_tiers::{Run, RunTable};

/// Fills a checkpoint of a sweep that has no runs: its words, and the part number from which on none was taken.
pub fn fill_without_runs(into: &mut Checkpoint, next_part: u64, carry: [u64; 250])
    ensures head { SameHead into.old into.new }
    ensures filled { IsFilled next_part into.new }
    ensures tables { into.new.tables ≡ 0 }
    ensures carry { into.new.carry ≡ carry }
    ensures many { length into.new.runs ≡ 9 }
{
    into.next_part = next_part;
    into.tables = 0;
    into.carry = carry;
    into.runs = [[Run::NONE; 64]; 9];
}

/// Fills a checkpoint of a sweep whose runs these tables name, at most nine of them: its words, and the part number
/// from which on none was taken.
pub fn fill_with_runs(into: &mut Checkpoint, next_part: u64, carry: [u64; 250], tables: &[RunTable])
    requires few { length tables.now ≤ 9 }
    ensures head { SameHead into.old into.new }
    ensures next { into.new.next_part ≡ next_part }
    ensures count { into.new.tables ≡ length tables.now }
    ensures carry { into.new.carry ≡ carry }
    ensures runs { tables_in_use into.new ≡ map (λ (table : RunTable). table.runs) tables.now }
{
    fill_without_runs(into, next_part, carry);
    for k in 0..tables.len() {
        into.runs[k] = tables[k].runs;
    }
    into.tables = tables.len() as u32;
}
