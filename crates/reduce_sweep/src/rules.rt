//! The rules that the checkpoints of reductions keep.
ghost use Rattle.std.specs.Prelude.{◌≡◌, ◌≢◌, ◌↔◌, ℕ, ◌<◌, IsTrue, All};
ghost use Rattle.run_tiers.specs.Tables.{IsInUse, IsTable};
ghost use Rattle.level_queue.specs.Tables.{table_at};
ghost use Rattle.reduce_sweep.specs.Sweeps.{IsPhaseAt, IsNumberedAt};
ghost use Rattle.reduce_sweep.specs.SavedTables.{tables_of, IsSavedTable, AreSavedTables, IsPicked};
ghost use Rattle.reduce_sweep.specs.Resumes.{IsArcFile, IsKeptAtEnd, IsKeptAt, KeepsRules, Fits, Makes, ReadsArcsOf};

use crate::phase::{Numbered, Phase};
use crate::reduce::ReduceSweep;
use crate::saved::Saved;
use file_numbers::INNER_PART;
use run_tiers::{Parts, Run, RunTable};
use saved_words::value_of;
use shelf_model::FileNo;
use sweep_core::{Checkpoint, is_made_part, is_read_part};

/// The deepest level of a node.
const DEEPEST: u32 = 65_534;

/// The most arcs of a file.
const MOST_ARCS: u64 = 1 << 46;

/// How many tables a checkpoint has of a reduction that goes on.
const TABLES: usize = 5;

impl<'r> ReduceSweep<'r> {
    /// Whether a checkpoint keeps the rules of a reduction's. It takes no memory.
    pub fn fits(point: &Checkpoint) -> bool
        ensures { IsTrue result ↔ Fits point.now }
    {
        let Some(saved) = value_of::<Saved>(&point.carry) else {
            return false;
        };
        let Some(phase) = saved.phase.phase() else {
            return false;
        };
        saved.keeps_rules(&phase, point)
    }

    /// Whether a checkpoint says that the nodes of a diagram of `n` variables are put into that file. It takes no
    /// memory.
    pub fn names(point: &Checkpoint, out: FileNo, n: u32) -> bool
        ensures { IsTrue result ↔ Makes point.now out n }
    {
        match value_of::<Saved>(&point.carry) {
            Some(saved) => saved.out == out && saved.variables == n,
            None => false,
        }
    }

    /// Whether a checkpoint says that the arcs which are reduced stand in files of that step, also where none are left.
    /// It takes no memory.
    pub fn reads_arcs_of(point: &Checkpoint, step: u32) -> bool
        ensures { IsTrue result ↔ ReadsArcsOf point.now step }
    {
        match value_of::<Saved>(&point.carry) {
            Some(saved) => saved.arcs.inner.step == step && saved.arcs.ends.step == step,
            None => false,
        }
    }
}

impl Saved {
    // Whether it may stand in a checkpoint, where that is its phase.
    fn keeps_rules(&self, phase: &Phase, point: &Checkpoint) -> bool
        ensures { IsTrue result ↔ KeepsRules point.now self.now phase.now }
    {
        let arcs = self.arcs;
        let made = INNER_PART <= point.next_part
            && is_made_part(self.out, point.step, point.next_part)
            && arcs.inner != self.out
            && arcs.ends != self.out;
        made && is_arc_file(arcs.inner, arcs.inner_count, point)
            && is_arc_file(arcs.ends, arcs.ends_count, point)
            && self.is_in(phase)
            && self.keeps_at(phase, point)
    }

    // Whether it may be in that phase.
    fn is_in(&self, phase: &Phase) -> bool
        ensures { IsTrue result ↔ IsPhaseAt self.now.level self.now.kept phase.now }
    {
        match phase {
            Phase::Collect(_source) => self.level <= DEEPEST,
            Phase::Number(numbered) => is_numbered(numbered, self.level, self.kept),
            _ => true,
        }
    }

    // Whether that is kept which is kept in that phase.
    fn keeps_at(&self, phase: &Phase, point: &Checkpoint) -> bool
        ensures { IsTrue result ↔ IsKeptAt phase.now point.now self.now }
    {
        match phase {
            Phase::Ended(count) => self.keeps_end(*count, point),
            _ => has_tables(self.out.part, point),
        }
    }

    // Whether so many nodes are kept with the trailer, and nothing else is.
    fn keeps_end(&self, count: u64, point: &Checkpoint) -> bool
        ensures { IsTrue result ↔ IsKeptAtEnd point.now self.now count }
    {
        let all = self.kept > 0 && self.kept - 1 == count;
        let none = self.arcs.inner_count == 0 && self.arcs.ends_count == 0;
        all && none && point.tables == 0
    }
}

// Whether so many arcs may be left of a file.
fn is_arc_file(file: FileNo, count: u64, point: &Checkpoint) -> bool
    ensures { IsTrue result ↔ IsArcFile point.now file count }
{
    let is_made = file.step != point.step || file.part < point.next_part;
    let is_read = count == 0 || is_read_part(file, point.step, point.next_part);
    is_made && is_read && count <= MOST_ARCS
}

// Whether rows of a level may have numbers, where so many nodes are kept.
fn is_numbered(numbered: &Numbered, level: u32, kept: u64) -> bool
    ensures { IsTrue result ↔ IsNumberedAt level kept numbered.now }
{
    let some = numbered.last.is_none() || numbered.number >= 1;
    level <= DEEPEST && numbered.number <= kept && some
}

// Whether the tables are those of a reduction that goes on, and name no part of that number.
fn has_tables(part: u64, point: &Checkpoint) -> bool
    ensures { IsTrue result ↔ AreSavedTables point.now part }
{
    if point.tables != TABLES as u32 {
        return false;
    }
    let second = table_of(point, 1);
    let third = table_of(point, 2);
    are_lists(part, point) && second.is_empty() && third.is_empty()
}

// Whether each of five tables can be read, and names no part of that number.
fn are_lists(part: u64, point: &Checkpoint) -> bool
    requires count { point.now.tables ≡ 5 }
    ensures { IsTrue result ↔ ((k : ℕ) → k < 5 →
        IsSavedTable point.now part (table_at (tables_of point.now) k)) }
{
    for k in 0..TABLES {
        let table = table_of(point, k);
        if !is_list(&table, part, point) {
            return false;
        }
    }
    true
}

// Whether a table can be read, and names no part of that number.
fn is_list(table: &RunTable, part: u64, point: &Checkpoint) -> bool
    ensures { IsTrue result ↔ IsSavedTable point.now part table.now }
{
    let parts = Parts {
        step: point.step,
        next: point.next_part,
    };
    table.is_lawful(&parts) && is_apart(table, part)
}

// Whether no run of a table of which records are left has that part.
fn is_apart(table: &RunTable, part: u64) -> bool
    requires read { IsTable table.now }
    ensures { IsTrue result ↔ All (λ r. IsInUse r → r.part ≢ part) table.now.runs }
{
    for slot in 0..table.runs.len() {
        let run = table.runs[slot];
        if !is_other(&run, part) {
            return false;
        }
    }
    true
}

// Whether a run of which records are left has another part.
fn is_other(run: &Run, part: u64) -> bool
    ensures { IsTrue result ↔ (IsInUse run.now → run.now.part ≢ part) }
{
    run.end <= run.next || run.part != part
}

/// The table of that number, or one without runs where it isn't in use.
pub(crate) fn table_of(point: &Checkpoint, k: usize) -> RunTable
    requires few { k < 5 }
    ensures { IsPicked point.now k result }
{
    if k as u32 >= point.tables {
        return RunTable::EMPTY;
    }
    RunTable {
        runs: point.runs[k],
    }
}
