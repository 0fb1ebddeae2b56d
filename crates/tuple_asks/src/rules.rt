//! The rules of what a checkpoint keeps of a sweep.
ghost use Rattle.std.specs.Prelude.{◌↔◌, IsTrue};
ghost use Rattle.tuple_asks.specs.SavedRules.{AreSavedArcs, AreNoRuns, IsSavedOperand, IsSavedPhase};
ghost use Rattle.tuple_asks.specs.SavedRules.{KeepsRules, IsOfRun, IsOfRuns};

use crate::saved::{SavedArcs, SavedMachine, SavedOperand};
use file_numbers::INNER_PART;
use rec_words::NODE_SIZE;
use run_tiers::Run;
use shelf_model::{FileNo, LONGEST};
use sweep_core::{Checkpoint, is_made_part, is_read_part};

/// How many arcs the longest file has.
const MOST_ARCS: u64 = 1 << 46;

impl SavedMachine {
    /// Whether it may stand in a checkpoint.
    pub fn keeps_rules(&self, point: &Checkpoint) -> bool
        ensures { IsTrue result ↔ KeepsRules point.now self.now }
    {
        self.arcs.keep_rules(point)
            && self.arcs.are_no_runs(point)
            && self.first.keeps_rules(&self.arcs, point)
            && self.second.keeps_rules(&self.arcs, point)
            && self.third.keeps_rules(&self.arcs, point)
            && self.has_phase()
    }

    // Whether no ask was taken before the root is asked for, and the last number is no more than the arcs to nodes.
    fn has_phase(&self) -> bool
        ensures { IsTrue result ↔ IsSavedPhase self.now.arcs self.now.taken self.now.asking }
    {
        let Some(asking) = &self.asking else {
            return self.taken.is_none();
        };
        match &asking.last {
            Some(last) => last.number <= self.arcs.inner_count,
            None => true,
        }
    }
}

impl SavedArcs {
    // Whether two files of the step are made, which are no runs, and neither has more arcs than the longest file.
    fn keep_rules(&self, point: &Checkpoint) -> bool
        ensures { IsTrue result ↔ AreSavedArcs point.now self.now }
    {
        let parts = point.next_part;
        let files = is_made_part(self.inner, point.step, parts)
            && is_made_part(self.ends, point.step, parts)
            && self.inner != self.ends;
        let few = self.inner_count <= MOST_ARCS && self.ends_count <= MOST_ARCS;
        INNER_PART <= parts && files && few
    }
}

impl SavedArcs {
    // Whether neither of the files is a run of the queue.
    fn are_no_runs(&self, point: &Checkpoint) -> bool
        ensures { IsTrue result ↔ AreNoRuns point.now self.now }
    {
        !names(&point.runs[0], point.step, self.inner)
            && !names(&point.runs[0], point.step, self.ends)
    }
}

// Whether a file is that of a run of a step, of which records are left.
fn names(runs: &[Run], step: u32, file: FileNo) -> bool
    ensures { IsTrue result ↔ IsOfRuns step runs.now file }
{
    for slot in 0..runs.len() {
        if is_of_run(&runs[slot], step, file) {
            return true;
        }
    }
    false
}

// Whether it is that of this one.
fn is_of_run(run: &Run, step: u32, file: FileNo) -> bool
    ensures { IsTrue result ↔ IsOfRun step file run.now }
{
    run.next < run.end
        && file
            == FileNo {
                step,
                part: run.part,
            }
}

impl SavedOperand {
    // Whether it is a file that the step may read, of no more nodes than the longest file has, and no file of arcs.
    fn keeps_rules(&self, arcs: &SavedArcs, point: &Checkpoint) -> bool
        ensures { IsTrue result ↔ IsSavedOperand point.now arcs.now self.now }
    {
        let few = match self.read {
            Some(place) => place <= LONGEST / NODE_SIZE,
            None => true,
        };
        let other = self.file != arcs.inner && self.file != arcs.ends;
        is_read_part(self.file, point.step, point.next_part) && other && few
    }
}
