//! A step that finds damage is run once more from its beginning.
ghost use Rattle.std.specs.Prelude.{◌≡◌, ◌≤◌, ◌<◌, [], IsTrue, OnOk, IfErr, length, get_or};
ghost use Rattle.shelf_model.specs.World.{now, file};
ghost use Rattle.shelf_model.specs.Calls.{Told};
ghost use Rattle.shelf_model.specs.Moments.{Ran};
ghost use Rattle.shelf_model.specs.Faults.{OnlyShelf};
ghost use Rattle.catalogue.specs.Counts.{present};
ghost use Rattle.catalogue.specs.Commits.{IsReady};
ghost use Rattle.step_work.specs.Plans.{no_step};
ghost use Rattle.step_work.specs.Tuples.{sweeps};
ghost use Rattle.sound_image.specs.Files.{checkpoint_gate};
ghost use Rattle.sweep_checkpoint.specs.Loads.{IsLoadFault};
ghost use Rattle.step_engine.specs.OneFile.{OnlyFile};
ghost use Rattle.script_runner.specs.Anew.{found_damage, MakesStep};

use crate::given_job::Job;
use bool_tables::Step;
use catalogue::Entry;
use file_numbers::checkpoint_gate;
use rec_words::Rec;
use shelf_model::{Shelf, SortFault, StreamFault};
use step_engine::run_step;
use sweep_checkpoint::load;

/// Runs the step of that number, behind those that are committed. A step that sweeps and finds damage may have found it
/// in what an earlier run left of it: so it is run once more, from its beginning, unless its last checkpoint is damaged
/// itself, which is named then.
pub(crate) fn run_or_begin_anew<S: Shelf>(
    job: &Job,
    number: u32,
    room: &mut [Rec],
    shelf: &mut S,
) -> Result<Entry, SortFault>
    requires within { number < length job.now.steps.now }
    requires room { (16384 ≤ length room.old) × (length room.old ≤ 4194304) }
    requires ready { IsTrue (S.tells shelf.old) → IsReady number (now (S.world shelf.old)).folder }
    ensures makes { MakesStep S.tells S.world S.faults job.now.n job.now.text.now number
        (get_or job.now.steps.now number no_step) shelf.old shelf.new result }
{
    let planned = &job.steps[number as usize];
    let fault = match run_step(job.n, job.text, planned, number, room, shelf) {
        Ok(entry) => return Ok(entry),
        Err(fault) => fault,
    };
    if !found_damage(planned.step, fault) {
        return Err(fault);
    }
    match set_aside(number, shelf) {
        Ok(()) => run_step(job.n, job.text, planned, number, room, shelf),
        Err(fault) => Err(SortFault::from(fault)),
    }
}

/// Sets aside what is gated of a step, so that it begins anew when it is run. A last checkpoint that is damaged is
/// named instead, and stays.
fn set_aside<S: Shelf>(number: u32, shelf: &mut S) -> Result<(), StreamFault>
    ensures content { Told S.tells shelf.old shelf.new
        (Ran (OnlyFile (checkpoint_gate number) (now (S.world shelf.old))) (S.world shelf.old) (S.world shelf.new)) }
    ensures empty { OnOk result (IsTrue (S.tells shelf.new) →
        (file (S.world shelf.new) (checkpoint_gate number)).bytes ≡ []) }
    ensures damaged { IfErr result (λ fault. IsTrue (S.tells shelf.new)
        → IsLoadFault number (present (now (S.world shelf.old)).folder) fault) }
    ensures faults { OnlyShelf (S.faults shelf.old) (S.faults shelf.new) result }
{
    load(number, shelf)?;
    shelf.cut(checkpoint_gate(number), 0)?;
    Ok(())
}

/// Whether a step that has that fault sweeps, and found damage.
fn found_damage(step: Step, fault: SortFault) -> bool
    ensures { result ≡ found_damage step fault }
{
    match fault {
        SortFault::Damaged { .. } => sweeps(step),
        SortFault::Shelf | SortFault::RunsSpent => false,
    }
}

/// Whether the step reads its operands' diagrams node by node.
fn sweeps(step: Step) -> bool
    ensures { result ≡ sweeps step }
{
    match step {
        Step::Const { .. } | Step::Var { .. } | Step::Drop { .. } | Step::Size { .. } => false,
        _ => true,
    }
}
