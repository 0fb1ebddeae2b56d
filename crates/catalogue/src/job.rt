//! The job that a folder stores: a new one is stored, and another one refused.
ghost use Rattle.std.specs.Prelude.{◌≡◌, ◌≢◌, ◌+◌, ◌<◌, ◌≤◌, [], length, false, IsTrue, OnOk, IfOk, Err};
ghost use Rattle.shelf_model.specs.File.{firm_file};
ghost use Rattle.shelf_model.specs.World.{now, file};
ghost use Rattle.shelf_model.specs.Calls.{Told};
ghost use Rattle.shelf_model.specs.Moments.{Ran, Stays};
ghost use Rattle.shelf_model.specs.Faults.{OnlyFolder};
ghost use Rattle.catalogue.specs.Files.{job_file, job_gate, catalogue, step_gate};
ghost use Rattle.catalogue.specs.Counts.{present};
ghost use Rattle.file_writes.specs.Writes.{pieces};
ghost use Rattle.catalogue.specs.Faults.{OnlyAttach};
ghost use Rattle.catalogue.specs.Standings.{standing_of, counted_standing, AreGatesSure, IsAttached};
ghost use Rattle.catalogue.specs.Standings.{DuringSyncs, DuringStore, DuringAttach};

use crate::compare::shared_with_stored;
use crate::fault::AttachFault;
use crate::looking::count_at_most;
use crate::standing::Standing;
use file_numbers::{JOB, JOB_GATE, STEP_GATE};
use file_writes::{lengthen, replace_from};
use shelf_model::{Failed, Shelf};

/// Attaches a job of that many steps to the folder: stores it where none is stored.
///
/// The budget, at the places 8 to 11 of a job's bytes, doesn't tell one job from another: a stored job stays as the run
/// that stored it wrote it, and a run with another budget goes on with it.
///
/// A gate of steps that stands without a job counts nothing. It is emptied before a job is stored.
///
/// Refuses where a call of the folder fails (`Shelf`), where the stored job differs in its length or outside the budget
/// (`OtherJob`), and where the gate counts more steps than the job has, or more than the catalogue has entries
/// (`Damaged`). Each image is an old one then, or, where no job was stored, one in which this job is stored whole or
/// not at all.
pub fn attach<S: Shelf>(job: &[u8], steps: u32, shelf: &mut S) -> Result<Standing, AttachFault>
    ensures content { Told S.tells shelf.old shelf.new
        (Ran (DuringAttach job.now (now (S.world shelf.old)))
        (S.world shelf.old) (S.world shelf.new)) }
    ensures answer { IsTrue (S.tells shelf.new) → result ≢ Err AttachFault.Shelf
        → result ≡ standing_of job.now steps (present (now (S.world shelf.old)).folder) }
    ensures ok { IfOk result (λ s. IsTrue (S.tells shelf.new)
        → IsAttached job.now s.done (now (S.world shelf.new)).folder) }
    ensures given { IfOk result (λ s. IsTrue (S.tells shelf.new) → IsTrue s.fresh
        → (file (S.world shelf.new) job_file).bytes ≡ job.now) }
    ensures calls { IsTrue (S.tells shelf.new)
        → (S.world shelf.new).clock ≤ (S.world shelf.old).clock + 9 + pieces (length job.now) }
    ensures few_calls { IfOk result (λ s. IsTrue (S.tells shelf.new) → s.fresh ≡ false
        → (S.world shelf.new).clock ≤ (S.world shelf.old).clock + 7 + pieces (length job.now)) }
    ensures faults { OnlyAttach (S.faults shelf.old) (S.faults shelf.new) result }
{
    if make_gates_sure(shelf)? == 0 {
        store(job, shelf)?;
        return Ok(Standing {
            fresh: true,
            done: 0,
        });
    }
    resume(job, steps, shelf)
}

/// Makes both gates sure, and answers the length of the job gate.
pub(crate) fn make_gates_sure<S: Shelf>(shelf: &mut S) -> Result<u64, Failed>
    ensures content { Told S.tells shelf.old shelf.new
        (Ran (DuringSyncs (now (S.world shelf.old))) (S.world shelf.old) (S.world shelf.new)) }
    ensures ok { IfOk result (λ n. IsTrue (S.tells shelf.new)
        → (n ≡ length (file (S.world shelf.new) job_gate).bytes)
        × AreGatesSure (now (S.world shelf.new)).folder) }
    ensures calls { IsTrue (S.tells shelf.new)
        → (S.world shelf.new).clock ≤ (S.world shelf.old).clock + 3 }
    ensures faults { OnlyFolder (S.faults shelf.old) (S.faults shelf.new) result }
{
    // Until a gate is made sure, an image may have another length of it than a read gives.
    shelf.sync(JOB_GATE)?;
    shelf.sync(STEP_GATE)?;
    shelf.len(JOB_GATE)
}

// Stores a job in a folder that has none.
fn store<S: Shelf>(job: &[u8], shelf: &mut S) -> Result<(), Failed>
    requires unstored { IsTrue (S.tells shelf.old)
        → file (S.world shelf.old) job_gate ≡ firm_file [] }
    ensures content { Told S.tells shelf.old shelf.new
        (Ran (DuringStore job.now (file (S.world shelf.old) step_gate).reach
        (now (S.world shelf.old))) (S.world shelf.old) (S.world shelf.new)) }
    ensures ok { OnOk result (IsTrue (S.tells shelf.new)
        → IsAttached job.now 0 (now (S.world shelf.new)).folder) }
    ensures given { OnOk result (IsTrue (S.tells shelf.new)
        → (file (S.world shelf.new) job_file).bytes ≡ job.now) }
    ensures calls { IsTrue (S.tells shelf.new)
        → (S.world shelf.new).clock ≤ (S.world shelf.old).clock + 6 + pieces (length job.now) }
    ensures faults { OnlyFolder (S.faults shelf.old) (S.faults shelf.new) result }
{
    // What stands in the gate of steps would count steps of this job.
    replace_from(STEP_GATE, 0, &[], shelf)?;
    replace_from(JOB, 0, job, shelf)?;
    lengthen(JOB_GATE, 0, shelf)
}

// Compares the stored job with this one, and answers how many of its steps are committed.
fn resume<S: Shelf>(job: &[u8], steps: u32, shelf: &mut S) -> Result<Standing, AttachFault>
    requires sure { IsTrue (S.tells shelf.old) → AreGatesSure (now (S.world shelf.old)).folder }
    requires stored { IsTrue (S.tells shelf.old)
        → 0 < length (file (S.world shelf.old) job_gate).bytes }
    ensures content { Told S.tells shelf.old shelf.new
        (Ran (DuringSyncs (now (S.world shelf.old))) (S.world shelf.old) (S.world shelf.new)) }
    ensures answer { IsTrue (S.tells shelf.new) → result ≢ Err AttachFault.Shelf
        → result ≡ standing_of job.now steps (present (now (S.world shelf.old)).folder) }
    ensures ok { IfOk result (λ s. IsTrue (S.tells shelf.new)
        → IsAttached job.now s.done (now (S.world shelf.new)).folder) }
    ensures again { IfOk result (λ s. s.fresh ≡ false) }
    ensures calls { IsTrue (S.tells shelf.new)
        → (S.world shelf.new).clock ≤ (S.world shelf.old).clock + 4 + pieces (length job.now) }
    ensures faults { OnlyAttach (S.faults shelf.old) (S.faults shelf.new) result }
{
    shelf.sync(JOB)?;
    let size = shelf.len(JOB)?;
    let same = shared_with_stored(job, size, shelf)?;
    if same != size || size != job.len() as u64 {
        return Err(AttachFault::OtherJob { at: same });
    }
    count_steps(steps, shelf)
}

// How many steps are committed, where the gate and the catalogue agree with the job.
fn count_steps<S: Shelf>(steps: u32, shelf: &mut S) -> Result<Standing, AttachFault>
    ensures content { Told S.tells shelf.old shelf.new
        (Ran (Stays (now (S.world shelf.old))) (S.world shelf.old) (S.world shelf.new)) }
    ensures answer { IsTrue (S.tells shelf.new) → result ≢ Err AttachFault.Shelf
        → result ≡ counted_standing steps (length (file (S.world shelf.old) step_gate).bytes)
        (length (file (S.world shelf.old) catalogue).bytes) }
    ensures again { IfOk result (λ s. s.fresh ≡ false) }
    ensures calls { IsTrue (S.tells shelf.new)
        → (S.world shelf.new).clock ≤ (S.world shelf.old).clock + 2 }
    ensures faults { OnlyAttach (S.faults shelf.old) (S.faults shelf.new) result }
{
    Ok(count_at_most(steps, shelf)?)
}
