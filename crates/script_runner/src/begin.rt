//! The beginning of a run: its job is attached.
ghost use Rattle.std.specs.Prelude.{◌≡◌, ◌≢◌, ◌+◌, ◌≤◌, length, IsTrue, IfOk, IfErr, Ok, Err};
ghost use Rattle.shelf_model.specs.World.{now};
ghost use Rattle.shelf_model.specs.Calls.{Told};
ghost use Rattle.shelf_model.specs.Moments.{Ran, Stays};
ghost use Rattle.shelf_model.specs.Faults.{OnlyFolder};
ghost use Rattle.file_writes.specs.Writes.{pieces};
ghost use Rattle.catalogue.specs.Counts.{present};
ghost use Rattle.catalogue.specs.Faults.{OnlyAttach};
ghost use Rattle.catalogue.specs.Standings.{standing_of, DuringAttach, IsAttached};
ghost use Rattle.script_runner.specs.Begun.{IsAsked};
ghost use Rattle.script_runner.specs.Calls.{IsGated};

use crate::given_job::Job;
use catalogue::{AttachFault, Standing, attach};
use file_numbers::checkpoint_gate;
use shelf_model::{Failed, Shelf};

/// How a job stands that was attached, and whether its run goes on with a step.
#[derive(Clone, Copy, Debug, PartialEq, Eq)]
pub(crate) struct Begun {
    pub(crate) standing: Standing,
    /// Whether the first step that isn't committed has a gated checkpoint.
    pub(crate) gone_on: bool,
}

/// Attaches the job, and asks whether something is gated of the first of its steps that isn't committed. Where no job
/// was stored that isn't asked: of no step of such a folder anything is gated, where it is sound for the job.
pub(crate) fn begin<S: Shelf>(job: &Job, shelf: &mut S) -> Result<Begun, AttachFault>
    ensures content { Told S.tells shelf.old shelf.new
        (Ran (DuringAttach job.now.bytes.now (now (S.world shelf.old))) (S.world shelf.old) (S.world shelf.new)) }
    ensures answer { IfOk result (λ begun. IsTrue (S.tells shelf.new) → Ok begun.standing
        ≡ standing_of job.now.bytes.now (length job.now.steps.now) (present (now (S.world shelf.old)).folder)) }
    ensures refused { IfErr result (λ fault. IsTrue (S.tells shelf.new) → fault ≢ AttachFault.Shelf → Err fault
        ≡ standing_of job.now.bytes.now (length job.now.steps.now) (present (now (S.world shelf.old)).folder)) }
    ensures ok { IfOk result (λ begun. IsTrue (S.tells shelf.new)
        → IsAttached job.now.bytes.now begun.standing.done (now (S.world shelf.new)).folder) }
    ensures asked { IfOk result (λ begun. IsTrue (S.tells shelf.new)
        → IsAsked begun (length job.now.steps.now) (now (S.world shelf.new)).folder) }
    ensures calls { IsTrue (S.tells shelf.new)
        → (S.world shelf.new).clock ≤ (S.world shelf.old).clock + 9 + pieces (length job.now.bytes.now) }
    ensures faults { OnlyAttach (S.faults shelf.old) (S.faults shelf.new) result }
{
    let standing = attach(job.bytes, job.steps.len() as u32, shelf)?;
    if standing.fresh || standing.done as usize == job.steps.len() {
        return Ok(Begun {
            standing,
            gone_on: false,
        });
    }
    let gone_on = is_gated(standing.done, shelf)?;
    Ok(Begun { standing, gone_on })
}

/// Whether something is gated of a step.
fn is_gated<S: Shelf>(number: u32, shelf: &mut S) -> Result<bool, Failed>
    ensures content { Told S.tells shelf.old shelf.new
        (Ran (Stays (now (S.world shelf.old))) (S.world shelf.old) (S.world shelf.new)) }
    ensures ok { IfOk result (λ gated. IsTrue (S.tells shelf.new)
        → IsGated gated number (now (S.world shelf.old)).folder) }
    ensures calls { IsTrue (S.tells shelf.new)
        → (S.world shelf.new).clock ≤ (S.world shelf.old).clock + 1 }
    ensures faults { OnlyFolder (S.faults shelf.old) (S.faults shelf.new) result }
{
    let count = shelf.len(checkpoint_gate(number))?;
    Ok(count > 0)
}
