//! The run of a source: a script, and maybe a netlist.
ghost use Rattle.std.specs.Prelude.{◌≡◌, ◌+◌, ◌≤◌, ℕ, IsTrue, IfOk, length};
ghost use Rattle.shelf_model.specs.World.{now};
ghost use Rattle.shelf_model.specs.Calls.{Told};
ghost use Rattle.script_runner.specs.Calls.{most_calls, AreCounted};
ghost use Rattle.script_runner.specs.Entered.{RunsIn, EndsRun, EndingHasCause};
ghost use Rattle.script_runner.specs.JobOf.{source_of, budget_in, job_in};
ghost use Rattle.command_words.specs.Views.{text_of};
ghost use Rattle.script_reader.specs.Views.{given};
ghost use Rattle.script_runner.specs.Netlists.{netlist_in, netlist_text, IsSpelled};
ghost use Rattle.script_runner.specs.Outcome.{EndsSource, RunsInCalls, IsRunStatus};
ghost use Rattle.script_runner.specs.Status.{status_of};
ghost use Rattle.script_runner.specs.Stops.{StopsIn};

use crate::Finish;
use crate::ending::Ending;
use crate::given_job::Job;
use crate::job::job_bytes;
use crate::line::{damaged_line, other_job_line, refused_line, runs_spent_line};
use crate::read_netlist::ReadNetlist;
use crate::refusal::say_refusal;
use crate::run::run_job;
use blif_reader::Netlist;
use rec_words::Rec;
use script_reader::{ScriptKind, read_script};
use shelf_model::Station;
use std::alloc::{AllocError, Global};

/// Reads a script, over a netlist where one is given, takes all memory of its run, and runs its job in a folder.
pub(crate) fn run_source<W: Station>(
    alloc: Global,
    folder: &str,
    budget: u32,
    script: &[u8],
    netlist: &Option<ReadNetlist>,
    station: &mut W,
) -> Ending
    requires budget { (16384 ≤ budget) × (budget ≤ 4194304) }
    requires spelled { IsSpelled netlist.now }
    ensures content { Told W.tells station.old station.new
        (EndsSource folder.now (source_of script.now (netlist_text netlist.now)) (status_of result)
        (W.world station.old) (W.world station.new)) }
    ensures calls { IsTrue (W.tells station.new)
        → RunsInCalls 0 (source_of script.now (netlist_text netlist.now))
        (W.world station.old) (W.world station.new) }
    ensures which { IsRunStatus (status_of result) }
    ensures cause { EndingHasCause (W.faults station.old) (W.faults station.new) result }
{
    let net = net_in(netlist);
    let plan = match read_script(alloc, script, net) {
        Ok(plan) => plan,
        Err(fault) => match fault.kind {
            ScriptKind::Memory => return Ending::NoMemory,
            _ => {
                return say_refusal(
                    refused_line(fault).as_str().as_bytes(),
                    Ending::Script,
                    station,
                );
            }
        },
    };
    let text = text_in(netlist);
    let Ok(bytes) = job_bytes(alloc, budget, script, text) else {
        return Ending::NoMemory;
    };
    let Ok(mut room) = take_room(alloc, budget) else {
        return Ending::NoMemory;
    };
    let job = Job {
        n: plan.n,
        text: script,
        steps: plan.steps.items(),
        lines: plan.lines.items(),
        bytes: &bytes,
    };
    run_in(folder, &job, &mut room, station)
}

/// The room of a run.
fn take_room(alloc: Global, budget: u32) -> Result<Vec<Rec>, AllocError>
    ensures { IfOk result (λ room. length room.items ≡ budget) }
{
    vec![in alloc; Rec { w: [0; 8] }; budget as usize]
}

/// Enters the folder and runs the job there, in a room of as many records as the budget in its bytes.
fn run_in<W: Station>(folder: &str, job: &Job, room: &mut [Rec], station: &mut W) -> Ending
    requires own { length room.old ≡ budget_in job.now.bytes.now }
    requires room { (16384 ≤ length room.old) × (length room.old ≤ 4194304) }
    ensures content { Told W.tells station.old station.new
        (RunsIn folder.now (job_in job.now) job.now.lines.now (status_of result)
        (W.world station.old) (W.world station.new)) }
    ensures calls { IsTrue (W.tells station.new) → (rest : ℕ)
        → AreCounted (job_in job.now) (now (W.world station.old)).folder rest
        → (W.world station.new).clock ≤ (W.world station.old).clock + 2
        + (most_calls (job_in job.now) (length job.now.lines.now) + rest) }
    ensures stops { IsTrue (W.tells station.new)
        → StopsIn (job_in job.now) (length job.now.lines.now) 2
        (W.world station.old) (W.world station.new) }
    ensures which { EndsRun (status_of result) }
    ensures cause { EndingHasCause (W.faults station.old) (W.faults station.new) result }
{
    let Ok(()) = station.enter(folder) else {
        return Ending::FolderFault;
    };
    match run_job(job, room, station) {
        Finish::Done => Ending::Done,
        Finish::OtherJob { at } => say_refusal(
            other_job_line(at).as_str().as_bytes(),
            Ending::OtherJob,
            station,
        ),
        Finish::FolderFault => Ending::FolderFault,
        Finish::SayFault => Ending::SayFault,
        Finish::Damaged { file, at } => say_refusal(
            damaged_line(file, at).as_str().as_bytes(),
            Ending::Damaged,
            station,
        ),
        Finish::RunsSpent { step } => say_refusal(
            runs_spent_line(step).as_str().as_bytes(),
            Ending::RunsSpent,
            station,
        ),
    }
}

/// The netlist that is given, without its text.
fn net_in(netlist: &Option<ReadNetlist>) -> Option<&Netlist>
    ensures { given result ≡ netlist_in netlist.now }
{
    match netlist {
        Some(netlist) => Some(&netlist.net),
        None => None,
    }
}

/// Its text.
fn text_in(netlist: &Option<ReadNetlist>) -> Option<&[u8]>
    ensures { text_of result ≡ netlist_text netlist.now }
{
    match netlist {
        Some(netlist) => Some(netlist.text.as_slice()),
        None => None,
    }
}
