//! Laws of the program, each the contract of a function that does nothing.
ghost use Rattle.std.specs.Prelude.{Ok, ◌≡◌, ◌↔◌, ◌⊎◌, ◌+◌, ◌*◌, ◌≤◌, ◌++◌, ℕ, IsTrue, List, Option, Some, length};
ghost use Rattle.bool_tables.specs.Plans.{is_live};
ghost use Rattle.bool_tables.specs.Steps.{plan_tables, table_of_step};
ghost use Rattle.blif_reader.specs.Netlist.{Net, IsReading};
ghost use Rattle.script_reader.specs.Signals.{MakesSignals};
ghost use Rattle.shelf_model.specs.declared.file_no.FileNo.{FileNo};
ghost use Rattle.shelf_model.specs.File.{no_file};
ghost use Rattle.shelf_model.specs.Folder.{Folder, Image, IsImage, bytes_in, file_in};
ghost use Rattle.shelf_model.specs.World.{World, now, said};
ghost use Rattle.shelf_model.specs.Faults.{Faults};
ghost use Rattle.catalogue.specs.Counts.{present, count_in};
ghost use Rattle.catalogue.specs.Standings.{most_steps};
ghost use Rattle.command_words.specs.Readings.{Reading, list};
ghost use Rattle.sound_image.specs.Files.{node_file};
ghost use Rattle.sound_image.specs.Jobs.{Job, table_at};
ghost use Rattle.sound_image.specs.Holds.{AreSound};
ghost use Rattle.sound_image.specs.Sound.{IsSound};
ghost use Rattle.script_reader.specs.declared.plan.Plan.{Plan};
ghost use Rattle.script_runner.specs.Text.{run_text};
ghost use Rattle.script_runner.specs.JobOf.{job_of};
ghost use Rattle.script_runner.specs.Fetching.{OnlyFetched};
ghost use Rattle.script_runner.specs.Listed.{diagram_lines};
ghost use Rattle.script_runner.specs.Source.{Source, IsSource, with_budget, Plans};
ghost use Rattle.script_runner.specs.Outcome.{Accepts, Ends, ByWords, StatusHasCause, NoneRose, IsSmall};
ghost use Rattle.script_runner.specs.Outcome.{MakesFewCalls, texts_calls};
ghost use Rattle.script_runner.specs.Lives.{Life, AreLives, LivesKeep};
ghost use Rattle.script_runner.specs.LivesCost.{CostLives, left_by, calls_by, all_rests, job_work};
ghost use Rattle.script_runner.specs.Stops.{paid_in, PayAtLeast, StopsIn};
ghost use Rattle.script_runner.specs.Finished.{IsDiagramOf, IsFinished};

use canon_file::laws::{bytes_are_unique, nodes_stand_for_the_table};
use script_reader::laws::net_lines_make_their_signals;

/// Over any list of calls in one folder, each of which finds what the one before left: a call is ended by its
/// status, by a kill, between two calls of the folder or within one, or by a power cut, and leaves any folder of which
/// a stop may leave only what it could leave at that moment. The words are those of one job, each call's with any
/// budget, or any others once every image stores that job, or run no job. Every image that is left is sound for the
/// job, and has each step that all images had and each whose line was said. Words with another budget ask for the same
/// source, and so for the same job.
pub fn lives_keep()
    ensures keeps { (source : Source) (plan : Plan) (folder : Folder) (lives : List Life)
        → Plans source plan → AreSound (job_of source plan) folder → AreLives source plan folder lives
        → LivesKeep source plan folder lives }
    ensures any_budget { (w : World) (reading : Reading) (budget : ℕ) (source : Source) → IsSource w reading source
        → IsSource w (with_budget budget reading) source }
{}

/// Over any list of calls in one folder, each of which finds what the one before left, however they are ended: the
/// calls of the station that they make together are at most those that the turns pay for which are shown done at the
/// end beyond the ones at first, 256 for each turn of a committed step or that a checkpoint shows, and
/// for each call of the program what it costs to go on from what it found. Each call whose words ask for the job costs
/// so, with those of fetching two texts and two besides. What an image that is sound for the job pays for is at most
/// 256 calls for each turn of its work; and each image that such calls leave is sound, by `lives_keep`.
pub fn lives_cost()
    ensures each { (asked : Option Reading) (plan : Plan) (old new : World) → (accepts : Accepts old asked plan)
        → MakesFewCalls asked old new
        → StopsIn (job_of accepts.source plan) (length plan.lines) (texts_calls + 2) old new }
    ensures cost { (job : Job) (lines besides paid : ℕ) (folder : Folder) (lives : List Life) (rests : List ℕ)
        → PayAtLeast job paid folder → CostLives job lines besides folder lives rests → (image : Image)
        → IsImage (left_by folder lives) image
        → calls_by lives + paid ≤ paid_in job (bytes_in image) + all_rests besides rests }
    ensures within { (job : Job) (r : FileNo → List ℕ) → IsSound job r → paid_in job r ≤ 256 * job_work job }
{}

/// A folder without files is sound for every job: every image of it is.
pub fn new_folder_is_sound()
    ensures sound { (job : Job) (folder : Folder) → ((f : FileNo) → file_in folder f ≡ no_file) → AreSound job folder }
{}

/// A call whose script asks for a plan, in a folder that is sound for that job, in which no call failed, ends with 0
/// and says the whole text, or with 9 before it says anything or changes a file, where each step's work is below 2^35
/// turns.
pub fn accepted_runs_end()
    ensures ends { (asked : Option Reading) (plan : Plan) (status : ℕ) (old new : World) (before after : Faults)
        → (accepts : Accepts old asked plan) → AreSound (job_of accepts.source plan) (now old).folder
        → IsSmall (job_of accepts.source plan) →
        Ends asked status old new → StatusHasCause asked status before after → NoneRose asked before after
        → ((status ≡ 0)
        × (said new ≡ said old ++ run_text (job_of accepts.source plan) plan.lines (present (now old).folder)))
        ⊎ ((status ≡ 9) × OnlyFetched old new) }
{}

/// The diagrams that the lines over a netlist name are those of its signals: the netlist's text spells a netlist, and
/// each pair of a name and a signal on such a line has a said line, which shows a step with that name whose table is
/// that of the signal. The node file of such a step is the canonical file of this table, as of all steps.
pub fn named_signals_are_made()
    ensures made { (source : Source) (plan : Plan) (text : List ℕ) → Plans source plan → source.netlist ≡ Some text
        → (net : Net) × IsReading text (Ok net) × MakesSignals net source.script plan }
    ensures tables { (source : Source) (plan : Plan) (k : ℕ)
        → table_at (job_of source plan) k ≡ table_of_step (plan_tables plan.n plan.steps) k }
{
    net_lines_make_their_signals();
}

/// A list of a folder that is sound for a job of at most 1,048,576 steps, in which no call failed, ends with 0 and says
/// the line of each named diagram of the job's committed steps that is live, or with 9 before it says anything.
pub fn lists_end()
    ensures ends { (folder : List ℕ) (job : Job) (status : ℕ) (old new : World) (before after : Faults)
        → length job.steps ≤ most_steps → AreSound job (now old).folder → Ends (Some (list folder)) status old new
        → StatusHasCause (Some (list folder)) status before after → NoneRose (Some (list folder)) before after
        → ((status ≡ 0)
        × (said new ≡ said old ++ diagram_lines job (count_in (present (now old).folder))))
        ⊎ ((status ≡ 9) × OnlyFetched old new) }
{}

/// Where a run of a job ended with 0, in a folder that was sound for it, each image has for each diagram that no step
/// drops a file of nodes and a trailer, from whose root each assignment leads to the value of the step's table. Two
/// such files over as many variables, of one job or of two, have equal bytes exactly where their tables are equal.
pub fn finished_files_are_their_functions()
    ensures means { (job : Job) (image : Image) → IsFinished job image → (s : ℕ) → IsTrue (is_live job.steps s)
        → IsDiagramOf job.n (table_at job s) (bytes_in image (node_file s)) }
    ensures equal { (job other : Job) (image second : Image) → IsFinished job image → IsFinished other second
        → other.n ≡ job.n → (s k : ℕ) → IsTrue (is_live job.steps s) → IsTrue (is_live other.steps k)
        → (bytes_in image (node_file s) ≡ bytes_in second (node_file k)) ↔ (table_at job s ≡ table_at other k) }
{
    nodes_stand_for_the_table();
    bytes_are_unique();
}
