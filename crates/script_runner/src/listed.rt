//! The list of a folder's diagrams.
ghost use Rattle.std.specs.Prelude.{◌≡◌, ◌+◌, ◌*◌, ◌≤◌, Some, IsTrue, IfOk, length};
ghost use Rattle.shelf_model.specs.World.{now};
ghost use Rattle.shelf_model.specs.Calls.{Told};
ghost use Rattle.catalogue.specs.Counts.{count_in, present};
ghost use Rattle.catalogue.specs.Standings.{most_steps};
ghost use Rattle.command_words.specs.Readings.{list};
ghost use Rattle.script_runner.specs.Entered.{EndingHasCause};
ghost use Rattle.script_runner.specs.Listed.{ListsIn, EndsList};
ghost use Rattle.script_runner.specs.Outcome.{Answers};
ghost use Rattle.script_runner.specs.Status.{status_of};

use crate::ending::Ending;
use crate::line::damaged_line;
use crate::refusal::say_refusal;
use diagram_list::{ListFault, MOST_STEPS, list_diagrams};
use shelf_model::Station;
use std::alloc::{AllocError, Global};

/// Lists the diagrams of a folder: those that its committed steps named and didn't drop.
pub(crate) fn list_folder<W: Station>(alloc: Global, folder: &str, station: &mut W) -> Ending
    ensures answers { Answers W.tells W.world W.faults (Some (list folder.now)) (status_of result)
        station.old station.new }
{
    let Ok(mut marks) = take_marks(alloc) else {
        return Ending::NoMemory;
    };
    list_in(folder, &mut marks, station)
}

/// A mark for each step that a job may have.
fn take_marks(alloc: Global) -> Result<Vec<bool>, AllocError>
    ensures { IfOk result (λ marks. length marks.items ≡ most_steps) }
{
    vec![in alloc; false; MOST_STEPS]
}

/// Enters the folder and lists its diagrams.
fn list_in<W: Station>(folder: &str, marks: &mut [bool], station: &mut W) -> Ending
    requires marks { most_steps ≤ length marks.old }
    ensures content { Told W.tells station.old station.new
        (ListsIn folder.now (status_of result) (W.world station.old) (W.world station.new)) }
    ensures calls { IsTrue (W.tells station.new) → (W.world station.new).clock
        ≤ (W.world station.old).clock + 7 + 3 * count_in (present (now (W.world station.old)).folder) }
    ensures which { EndsList (status_of result) }
    ensures cause { EndingHasCause (W.faults station.old) (W.faults station.new) result }
{
    let Ok(()) = station.enter(folder) else {
        return Ending::FolderFault;
    };
    match list_diagrams(marks, station) {
        Ok(()) => Ending::Done,
        Err(ListFault::Shelf) => Ending::FolderFault,
        Err(ListFault::Say) => Ending::SayFault,
        Err(ListFault::Damaged { file, at }) => say_refusal(
            damaged_line(file, at).as_str().as_bytes(),
            Ending::Damaged,
            station,
        ),
    }
}
