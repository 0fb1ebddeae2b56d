//! The list: all entries are read, and then its lines are said.
ghost use Rattle.std.specs.Prelude.{◌≡◌, ◌+◌, ◌*◌, ◌≤◌, ◌&&◌, not, length, IsTrue};
ghost use Rattle.shelf_model.specs.World.{now};
ghost use Rattle.shelf_model.specs.Calls.{Told};
ghost use Rattle.catalogue.specs.Counts.{count_in, present};
ghost use Rattle.catalogue.specs.Standings.{most_steps};
ghost use Rattle.diagram_list.specs.Faults.{ListHasCause};
ghost use Rattle.diagram_list.specs.Listing.{is_named, step_line, listing};
ghost use Rattle.diagram_list.specs.Lists.{WereRead, IsNext, SaysText, Lists};

use crate::dropped::mark_dropped;
use crate::fault::ListFault;
use crate::line::diagram_line;
use catalogue::{Entry, entry, look};
use shelf_model::Station;

/// The most steps of a job, and so the marks that a list needs.
pub const MOST_STEPS: usize = catalogue::MOST_STEPS as usize;

/// Says a line for each diagram that has a name and that no committed step drops: its name, a blank and its number of
/// nodes, in the order of the steps.
///
/// All entries are read before the first line is said. It stores nothing and takes no memory: the room has a mark for
/// each step, whatever stands there before.
///
/// Refuses where a call of the folder fails (`Shelf`), and where the gate or the catalogue is damaged (`Damaged`),
/// which is found before anything is said. Where a line can't be said (`Say`), a front part of the list was said. The
/// folder reads as before in each case.
pub fn list_diagrams<W: Station>(room: &mut [bool], station: &mut W) -> Result<(), ListFault>
    requires room { most_steps ≤ length room.old }
    ensures content { Told W.tells station.old station.new
        (Lists result (W.world station.old) (W.world station.new)) }
    ensures calls { IsTrue (W.tells station.new) → (W.world station.new).clock
        ≤ (W.world station.old).clock + 5 + 3 * count_in (present (now (W.world station.old)).folder) }
    ensures causes { ListHasCause (W.faults station.old) (W.faults station.new) result }
{
    let standing = look(station)?;
    mark_dropped(standing.done, room, station)?;
    say_lines(standing.done, room, station)
}

/// Says the lines of the committed steps, whose entries were read.
fn say_lines<W: Station>(done: u32, dropped: &[bool], station: &mut W) -> Result<(), ListFault>
    requires room { done ≤ length dropped.now }
    requires committed { IsTrue (W.tells station.old)
        → done ≡ count_in (present (now (W.world station.old)).folder) }
    requires read { IsTrue (W.tells station.old)
        → WereRead done (present (now (W.world station.old)).folder) dropped.now }
    ensures content { Told W.tells station.old station.new
        (SaysText (listing (present (now (W.world station.old)).folder)) result
        (W.world station.old) (W.world station.new)) }
    ensures calls { IsTrue (W.tells station.new)
        → (W.world station.new).clock ≤ (W.world station.old).clock + 2 * done }
    ensures causes { ListHasCause (W.faults station.old) (W.faults station.new) result }
{
    for k in 0..done {
        say_step(k, dropped[k as usize], station)?;
    }
    Ok(())
}

/// Says the line of a committed step, if it has one.
fn say_step<W: Station>(k: u32, dropped: bool, station: &mut W) -> Result<(), ListFault>
    requires next { IsTrue (W.tells station.old)
        → IsNext k dropped (present (now (W.world station.old)).folder) }
    ensures content { Told W.tells station.old station.new
        (let r = present (now (W.world station.old)).folder in
        SaysText (step_line r (count_in r) k) result (W.world station.old) (W.world station.new)) }
    ensures calls { IsTrue (W.tells station.new)
        → (W.world station.new).clock ≤ (W.world station.old).clock + 2 }
    ensures causes { ListHasCause (W.faults station.old) (W.faults station.new) result }
{
    let made = entry(k, station)?;
    if !is_listed(&made, dropped) {
        return Ok(());
    }
    let line = diagram_line(&made);
    match station.say(line.as_slice()) {
        Ok(()) => Ok(()),
        Err(_) => Err(ListFault::Say),
    }
}

/// Whether an entry is that of a named diagram that isn't dropped.
fn is_listed(made: &Entry, dropped: bool) -> bool
    ensures { result ≡ (is_named made.now && not dropped) }
{
    made.kind == 1 && 0 < made.name_len && !dropped
}
