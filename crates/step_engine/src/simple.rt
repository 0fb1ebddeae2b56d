//! The steps that take one turn.
ghost use Rattle.std.specs.Prelude.{◌≡◌, ℕ, ◌≤◌, IsTrue, length};
ghost use Rattle.bool_tables.specs.declared.steps.Step.TheVariants as variants;
ghost use Rattle.shelf_model.specs.World.{now};
ghost use Rattle.catalogue.specs.Counts.{count_in, present};
ghost use Rattle.step_engine.specs.Simple.{MayRun};
ghost use Rattle.step_engine.specs.Running.{RunsStep};

use crate::diagrams::{write_constant, write_variable};
use crate::entries::{Spent, diagram_entry, nameless_entry};
use crate::kinds::entry_of_kind;
use bool_tables::Planned;
use catalogue::Entry;
use file_numbers::node_file;
use rec_words::Rec;
use shelf_model::{Shelf, SortFault};

/// Makes the diagram of a constant.
pub(crate) fn run_constant<S: Shelf>(
    n: u32,
    text: &[u8],
    planned: &Planned,
    value: bool,
    number: u32,
    room: &mut [Rec],
    shelf: &mut S,
) -> Result<Entry, SortFault>
    requires step { MayRun n text.now number planned.now }
    requires kind { planned.now.step ≡ variants.Const value }
    requires room { 16384 ≤ length room.old }
    ensures runs { RunsStep S.tells S.world S.faults n text.now number planned.now
        shelf.old shelf.new result }
{
    let nodes = write_constant(node_file(number), n, value, room, shelf)?;
    Ok(diagram_entry(text, planned, number, nodes, Spent::ONE_TURN))
}

/// Makes the diagram of a variable.
pub(crate) fn run_variable<S: Shelf>(
    n: u32,
    text: &[u8],
    planned: &Planned,
    level: u32,
    number: u32,
    room: &mut [Rec],
    shelf: &mut S,
) -> Result<Entry, SortFault>
    requires step { MayRun n text.now number planned.now }
    requires kind { planned.now.step ≡ variants.Var level }
    requires room { 16384 ≤ length room.old }
    ensures runs { RunsStep S.tells S.world S.faults n text.now number planned.now
        shelf.old shelf.new result }
{
    let nodes = write_variable(node_file(number), n, level as u16, room, shelf)?;
    Ok(diagram_entry(text, planned, number, nodes, Spent::ONE_TURN))
}

/// Tells the size of a diagram, as its entry has it.
pub(crate) fn run_size<S: Shelf>(
    n: u32,
    text: &[u8],
    planned: &Planned,
    of: u32,
    number: u32,
    shelf: &mut S,
) -> Result<Entry, SortFault>
    requires step { MayRun n text.now number planned.now }
    requires kind { planned.now.step ≡ variants.Size of }
    requires committed { IsTrue (S.tells shelf.old) → number ≤ count_in (present (now (S.world shelf.old)).folder) }
    ensures runs { RunsStep S.tells S.world S.faults n text.now number planned.now
        shelf.old shelf.new result }
{
    let nodes = entry_of_kind(of, 1, shelf)?.count;
    Ok(nameless_entry(number, 3, nodes))
}
