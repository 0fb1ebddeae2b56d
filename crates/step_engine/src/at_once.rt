//! A step that is run where it is sure to be done at once, while steps before it wait to be committed.
ghost use Rattle.std.specs.Prelude.{◌≡◌, ◌≤◌, length};
ghost use Rattle.bool_tables.specs.declared.steps.Step.TheVariants as variants;
ghost use Rattle.step_sweeps.specs.declared.at_once.AtMost.{AtMost};
ghost use Rattle.step_engine.specs.AtOnce.{RunsNow};
ghost use Rattle.step_engine.specs.Simple.{MayRun};

use crate::diagrams::{write_constant, write_variable};
use crate::entries::{Spent, diagram_entry, drop_entry};
use crate::sweeping::sweeping_of;
use bool_tables::{Planned, Step};
use catalogue::Entry;
use file_numbers::node_file;
use rec_words::Rec;
use shelf_model::{Failed, Shelf};
use step_sweeps::{AtMost, Making, make_at_once};

/// Runs one step of a plan for `n` variables over a script's text where it is sure to be done at once, without a
/// sweep: a constant or a variable, which takes one turn, an operator that `make_at_once` of `step_sweeps` makes
/// within so many turns, and a drop, which takes no call of the folder. The answer is the step's entry, as that of
/// `run_step`. The steps before it need not be committed: the node files of their diagrams are enough.
///
/// Of any other step, and where the turns are too few, nothing is made and no file is changed (`None`). It is refused
/// where a call of the folder fails: damage is left to `run_step`, which finds it.
pub fn run_at_once<S: Shelf>(
    n: u32,
    text: &[u8],
    planned: &Planned,
    number: u32,
    most: AtMost,
    room: &mut [Rec],
    shelf: &mut S,
) -> Result<Option<Entry>, Failed>
    requires step { MayRun n text.now number planned.now }
    requires room { 16384 ≤ length room.old }
    ensures runs { RunsNow S.tells S.world S.faults n text.now number planned.now most shelf.old shelf.new result }
{
    if let Step::Drop { gone } = planned.step {
        return Ok(Some(drop_entry(number, gone)));
    }
    if most.turns == 0 {
        return Ok(None);
    }
    match planned.step {
        Step::Const { value } => constant_now(n, text, planned, value, number, room, shelf),
        Step::Var { level } => variable_now(n, text, planned, level, number, room, shelf),
        _ => operation_now(n, text, planned, number, most, room, shelf),
    }
}

/// Makes the diagram of a constant.
fn constant_now<S: Shelf>(
    n: u32,
    text: &[u8],
    planned: &Planned,
    value: bool,
    number: u32,
    room: &mut [Rec],
    shelf: &mut S,
) -> Result<Option<Entry>, Failed>
    requires step { MayRun n text.now number planned.now }
    requires kind { planned.now.step ≡ variants.Const value }
    requires room { 16384 ≤ length room.old }
    ensures runs { (most : AtMost) → 1 ≤ most.turns →
        RunsNow S.tells S.world S.faults n text.now number planned.now most shelf.old shelf.new result }
{
    match write_constant(node_file(number), n, value, room, shelf) {
        Ok(nodes) => Ok(Some(diagram_entry(text, planned, number, nodes, Spent::ONE_TURN))),
        Err(_) => Err(Failed),
    }
}

/// Makes the diagram of a variable.
fn variable_now<S: Shelf>(
    n: u32,
    text: &[u8],
    planned: &Planned,
    level: u32,
    number: u32,
    room: &mut [Rec],
    shelf: &mut S,
) -> Result<Option<Entry>, Failed>
    requires step { MayRun n text.now number planned.now }
    requires kind { planned.now.step ≡ variants.Var level }
    requires room { 16384 ≤ length room.old }
    ensures runs { (most : AtMost) → 1 ≤ most.turns →
        RunsNow S.tells S.world S.faults n text.now number planned.now most shelf.old shelf.new result }
{
    match write_variable(node_file(number), n, level as u16, room, shelf) {
        Ok(nodes) => Ok(Some(diagram_entry(text, planned, number, nodes, Spent::ONE_TURN))),
        Err(_) => Err(Failed),
    }
}

/// Makes the diagram of an operator, where that is sure to be done at once.
fn operation_now<S: Shelf>(
    n: u32,
    text: &[u8],
    planned: &Planned,
    number: u32,
    most: AtMost,
    room: &mut [Rec],
    shelf: &mut S,
) -> Result<Option<Entry>, Failed>
    requires step { MayRun n text.now number planned.now }
    requires room { 16384 ≤ length room.old }
    ensures runs { RunsNow S.tells S.world S.faults n text.now number planned.now most shelf.old shelf.new result }
{
    let Some(sweeping) = sweeping_of(planned.step) else {
        return Ok(None);
    };
    let making = Making {
        operation: sweeping.operation,
        n,
        operands: sweeping.operands,
        number,
    };
    let Some(made) = make_at_once(making, most, room, shelf)? else {
        return Ok(None);
    };
    let spent = Spent {
        turns: made.turns,
        parts: made.next,
    };
    Ok(Some(diagram_entry(text, planned, number, made.nodes, spent)))
}
