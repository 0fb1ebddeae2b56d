//! A step that makes a diagram of others.
ghost use Rattle.std.specs.Prelude.{◌≡◌, ℕ, ◌+◌, ◌^◌, ◌≤◌, length};
ghost use Rattle.copied_diagrams.specs.Ways.{IsOfPair, FitsIn};
ghost use Rattle.step_sweeps.specs.Operations.{IsWithin};
ghost use Rattle.step_sweeps.specs.Given.{Tables, AreEarlier};
ghost use Rattle.step_sweeps.specs.Going.{MayGoOn};
ghost use Rattle.step_sweeps.specs.Makes.{Makes};
ghost use Rattle.step_sweeps.specs.Pairs.{IsPairOf, Leads};
ghost use Rattle.step_sweeps.specs.Sweeping.{IsAtStage};
ghost use Rattle.step_sweeps.specs.Ways.{IsAnew, MakesAnew};
ghost use Rattle.step_sweeps.specs.Stops.{sweeps_stop};

use crate::StepOperation;
use crate::copy::{copy_in_turns, copy_on};
use crate::joining::join;
use crate::reduction::reduce_on;
use crate::swept::{sweep_diagram, sweep_on};
use crate::task::Making;
use crate::unswept::{complement, constant, copy};
use bool_tables::Bin;
use copied_diagrams::{Pair, Way, read_pair, way_of};
use rec_words::Rec;
use shelf_model::{Shelf, SortFault};
use sweep_checkpoint::Going;
use top_down_sweep::OperandFiles;

/// How many nodes the diagram of a step has, the turns that made it in all its lives, as many as 64 bits count, and the
/// next part number of its step.
#[derive(Clone, Copy, Debug, PartialEq, Eq)]
pub struct MadeDiagram {
    pub nodes: u64,
    pub turns: u64,
    pub next: u64,
}

/// Makes the node file of an operation on the files of diagrams of `n` variables: a sweep makes the arcs of a diagram
/// in parts 3 and 4 of the step, and a reduction makes part 0 of them. It begins anew, whatever these files hold, or
/// goes on from the step's last checkpoint.
///
/// An operator's diagram is made in the way that `way_of` of `copied_diagrams` chooses by the operands' trailers. That
/// of a constant, a copy of an operand's or its complement is made at once where it has fewer nodes than a checkpoint's
/// interval has turns and than the room has records, of which a complement takes two for each node; a larger copy is
/// made in turns, of which each copies a piece.
///
/// Any other operator's diagram is joined in the room, with no arcs, where the room holds the nodes of both operands
/// and the pairs of pointers that are met, and where these are fewer than a checkpoint's interval has turns, and at
/// most fourteen for each node and as many more. Else the sweeps follow. Whatever was tried before counts first: each
/// node that was read for a complement is a turn, and so are the look at the trailers and each node of both operands.
///
/// It takes no memory: all lies in the room.
pub fn make_diagram<S: Shelf>(
    operation: StepOperation,
    n: u32,
    operands: OperandFiles,
    going: &mut Going,
    room: &mut [Rec],
    shelf: &mut S,
) -> Result<MadeDiagram, SortFault>
    requires variables { n ≤ 65535 }
    requires room { 16384 ≤ length room.old }
    requires within { IsWithin n operation }
    requires going { MayGoOn going.old }
    requires earlier { AreEarlier going.old.step operands }
    ensures makes { Makes S.tells S.world S.faults
        (record { operation = operation; n = n; operands = operands; number = going.old.step })
        going.old shelf.old shelf.new result }
{
    let making = Making {
        operation,
        n,
        operands,
        number: going.step,
    };
    match stage_of(going) {
        Stage::Anew => make_anew(making, going, room, shelf),
        Stage::Copying => copy_on(making, going, room, shelf),
        Stage::MakingArcs => sweep_on(making, going, room, shelf),
        Stage::Reducing => reduce_on(making, going, room, shelf),
    }
}

/// Where a step stands that makes a diagram.
#[derive(Clone, Copy)]
pub(crate) enum Stage {
    /// Nothing was done of it.
    Anew,
    /// An operand's file is copied.
    Copying,
    /// Arcs are made.
    MakingArcs,
    /// The arcs are reduced.
    Reducing,
}

// As the last checkpoint says: of its first sweep one that has no tables is that of a copy.
fn stage_of(going: &Going) -> Stage
    ensures { IsAtStage going.now result }
{
    let Some(point) = &going.last else {
        return Stage::Anew;
    };
    if point.sweep == 1 {
        Stage::Reducing
    } else if point.tables == 0 {
        Stage::Copying
    } else {
        Stage::MakingArcs
    }
}

/// Makes the node file from the beginning on.
fn make_anew<S: Shelf>(
    making: Making,
    going: &mut Going,
    room: &mut [Rec],
    shelf: &mut S,
) -> Result<MadeDiagram, SortFault>
    requires variables { making.n ≤ 65535 }
    requires room { 16384 ≤ length room.old }
    requires within { IsWithin making.n making.operation }
    requires earlier { AreEarlier making.number making.operands }
    requires anew { IsAnew making.number going.old }
    ensures makes { MakesAnew S.tells S.world S.faults making 0 (λ g. 0) 11
        (sweeps_stop + 2 ^ 19 + 36) shelf.old shelf.new result }
{
    let StepOperation::Operator(op) = making.operation else {
        return sweep_diagram(making, 0, going, room, shelf);
    };
    let pair = read_pair(
        making.n,
        making.operands.first,
        making.operands.second,
        room,
        shelf,
    )?;
    let way = way_of(op, &pair, room.len() as u64);
    make_by(way, op, pair, making, going, room, shelf)
}

/// Makes the node file of an operator in one way.
fn make_by<S: Shelf>(
    way: Way,
    op: Bin,
    pair: Pair,
    making: Making,
    going: &mut Going,
    room: &mut [Rec],
    shelf: &mut S,
) -> Result<MadeDiagram, SortFault>
    requires variables { making.n ≤ 65535 }
    requires room { 16384 ≤ length room.old }
    requires earlier { AreEarlier making.number making.operands }
    requires anew { IsAnew making.number going.old }
    requires pair { IsPairOf S.tells S.world op making pair shelf.old }
    requires leads { Leads S.tells S.world making way shelf.old }
    requires of { IsOfPair pair way }
    requires fits { FitsIn (length room.old) way }
    ensures makes { MakesAnew S.tells S.world S.faults making 0 (λ g. 0) 7
        (sweeps_stop + 2 ^ 19 + 32) shelf.old shelf.new result }
{
    match way {
        Way::Constant(value) => constant(value, making, room, shelf),
        Way::Copy(source) => copy(source, making, shelf),
        Way::CopyInTurns(source) => copy_in_turns(source, making, going, shelf),
        Way::Complement(source) => complement(source, op, pair, making, going, room, shelf),
        Way::Join => join(op, pair, making, 0, going, room, shelf),
    }
}
