//! A step that makes an operator's diagram where it is sure beforehand that this is done at once, without a sweep.
ghost use Rattle.std.specs.Prelude.{◌≡◌, ◌+◌, ◌*◌, ◌<◌, ◌≤◌, length};
ghost use Rattle.copied_diagrams.specs.Ways.{IsOfPair, FitsIn};
ghost use Rattle.copied_diagrams.specs.declared.way.Way.TheVariants as ways;
ghost use Rattle.step_sweeps.specs.AtOnce.{MakesNow};
ghost use Rattle.step_sweeps.specs.Given.{AreEarlier};
ghost use Rattle.step_sweeps.specs.Pairs.{IsPairOf, Leads};

use crate::task::Making;
use crate::unswept::made_at_once;
use crate::{MadeDiagram, StepOperation};
use bool_tables::Bin;
use copied_diagrams::{Pair, Source, Way, copy_diagram, make_constant, read_pair, way_of};
use file_numbers::{INNER_PART, NODES_PART};
use rec_words::Rec;
use room_products::join_in_room;
use room_reduction::complement_file;
use shelf_model::{Failed, FileNo, Shelf, StreamFault};

/// So many turns a diagram that is joined in the room takes at most for each node of both operands, and once more.
const TURNS_A_NODE: u64 = 15;

/// What a step may take that is made at once.
#[derive(Clone, Copy, Debug, PartialEq, Eq)]
pub struct AtMost {
    /// How many turns it takes at most.
    pub turns: u64,
    /// How many nodes of its operands are looked at in vain at most.
    pub looks: u64,
}

/// Makes the node file of an operator on the files of two diagrams of `n` variables, where their trailers show that
/// this takes no sweep and no more than so many turns: that of a constant, of a copy or of a complement, which take a
/// turn for each node and one, or of a diagram that is joined in the room, which takes at most fifteen turns for each
/// node of both operands and fifteen. Whether the room makes a complement or joins a diagram shows only once the
/// operands' nodes were read, which is tried where they are no more than `looks`.
///
/// Else nothing is made and no file is changed (`None`). So it is where a trailer is damaged: whoever makes the step
/// by itself finds that. It is refused where a call of the folder fails. No checkpoint is read or written, and it
/// takes no memory.
pub fn make_at_once<S: Shelf>(
    making: Making,
    most: AtMost,
    room: &mut [Rec],
    shelf: &mut S,
) -> Result<Option<MadeDiagram>, Failed>
    requires variables { making.n ≤ 65535 }
    requires room { 16384 ≤ length room.old }
    requires earlier { AreEarlier making.number making.operands }
    ensures makes { MakesNow S.tells S.world S.faults making most 4 shelf.old shelf.new result }
{
    let StepOperation::Operator(op) = making.operation else {
        return Ok(None);
    };
    let operands = making.operands;
    match read_pair(making.n, operands.first, operands.second, room, shelf) {
        Ok(pair) => {
            let way = way_of(op, &pair, room.len() as u64);
            make_in_way(way, op, pair, making, most, room, shelf)
        }
        Err(StreamFault::Shelf) => Err(Failed),
        Err(StreamFault::Damaged { .. }) => Ok(None),
    }
}

/// Makes the node file in one way, where that is sure to be done at once.
fn make_in_way<S: Shelf>(
    way: Way,
    op: Bin,
    pair: Pair,
    making: Making,
    most: AtMost,
    room: &mut [Rec],
    shelf: &mut S,
) -> Result<Option<MadeDiagram>, Failed>
    requires variables { making.n ≤ 65535 }
    requires room { 16384 ≤ length room.old }
    requires earlier { AreEarlier making.number making.operands }
    requires pair { IsPairOf S.tells S.world op making pair shelf.old }
    requires leads { Leads S.tells S.world making way shelf.old }
    requires of { IsOfPair pair way }
    requires fits { FitsIn (length room.old) way }
    ensures makes { MakesNow S.tells S.world S.faults making most 0 shelf.old shelf.new result }
{
    match way {
        Way::Constant(value) => constant_now(value, making, most, room, shelf),
        Way::Copy(source) => copy_now(source, making, most, shelf),
        Way::CopyInTurns(_) => Ok(None),
        Way::Complement(source) => complement_now(source, making, most, room, shelf),
        Way::Join => join_now(op, pair, making, most, room, shelf),
    }
}

/// Makes it that of a constant.
fn constant_now<S: Shelf>(
    value: bool,
    making: Making,
    most: AtMost,
    room: &mut [Rec],
    shelf: &mut S,
) -> Result<Option<MadeDiagram>, Failed>
    requires variables { making.n ≤ 65535 }
    requires room { 8 ≤ length room.old }
    requires leads { Leads S.tells S.world making (ways.Constant value) shelf.old }
    ensures makes { MakesNow S.tells S.world S.faults making most 0 shelf.old shelf.new result }
{
    if most.turns == 0 {
        return Ok(None);
    }
    let out = FileNo {
        step: making.number,
        part: NODES_PART,
    };
    match make_constant(value, making.n, out, room, shelf) {
        Ok(()) => Ok(Some(made_at_once(0))),
        Err(_) => Err(Failed),
    }
}

/// Makes it a copy of an operand's.
fn copy_now<S: Shelf>(
    source: Source,
    making: Making,
    most: AtMost,
    shelf: &mut S,
) -> Result<Option<MadeDiagram>, Failed>
    requires earlier { source.from.step < making.number }
    requires few { source.trailer.count < 65536 }
    requires leads { Leads S.tells S.world making (ways.Copy source) shelf.old }
    ensures makes { MakesNow S.tells S.world S.faults making most 0 shelf.old shelf.new result }
{
    let count = source.trailer.count;
    if count >= most.turns {
        return Ok(None);
    }
    let out = FileNo {
        step: making.number,
        part: NODES_PART,
    };
    match copy_diagram(source, out, shelf) {
        Ok(()) => Ok(Some(made_at_once(count))),
        Err(_) => Err(Failed),
    }
}

/// Makes it that of an operand's complement, where that one's nodes are in order.
fn complement_now<S: Shelf>(
    source: Source,
    making: Making,
    most: AtMost,
    room: &mut [Rec],
    shelf: &mut S,
) -> Result<Option<MadeDiagram>, Failed>
    requires variables { making.n ≤ 65535 }
    requires of { (source.from.step < making.number) × (source.trailer.n ≡ making.n) }
    requires few { source.trailer.count < 65536 }
    requires fits { 2 * source.trailer.count + 8 ≤ length room.old }
    requires leads { Leads S.tells S.world making (ways.Complement source) shelf.old }
    ensures makes { MakesNow S.tells S.world S.faults making most 0 shelf.old shelf.new result }
{
    let count = source.trailer.count;
    if count >= most.turns || count > most.looks {
        return Ok(None);
    }
    let out = FileNo {
        step: making.number,
        part: NODES_PART,
    };
    match complement_file(source.from, out, source.trailer, room, shelf) {
        Ok(true) => Ok(Some(made_at_once(count))),
        Ok(false) => Ok(None),
        Err(_) => Err(Failed),
    }
}

/// Joins it of both operands in the room, where that holds what this takes.
fn join_now<S: Shelf>(
    op: Bin,
    pair: Pair,
    making: Making,
    most: AtMost,
    room: &mut [Rec],
    shelf: &mut S,
) -> Result<Option<MadeDiagram>, Failed>
    requires variables { making.n ≤ 65535 }
    requires earlier { AreEarlier making.number making.operands }
    requires pair { IsPairOf S.tells S.world op making pair shelf.old }
    ensures makes { MakesNow S.tells S.world S.faults making most 0 shelf.old shelf.new result }
{
    let (left, right) = (pair.left, pair.right);
    let nodes = left.trailer.count.saturating_add(right.trailer.count);
    if nodes > most.looks || nodes >= most.turns / TURNS_A_NODE {
        return Ok(None);
    }
    let out = FileNo {
        step: making.number,
        part: NODES_PART,
    };
    match join_in_room(op, making.n, left, right, out, room, shelf) {
        Ok(Some(joined)) => Ok(Some(MadeDiagram {
            nodes: joined.nodes,
            turns: joined.turns,
            next: INNER_PART,
        })),
        Ok(None) => Ok(None),
        Err(_) => Err(Failed),
    }
}
