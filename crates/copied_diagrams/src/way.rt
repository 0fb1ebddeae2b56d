//! In which way the diagram of an operator on two diagrams is made.
ghost use Rattle.std.specs.Prelude.{◌≡◌, ◌+◌, ◌*◌, ◌^◌, ◌<◌, ◌≤◌, min, Bool, IsTrue, IfSome};
ghost use Rattle.copied_diagrams.specs.Operands.{IsResult};
ghost use Rattle.copied_diagrams.specs.Pairs.{of_operand};
ghost use Rattle.copied_diagrams.specs.Ways.{IsWayBy, IsWayOf, IsOfPair, FitsIn};

use crate::operand::{Choice, Known, Operand, choice_of};
use crate::{Pair, Source};
use bool_tables::Bin;

/// How many turns a sweep makes from one checkpoint to the next at most.
const INTERVAL: u64 = 65_536;

/// Fewer nodes than so many has a diagram that is copied, so that its file is within the longest.
const MOST: u64 = 1 << 40;

/// How many records more than two for each node a complement takes: those that wait to be written.
const WINDOW: u64 = 8;

/// In which way the diagram of an operator is made.
#[derive(Clone, Copy, Debug, PartialEq, Eq)]
pub enum Way {
    /// It is a constant.
    Constant(bool),
    /// It is that of an operand, whose file is copied.
    Copy(Source),
    /// So it is, and has so many nodes that its file is copied in turns.
    CopyInTurns(Source),
    /// It is the complement of an operand's.
    Complement(Source),
    /// It is joined from those of both operands.
    Join,
}

/// The way to make the diagram of an operator's result, as the trailers of both operands and the number of the room's
/// records show: a constant, a copy or a complement where the other operand is a constant or the same, or the operator
/// hangs on one operand at most.
///
/// A copy is made in turns where it has as many nodes as the room has records, or as a checkpoint's interval has turns.
/// A complement of so many nodes, or for which the room hasn't two records for each node and eight more, is joined of
/// both operands as any other diagram is.
pub fn way_of(op: Bin, pair: &Pair, room: u64) -> Way
    requires room { 8 ≤ room }
    ensures leads { IsWayOf op pair.now result }
    ensures of { IsOfPair pair.now result }
    ensures fits { FitsIn room result }
{
    match choice_between(op, pair) {
        Some(choice) => way_by(choice, pair, room),
        None => Way::Join,
    }
}

// What gives the operator's values.
fn choice_between(op: Bin, pair: &Pair) -> Option<Choice>
    ensures { IfSome result (λ choice. (same : Bool) × (IsTrue same → pair.now.left.from ≡ pair.now.right.from)
        × IsResult op same pair.now.left.trailer.root pair.now.right.trailer.root choice) }
{
    let known = known_of(pair);
    choice_of(op, &known)
}

// What is known of the values of two diagrams.
fn known_of(pair: &Pair) -> Known
    ensures same { IsTrue result.same → pair.now.left.from ≡ pair.now.right.from }
    ensures left { result.left ≡ pair.now.left.trailer.root }
    ensures right { result.right ≡ pair.now.right.trailer.root }
{
    let same = pair.left.from == pair.right.from;
    let left = pair.left.trailer.root;
    let right = pair.right.trailer.root;
    Known { same, left, right }
}

// The way of a choice.
fn way_by(choice: Choice, pair: &Pair, room: u64) -> Way
    requires room { 8 ≤ room }
    ensures by { IsWayBy choice pair.now result }
    ensures fits { FitsIn room result }
{
    match choice {
        Choice::Constant(value) => Way::Constant(value),
        Choice::Copy(operand) => {
            let source = source_of(operand, pair);
            if is_small(source.trailer.count, room) {
                Way::Copy(source)
            } else if source.trailer.count < MOST {
                Way::CopyInTurns(source)
            } else {
                Way::Join
            }
        }
        Choice::Complement(operand) => {
            let source = source_of(operand, pair);
            let count = source.trailer.count;
            if is_small(count, room) && count <= (room - WINDOW) / 2 {
                Way::Complement(source)
            } else {
                Way::Join
            }
        }
    }
}

// The file of an operand.
fn source_of(operand: Operand, pair: &Pair) -> Source
    ensures { result ≡ of_operand operand pair.now.left pair.now.right }
{
    match operand {
        Operand::Left => pair.left,
        Operand::Right => pair.right,
    }
}

// Whether a turn for each of so many nodes and one more are below a checkpoint's interval and the records of the room.
fn is_small(count: u64, room: u64) -> bool
    ensures { IsTrue result → count + 1 < min room 65536 }
{
    count < INTERVAL.min(room).saturating_sub(1)
}
