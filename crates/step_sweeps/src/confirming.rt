//! What is handed on where a sweep finds an operand damaged.
ghost use Rattle.std.specs.Prelude.{◌≡◌, ◌↔◌, ◌≤◌, IsTrue, length};
ghost use Rattle.step_sweeps.specs.Confirming.{IsOneOf, Confirms};

use node_reading::read_whole;
use rec_words::Rec;
use shelf_model::{FileNo, Shelf, SortFault};
use top_down_sweep::OperandFiles;

/// The fault that is handed on where the sweep of a step was refused. A sweep that misses a node hasn't read all of its
/// operand. So all nodes of an operand in which it found damage are read: where one of them is damaged, or the trailer,
/// that place is named, and else the one that was found.
pub(crate) fn confirmed<S: Shelf>(
    n: u32,
    operands: OperandFiles,
    fault: SortFault,
    room: &mut [Rec],
    shelf: &mut S,
) -> SortFault
    requires room { 8 ≤ length room.old }
    ensures confirms { Confirms S.tells S.world S.faults n operands shelf.old shelf.new fault result }
{
    let SortFault::Damaged { file, at: _ } = fault else {
        return fault;
    };
    if !is_one_of(operands, file) {
        return fault;
    }
    match read_whole(file, n, room, shelf) {
        Ok(()) => fault,
        Err(found) => found,
    }
}

// Whether the file is one of the operands'.
fn is_one_of(operands: OperandFiles, file: FileNo) -> bool
    ensures { IsTrue result ↔ IsOneOf operands file }
{
    file == operands.first || file == operands.second || file == operands.third
}
