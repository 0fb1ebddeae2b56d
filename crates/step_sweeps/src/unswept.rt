//! An operator's diagram that is a constant, that of an operand or its complement: made at once, with a turn for each
//! of its nodes and one, which are fewer than a checkpoint's interval has.
ghost use Rattle.std.specs.Prelude.{◌≡◌, ◌+◌, ◌*◌, ◌^◌, ◌<◌, ◌≤◌, IfOk, length};
ghost use Rattle.copied_diagrams.specs.declared.way.Way.TheVariants as ways;
ghost use Rattle.step_sweeps.specs.Given.{AreEarlier};
ghost use Rattle.step_sweeps.specs.Pairs.{IsPairOf, Leads};
ghost use Rattle.step_sweeps.specs.Ways.{IsAnew, MakesAtOnce, MakesAnew};
ghost use Rattle.step_sweeps.specs.Stops.{sweeps_stop};

use crate::MadeDiagram;
use crate::joining::join;
use crate::task::Making;
use bool_tables::Bin;
use copied_diagrams::{Pair, Source, copy_diagram, make_constant};
use file_numbers::{INNER_PART, NODES_PART};
use rec_words::Rec;
use room_reduction::complement_file;
use shelf_model::{FileNo, Shelf, SortFault};
use sweep_checkpoint::Going;

/// Makes the step's node file that of a constant.
pub(crate) fn constant<S: Shelf>(
    value: bool,
    making: Making,
    room: &mut [Rec],
    shelf: &mut S,
) -> Result<MadeDiagram, SortFault>
    requires variables { making.n ≤ 65535 }
    requires room { 8 ≤ length room.old }
    requires leads { Leads S.tells S.world making (ways.Constant value) shelf.old }
    ensures makes { MakesAtOnce S.tells S.world S.faults making shelf.old shelf.new result }
    ensures turns { IfOk result (λ m. m.turns ≡ 1) }
{
    let out = FileNo {
        step: making.number,
        part: NODES_PART,
    };
    make_constant(value, making.n, out, room, shelf)?;
    Ok(made_at_once(0))
}

/// Makes it a copy of an operand's.
pub(crate) fn copy<S: Shelf>(
    source: Source,
    making: Making,
    shelf: &mut S,
) -> Result<MadeDiagram, SortFault>
    requires earlier { source.from.step < making.number }
    requires few { source.trailer.count < 65536 }
    requires leads { Leads S.tells S.world making (ways.Copy source) shelf.old }
    ensures makes { MakesAtOnce S.tells S.world S.faults making shelf.old shelf.new result }
    ensures turns { IfOk result (λ m. m.turns ≡ source.trailer.count + 1) }
{
    let out = FileNo {
        step: making.number,
        part: NODES_PART,
    };
    let count = source.trailer.count;
    copy_diagram(source, out, shelf)?;
    Ok(made_at_once(count))
}

/// Makes it that of an operand's complement. Where the operand's nodes aren't in order it is joined of both, and each
/// node that was read counts as a turn.
pub(crate) fn complement<S: Shelf>(
    source: Source,
    op: Bin,
    pair: Pair,
    making: Making,
    going: &mut Going,
    room: &mut [Rec],
    shelf: &mut S,
) -> Result<MadeDiagram, SortFault>
    requires variables { making.n ≤ 65535 }
    requires room { 16384 ≤ length room.old }
    requires earlier { AreEarlier making.number making.operands }
    requires pair { IsPairOf S.tells S.world op making pair shelf.old }
    requires of { (source.from.step < making.number) × (source.trailer.n ≡ making.n) }
    requires few { source.trailer.count < 65536 }
    requires fits { 2 * source.trailer.count + 8 ≤ length room.old }
    requires leads { Leads S.tells S.world making (ways.Complement source) shelf.old }
    requires anew { IsAnew making.number going.old }
    ensures makes { MakesAnew S.tells S.world S.faults making 0 (λ g. 0) 7
        (sweeps_stop + 2 ^ 19 + 32) shelf.old shelf.new result }
{
    let out = FileNo {
        step: making.number,
        part: NODES_PART,
    };
    let count = source.trailer.count;
    if complement_file(source.from, out, source.trailer, room, shelf)? {
        Ok(made_at_once(count))
    } else {
        join(op, pair, making, count, going, room, shelf)
    }
}

/// A diagram of so many nodes that was made at once.
pub(crate) fn made_at_once(nodes: u64) -> MadeDiagram
    requires few { nodes < 65536 }
    ensures { result ≡ record { nodes = nodes; turns = nodes + 1; next = 3 } }
{
    MadeDiagram {
        nodes,
        turns: nodes + 1,
        next: INNER_PART,
    }
}
