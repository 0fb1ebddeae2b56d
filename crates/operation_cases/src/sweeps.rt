//! Each operation, driven to its end.
ghost use Rattle.std.specs.Prelude.{◌≤◌, ◌<◌, length};
ghost use Rattle.operation_cases.specs.declared.reducing.TheConstants.{LEAST_ROOM, VARIABLES};

use crate::reducing::{LEAST_ROOM, PARTS, VARIABLES};
use arc_file::Unreduced;
use bool_tables::{Bin, Quant};
use ite_sweep::IteSweep;
use product_sweep::{LeqSweep, ProductSweep};
use quantify::QuantifySweep;
use rec_words::Rec;
use restrict_eval::RestrictSweep;
use shelf_memory::Bench;
use shelf_model::{FileNo, SortFault};
use sweep_core::{Turn, drive};

/// More turns than any of these sweeps makes.
const MOST_TURNS: u64 = 1_000;

/// The arcs of an operator on two diagrams, where its sweep ends in time.
pub(crate) fn product(
    op: Bin,
    f: FileNo,
    g: FileNo,
    room: &mut [Rec],
    bench: &mut Bench,
) -> Result<Option<Unreduced>, SortFault>
    requires enough { LEAST_ROOM ≤ length room.old }
{
    let mut sweep = ProductSweep::start(op, VARIABLES, f, g, PARTS, room, bench)?;
    match drive(&mut sweep, MOST_TURNS, bench)? {
        Turn::Ended => Ok(sweep.made()),
        Turn::More => Ok(None),
    }
}

/// Whether one function implies another everywhere, where its sweep ends in time.
pub(crate) fn implies(
    f: FileNo,
    g: FileNo,
    room: &mut [Rec],
    bench: &mut Bench,
) -> Result<Option<bool>, SortFault>
    requires enough { LEAST_ROOM ≤ length room.old }
{
    let mut sweep = LeqSweep::start(VARIABLES, f, g, PARTS, room, bench)?;
    match drive(&mut sweep, MOST_TURNS, bench)? {
        Turn::Ended => Ok(sweep.answer()),
        Turn::More => Ok(None),
    }
}

/// The arcs of a choice.
pub(crate) fn choice(
    test: FileNo,
    yes: FileNo,
    no: FileNo,
    room: &mut [Rec],
    bench: &mut Bench,
) -> Result<Option<Unreduced>, SortFault>
    requires enough { LEAST_ROOM ≤ length room.old }
{
    let mut sweep = IteSweep::start(VARIABLES, test, yes, no, PARTS, room, bench)?;
    match drive(&mut sweep, MOST_TURNS, bench)? {
        Turn::Ended => Ok(sweep.made()),
        Turn::More => Ok(None),
    }
}

/// Those of a quantifier.
pub(crate) fn quantified(
    kind: Quant,
    f: FileNo,
    level: u32,
    room: &mut [Rec],
    bench: &mut Bench,
) -> Result<Option<Unreduced>, SortFault>
    requires within { level < VARIABLES }
    requires enough { LEAST_ROOM ≤ length room.old }
{
    let mut sweep = QuantifySweep::start(kind, VARIABLES, f, level, PARTS, room, bench)?;
    match drive(&mut sweep, MOST_TURNS, bench)? {
        Turn::Ended => Ok(sweep.made()),
        Turn::More => Ok(None),
    }
}

/// Those of a restriction.
pub(crate) fn restricted(
    f: FileNo,
    level: u32,
    value: bool,
    room: &mut [Rec],
    bench: &mut Bench,
) -> Result<Option<Unreduced>, SortFault>
    requires within { level < VARIABLES }
    requires enough { LEAST_ROOM ≤ length room.old }
{
    let mut sweep = RestrictSweep::start(VARIABLES, f, level, value, PARTS, room, bench)?;
    match drive(&mut sweep, MOST_TURNS, bench)? {
        Turn::Ended => Ok(sweep.made()),
        Turn::More => Ok(None),
    }
}
