//! A sweep that is driven to its end.
ghost use Rattle.std.specs.Prelude.{◌≤◌, length};
ghost use Rattle.top_down_cases.specs.declared.sweeping.TheConstants.{LEAST_ROOM};

use crate::sweeping::{EMPTY, LEAST_ROOM, THREE, swept};
use case_tables::{bench_of, operator};
use rec_words::Rec;
use shelf_memory::Bench;
use shelf_model::SortFault;
use std::alloc::Global;
use std::test::Fail;
use top_down_sweep::Product;

/// The tables of the first and of the second of two variables.
const FIRST_VARIABLE: &[bool] = &[false, false, true, true];

const SECOND_VARIABLE: &[bool] = &[false, true, false, true];

// Whether an exclusive or ends with its seventh turn and not before it, of which the first six are made at a time; and
// whether it has so many arcs of each kind.
fn ends_with_seventh_turn(
    inner: u64,
    ends: u64,
    room: &mut [Rec],
    bench: &mut Bench,
) -> Result<bool, SortFault>
    requires enough { LEAST_ROOM ≤ length room.old }
{
    let op = operator(0b0110);
    match swept(Product { op }, 2, THREE, 6, room, bench)? {
        Some(arcs) => {
            let made = arcs.made;
            Ok(arcs.turns == 7 && made.inner_count == inner && made.ends_count == ends)
        }
        None => Ok(false),
    }
}

// The exclusive or of two variables takes seven turns: the root is asked for; its node is read, and numbered; the node
// of the second variable is read, and numbered for each side of the first one; and the sweep ends. Then it has an arc
// to each of the two nodes, and two arcs of each to truth values.
fn product_of_variables_ends(alloc: Global) -> Result<bool, Fail> {
    let tables = [FIRST_VARIABLE, SECOND_VARIABLE, FIRST_VARIABLE];
    let mut bench = bench_of(alloc, 2, tables)?;
    let mut room = vec![in alloc; EMPTY; LEAST_ROOM]?;
    Ok(ends_with_seventh_turn(2, 4, room.as_mut_slice(), &mut bench)?)
}

#[test]
fn a_product_is_driven_to_its_end(rt: HostRuntime) -> Result<(), Fail> {
    let ends = product_of_variables_ends(rt.alloc())?;
    assert!(rt; ends);
    Ok(())
}
