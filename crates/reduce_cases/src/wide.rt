//! A diagram with levels that are wider than the least rooms of the lists.
ghost use Rattle.std.specs.Prelude.{◌≡◌, ◌^◌, IfOk, length};

use crate::diagrams::{Sharing, diagram_of};
use crate::reducing::{LEAST_ROOM, OUT, reduce_and_tell, write_arcs};
use canon_file::plain_canon;
use case_tables::Random;
use rec_words::Rec;
use shelf_memory::Bench;
use std::alloc::{AllocError, Global};
use std::test::Fail;

const EMPTY: Rec = Rec { w: [0; 8] };

// A table of 16 variables, whose parts of eight places are numbers below 256. Part 256 * h + b has the number
// b + 7 * h, modulo 256: the numbers go up by one from part to part, and each 256 parts begin seven above those before.
fn turned_table(alloc: Global) -> Result<Vec<bool>, AllocError>
    ensures { IfOk result (λ table. length table.items ≡ 2 ^ 16) }
{
    let mut table = Vec::new(alloc);
    for place in 0..1usize << 16 {
        let part = place >> 3;
        let number = part + 7 * (part >> 8);
        table.push(number >> (place & 7) & 1 == 1)?;
    }
    Ok(table)
}

// How many parts the reduction takes of that table's diagram whose nodes down to level 13 are not shared.
//
// No part of 16 places or more has equal halves, so the levels down to 12 have all nodes: level 12 has 4,096, and
// level 11 has 2,048. Of the 8,192 parts of level 13 those whose halves of four places are equal are passed over, 16 of
// each 256. So it has 7,680 nodes.
//
// The least room of 16,384 records leaves 2,002 each for the newest rows and names, and 8,612 for the newest arcs of
// the queue. A push into a full one makes a run of it, in a part.
//
// - Rows: all of a level are there before the first is taken, 7,680, 4,096 and 2,048. These make 3 runs, 2 and 1.
// - Names: as many, and as many runs.
// - Queue: each node of level 13 has two arcs to parts of four places, of which two in 16 are truth values. So
//   7,680 * 2 * 7 / 8 = 13,440 arcs wait before that level is begun, and at most 512 that pass over it: more than
//   8,612, and less than 2 * 8,612. Later the 7,680 arcs to the level join at most 512. These make one run and none.
const PARTS_TAKEN: u64 = 6 + 6 + 1;

fn takes_parts(rt: HostRuntime) -> Result<bool, Fail> {
    let table = turned_table(rt.alloc())?;
    let wanted = plain_canon(rt.alloc(), 16, table.as_slice())?;
    let sharing = Sharing::Below(13);
    let (root, arcs) = diagram_of(rt.alloc(), table.as_slice(), sharing, Random::new(1))?;
    let mut bench = Bench::empty(rt.alloc());
    let made = write_arcs(root, arcs.as_slice(), &mut bench)?;
    let mut room = vec![in rt.alloc(); EMPTY; LEAST_ROOM]?;
    let (count, taken) = reduce_and_tell(16, made, room.as_mut_slice(), &mut bench)?;
    Ok(
        bench.file(OUT) == wanted.as_slice()
            && count == Some((wanted.len() as u64 / 24).saturating_sub(1))
            && taken == PARTS_TAKEN,
    )
}

#[test]
fn takes_parts_where_levels_are_wider_than_the_room(rt: HostRuntime) -> Result<(), Fail> {
    let takes = takes_parts(rt)?;
    assert!(rt; takes);
    Ok(())
}
