//! Reductions that are refused.
use crate::diagrams::{Sharing, diagram_of};
use crate::reducing::{ENDS, INNER, LEAST_ROOM, OUT, reduce, write_arcs};
use case_tables::Random;
use rec_words::Rec;
use shelf_memory::Bench;
use shelf_model::{FileNo, SortFault};
use std::test::Fail;

const EMPTY: Rec = Rec { w: [0; 8] };

// The reduction of an exclusive or ends where so many calls succeed, or with the fault of the next one.
fn ends_at(rt: HostRuntime, call: u64) -> Result<Option<bool>, Fail> {
    let table = [false, true, true, false];
    let (root, arcs) = diagram_of(rt.alloc(), &table, Sharing::Below(0), Random::new(1))?;
    let mut bench = Bench::empty(rt.alloc());
    let made = write_arcs(root, arcs.as_slice(), &mut bench)?;
    bench.fail_at(bench.clock().saturating_add(call))?;
    let before = bench.clock();
    let mut room = vec![in rt.alloc(); EMPTY; LEAST_ROOM]?;
    match reduce(2, made, room.as_mut_slice(), &mut bench) {
        Ok(count) => Ok(Some(count == Some(3) && bench.clock() <= before.saturating_add(call))),
        Err(SortFault::Shelf) => Ok(None),
        Err(_) => Ok(Some(false)),
    }
}

// Each of the first calls that fails ends it, and later ones are never made.
fn each_call_ends(rt: HostRuntime) -> Result<bool, Fail> {
    let mut ended = false;
    for call in 0..100 {
        match ends_at(rt, call)? {
            Some(false) => return Ok(false),
            Some(true) => ended = true,
            None => {}
        }
    }
    Ok(ended)
}

#[test]
fn each_failing_call_ends_a_reduction(rt: HostRuntime) -> Result<(), Fail> {
    let ends = each_call_ends(rt)?;
    assert!(rt; ends);
    Ok(())
}

// The reduction tells that the last arc of a file is damaged.
fn tells_damage_in(rt: HostRuntime, file: FileNo, at: u64) -> Result<bool, Fail> {
    let table = [false, true, true, false];
    let (root, arcs) = diagram_of(rt.alloc(), &table, Sharing::Below(0), Random::new(1))?;
    let mut bench = Bench::empty(rt.alloc());
    let made = write_arcs(root, arcs.as_slice(), &mut bench)?;
    bench.put_file(file, &[0xff; 64])?;
    let mut room = vec![in rt.alloc(); EMPTY; LEAST_ROOM]?;
    let refused = reduce(2, made, room.as_mut_slice(), &mut bench).err();
    Ok(refused == Some(SortFault::Damaged { file, at }))
}

#[test]
fn tells_where_an_arc_is_damaged(rt: HostRuntime) -> Result<(), Fail> {
    let tells = tells_damage_in(rt, INNER, 16)? && tells_damage_in(rt, ENDS, 48)?;
    assert!(rt; tells);
    Ok(())
}
