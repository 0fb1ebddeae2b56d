// The lines that list a folder's diagrams.
ghost use Rattle.std.specs.Prelude.{◌≡◌};

use crate::tests::{ROW, first_bytes, node};
use catalogue::{CATALOGUE, Entry, JOB_GATE, STEP_GATE, attach, commit};
use diagram_list::{ListFault, MOST_STEPS, list_diagrams};
use shelf_memory::Bench;
use shelf_model::Shelf;
use std::alloc::Global;
use std::test::Fail;

// The entry of a step that drops the diagram of step 0.
fn drop_of_first(number: u32) -> Entry
    ensures { result.number ≡ number }
{
    Entry {
        number,
        kind: 2,
        answer: 0,
        count: 0,
        turns: 1,
        parts: 3,
        name_len: 0,
        name: [0; 63],
    }
}

// A folder with the named diagrams f, g and h, of which f is dropped.
fn three_and_a_drop(alloc: Global) -> Result<Bench, Fail> {
    let mut bench = Bench::empty(alloc);
    let begun = attach(&ROW, 4, &mut bench)?;
    if begun.done == 0 {
        commit(&node(0, b'f'), &mut bench)?;
        commit(&node(1, b'g'), &mut bench)?;
        commit(&node(2, b'h'), &mut bench)?;
        commit(&drop_of_first(3), &mut bench)?;
    }
    Ok(bench)
}

// Whether the two that are not dropped are listed, in the order of the steps.
fn lists_two(alloc: Global) -> Result<bool, Fail> {
    let mut room = vec![in alloc; true; MOST_STEPS]?;
    let mut bench = three_and_a_drop(alloc)?;
    let listed = list_diagrams(room.as_mut_slice(), &mut bench).is_ok();
    Ok(listed && bench.said() == b"g 1\nh 1\n".as_slice())
}

#[test]
fn lists_what_is_not_dropped(rt: HostRuntime) -> Result<(), Fail> {
    assert!(rt; lists_two(rt.alloc())?);
    Ok(())
}

// Whether a folder in which nothing was stored has an empty list.
fn lists_nothing(alloc: Global) -> Result<bool, Fail> {
    let mut room = vec![in alloc; false; MOST_STEPS]?;
    let mut bench = Bench::empty(alloc);
    let listed = list_diagrams(room.as_mut_slice(), &mut bench).is_ok();
    Ok(listed && bench.said().is_empty() && bench.file(JOB_GATE).is_empty())
}

#[test]
fn lists_an_empty_folder(rt: HostRuntime) -> Result<(), Fail> {
    assert!(rt; lists_nothing(rt.alloc())?);
    Ok(())
}

// A folder whose first entry has a kind that is none.
fn entry_of_no_kind(alloc: Global) -> Result<Bench, Fail> {
    let mut bytes = first_bytes();
    bytes[4] = 9;
    let mut bench = Bench::empty(alloc);
    bench.append(CATALOGUE, 0, &bytes)?;
    bench.append(JOB_GATE, 0, &[0])?;
    bench.append(STEP_GATE, 0, &[0])?;
    Ok(bench)
}

// Whether nothing is said there.
fn refuses_a_kind(alloc: Global) -> Result<bool, Fail> {
    let mut room = vec![in alloc; false; MOST_STEPS]?;
    let mut bench = entry_of_no_kind(alloc)?;
    let damaged = ListFault::Damaged {
        file: CATALOGUE,
        at: 0,
    };
    let refused = list_diagrams(room.as_mut_slice(), &mut bench) == Err(damaged);
    Ok(refused && bench.said().is_empty())
}

#[test]
fn refuses_an_entry_of_no_kind(rt: HostRuntime) -> Result<(), Fail> {
    assert!(rt; refuses_a_kind(rt.alloc())?);
    Ok(())
}
