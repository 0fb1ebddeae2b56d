//! Steps on operand files that no program wrote.
use crate::failing::{Asked, CASES, FEWEST, answer_of, task_of};
use crate::given::Given;
use crate::judged::is_damaged_at;
use crate::steps::{LEAST_ROOM, holds};
use case_tables::{FIRST, put_bytes};
use shelf_model::SortFault;
use std::alloc::{AllocError, Global};
use std::test::Fail;

// Why a step is refused that makes a diagram of the files, or that answers.
fn fault_of(case: u32, given: &mut Given) -> Option<SortFault> {
    match case {
        0 => answer_of(Asked::Same, given).err(),
        1 => answer_of(Asked::Leq, given).err(),
        2 => answer_of(Asked::Value, given).err(),
        _ => given.make(task_of(case - 3)).err(),
    }
}

// A step over a first file of these bytes ends, or says where that file is damaged, which it is.
fn ends_or_tells(case: u32, bytes: &[u8], given: &mut Given) -> Result<bool, Fail> {
    put_bytes(&mut given.bench, FIRST, bytes)?;
    Ok(match fault_of(case, given) {
        None => true,
        Some(SortFault::Damaged { file, at }) => file == FIRST && is_damaged_at(FEWEST, bytes, at),
        Some(_) => false,
    })
}

// The bytes with another one at a place.
fn with_change(alloc: Global, bytes: &[u8], at: usize, change: u8) -> Result<Vec<u8>, AllocError> {
    let mut changed = Vec::from_slice(alloc, bytes)?;
    if let Some(byte) = changed.as_mut_slice().get_mut(at) {
        *byte ^= change;
    }
    Ok(changed)
}

// So does a step over a file that has one of three other bytes at a place.
fn ends_with_changes(case: u32, bytes: &[u8], at: usize, given: &mut Given) -> Result<bool, Fail> {
    for change in &[1, 0x80, 0xff] {
        let changed = with_change(given.alloc, bytes, at, *change)?;
        if !ends_or_tells(case, changed.as_slice(), given)? {
            return Ok(false);
        }
    }
    Ok(true)
}

// So does a step over a file that ends early, or that has another byte somewhere.
fn ends_with_changed_bytes(case: u32, bytes: &[u8], given: &mut Given) -> Result<bool, Fail> {
    for at in 0..bytes.len() {
        let (front, _back) = bytes.split_at(at);
        if !ends_or_tells(case, front, given)? || !ends_with_changes(case, bytes, at, given)? {
            return Ok(false);
        }
    }
    Ok(true)
}

fn each_step_ends_with_changed_bytes(given: &mut Given) -> Result<bool, Fail> {
    for case in 0..CASES + 3 {
        given.take_seed(FEWEST, 1)?;
        let bytes = Vec::from_slice(given.alloc, given.bench.file(FIRST))?;
        if !ends_with_changed_bytes(case, bytes.as_slice(), given)? {
            return Ok(false);
        }
    }
    Ok(true)
}

#[test]
fn a_changed_operand_is_damaged_or_the_step_ends(rt: HostRuntime) -> Result<(), Fail> {
    let mut given = Given::room_of(rt.alloc(), LEAST_ROOM)?;
    holds(&rt, each_step_ends_with_changed_bytes(&mut given))
}
