//! Checkpoint files that are shorter than their gate says.
use crate::lives::live_from;
use crate::plans::{FEW, Plan};
use case_lives::{EMPTY, STEP, Way, going_from, room_len};
use case_tables::put_bytes;
use file_numbers::{checkpoint_file, checkpoint_gate};
use shelf_model::{FileNo, SortFault};
use std::alloc::Global;
use std::test::Fail;

/// How many checkpoints are gated, how many bytes their file has, and where the last of them had to stand.
const SHORT: [(usize, usize, u64); 6] = [
    (1, 0, 0),
    (1, 16_383, 0),
    (2, 16_384, 16_384),
    (2, 32_767, 16_384),
    (3, 0, 32_768),
    (3, 49_151, 32_768),
];

// Whether a sweep that is saved names that place.
fn names(alloc: Global, plan: Plan, gated: usize, bytes: usize, at: u64) -> Result<bool, Fail> {
    let case = plan.case(alloc)?;
    let mut bench = case.bench(alloc)?;
    let gate = vec![in alloc; 0u8; gated]?;
    let points = vec![in alloc; 0u8; bytes]?;
    put_bytes(&mut bench, checkpoint_gate(STEP), gate.as_slice())?;
    put_bytes(&mut bench, checkpoint_file(STEP), points.as_slice())?;
    let mut records = vec![in alloc; EMPTY; room_len(0)]?;
    let room = records.as_mut_slice();
    let mut going = going_from(0, 1, None);
    let lived = live_from(&case, Way::ToEnd, &mut going, room, &mut bench);
    let file = FileNo { step: 7, part: 1 };
    Ok(lived == Err(SortFault::Damaged { file, at }))
}

#[test]
fn a_short_file_is_named_at_the_last_gated_place(rt: HostRuntime) -> Result<(), Fail> {
    for plan in FEW {
        for (gated, bytes, at) in SHORT {
            let names = names(rt.alloc(), plan, gated, bytes, at)?;
            assert!(rt; names, "{plan:?}, {gated}, {bytes}");
        }
    }
    Ok(())
}
