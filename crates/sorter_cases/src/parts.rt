// The last part number of a step.

use run_merge::Parts;
use shelf_model::{FileNo, SortFault};

#[test]
fn gives_the_last_part_and_then_none(rt: HostRuntime) {
    let mut parts = Parts {
        step: 0,
        next: 4_294_967_295,
    };
    let last = FileNo {
        step: 0,
        part: 4_294_967_295,
    };
    let is_given = parts.fresh() == Ok(last);
    let is_spent = parts.fresh() == Err(SortFault::RunsSpent);
    assert!(rt; is_given && is_spent && parts.next == 4_294_967_296);
}
