// Tables of cases: acts of a station in memory, and the files that have to come of them.
use case_runs::{Act, first_fault};
use std::alloc::Global;
use std::process::Abort;
use std::test::Fail;

/// A name, acts of a station that is empty at first, more of them, and, where the files have to be those of another
/// station then, the acts of that one.
pub(crate) type Case = (
    &'static str,
    &'static [Act],
    &'static [Act],
    Option<&'static [Act]>,
);

/// Each of these cases goes as it says.
pub(crate) fn all_go(rt: &impl Abort, alloc: Global, cases: &[Case]) -> Result<(), Fail> {
    for (name, before, acts, like) in cases {
        let fault = first_fault(alloc, before, acts, *like);
        assert!(rt; fault.is_none(), "{name}: act {fault:?}");
    }
    Ok(())
}
