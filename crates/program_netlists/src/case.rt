// Tables of cases: acts of a station in memory that is empty at first.
use case_runs::{Act, first_fault};
use std::alloc::Global;
use std::process::Abort;
use std::test::Fail;

/// A name, and the acts.
pub(crate) type Case = (&'static str, &'static [Act]);

/// These acts go as they say.
pub(crate) fn goes(rt: &impl Abort, alloc: Global, name: &str, acts: &[Act]) -> Result<(), Fail> {
    let fault = first_fault(alloc, &[], acts, None);
    assert!(rt; fault.is_none(), "{name}: act {fault:?}");
    Ok(())
}

/// Each of these cases goes as it says.
pub(crate) fn all_go(rt: &impl Abort, alloc: Global, cases: &[Case]) -> Result<(), Fail> {
    for (name, acts) in cases {
        goes(rt, alloc, name, acts)?;
    }
    Ok(())
}
