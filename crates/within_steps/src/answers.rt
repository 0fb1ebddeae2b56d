//! Answers that are found by reading large diagrams alone.
use crate::steps::Tried;
use crate::stops::goes_on;
use std::test::Fail;

#[test]
fn a_comparison_goes_on_behind_a_stop(rt: HostRuntime) -> Result<(), Fail> {
    goes_on(&rt, rt.alloc(), Tried::Same)
}

#[test]
fn an_evaluation_goes_on_behind_a_stop(rt: HostRuntime) -> Result<(), Fail> {
    goes_on(&rt, rt.alloc(), Tried::Value)
}
