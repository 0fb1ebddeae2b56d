// The program over a real folder: entries are read back, a file is cut, and a second run finds all.
use crate::scripts::DROPPING;
use case_runs::{RUN, run};
use host_station::HostStation;
use std::fs;
use std::test::Fail;

/// The files of the folder, and their lengths once all is done: the job, 20 bytes before its script
/// of 41, its gate, the entries of four steps of 128 bytes each, the gate with a byte for each step,
/// the constant that was dropped, and a node and a trailer of 24 bytes each.
const FILES: [(&str, u64); 6] = [
    ("FOLDER/s4294967295p0", 61),
    ("FOLDER/s4294967295p1", 1),
    ("FOLDER/s4294967295p2", 512),
    ("FOLDER/s4294967295p3", 4),
    ("FOLDER/s0p0", 0),
    ("FOLDER/s1p0", 48),
];

// Whether a run in the folder ends well, and leaves all files.
fn runs_well(rt: &HostRuntime) -> Result<bool, Fail> {
    let mut station = HostStation::new(rt, rt.alloc());
    if run(rt.alloc(), &RUN, &mut station) != 0 {
        return Ok(false);
    }
    for (path, len) in FILES {
        if fs::metadata(rt, path)?.len() != len {
            return Ok(false);
        }
    }
    Ok(true)
}

fn runs_twice(rt: &HostRuntime) -> Result<bool, Fail> {
    fs::write(rt, "script", DROPPING)?;
    Ok(runs_well(rt)? && runs_well(rt)?)
}

#[test]
fn reads_cuts_and_goes_on_in_a_real_folder(rt: HostRuntime) -> Result<(), Fail> {
    assert!(rt; runs_twice(&rt)?);
    Ok(())
}
