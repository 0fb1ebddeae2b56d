//! The program `adiar`: its words, and the real outside.
#![tactic(auto)]

use host_station::HostStation;
use script_runner::adiar;
use std::fs::File;
use std::os::fd::AsRawFd;
use std::process::ExitCode;
use std::{env, fs, io};

/// The status where standard output can't be had.
const NO_OUTPUT: u8 = 8;

/// The status where there is no memory for the words.
const NO_MEMORY: u8 = 9;

fn main(rt: HostRuntime) -> ExitCode {
    let Ok(held) = hold_standard(&rt) else {
        return ExitCode::from(NO_OUTPUT);
    };
    let status = run(&rt);
    drop(held);
    ExitCode::from(status)
}

/// Takes those of descriptors 0 to 2 that are closed, so that no file of the folder gets one of
/// them.
///
/// They are taken for reading, so saying to a closed standard output fails as it did.
fn hold_standard(rt: &HostRuntime) -> io::Result<Vec<File>> {
    let mut held = Vec::new(rt.alloc());
    for _ in 0..3 {
        let file = fs::open(rt, "/dev/null")?;
        if file.as_raw_fd() > 2 {
            break;
        }
        held.push(file)?;
    }
    Ok(held)
}

fn run(rt: &HostRuntime) -> u8 {
    let alloc = rt.alloc();
    let mut station = HostStation::new(rt, alloc);
    match words_of(rt) {
        Ok(words) => adiar(alloc, words.as_slice(), &mut station),
        Err(e) if e.kind() == io::ErrorKind::OutOfMemory => NO_MEMORY,
        // Words that aren't text have no reading.
        Err(_) => adiar(alloc, &[], &mut station),
    }
}

/// The words that the program was started with.
fn words_of(rt: &HostRuntime) -> io::Result<Vec<String>> {
    Ok(env::args(rt)?.collect(rt.alloc())?)
}
