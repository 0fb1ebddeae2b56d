//! Drives the real folder beside a folder in memory: the same calls, chosen by a seed, have to be
//! answered alike.
//!
//! The words are a folder, the seed, the number of calls, the number of files, and perhaps `marks`:
//! then each sync is said before and after it.
#![tactic(auto)]

mod dice;
mod pair;
mod walk;

use dice::Dice;
use host_station::HostStation;
use shelf_memory::Bench;
use std::process::ExitCode;
use std::test::Fail;
use std::{env, fs};
use walk::{TEXT_LEN, Walk, fails_outside, refuses_other_places};

fn main(rt: HostRuntime) -> Result<ExitCode, Fail> {
    let words: Vec<String> = env::args(&rt)?.collect(rt.alloc())?;
    if words.len() < 5 {
        return Ok(ExitCode::from(2));
    }
    let marks = words.len() > 5;
    let text = format!(in rt.alloc(); "{}.text", words[1])?;
    let walk = Walk {
        alloc: rt.alloc(),
        folder: words[1].as_str(),
        text: text.as_str(),
        files: number(words[4].as_str()),
        marks,
    };
    let alike = walk_twice(
        &walk,
        number(words[2].as_str()),
        number(words[3].as_str()),
        &rt,
    )?;
    Ok(ExitCode::from(if alike { 0 } else { 1 }))
}

fn number(word: &str) -> u64 {
    match word.parse() {
        Ok(number) => number,
        Err(_) => 0,
    }
}

// Walks through a folder, and then once more by a new station, as a later run would.
fn walk_twice(walk: &Walk<'_>, seed: u64, calls: u64, rt: &HostRuntime) -> Result<bool, Fail> {
    let mut bench = Bench::empty(rt.alloc());
    let bytes = [b'a'; TEXT_LEN];
    fs::write(rt, walk.text, bytes.as_slice())?;
    bench.put_text(walk.text, &bytes)?;
    let mut dice = Dice::new(seed);
    // The steps that are swept lie behind those of the walk, and those that are copied behind these. The second round
    // sweeps the first one's last step again.
    for (swept, copied) in [(1000u32, 2000u32), (1004, 3000)] {
        let mut real = HostStation::new(rt, rt.alloc());
        if let Some(call) = walk.go(calls, &mut dice, &mut real, &mut bench)? {
            println!(rt; "call {call} isn't answered as in memory")?;
            return Ok(false);
        }
        if !walk.sweep(swept, &mut dice, &mut real, &mut bench)?
            || !walk.copy(copied, &mut dice, &mut real, &mut bench)?
        {
            println!(rt; "the steps from {swept} or {copied} on aren't answered as in memory")?;
            return Ok(false);
        }
        println!(rt; "{calls} calls as in memory")?;
    }
    if !fails_outside(rt) || !refuses_other_places(walk.folder, rt) {
        println!(rt; "a call that has to fail does not")?;
        return Ok(false);
    }
    Ok(true)
}
