//! A run of the program over a station, and one in memory with the texts at the paths that its words name.
use script_runner::adiar;
use shelf_memory::Bench;
use shelf_model::Station;
use std::alloc::{AllocError, Global};

/// The words of a run in the station's own folder.
pub const RUN: [&str; 5] = ["adiar", "run", "FOLDER", "--script", "script"];

/// The words of such a run in the least room.
pub const SMALL: [&str; 6] = [
    "adiar",
    "--budget=16384",
    "run",
    "FOLDER",
    "--script",
    "script",
];

/// The words of a run over a netlist.
pub const NET: [&str; 7] = [
    "adiar",
    "run",
    "FOLDER",
    "--script",
    "script",
    "--netlist",
    "netlist",
];

/// The words of such a run in the least room.
pub const SMALL_NET: [&str; 8] = [
    "adiar",
    "run",
    "FOLDER",
    "--script",
    "script",
    "--netlist",
    "netlist",
    "--budget=16384",
];

/// The words of a list of the station's own folder.
pub const LIST: [&str; 3] = ["adiar", "list", "FOLDER"];

/// What is said to words that aren't accepted.
pub const USAGE: &[u8] = b"usage: adiar ACTION FOLDER [options]\n";

/// A script of one request, which uses no netlist.
pub const ONE_VARIABLE: &[u8] = b"vars a b c\nvar f b\n";

/// What its run says in an empty folder.
pub const ONE_TEXT: &[u8] = b"start 1\n2: nodes 1\ndone\n";

/// A station with a script at the path that `RUN` names, and maybe a netlist at the one that `NET` names.
pub fn bench_with(
    alloc: Global,
    script: &[u8],
    netlist: Option<&[u8]>,
) -> Result<Bench, AllocError> {
    let mut bench = Bench::empty(alloc);
    bench.put_text("script", script)?;
    if let Some(netlist) = netlist {
        bench.put_text("netlist", netlist)?;
    }
    Ok(bench)
}

/// Words, each as a text of its own.
fn owned(alloc: Global, words: &[&str]) -> Result<Vec<String>, AllocError> {
    let mut owned = Vec::new(alloc);
    for word in words {
        owned.push(String::from_str(alloc, word)?)?;
    }
    Ok(owned)
}

/// Runs the program, and answers its status, or 9, as where it finds no memory, where there is none for the words.
pub fn run<W: Station>(alloc: Global, words: &[&str], station: &mut W) -> u8 {
    match owned(alloc, words) {
        Ok(owned) => adiar(alloc, owned.as_slice(), station),
        Err(_) => 9,
    }
}

/// Whether a run with these words answers this status, and the station was told this text in all.
pub fn gives(alloc: Global, words: &[&str], bench: &mut Bench, status: u8, said: &[u8]) -> bool {
    run(alloc, words, bench) == status && bench.said() == said
}
