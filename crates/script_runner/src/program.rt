//! The program.
ghost use Rattle.std.specs.Prelude.{◌≤◌, Some, map, string_bytes, IsTrue};
ghost use Rattle.shelf_model.specs.Calls.{Told};
ghost use Rattle.command_words.specs.Readings.{reading_of, run, gen};
ghost use Rattle.command_words.specs.Views.{text_of};
ghost use Rattle.script_runner.specs.Outcome.{Ends, ByWords, StatusHasCause, MakesFewCalls, NetlistIsFirst, Answers};
ghost use Rattle.script_runner.specs.Status.{status_of};

use crate::ending::Ending;
use crate::fetch::{FetchFault, fetch_text};
use crate::line::netlist_line;
use crate::listed::list_folder;
use crate::netlist::{NetlistFault, fetch_netlist};
use crate::refusal::say_refusal;
use crate::run_source::run_source;
use command_words::{Words, WordsFault, read_words};
use example_script::gen_script;
use script_reader::MOST_BYTES;
use shelf_model::Station;
use std::alloc::Global;

/// What is said where the words aren't accepted.
const USAGE: &[u8] = b"usage: adiar ACTION FOLDER [options]\n";

/// Runs the script at a path, over the netlist at another one where that is named, in a folder.
fn run_texts<W: Station>(
    alloc: Global,
    folder: &str,
    script: &str,
    netlist: Option<&str>,
    budget: u32,
    station: &mut W,
) -> Ending
    requires budget { (16384 ≤ budget) × (budget ≤ 4194304) }
    ensures answers { Answers W.tells W.world W.faults
        (Some (run folder.now script.now (text_of netlist.entry) budget)) (status_of result) station.old station.new }
{
    let netlist = match fetch_netlist(alloc, netlist, station) {
        Ok(netlist) => netlist,
        Err(NetlistFault::Memory) => return Ending::NoMemory,
        Err(NetlistFault::Text) => return Ending::TextFault,
        Err(NetlistFault::Faulty(fault)) => {
            return say_refusal(
                netlist_line(fault).as_str().as_bytes(),
                Ending::Netlist,
                station,
            );
        }
    };
    let text = match fetch_text(alloc, script, MOST_BYTES, station) {
        Ok(text) => text,
        Err(FetchFault::Memory) => return Ending::NoMemory,
        Err(FetchFault::Text) => return Ending::TextFault,
    };
    run_source(alloc, folder, budget, &text, &netlist, station)
}

/// Runs the script of a size in a folder.
fn run_size<W: Station>(
    alloc: Global,
    folder: &str,
    size: u32,
    budget: u32,
    station: &mut W,
) -> Ending
    requires size { (1 ≤ size) × (size ≤ 16) }
    requires budget { (16384 ≤ budget) × (budget ≤ 4194304) }
    ensures answers { Answers W.tells W.world W.faults (Some (gen folder.now size budget)) (status_of result)
        station.old station.new }
{
    let Ok(script) = gen_script(alloc, size) else {
        return Ending::NoMemory;
    };
    run_source(alloc, folder, budget, &script, &None, station)
}

/// Does what the words ask for.
fn answer<W: Station>(alloc: Global, words: &[String], station: &mut W) -> Ending
    ensures answers { Answers W.tells W.world W.faults (reading_of (map string_bytes words.now)) (status_of result)
        station.old station.new }
{
    match read_words(alloc, words) {
        Ok(
            Words::Run {
                folder,
                script,
                netlist,
                budget,
            },
        ) => run_texts(alloc, folder, script, netlist, budget, station),
        Ok(Words::List { folder }) => list_folder(alloc, folder, station),
        Ok(
            Words::Gen {
                folder,
                size,
                budget,
            },
        ) => run_size(alloc, folder, size, budget, station),
        Err(WordsFault::Memory) => Ending::NoMemory,
        Err(WordsFault::Usage) => say_refusal(USAGE, Ending::Usage, station),
    }
}

/// The program: does what the words ask for, the first of which is the program's own name, and answers
/// its exit status.
///
/// `run FOLDER --script FILE` runs the script's job in the folder, with a room of as many records as
/// `--budget` says, over the netlist at `--netlist` where that is given: it makes the node file of each step that
/// isn't committed there yet, and says its line once the step is committed. All memory is taken before the folder is
/// entered. After a stop the same words go on from where the folder stands, with any `--budget`. `gen FOLDER --size N`
/// does the same with a script that is made from the size. `list FOLDER` says the name and the number of nodes of each
/// diagram that the folder's committed steps named and didn't drop.
///
/// | status | comes | said at the end |
/// |---|---|---|
/// | 0 | all was done | `done`, where a job was run |
/// | 2 | the words aren't accepted | the usage |
/// | 3 | the script isn't accepted: its first faulty line, and why | `script: line L: KIND` |
/// | 4 | the netlist isn't accepted: its first faulty line, and why | `netlist: line L: KIND` |
/// | 5 | the folder stores another job, which differs from that byte on, the budgets aside | `other job at B` |
/// | 6 | a text couldn't be fetched | |
/// | 7 | a call of the folder failed | |
/// | 8 | a line couldn't be said | |
/// | 9 | there was no memory | |
/// | 10 | a file doesn't hold what it should, from that byte on | `damaged S P B` |
/// | 11 | that step needs a new file, and has no part number left | `runs spent at step K` |
pub fn adiar<W: Station>(alloc: Global, words: &[String], station: &mut W) -> u8
    ensures content { Told W.tells station.old station.new
        (Ends (reading_of (map string_bytes words.now)) result (W.world station.old) (W.world station.new)) }
    ensures calls { IsTrue (W.tells station.new)
        → MakesFewCalls (reading_of (map string_bytes words.now)) (W.world station.old) (W.world station.new) }
    ensures by_words { ByWords (reading_of (map string_bytes words.now)) result }
    ensures causes { StatusHasCause (reading_of (map string_bytes words.now)) result (W.faults station.old)
        (W.faults station.new) }
    ensures in_order { IsTrue (W.tells station.new) → NetlistIsFirst (reading_of (map string_bytes words.now)) result
        (W.world station.old) (W.faults station.old) (W.faults station.new) }
{
    answer(alloc, words, station).status()
}
