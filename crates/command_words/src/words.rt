//! What the words ask for.
ghost use Rattle.std.specs.Prelude.{◌≡◌, ◌∷◌, map, Some, None, string_bytes, option_map, IfOk, IsErrOf};
ghost use Rattle.command_words.specs.Readings.{IsInRange, reading_of, asked, run_of, list_of, gen_of, budget_of};
ghost use Rattle.command_words.specs.Views.{view_of, meaning_of, text_of};

use crate::fault::WordsFault;
use crate::given::{Given, given_for};
use crate::number::number_from;
use std::alloc::Global;

/// The records of a run's room, where no budget is given.
const USUAL_BUDGET: u32 = 262_144;

/// What is asked for.
#[derive(Clone, Copy, Debug, PartialEq, Eq)]
pub enum Words<'a> {
    /// A run of a script, maybe over a netlist, in a folder, with a room of that many records.
    Run {
        folder: &'a str,
        script: &'a str,
        netlist: Option<&'a str>,
        budget: u32,
    },
    /// The named diagrams of a folder.
    List {
        folder: &'a str,
    },
    /// A run of the script that is made from a size, in a folder, with a room of that many records.
    Gen {
        folder: &'a str,
        size: u32,
        budget: u32,
    },
}

/// The records of a run's room, where those that are given are a number in range.
fn budget(given: Option<&str>) -> Option<u32>
    ensures { result ≡ budget_of (text_of given.entry) }
{
    match given {
        Some(word) => number_from(16_384, 4_194_304, word),
        None => Some(USUAL_BUDGET),
    }
}

/// A run of a script, where the options are those of one.
fn run_words<'a>(folder: &'a str, given: &Given<'a>) -> Option<Words<'a>>
    ensures { option_map meaning_of result ≡ run_of folder.entry.now (view_of given.now) }
{
    match (given.script, given.size) {
        (Some(script), None) => {
            let netlist = given.netlist;
            let budget = budget(given.budget)?;
            Some(Words::Run {
                folder,
                script,
                netlist,
                budget,
            })
        }
        _ => None,
    }
}

/// A list, where no option is given.
fn list_words<'a>(folder: &'a str, given: &Given<'a>) -> Option<Words<'a>>
    ensures { option_map meaning_of result ≡ list_of folder.entry.now (view_of given.now) }
{
    match (given.script, given.netlist, given.budget, given.size) {
        (None, None, None, None) => Some(Words::List { folder }),
        _ => None,
    }
}

/// A run of the script of a size, where the options are those of one.
fn gen_words<'a>(folder: &'a str, given: &Given<'a>) -> Option<Words<'a>>
    ensures { option_map meaning_of result ≡ gen_of folder.entry.now (view_of given.now) }
{
    match (given.script, given.netlist, given.size) {
        (None, None, Some(size)) => {
            let size = number_from(1, 16, size)?;
            let budget = budget(given.budget)?;
            Some(Words::Gen {
                folder,
                size,
                budget,
            })
        }
        _ => None,
    }
}

/// What the action asks for, where there is one and its options are right.
fn words_given<'a>(given: &Given<'a>) -> Option<Words<'a>>
    ensures { option_map meaning_of result ≡ asked (view_of given.now) }
{
    let action = given.action?;
    let folder = given.folder?;
    if action == "run" {
        run_words(folder, given)
    } else if action == "list" {
        list_words(folder, given)
    } else if action == "gen" {
        gen_words(folder, given)
    } else {
        None
    }
}

/// Reads the words of the command line, the first of which is the program's name.
///
/// They are an action and a folder, and options before, between or behind them, each at most once: `run` needs
/// `--script`, and may have `--netlist` and `--budget`; `list` has none; `gen` needs `--size`, and may have
/// `--budget`. Numbers are one to seven digits; a budget is from 16,384 to 4,194,304 records, and 262,144 where
/// none is given, a size from 1 to 16.
///
/// Refuses all other words as `Usage`, and any for want of memory as `Memory`. The words are only lent, and nothing
/// is left then.
pub fn read_words(alloc: Global, words: &[String]) -> Result<Words<'_>, WordsFault>
    ensures read { IfOk result (λ w. reading_of (map (λ word. string_bytes word) words.entry.now) ≡ Some
        (meaning_of w)) }
    ensures room { IfOk result (λ w. IsInRange (meaning_of w)) }
    ensures usage { IsErrOf result WordsFault.Usage
        → reading_of (map (λ word. string_bytes word) words.entry.now) ≡ None }
{
    let given = given_for(alloc, words)?;
    words_given(&given).ok_or(WordsFault::Usage)
}
