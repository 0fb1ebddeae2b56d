//! What a line finds in a netlist.

ghost use Rattle.std.specs.Prelude.{◌≡◌, ◌<◌, ◌≤◌, ◌^◌, List, drop, length, IfOk};
ghost use Rattle.std.specs.List.{list_all};
ghost use Rattle.script_reader.specs.Requests.{is_short};
ghost use Rattle.blif_reader.specs.Answers.{net_of};
ghost use Rattle.blif_reader.specs.Index as index;
ghost use Rattle.script_reader.specs.Nets.{every_second, inputs_of, all_found, signals_named};
ghost use Rattle.script_reader.specs.Views.{texts, words_of, Gives, texts_in, numbers_in};
ghost use Rattle.script_reader.specs.declared.fault.ScriptKind.TheVariants as kind;

use crate::fault::{Refusal, ScriptKind};
use crate::places::{bytes_of, places_of};
use crate::planning::MOST_NAME_BYTES;
use blif_reader::Netlist;
use net_plan::Planner;
use std::alloc::{AllocError, Global};
use text_words::Word;

/// What lines keep of a netlist, once one of them has asked for its signals: the levels of its
/// inputs, and tables to plan with.
#[derive(Drop)]
pub(crate) struct NetTables {
    pub levels: Vec<u32>,
    pub planner: Planner,
}

/// Every second word, from a place on.
#[tactic(auto, using(crate::proofs::Seconds::seconds_more, crate::proofs::Seconds::seconds_done))]
pub(crate) fn every_second<'a>(
    alloc: Global,
    words: &[Word<'a>],
    from: usize,
) -> Result<Vec<Word<'a>>, AllocError>
    requires { from ≤ length words.now }
    ensures read { IfOk result (λ v. words_of v.items ≡ every_second (drop from (words_of words.now))) }
    ensures few { IfOk result (λ v. length v.items ≤ length words.now) }
{
    let mut read = Vec::new(alloc);
    let mut k = from;
    'seconds: while k < words.len() {
        read.push(words[k])?;
        k += 2;
    }
    Ok(read)
}

/// The names of the inputs.
pub(crate) fn input_names<'a>(alloc: Global, net: &'a Netlist) -> Result<Vec<&'a [u8]>, AllocError>
    ensures { IfOk result (λ v. texts v.items ≡ inputs_of (net_of net.now)) }
{
    let mut names = Vec::new(alloc);
    for signal in 0..net.input_count() {
        names.push(net.name(signal))?;
    }
    Ok(names)
}

/// The signals that a line asks for, which names none of them twice.
pub(crate) fn signals_named<'a>(alloc: Global, words: &[Word<'a>]) -> Result<Vec<&'a [u8]>, Refusal>
    requires some { 2 ≤ length words.now }
    requires few { length words.now < 2 ^ 32 }
    ensures { Gives texts_in result (signals_named (words_of words.now)) }
{
    let words = every_second(alloc, words, 2)?;
    let signals = bytes_of(alloc, words.as_slice())?;
    if places_of(alloc, signals.as_slice())?.is_none() {
        return Err(Refusal::Fault(ScriptKind::Word));
    }
    Ok(signals)
}

/// The signals with some names.
pub(crate) fn signals_of(alloc: Global, net: &Netlist, names: &[&[u8]]) -> Result<Vec<u32>, Refusal>
    ensures { Gives numbers_in result
        (all_found kind.UnknownName (index.place_of (net_of net.now).names) (texts names.now)) }
{
    let mut signals = Vec::new(alloc);
    for name in names {
        let Some(signal) = net.signal(name) else {
            return Err(Refusal::Fault(ScriptKind::UnknownName));
        };
        signals.push(signal)?;
    }
    Ok(signals)
}

/// Whether each name has at most 63 bytes.
pub(crate) fn are_short(names: &[Word<'_>]) -> bool
    ensures { result ≡ list_all is_short (words_of names.now) }
{
    for name in names {
        if name.bytes.len() > MOST_NAME_BYTES {
            return false;
        }
    }
    true
}
