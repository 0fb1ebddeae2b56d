//! The netlist of a run.
ghost use Rattle.std.specs.Prelude.{◌≡◌, ◌+◌, ◌≤◌, List, IsTrue, Option, Some, Ok, Err, option_map, IfOk, IfErr};
ghost use Rattle.std.specs.Prelude.{IsErrOf, length};
ghost use Rattle.shelf_model.specs.Calls.{Told};
ghost use Rattle.shelf_model.specs.Faults.{Rose};
ghost use Rattle.command_words.specs.Views.{text_of};
ghost use Rattle.script_runner.specs.Calls.{fetch_calls};
ghost use Rattle.script_runner.specs.Fetching.{OnlyFetched, OnlyTexts};
ghost use Rattle.script_runner.specs.Source.{IsNamed, HasFaultyText};
ghost use Rattle.script_runner.specs.Netlists.{netlist_text, netlist_fault, IsSpelled, IsFaultyAs, IsNamedRise};

use crate::fetch::{FetchFault, fetch_text};
use crate::read_netlist::ReadNetlist;
use blif_reader::{BlifFault, BlifKind, MOST_BYTES, read_netlist};
use shelf_model::Station;
use std::alloc::Global;
use thiserror::Error;

/// Why a netlist can't be had.
#[derive(Clone, Copy, Debug, PartialEq, Eq, Error)]
pub(crate) enum NetlistFault {
    #[error("out of memory")]
    Memory,
    #[error("no text can be read at the path")]
    Text,
    #[error("{0}")]
    Faulty(BlifFault),
}

impl From<FetchFault> for NetlistFault {
    ghost from_gives = { λ e f. f ≡ netlist_fault e };

    fn from(fault: FetchFault) -> NetlistFault {
        match fault {
            FetchFault::Memory => NetlistFault::Memory,
            FetchFault::Text => NetlistFault::Text,
        }
    }
}

/// Reads the netlist at a path.
fn fetch_named<W: Station>(
    alloc: Global,
    path: &str,
    station: &mut W,
) -> Result<ReadNetlist, NetlistFault>
    ensures content { Told W.tells station.old station.new (OnlyFetched (W.world station.old) (W.world station.new)) }
    ensures there { IfOk result (λ given. IsTrue (W.tells station.new) →
        (W.world station.old).texts path.now ≡ Some given.text.items) }
    ensures spelled { IfOk result (λ given. IsSpelled (Some given)) }
    ensures faulty { IfErr result (λ fault. IsTrue (W.tells station.new) →
        IsFaultyAs (HasFaultyText (W.world station.old) (Some path.now)) fault) }
    ensures cause { IsErrOf result NetlistFault.Text →
        Rose ((W.faults station.old).text path.now) ((W.faults station.new).text path.now) }
    ensures calls { IsTrue (W.tells station.new)
        → (W.world station.new).clock ≤ (W.world station.old).clock + fetch_calls 4194304 }
    ensures faults { OnlyTexts (W.faults station.old) (W.faults station.new) }
{
    let text = fetch_text(alloc, path, MOST_BYTES, station)?;
    match read_netlist(alloc, &text) {
        Ok(net) => Ok(ReadNetlist { text, net }),
        Err(fault) => match fault.kind {
            BlifKind::Memory => Err(NetlistFault::Memory),
            _ => Err(NetlistFault::Faulty(fault)),
        },
    }
}

/// Reads the netlist at a path, where one is named.
pub(crate) fn fetch_netlist<W: Station>(
    alloc: Global,
    path: Option<&str>,
    station: &mut W,
) -> Result<Option<ReadNetlist>, NetlistFault>
    ensures content { Told W.tells station.old station.new (OnlyFetched (W.world station.old) (W.world station.new)) }
    ensures there { IfOk result (λ given. IsTrue (W.tells station.new) →
        IsNamed (W.world station.old) (text_of path.entry) (netlist_text given)) }
    ensures spelled { IfOk result IsSpelled }
    ensures faulty { IfErr result (λ fault. IsTrue (W.tells station.new) →
        IsFaultyAs (HasFaultyText (W.world station.old) (text_of path.entry)) fault) }
    ensures cause { IsErrOf result NetlistFault.Text →
        IsNamedRise (text_of path.entry) (W.faults station.old) (W.faults station.new) }
    ensures calls { IsTrue (W.tells station.new)
        → (W.world station.new).clock ≤ (W.world station.old).clock + fetch_calls 4194304 }
    ensures faults { OnlyTexts (W.faults station.old) (W.faults station.new) }
{
    match path {
        Some(path) => Ok(Some(fetch_named(alloc, path, station)?)),
        None => Ok(None),
    }
}
