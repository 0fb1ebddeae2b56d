//! Reading a netlist.

ghost use Rattle.std.specs.Prelude.{◌≡◌, ◌⊎◌, ℕ, ◌<◌, ◌≤◌, List, map, length, IfOk, IfErr, Ok, Err};
ghost use Rattle.blif_reader.specs.declared.fault.BlifKind.TheVariants.{Memory};
ghost use Rattle.blif_reader.specs.declared.grammar.Context.TheVariants.{Start};
ghost use Rattle.blif_reader.specs.Statements.{statement_of, Follows};
ghost use Rattle.blif_reader.specs.Index.{found_in, place_of};
ghost use Rattle.blif_reader.specs.Netlist.{IsTables, IsSettled, Settles, IsReading, netlist_of};
ghost use Rattle.blif_reader.specs.Tables.{net_in};
ghost use Rattle.blif_reader.specs.Answers.{Answers, net_of};

use crate::fault::{BlifFault, BlifKind, Refusal};
use crate::netlist::Netlist;
use crate::soundness::{count_inputs, test_soundness};
use crate::statement::Statement;
use crate::statements::read_statements;
use crate::tables::{Tables, make_tables};
use depth_first::first_cycle;
use std::alloc::Global;

/// A text has at most so many bytes.
pub const MOST_BYTES: usize = 4_194_304;

/// The tables as a netlist, unless a block depends on itself.
fn settle(alloc: Global, tables: Tables) -> Result<Netlist, Refusal>
    requires tables { IsTables (net_in tables) }
    requires indexed { (q : List ℕ) → found_in tables.index q ≡ place_of (net_in tables).names q }
    ensures { Answers (IsSettled (net_in tables)) result }
{
    match first_cycle(alloc, tables.edges.as_slice())? {
        None => Ok(Netlist::of(alloc, tables)),
        Some(signal) => {
            let place = (signal as usize).saturating_sub(tables.inputs as usize);
            let line = match tables.covers.get(place) {
                Some(cover) => cover.line,
                None => 0,
            };
            Err(Refusal::Fault(BlifFault {
                line,
                kind: BlifKind::Cycle,
            }))
        }
    }
}

/// The netlist of statements.
fn build(alloc: Global, statements: &[Statement]) -> Result<Netlist, Refusal>
    requires few { length statements.now ≤ 4194305 }
    requires follow { Follows Start (map statement_of statements.now) }
    ensures { Answers (Settles (netlist_of (map statement_of statements.now))) result }
{
    let inputs = count_inputs(statements);
    test_soundness(alloc, inputs, statements)?;
    let tables = make_tables(alloc, inputs as u32, statements)?;
    settle(alloc, tables)
}

/// Reads a netlist without jumps, or refuses the text by its first fault or for want of memory.
fn read(alloc: Global, bytes: &[u8]) -> Result<Netlist, Refusal>
    ensures { Answers (IsReading bytes.now) result }
{
    if bytes.len() > MOST_BYTES {
        return Err(Refusal::Fault(BlifFault {
            line: 0,
            kind: BlifKind::TooLong,
        }));
    }
    let statements = read_statements(alloc, bytes)?;
    build(alloc, statements.as_slice())
}

/// Reads a netlist with its jumps. The statements take memory no longer when these are made.
fn read_with_jumps(alloc: Global, bytes: &[u8]) -> Result<Netlist, Refusal>
    ensures { Answers (IsReading bytes.now) result }
{
    let net = read(alloc, bytes)?;
    Ok(net.with_jumps(alloc)?)
}

/// Reads a netlist. Refuses a text that isn't one: by its first fault, or, where memory ran out, by the kind
/// `Memory` on line 0. Nothing is left then.
pub fn read_netlist(alloc: Global, bytes: &[u8]) -> Result<Netlist, BlifFault>
    ensures ok { IfOk result (λ net. IsReading bytes.now (Ok (net_of net))) }
    ensures fault { IfErr result (λ f. IsReading bytes.now (Err f) ⊎ (f ≡ record { line = 0; kind = Memory })) }
{
    match read_with_jumps(alloc, bytes) {
        Ok(net) => Ok(net),
        Err(Refusal::Memory) => Err(BlifFault {
            line: 0,
            kind: BlifKind::Memory,
        }),
        Err(Refusal::Fault(fault)) => Err(fault),
    }
}
