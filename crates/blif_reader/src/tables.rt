//! The tables of a netlist, made from its statements.

ghost use Rattle.std.specs.Prelude.{◌≡◌, ℕ, ◌+◌, ◌<◌, ◌^◌, List, map, length, IfOk};
ghost use Rattle.blif_reader.specs.declared.grammar.Context.TheVariants.{Start};
ghost use Rattle.blif_reader.specs.declared.parts.Part.TheVariants.{Inputs};
ghost use Rattle.blif_reader.specs.Statements.{statement_of, Follows};
ghost use Rattle.blif_reader.specs.Parts.{words_in};
ghost use Rattle.blif_reader.specs.Index.{found_in, place_of};
ghost use Rattle.blif_reader.specs.Netlist.{names_of, net_of_text};
ghost use Rattle.blif_reader.specs.Views.{names_in};
ghost use Rattle.blif_reader.specs.Tables.{net_in};

use crate::blocks::{covers, edges, names, numbers};
use crate::cover::Cover;
use crate::index::{Index, index_of};
use crate::names::Names;
use crate::parts::{Part, Uses};
use crate::statement::Statement;
use std::alloc::{AllocError, Global};

/// The number of inputs, the names of all signals and their index, the signals that each reads, the covers
/// of the blocks, and the outputs.
#[derive(Drop)]
pub(crate) struct Tables {
    pub inputs: u32,
    pub names: Names,
    pub index: Index,
    pub edges: Vec<Vec<u32>>,
    pub covers: Vec<Cover>,
    pub outputs: Vec<u32>,
}

/// The tables of the statements.
#[tactic(auto, using(crate::proofs::Netlists::makes_tables))]
pub(crate) fn make_tables(
    alloc: Global,
    inputs: u32,
    statements: &[Statement],
) -> Result<Tables, AllocError>
    requires inputs { inputs ≡ length (words_in Inputs (map statement_of statements.now)) }
    requires follow { Follows Start (map statement_of statements.now) }
    requires few { length (names_of (map statement_of statements.now)) < 2 ^ 32 }
    ensures net { IfOk result (λ t. net_in t ≡ net_of_text (map statement_of statements.now)) }
    ensures indexed { IfOk result (λ t. (q : List ℕ) → found_in t.index q ≡ place_of (names_in t.names) q) }
{
    let names = names(alloc, statements)?;
    let index = index_of(alloc, &names)?;
    let edges = edges(alloc, &index, inputs as usize, statements)?;
    let covers = covers(alloc, statements)?;
    let outputs = numbers(alloc, &index, Uses::of(Part::Outputs, statements))?;
    Ok(Tables {
        inputs,
        names,
        index,
        edges,
        covers,
        outputs,
    })
}
