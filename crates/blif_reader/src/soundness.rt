//! Whether the words of a netlist are driven once each.

ghost use Rattle.std.specs.Prelude.{◌≡◌, ◌+◌, ◌<◌, List, map, min, length};
ghost use Rattle.std.specs.List.{list_any};
ghost use Rattle.rec_words.specs.Words.{most_variables};
ghost use Rattle.blif_reader.specs.declared.parts.Part.TheVariants.{Inputs};
ghost use Rattle.blif_reader.specs.Statements.{Gives, statement_of};
ghost use Rattle.blif_reader.specs.Parts.{words_in, lists_inputs};
ghost use Rattle.blif_reader.specs.Netlist.{driven_once, sound};

use crate::fault::{BlifFault, BlifKind, Refusal};
use crate::grammar::Kind;
use crate::index::{line_again, line_missing, no_words};
use crate::parts::{Part, Uses};
use crate::statement::Statement;
use rec_words::MOST_VARIABLES;
use std::alloc::Global;

/// A netlist has at most so many inputs.
const MOST_INPUTS: usize = MOST_VARIABLES as usize;

/// Whether a line lists inputs.
fn any_inputs(statements: &[Statement]) -> bool
    ensures { result ≡ list_any lists_inputs (map statement_of statements.now) }
{
    for statement in statements {
        if matches!(statement.kind, Kind::Inputs) {
            return true;
        }
    }
    false
}

/// Each word that is used is driven, and none is driven twice.
#[tactic(auto, using(crate::proofs::Netlists::drives_again, crate::proofs::Netlists::drives_on))]
fn drive(alloc: Global, statements: &[Statement]) -> Result<(), Refusal>
    ensures { Gives (λ _. map statement_of statements.now) result (driven_once (map statement_of statements.now)) }
{
    let mut driven = no_words(alloc);
    if let Some(line) = line_again(alloc, Uses::of(Part::Drivers, statements), &mut driven)? {
        return Err(Refusal::Fault(BlifFault {
            line,
            kind: BlifKind::DrivenTwice,
        }));
    }
    if let Some(line) = line_missing(Uses::of(Part::Uses, statements), &driven) {
        return Err(Refusal::Fault(BlifFault {
            line,
            kind: BlifKind::Undriven,
        }));
    }
    Ok(())
}

/// How many words are inputs; where there are more than a netlist may have, one more than it may.
pub(crate) fn count_inputs(statements: &[Statement]) -> usize
    ensures { result ≡ min (length (words_in Inputs (map statement_of statements.now))) (most_variables + 1) }
{
    let mut count = 0;
    for _one in Uses::of(Part::Inputs, statements) {
        if count > MOST_INPUTS {
            return count;
        }
        count += 1;
    }
    count
}

/// There are inputs, not too many, and words that are driven once each.
pub(crate) fn test_soundness(
    alloc: Global,
    inputs: usize,
    statements: &[Statement],
) -> Result<(), Refusal>
    requires { inputs ≡ min (length (words_in Inputs (map statement_of statements.now))) (most_variables + 1) }
    ensures { Gives (λ _. map statement_of statements.now) result (sound (map statement_of statements.now)) }
{
    if !any_inputs(statements) {
        return Err(Refusal::Fault(BlifFault {
            line: 0,
            kind: BlifKind::NoInputs,
        }));
    }
    if inputs > MOST_INPUTS {
        return Err(Refusal::Fault(BlifFault {
            line: 0,
            kind: BlifKind::TooManyVariables,
        }));
    }
    drive(alloc, statements)
}
