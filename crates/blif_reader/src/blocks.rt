//! What the statements say of blocks: their covers, and the signals that they read.

ghost use Rattle.std.specs.Prelude.{◌≡◌, ◌-◌, true, ◌+◌, ◌<◌, ◌++◌, ◌∷◌, [], List, map, length, drop, replicate, IfOk, OnOk};
ghost use Rattle.std.specs.List.{AllByRecursion};
ghost use Rattle.blif_reader.specs.declared.grammar.Context.TheVariants.{Start};
ghost use Rattle.blif_reader.specs.Statements.{statement_of, Follows};
ghost use Rattle.blif_reader.specs.Netlist.{IsRow, names_of, rows_behind, value_behind, cover_before, covers_of, reads_of, is_names};
ghost use Rattle.blif_reader.specs.Words.{words_of_uses};
ghost use Rattle.blif_reader.specs.Ends.{AreEnds, Holds, words_between};
ghost use Rattle.depth_first.specs.Views.{graph_of};
ghost use Rattle.blif_reader.specs.Views.{names_in, rows_of, cover_of, number_in};

use crate::cover::{Cover, Rows};
use crate::grammar::Kind;
use crate::index::{Index, find};
use crate::names::Names;
use crate::parts::{Part, Uses};
use crate::statement::Statement;
use std::alloc::{AllocError, Global};

/// The rows at the front of some statements, which have so many characters each.
fn rows(alloc: Global, width: usize, statements: &[Statement]) -> Result<Rows, AllocError>
    requires { AllByRecursion (IsRow width) (rows_behind (map statement_of statements.now)) }
    ensures { IfOk result (λ r. rows_of r ≡ rows_behind (map statement_of statements.now)) }
{
    let mut count = 0;
    let mut cells = Vec::new(alloc);
    for statement in statements {
        match statement.kind {
            Kind::Row(_) => {
                cells.extend_from_slice(statement.cells())?;
                count += 1;
            }
            _ => {
                return Ok(Rows {
                    count,
                    width,
                    cells,
                });
            }
        }
    }
    Ok(Rows {
        count,
        width,
        cells,
    })
}

/// The output of these rows.
fn value(statements: &[Statement]) -> bool
    ensures { result ≡ value_behind (map statement_of statements.now) }
{
    match statements.first() {
        Some(statement) => match statement.kind {
            Kind::Row(value) => value,
            _ => true,
        },
        None => true,
    }
}

/// Whether a line begins a block.
fn names_block(kind: Kind) -> bool
    ensures { result ≡ is_names kind }
{
    matches!(kind, Kind::Names)
}

/// Adds the cover of a block, where a line begins one.
fn push_cover(
    alloc: Global,
    statement: &Statement,
    behind: &[Statement],
    covers: &mut Vec<Cover>,
) -> Result<(), AllocError>
    requires { is_names statement.now.kind ≡ true
        → AllByRecursion (IsRow (length (statement_of statement.now).words - 2))
        (rows_behind (map statement_of behind.now)) }
    ensures { OnOk result (map cover_of covers.new.items
        ≡ map cover_of covers.old.items ++ cover_before (statement_of statement.now) (map statement_of behind.now)) }
{
    if names_block(statement.kind) {
        let rows = rows(alloc, statement.shape().count.saturating_sub(2), behind)?;
        covers.push(Cover {
            line: statement.line,
            value: value(behind),
            rows,
        })?;
    }
    Ok(())
}

/// The covers of all blocks.
pub(crate) fn covers(alloc: Global, statements: &[Statement]) -> Result<Vec<Cover>, AllocError>
    requires { Follows Start (map statement_of statements.now) }
    ensures { IfOk result (λ v. map cover_of v.items ≡ covers_of (map statement_of statements.now)) }
{
    let mut covers = Vec::new(alloc);
    for place in 0..statements.len() {
        let (_, behind) = statements.split_at(place + 1);
        push_cover(alloc, &statements[place], behind, &mut covers)?;
    }
    Ok(covers)
}

/// The numbers of words.
pub(crate) fn numbers(alloc: Global, index: &Index, uses: Uses<'_>) -> Result<Vec<u32>, AllocError>
    ensures { IfOk result (λ v. v.items ≡ map (number_in index.now) (words_of_uses uses.entry)) }
{
    let mut numbers = Vec::new(alloc);
    for one in uses {
        numbers.push(find(index, one.word).unwrap_or(0))?;
    }
    Ok(numbers)
}

/// Adds the numbers of the words that a block reads, where a line begins one.
fn push_reads(
    alloc: Global,
    index: &Index,
    line: &[Statement],
    edges: &mut Vec<Vec<u32>>,
) -> Result<(), AllocError>
    requires { length line.now ≡ 1 }
    ensures { OnOk result (graph_of edges.new.items
        ≡ graph_of edges.old.items
        ++ map (λ words. map (number_in index.now) words) (reads_of (map statement_of line.now))) }
{
    if names_block(line[0].kind) {
        edges.push(numbers(alloc, index, Uses::of(Part::Uses, line))?)?;
    }
    Ok(())
}

/// For each signal the signals that it reads: none for an input, and then those of the blocks.
pub(crate) fn edges(
    alloc: Global,
    index: &Index,
    inputs: usize,
    statements: &[Statement],
) -> Result<Vec<Vec<u32>>, AllocError>
    ensures { IfOk result (λ v. graph_of v.items
        ≡ replicate inputs []
        ++ map (λ words. map (number_in index.now) words) (reads_of (map statement_of statements.now))) }
{
    let mut edges = Vec::new(alloc);
    for _input in 0..inputs {
        edges.push(Vec::new(alloc))?;
    }
    for place in 0..statements.len() {
        push_reads(alloc, index, &statements[place..place + 1], &mut edges)?;
    }
    Ok(edges)
}

/// Adds a word to words that stand end to end.
fn push_word(bytes: &mut Vec<u8>, ends: &mut Vec<usize>, word: &[u8]) -> Result<(), AllocError>
    requires { AreEnds 0 ends.old.items (length bytes.old.items) }
    ensures { OnOk result (Holds ends.new.items bytes.new.items
        (words_between 0 ends.old.items bytes.old.items ++ word.now ∷ [])) }
{
    bytes.extend_from_slice(word)?;
    ends.push(bytes.len())?;
    Ok(())
}

/// Adds the words of uses to words that stand end to end.
fn push_words(uses: Uses<'_>, bytes: &mut Vec<u8>, ends: &mut Vec<usize>) -> Result<(), AllocError>
    requires { AreEnds 0 ends.old.items (length bytes.old.items) }
    ensures { OnOk result (Holds ends.new.items bytes.new.items
        (words_between 0 ends.old.items bytes.old.items ++ words_of_uses uses.entry)) }
{
    for one in uses {
        push_word(bytes, ends, one.word)?;
    }
    Ok(())
}

/// The names of the signals.
pub(crate) fn names(alloc: Global, statements: &[Statement]) -> Result<Names, AllocError>
    ensures { IfOk result (λ n. names_in n ≡ names_of (map statement_of statements.now)) }
{
    let mut bytes = Vec::new(alloc);
    let mut ends = Vec::new(alloc);
    push_words(Uses::of(Part::Inputs, statements), &mut bytes, &mut ends)?;
    push_words(Uses::of(Part::Blocks, statements), &mut bytes, &mut ends)?;
    Ok(Names { bytes, ends })
}
