//! Jumps over the places of wide blocks that tell nothing of their values, so that a block which reads a word again
//! and again, or has a row of hyphens, is walked and planned in the time that the other places take.

ghost use Rattle.std.specs.Prelude.{◌≡◌, ℕ, ◌<◌, ◌≤◌, ◌^◌, [], List, Bool, true, false, length, take};
ghost use Rattle.std.specs.Prelude.{slice_index, replicate, IfOk};
ghost use Rattle.std.specs.List.{slice_index_or};
ghost use Rattle.depth_first.specs.Graph.{edges_of, has};
ghost use Rattle.depth_first.specs.Tables.{IsBlankBut};
ghost use Rattle.depth_first.specs.Views.{graph_of};
ghost use Rattle.blif_reader.specs.Netlist.{IsTables, cover_at};
ghost use Rattle.blif_reader.specs.Jumps.{JumpIdle, HaveJumps, AllJumpOver, is_needed};
ghost use Rattle.blif_reader.specs.Tables.{net_in};
ghost use Rattle.blif_reader.specs.Views.{rows_of};

use crate::cover::Rows;
use crate::read::MOST_BYTES;
use crate::tables::Tables;
use depth_first::make_blank;
use std::alloc::{AllocError, Global};

/// A block that reads fewer words is looked at word by word.
const WIDE: usize = 8;

/// Notes the places at which a word stands for the first time. The table has a mark for each signal.
fn need_first(words: &[u32], stood: &mut Vec<bool>, needed: &mut Vec<bool>)
    requires inside { (i : ℕ) → i < length words.now
        → slice_index words.now i < length stood.old.items }
    requires blank { stood.old.items ≡ replicate (length stood.old.items) false }
    requires size { length needed.old.items ≡ length words.now }
    ensures marks { length stood.new.items ≡ length stood.old.items }
    ensures others { IsBlankBut words.now false stood.new.items }
    ensures size { length needed.new.items ≡ length needed.old.items }
    ensures repeats { (k : ℕ) → k < length words.now → is_needed needed.new.items k ≡ false
        → has (take k words.now) (slice_index words.now k) ≡ true }
{
    for place in 0..words.len() {
        let word = words[place] as usize;
        let before = stood[word];
        needed[place] = !before;
        stood[word] = true;
    }
}

/// Notes the places of a row that have no hyphen.
fn need_cells(cells: &[u8], needed: &mut Vec<bool>)
    ensures size { length needed.new.items ≡ length needed.old.items }
    ensures stays { (k : ℕ) → is_needed needed.new.items k ≡ false
        → is_needed needed.old.items k ≡ false }
    ensures hyphens { (k : ℕ) → is_needed needed.new.items k ≡ false
        → slice_index_or cells.now k 45 ≡ 45 }
{
    for place in 0..cells.len() {
        if cells[place] != b'-' && place < needed.len() {
            needed[place] = true;
        }
    }
}

/// Notes the places at which some row has no hyphen.
fn need_rows(rows: &Rows, needed: &mut Vec<bool>)
    ensures size { length needed.new.items ≡ length needed.old.items }
    ensures stays { (k : ℕ) → is_needed needed.new.items k ≡ false
        → is_needed needed.old.items k ≡ false }
    ensures hyphens { (r k : ℕ) → r < length (rows_of rows.now)
        → is_needed needed.new.items k ≡ false
        → slice_index_or (slice_index_or (rows_of rows.now) r []) k 45 ≡ 45 }
{
    for row in 0..rows.count {
        need_cells(rows.row(row), needed);
    }
}

/// For each place the next that has to be looked at, and the end behind the last.
fn jumps_over(alloc: Global, needed: &[bool]) -> Result<Vec<u32>, AllocError>
    requires { length needed.now < 2 ^ 32 }
    ensures { IfOk result (λ v. AllJumpOver needed.now v.items) }
{
    let mut jumps = vec![in alloc; 0u32; needed.len()]?;
    let mut next = needed.len();
    let mut at = needed.len();
    'back: while at > 0 {
        at -= 1;
        jumps[at] = next as u32;
        if needed[at] {
            next = at;
        }
    }
    Ok(jumps)
}

/// The jumps of a block, and none where it isn't wide. The table has a mark for each signal.
fn block_jumps(
    alloc: Global,
    words: &[u32],
    rows: &Rows,
    stood: &mut Vec<bool>,
) -> Result<Vec<u32>, AllocError>
    requires inside { (i : ℕ) → i < length words.now
        → slice_index words.now i < length stood.old.items }
    requires blank { stood.old.items ≡ replicate (length stood.old.items) false }
    ensures jumps { IfOk result (λ v. JumpIdle words.now (rows_of rows.now) v.items) }
    ensures blank { stood.new.items ≡ stood.old.items }
{
    // A text has no more words than bytes.
    if words.len() < WIDE || words.len() > MOST_BYTES {
        return Ok(Vec::new(alloc));
    }
    let mut needed = vec![in alloc; true; words.len()]?;
    need_first(words, stood, &mut needed);
    make_blank(stood.as_mut_slice(), words, false);
    need_rows(rows, &mut needed);
    jumps_over(alloc, needed.as_slice())
}

/// The jumps of a signal: an input has none.
fn signal_jumps(
    alloc: Global,
    tables: &Tables,
    signal: usize,
    stood: &mut Vec<bool>,
) -> Result<Vec<u32>, AllocError>
    requires tables { IsTables (net_in tables.now) }
    requires signal { signal < length (net_in tables.now).names }
    requires blank { stood.old.items ≡ replicate (length (net_in tables.now).names) false }
    ensures jumps { IfOk result (λ v. JumpIdle (edges_of (net_in tables.now).edges signal)
        (cover_at (net_in tables.now) signal).rows v.items) }
    ensures blank { stood.new.items ≡ stood.old.items }
{
    let inputs = tables.inputs as usize;
    if signal < inputs {
        return Ok(Vec::new(alloc));
    }
    let words = tables.edges[signal].as_slice();
    block_jumps(alloc, words, &tables.covers[signal - inputs].rows, stood)
}

/// The jumps of all signals. Refuses for want of memory alone.
pub(crate) fn jumps_of(alloc: Global, tables: &Tables) -> Result<Vec<Vec<u32>>, AllocError>
    requires { IsTables (net_in tables.now) }
    ensures { IfOk result (λ v. HaveJumps (net_in tables.now) (graph_of v.items)) }
{
    let mut stood = vec![in alloc; false; tables.edges.len()]?;
    let mut jumps = Vec::new(alloc);
    for signal in 0..tables.edges.len() {
        let list = signal_jumps(alloc, tables, signal, &mut stood)?;
        jumps.push(list)?;
    }
    Ok(jumps)
}
