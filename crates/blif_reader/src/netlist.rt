//! A netlist that was accepted.

ghost use Rattle.std.specs.Prelude.{◌≡◌, ℕ, ◌<◌, ◌≤◌, Some, [], List, length, slice_index, IfOk, OnOk, IsErr};
ghost use Rattle.std.specs.List.{slice_index_or};
ghost use Rattle.rec_words.specs.Words.{most_variables};
ghost use Rattle.depth_first.specs.Graph.{IsTopological, visits};
ghost use Rattle.depth_first.specs.Views.{graph_of};
ghost use Rattle.depth_first.specs.Walkers.{nodes_of, order_of};
ghost use Rattle.blif_reader.specs.Index.{found_in, place_of};
ghost use Rattle.blif_reader.specs.Netlist.{IsNet, IsBlock, IsRow, cover_at};
ghost use Rattle.blif_reader.specs.Jumps.{HaveJumps};
ghost use Rattle.blif_reader.specs.Views.{cover_of};
ghost use Rattle.blif_reader.specs.Tables.{net_in};

use crate::cover::Cover;
use crate::index::find;
use crate::jumps::jumps_of;
use crate::tables::Tables;
use depth_first::{Walker, jump, visit_order};
use std::alloc::{AllocError, Global};

/// A netlist that was accepted. Its signals are numbered: the inputs first, then the blocks' outputs in the
/// order of the text. The jumps pass places of wide blocks that tell nothing of their values.
#[derive(Drop)]
pub struct Netlist {
    pub(crate) tables: Tables,
    jumps: Vec<Vec<u32>>,
    ghost leaps: { HaveJumps (net_in tables) (graph_of jumps.items) },
    ghost sound: { IsNet (net_in tables) },
    ghost indexed: { (q : List ℕ) → found_in tables.index q ≡ place_of (net_in tables).names q },
}

impl Netlist {
    ghost use Rattle.blif_reader.specs.Answers.{net_of};

    /// The netlist of tables, without jumps.
    pub(crate) fn of(alloc: Global, tables: Tables) -> Netlist
        requires sound { IsNet (net_in tables) }
        requires indexed { (q : List ℕ) → found_in tables.index q
            ≡ place_of (net_in tables).names q }
        ensures { net_of result ≡ net_in tables }
    {
        Netlist {
            tables,
            jumps: Vec::new(alloc),
        }
    }

    /// The same netlist with its jumps.
    pub(crate) fn with_jumps(self, alloc: Global) -> Result<Netlist, AllocError>
        ensures { IfOk result (λ net. net_of net ≡ net_of self) }
    {
        let jumps = jumps_of(alloc, &self.tables)?;
        Ok(Netlist {
            tables: self.tables,
            jumps,
        })
    }

    /// The number of inputs.
    pub fn input_count(&self) -> u32
        ensures count { result ≡ (net_of self.now).inputs }
        ensures few { result ≤ most_variables }
    {
        self.tables.inputs
    }

    /// The number of signals.
    pub fn signal_count(&self) -> u32
        ensures count { result ≡ length (net_of self.now).names }
        ensures sound { IsNet (net_of self.now) }
    {
        self.tables.names.len() as u32
    }

    /// The signal with a name, where there is one.
    pub fn signal(&self, name: &[u8]) -> Option<u32>
        ensures { result ≡ place_of (net_of self.now).names name.now }
    {
        find(&self.tables.index, name)
    }

    /// The name of a signal. No other signal has it.
    pub fn name(&self, signal: u32) -> &[u8]
        requires { signal < length (net_of self.now).names }
        ensures name { result.now ≡ slice_index_or (net_of self.now).names signal [] }
        ensures back { place_of (net_of self.now).names result.now ≡ Some signal }
    {
        self.tables.names.at(signal as usize)
    }

    /// The signals that are outputs.
    pub fn outputs(&self) -> &[u32]
        ensures { result.now ≡ (net_of self.now).outputs }
    {
        self.tables.outputs.as_slice()
    }

    /// The signals that a block reads, in order.
    pub fn block_inputs(&self, signal: u32) -> &[u32]
        requires { IsBlock (net_of self.now) signal }
        ensures { result.now ≡ slice_index_or (net_of self.now).edges signal [] }
    {
        self.tables.edges[signal as usize].as_slice()
    }

    /// The cover of a block.
    fn cover(&self, signal: u32) -> &Cover
        requires { IsBlock (net_of self.now) signal }
        ensures { cover_of result.now ≡ cover_at (net_of self.now) signal }
    {
        &self.tables.covers[(signal - self.tables.inputs) as usize]
    }

    /// The number of rows of a block.
    pub fn row_count(&self, signal: u32) -> u32
        requires { IsBlock (net_of self.now) signal }
        ensures { result ≡ length (cover_at (net_of self.now) signal).rows }
    {
        self.cover(signal).rows.count as u32
    }

    /// The characters of a row, one for each input of its block: `0`, `1` or `-`.
    pub fn row(&self, signal: u32, row: u32) -> &[u8]
        requires block { IsBlock (net_of self.now) signal }
        requires inside { row < length (cover_at (net_of self.now) signal).rows }
        ensures row { result.now ≡ slice_index_or (cover_at (net_of self.now) signal).rows row [] }
        ensures cells { IsRow (length (slice_index_or (net_of self.now).edges signal [])) result.now }
    {
        self.cover(signal).rows.row(row as usize)
    }

    /// The next column of a block that has to be looked at behind a column: each row has `-` in those between.
    pub fn next_column(&self, signal: u32, column: usize) -> usize
        requires block { IsBlock (net_of self.now) signal }
        requires inside { column < length (slice_index_or (net_of self.now).edges signal []) }
        ensures on { column < result }
        ensures within { result ≤ length (slice_index_or (net_of self.now).edges signal []) }
        ensures hyphens { (r k : ℕ) → r < length (cover_at (net_of self.now) signal).rows
            → column < k → k < result
            → slice_index_or (slice_index_or (cover_at (net_of self.now) signal).rows r []) k 45 ≡ 45 }
    {
        let words = self.block_inputs(signal).len();
        prove!(column < words);
        jump(self.jumps.as_slice(), signal, column)
    }

    /// The output of a block's rows, and 1 where it has none.
    pub fn row_output(&self, signal: u32) -> bool
        requires { IsBlock (net_of self.now) signal }
        ensures { result ≡ (cover_at (net_of self.now) signal).value }
    {
        self.cover(signal).value
    }

    /// The signals that are visited depth first from some signals in order: what a block reads before the block.
    /// Refuses for want of memory alone, and leaves nothing then.
    pub fn visits(&self, alloc: Global, wanted: &[u32]) -> Result<Vec<u32>, AllocError>
        requires { (i : ℕ) → i < length wanted.now → slice_index wanted.now i < length (net_of self.now).names }
        ensures order { IfOk result (λ v. v.items ≡ visits (net_of self.now).edges wanted.now) }
        ensures above { IfOk result (λ v. IsTopological (net_of self.now).edges v.items) }
        ensures signals { IfOk result (λ v. (k : ℕ) → k < length v.items →
            slice_index v.items k < length (net_of self.now).names) }
    {
        visit_order(alloc, self.tables.edges.as_slice(), wanted)
    }

    /// Tables for visits of signals, one after the other. Refuses for want of memory alone.
    pub fn walker(&self, alloc: Global) -> Result<Walker, AllocError>
        ensures { IfOk result (λ w. nodes_of w ≡ length (net_of self.now).names) }
    {
        Walker::new(alloc, self.tables.edges.len())
    }

    /// Visits signals as `visits` does, with tables that are kept. Refuses for want of memory alone, which leaves
    /// no order, and tables that serve as before.
    #[tactic(auto, using(crate::proofs::Jumping::net_jumps))]
    pub fn visit(&self, walker: &mut Walker, wanted: &[u32]) -> Result<(), AllocError>
        requires serves { nodes_of walker.old ≡ length (net_of self.now).names }
        requires wanted { (i : ℕ) → i < length wanted.now
            → slice_index wanted.now i < length (net_of self.now).names }
        ensures serves { nodes_of walker.new ≡ nodes_of walker.old }
        ensures order { OnOk result
            (order_of walker.new ≡ visits (net_of self.now).edges wanted.now) }
        ensures above { OnOk result (IsTopological (net_of self.now).edges (order_of walker.new)) }
        ensures signals { OnOk result ((k : ℕ) → k < length (order_of walker.new)
            → slice_index (order_of walker.new) k < length (net_of self.now).names) }
        ensures none { IsErr result → order_of walker.new ≡ [] }
    {
        walker.visit_by(self.tables.edges.as_slice(), self.jumps.as_slice(), wanted)
    }
}
