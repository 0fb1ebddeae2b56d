//! The writing of a node file.
ghost use Rattle.std.specs.Prelude.{◌≡◌, ◌+◌, ◌*◌, ◌<◌, ◌≤◌, ◌++◌, [], ◌∷◌, IsTrue, OnOk, IfOk, IfErr, length, take};
ghost use Rattle.shelf_model.specs.File.{firm_file};
ghost use Rattle.shelf_model.specs.World.{file};
ghost use Rattle.shelf_model.specs.Calls.{Told, longest};
ghost use Rattle.shelf_model.specs.Faults.{OnlyShelf};
ghost use Rattle.rec_words.specs.Words.{node_size};
ghost use Rattle.canon_file.specs.Canon.{node_bytes, trailer_bytes};
ghost use Rattle.block_stream.specs.Records.{piece_records, record_bytes};
ghost use Rattle.block_stream.specs.Reads.{IsDamageOf, IsShort};
ghost use Rattle.block_stream.specs.Writes.{Wrote, Cut, IsFilling, IsWriting, Fills, InStep, SameFile, count_of, written};
ghost use Rattle.node_file.specs.Nodes.{held_node, held_nodes};

use block_stream::{Filling, put_record, settle_records};
use rec_words::{Node, Ptr, Rec, Spill};
use shelf_model::{FileNo, Shelf, StreamFault};

/// Writes the nodes of a diagram into a file, those of the deepest level first, and the trailer behind them.
///
/// For a file that is to be read again, each node's identifier is below that of the node before it. No other
/// call changes the file meanwhile. After a refusal it isn't used again.
#[derive(Drop)]
pub struct NodeWriter<'r> {
    window: &'r mut [Rec],
    filling: Filling,
    n: u32,
    ghost fills: { IsFilling filling (length window.now) },
    ghost words: { filling.words ≡ 3 },
}

impl<'r> NodeWriter<'r> {
    ghost use Rattle.node_file.specs.Writers.{filling_of, room_of, written_of, Holds};

    /// Cuts a file to nothing, and begins with no node.
    pub fn start<S: Shelf>(
        f: FileNo,
        n: u32,
        window: &'r mut [Rec],
        shelf: &mut S,
    ) -> Result<NodeWriter<'r>, StreamFault>
        requires enough { 8 ≤ length window.old }
        ensures file { IfOk result (λ w. (filling_of w).file ≡ f) }
        ensures variables { IfOk result (λ w. w.n ≡ n) }
        ensures count { IfOk result (λ w. count_of (filling_of w) ≡ 0) }
        ensures holds { IfOk result (λ w. IsTrue (S.tells shelf.new) → Holds w (S.world shelf.new) []) }
        ensures cause { IfErr result (λ e. e ≡ StreamFault.Shelf) }
        ensures content { Told S.tells shelf.old shelf.new (Cut 1 f 0 (S.world shelf.old) (S.world shelf.new)) }
        ensures faults { OnlyShelf (S.faults shelf.old) (S.faults shelf.new) result }
    {
        let filling = Filling::start(f, Node::WORDS, shelf)?;
        Ok(NodeWriter { window, filling, n })
    }

    /// Goes on behind the first nodes of a file, so many of them, and cuts off the others.
    pub fn resume<S: Shelf>(
        f: FileNo,
        n: u32,
        count: u64,
        window: &'r mut [Rec],
        shelf: &mut S,
    ) -> Result<NodeWriter<'r>, StreamFault>
        requires enough { 8 ≤ length window.old }
        ensures file { IfOk result (λ w. (filling_of w).file ≡ f) }
        ensures variables { IfOk result (λ w. w.n ≡ n) }
        ensures count { IfOk result (λ w. count_of (filling_of w) ≡ count) }
        ensures holds { IfOk result (λ w. IsTrue (S.tells shelf.new) → Holds w (S.world shelf.new)
            (take (count * node_size) (file (S.world shelf.old) f).bytes)) }
        ensures whole { OnOk result (IsTrue (S.tells shelf.new) →
            count * node_size ≤ length (file (S.world shelf.old) f).bytes) }
        ensures damaged { IfErr result (IsDamageOf f) }
        ensures short { IfErr result (λ e. IsTrue (S.tells shelf.new) →
            IsShort 3 count (file (S.world shelf.old) f).bytes e) }
        ensures content { Told S.tells shelf.old shelf.new
            (Cut 2 f (count * node_size) (S.world shelf.old) (S.world shelf.new)) }
        ensures faults { OnlyShelf (S.faults shelf.old) (S.faults shelf.new) result }
    {
        let filling = Filling::resume(f, Node::WORDS, count, shelf)?;
        Ok(NodeWriter { window, filling, n })
    }

    /// The file that is written.
    pub fn file(&self) -> FileNo
        ensures { result ≡ (filling_of self.now).file }
    {
        self.filling.file()
    }

    /// How many nodes were put, with those that the file had at first.
    pub fn count(&self) -> u64
        ensures { result ≡ count_of (filling_of self.now) }
    {
        self.filling.count()
    }

    /// Puts a node behind the others.
    pub fn put<S: Shelf>(&mut self, node: Node, shelf: &mut S) -> Result<(), StreamFault>
        requires in_step { IsTrue (S.tells shelf.old) → InStep (filling_of self.old) (S.world shelf.old) }
        ensures same { SameFile (filling_of self.old) (filling_of self.new) }
        ensures variables { self.new.n ≡ self.old.n }
        ensures count { OnOk result (count_of (filling_of self.new) ≡ count_of (filling_of self.old) + 1) }
        ensures bound { IsFilling (filling_of self.new) (room_of self.new) }
        ensures room { room_of self.new ≡ room_of self.old }
        ensures holds { OnOk result (IsTrue (S.tells shelf.new) → Holds self.new (S.world shelf.new)
            (written_of self.old (S.world shelf.old) ++ node_bytes (node ∷ []))) }
        ensures waits { OnOk result (Fills (room_of self.old) (filling_of self.old) (filling_of self.new)) }
        ensures calls { IsTrue (S.tells shelf.new) → let w = filling_of self.old in
            w.waiting < piece_records w.words (room_of self.old) →
            (S.world shelf.new).clock ≡ (S.world shelf.old).clock }
        ensures cause { IfErr result (λ e. e ≡ StreamFault.Shelf) }
        ensures content { Told S.tells shelf.old shelf.new
            (Wrote 1 (filling_of self.old).file (S.world shelf.old) (S.world shelf.new)) }
        ensures faults { OnlyShelf (S.faults shelf.old) (S.faults shelf.new) result }
    {
        put_record(self.window, &mut self.filling, node.to_rec(), shelf)
    }

    /// Puts the node that a record holds behind the others: the record's first three words.
    pub fn put_held<S: Shelf>(&mut self, node: Rec, shelf: &mut S) -> Result<(), StreamFault>
        requires in_step { IsTrue (S.tells shelf.old) → InStep (filling_of self.old) (S.world shelf.old) }
        ensures same { SameFile (filling_of self.old) (filling_of self.new) }
        ensures variables { self.new.n ≡ self.old.n }
        ensures count { OnOk result (count_of (filling_of self.new) ≡ count_of (filling_of self.old) + 1) }
        ensures bound { IsFilling (filling_of self.new) (room_of self.new) }
        ensures room { room_of self.new ≡ room_of self.old }
        ensures holds { OnOk result (IsTrue (S.tells shelf.new) → Holds self.new (S.world shelf.new)
            (written_of self.old (S.world shelf.old) ++ held_node node)) }
        ensures waits { OnOk result (Fills (room_of self.old) (filling_of self.old) (filling_of self.new)) }
        ensures calls { IsTrue (S.tells shelf.new) → let w = filling_of self.old in
            w.waiting < piece_records w.words (room_of self.old) →
            (S.world shelf.new).clock ≡ (S.world shelf.old).clock }
        ensures cause { IfErr result (λ e. e ≡ StreamFault.Shelf) }
        ensures content { Told S.tells shelf.old shelf.new
            (Wrote 1 (filling_of self.old).file (S.world shelf.old) (S.world shelf.new)) }
        ensures faults { OnlyShelf (S.faults shelf.old) (S.faults shelf.new) result }
    {
        put_record(self.window, &mut self.filling, node, shelf)
    }

    /// Puts the nodes that records hold behind the others, with one call of the folder for each full piece of 2,048
    /// bytes.
    pub fn put_all<S: Shelf>(&mut self, nodes: &[Rec], shelf: &mut S) -> Result<(), StreamFault>
        requires in_step { IsTrue (S.tells shelf.old) → InStep (filling_of self.old) (S.world shelf.old) }
        ensures same { SameFile (filling_of self.old) (filling_of self.new) }
        ensures variables { self.new.n ≡ self.old.n }
        ensures count { OnOk result
            (count_of (filling_of self.new) ≡ count_of (filling_of self.old) + length nodes.now) }
        ensures bound { IsFilling (filling_of self.new) (room_of self.new) }
        ensures room { room_of self.new ≡ room_of self.old }
        ensures holds { OnOk result (IsTrue (S.tells shelf.new) → Holds self.new (S.world shelf.new)
            (written_of self.old (S.world shelf.old) ++ held_nodes nodes.now)) }
        ensures cause { IfErr result (λ e. e ≡ StreamFault.Shelf) }
        ensures content { Told S.tells shelf.old shelf.new
            (Wrote (length nodes.now) (filling_of self.old).file (S.world shelf.old) (S.world shelf.new)) }
        ensures faults { OnlyShelf (S.faults shelf.old) (S.faults shelf.new) result }
    {
        put_window(nodes, self.window, &mut self.filling, shelf)
    }

    /// Makes all that was put stand in the file, whatever a stop leaves.
    pub fn settle<S: Shelf>(&mut self, shelf: &mut S) -> Result<(), StreamFault>
        requires in_step { IsTrue (S.tells shelf.old) → InStep (filling_of self.old) (S.world shelf.old) }
        ensures same { SameFile (filling_of self.old) (filling_of self.new) }
        ensures variables { self.new.n ≡ self.old.n }
        ensures count { OnOk result (count_of (filling_of self.new) ≡ count_of (filling_of self.old)) }
        ensures fits { OnOk result (count_of (filling_of self.new) * node_size ≤ longest) }
        ensures bound { IsFilling (filling_of self.new) (room_of self.new) }
        ensures room { room_of self.new ≡ room_of self.old }
        ensures firm { OnOk result (IsTrue (S.tells shelf.new) → file (S.world shelf.new) (filling_of self.old).file
            ≡ firm_file (written_of self.old (S.world shelf.old))) }
        ensures holds { OnOk result (IsTrue (S.tells shelf.new) →
            Holds self.new (S.world shelf.new) (written_of self.old (S.world shelf.old))) }
        ensures cause { IfErr result (λ e. e ≡ StreamFault.Shelf) }
        ensures content { Told S.tells shelf.old shelf.new
            (Wrote 2 (filling_of self.old).file (S.world shelf.old) (S.world shelf.new)) }
        ensures faults { OnlyShelf (S.faults shelf.old) (S.faults shelf.new) result }
    {
        settle_records(self.window, &mut self.filling, shelf)
    }

    /// Puts the trailer behind the nodes, makes all stand in the file, whatever a stop leaves, and answers
    /// how many nodes there are.
    pub fn finish<S: Shelf>(self, root: Ptr, shelf: &mut S) -> Result<u64, StreamFault>
        requires in_step { IsTrue (S.tells shelf.old) → InStep (filling_of self) (S.world shelf.old) }
        ensures count { IfOk result (λ count. count ≡ count_of (filling_of self.entry)) }
        ensures fits { IfOk result (λ count. (count + 1) * node_size ≤ longest) }
        ensures firm { OnOk result (IsTrue (S.tells shelf.new) → let w = filling_of self.entry in
            file (S.world shelf.new) w.file
            ≡ firm_file (written_of self.entry (S.world shelf.old) ++ trailer_bytes root (count_of w) self.entry.n)) }
        ensures cause { IfErr result (λ e. e ≡ StreamFault.Shelf) }
        ensures content { Told S.tells shelf.old shelf.new
            (Wrote 3 (filling_of self.entry).file (S.world shelf.old) (S.world shelf.new)) }
        ensures faults { OnlyShelf (S.faults shelf.old) (S.faults shelf.new) result }
    {
        let filling = self.filling;
        let window = self.window;
        finish_window(window, filling, self.n, root, shelf)
    }

    /// Does the same as `finish` for a writer that is a part of something else. It isn't used again.
    pub fn end<S: Shelf>(&mut self, root: Ptr, shelf: &mut S) -> Result<u64, StreamFault>
        requires in_step { IsTrue (S.tells shelf.old) → InStep (filling_of self.old) (S.world shelf.old) }
        ensures same { filling_of self.new ≡ filling_of self.old }
        ensures variables { self.new.n ≡ self.old.n }
        ensures count { IfOk result (λ count. count ≡ count_of (filling_of self.old)) }
        ensures fits { IfOk result (λ count. (count + 1) * node_size ≤ longest) }
        ensures firm { OnOk result (IsTrue (S.tells shelf.new) → let w = filling_of self.old in
            file (S.world shelf.new) w.file
            ≡ firm_file (written_of self.old (S.world shelf.old) ++ trailer_bytes root (count_of w) self.old.n)) }
        ensures cause { IfErr result (λ e. e ≡ StreamFault.Shelf) }
        ensures content { Told S.tells shelf.old shelf.new
            (Wrote 3 (filling_of self.old).file (S.world shelf.old) (S.world shelf.new)) }
        ensures faults { OnlyShelf (S.faults shelf.old) (S.faults shelf.new) result }
    {
        finish_window(self.window, self.filling, self.n, root, shelf)
    }
}

// Puts the nodes that records hold behind one another.
fn put_window<S: Shelf>(
    nodes: &[Rec],
    window: &mut [Rec],
    filling: &mut Filling,
    shelf: &mut S,
) -> Result<(), StreamFault>
    requires fills { IsFilling filling.old (length window.old) }
    requires words { filling.old.words ≡ 3 }
    requires in_step { IsTrue (S.tells shelf.old) → InStep filling.old (S.world shelf.old) }
    ensures fills { IsFilling filling.new (length window.new) }
    ensures same { SameFile filling.old filling.new }
    ensures count { OnOk result (count_of filling.new ≡ count_of filling.old + length nodes.now) }
    ensures bytes { OnOk result (IsTrue (S.tells shelf.new) → IsWriting filling.new window.new (S.world shelf.new)
        (written filling.old window.old (S.world shelf.old) ++ held_nodes nodes.now)) }
    ensures cause { IfErr result (λ e. e ≡ StreamFault.Shelf) }
    ensures content { Told S.tells shelf.old shelf.new
        (Wrote (length nodes.now) filling.old.file (S.world shelf.old) (S.world shelf.new)) }
    ensures faults { OnlyShelf (S.faults shelf.old) (S.faults shelf.new) result }
{
    for node in nodes {
        put_record(window, filling, *node, shelf)?;
    }
    Ok(())
}

// Ends the file of a writer.
fn finish_window<S: Shelf>(
    window: &mut [Rec],
    started: Filling,
    n: u32,
    root: Ptr,
    shelf: &mut S,
) -> Result<u64, StreamFault>
    requires fills { IsFilling started (length window.old) }
    requires words { started.words ≡ 3 }
    requires in_step { IsTrue (S.tells shelf.old) → InStep started (S.world shelf.old) }
    ensures count { IfOk result (λ count. count ≡ count_of started) }
    ensures fits { IfOk result (λ count. (count + 1) * node_size ≤ longest) }
    ensures firm { OnOk result (IsTrue (S.tells shelf.new) → file (S.world shelf.new) started.file
        ≡ firm_file (written started window.old (S.world shelf.old) ++ trailer_bytes root (count_of started) n)) }
    ensures cause { IfErr result (λ e. e ≡ StreamFault.Shelf) }
    ensures content { Told S.tells shelf.old shelf.new
        (Wrote 3 started.file (S.world shelf.old) (S.world shelf.new)) }
    ensures faults { OnlyShelf (S.faults shelf.old) (S.faults shelf.new) result }
{
    let mut filling = started;
    let count = filling.count();
    put_record(window, &mut filling, trailer_record(root, count, n), shelf)?;
    settle_records(window, &mut filling, shelf)?;
    Ok(count)
}

// The record of a trailer.
fn trailer_record(root: Ptr, count: u64, n: u32) -> Rec
    ensures { record_bytes 3 result ≡ trailer_bytes root count n }
{
    Rec {
        w: [root.word(), count, u64::from(n), 0, 0, 0, 0, 0],
    }
}
