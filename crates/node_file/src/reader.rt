//! The reading of a node file.
ghost use Rattle.std.specs.Prelude.{◌≡◌, ◌⊎◌, ℕ, ◌+◌, ◌-◌, ◌*◌, ◌<◌, ◌≤◌, ◌^◌, Some, IsTrue, true, false, MatchOption, IfSome};
ghost use Rattle.rec_words.specs.Words.{node_size};
ghost use Rattle.shelf_model.specs.Calls.{longest};
ghost use Rattle.block_stream.specs.Reads.{place_of};
ghost use Rattle.block_stream.specs.Backwards.{reading_of};
ghost use Rattle.node_file.specs.Nodes.{is_sound};

use crate::node::is_sound_node;
use crate::trailer::{Trailer, read_trailer};
use block_stream::Backward;
use rec_words::{NODE_SIZE, Node, Rec};
use shelf_model::{FileNo, Shelf, StreamFault};

/// The nodes of a file from its end on: from the root down, by ascending identifiers.
///
/// After a refusal it isn't used again.
#[derive(Drop)]
pub struct NodeReader<'r> {
    nodes: Backward<'r, Node>,
    trailer: Trailer,
    // The word of the identifier that was given last.
    given: Option<u64>,
    ghost width: { (reading_of nodes).words ≡ 3 },
    ghost front: { (reading_of nodes).bound ≡ 0 },
    ghost within: { place_of (reading_of nodes) ≤ trailer.count },
    ghost fits: { trailer.count * node_size ≤ longest },
}

impl<'r> NodeReader<'r> {
    ghost use Rattle.std.specs.Prelude.{◌/◌, min, List, length, take, OnOk, IfOk, IfErr, IsSome, None};
    ghost use Rattle.shelf_model.specs.World.{file};
    ghost use Rattle.shelf_model.specs.Calls.{Told};
    ghost use Rattle.shelf_model.specs.Faults.{OnlyShelf};
    ghost use Rattle.rec_words.specs.declared.node.Node.{Node};
    ghost use Rattle.block_stream.specs.Reads.{Looked, IsDamageOf};
    ghost use Rattle.block_stream.specs.Items.{GivesLast};
    ghost use Rattle.node_file.specs.Nodes.{HasTrailer, HasNodes, IsRoot, IsTrailerDamage, IsMetBetween};
    ghost use Rattle.node_file.specs.Readers.{file_of, trailer_of, left_of, given_of, waiting_of, room_of, loads_of, Takes, Reads, AreLeft, GoesUp, IsNodePlace, IsNodeAnswer};

    /// Reads the trailer of a file for n variables, and begins with the root. A file without such a trailer is
    /// refused, with the place at which it had to stand.
    pub fn start<S: Shelf>(
        f: FileNo,
        n: u32,
        window: &'r mut [Rec],
        shelf: &mut S,
    ) -> Result<NodeReader<'r>, StreamFault>
        requires enough { 8 ≤ length window.old }
        ensures file { IfOk result (λ r. file_of r ≡ f) }
        ensures variables { IfOk result (λ r. (trailer_of r).n ≡ n) }
        ensures place { IfOk result (λ r. left_of r ≡ (trailer_of r).count) }
        ensures given { IfOk result (λ r. given_of r ≡ None) }
        ensures waits { IfOk result (λ r. (waiting_of r ≡ 0) × (room_of r ≡ length window.entry.now)) }
        ensures root { IfOk result (λ r. IsRoot (trailer_of r).count (trailer_of r).root) }
        ensures trailer { IfOk result (λ r. IsTrue (S.tells shelf.new) →
            let bytes = (file (S.world shelf.old) f).bytes in
            HasTrailer n (trailer_of r).root bytes × ((trailer_of r).count ≡ length bytes / node_size - 1)) }
        ensures reads { IfOk result (λ r. (bytes : List ℕ) → Reads r bytes) }
        ensures nodes { IfOk result (λ r. IsTrue (S.tells shelf.new) → (root : ℕ) → (xs : List Node) →
            let bytes = (file (S.world shelf.old) f).bytes in HasNodes n root xs bytes →
            ((trailer_of r).count ≡ length xs) × AreLeft r bytes xs) }
        ensures sound { IfErr result (λ e. IsTrue (S.tells shelf.new) → (root : ℕ) → (xs : List Node) →
            HasNodes n root xs (file (S.world shelf.old) f).bytes → e ≡ StreamFault.Shelf) }
        ensures damage { IfErr result (IsDamageOf f) }
        ensures damaged { IfErr result (λ e. IsTrue (S.tells shelf.new) →
            IsTrailerDamage n (file (S.world shelf.old) f).bytes e) }
        ensures content { Told S.tells shelf.old shelf.new (Looked 2 (S.world shelf.old) (S.world shelf.new)) }
        ensures faults { OnlyShelf (S.faults shelf.old) (S.faults shelf.new) result }
    {
        let trailer = read_trailer(f, n, window, shelf)?;
        Ok(NodeReader {
            nodes: Backward::start(f, 0, trailer.count, window),
            trailer,
            given: None,
        })
    }

    /// Begins before the nodes that stand at a place and behind it. It reads each of these, as so many calls of
    /// `next` do, and is refused where `start` or one of these is. At least eight of them are read by one call of the
    /// folder, or all that are left. Where the file has fewer nodes it begins with the root.
    pub fn resume<S: Shelf>(
        f: FileNo,
        n: u32,
        place: u64,
        window: &'r mut [Rec],
        shelf: &mut S,
    ) -> Result<NodeReader<'r>, StreamFault>
        requires enough { 8 ≤ length window.old }
        ensures file { IfOk result (λ r. file_of r ≡ f) }
        ensures variables { IfOk result (λ r. (trailer_of r).n ≡ n) }
        ensures place { IfOk result (λ r. left_of r ≡ min place (trailer_of r).count) }
        ensures begun { IfOk result (λ r. IsSome (given_of r) → left_of r < (trailer_of r).count) }
        ensures trailer { IfOk result (λ r. IsTrue (S.tells shelf.new) →
            let bytes = (file (S.world shelf.old) f).bytes in
            HasTrailer n (trailer_of r).root bytes × ((trailer_of r).count ≡ length bytes / node_size - 1)) }
        ensures reads { IfOk result (λ r. IsTrue (S.tells shelf.new) →
            Reads r (file (S.world shelf.old) f).bytes) }
        ensures nodes { IfOk result (λ r. IsTrue (S.tells shelf.new) → (root : ℕ) → (xs : List Node) →
            let bytes = (file (S.world shelf.old) f).bytes in HasNodes n root xs bytes →
            ((trailer_of r).count ≡ length xs) × AreLeft r bytes (take place xs)) }
        ensures sound { IfErr result (λ e. IsTrue (S.tells shelf.new) → (root : ℕ) → (xs : List Node) →
            HasNodes n root xs (file (S.world shelf.old) f).bytes → e ≡ StreamFault.Shelf) }
        ensures damage { IfErr result (IsDamageOf f) }
        ensures damaged { IfErr result (λ e. IsTrue (S.tells shelf.new) →
            let bytes = (file (S.world shelf.old) f).bytes in
            IsTrailerDamage n bytes e ⊎ IsMetBetween n place (length bytes / node_size - 1) bytes e) }
        ensures content { Told S.tells shelf.old shelf.new
            (Looked (2 + loads_of (length (file (S.world shelf.old) f).bytes / node_size - 1 - place))
            (S.world shelf.old) (S.world shelf.new)) }
        ensures faults { OnlyShelf (S.faults shelf.old) (S.faults shelf.new) result }
    {
        let mut reader = NodeReader::start(f, n, window, shelf)?;
        reader.skip_to(place, shelf)?;
        Ok(reader)
    }

    // Passes over the nodes at a place and behind it.
    fn skip_to<S: Shelf>(&mut self, place: u64, shelf: &mut S) -> Result<(), StreamFault>
        ensures file { file_of self.new ≡ file_of self.old }
        ensures trailer { trailer_of self.new ≡ trailer_of self.old }
        ensures place { OnOk result (left_of self.new ≡ min place (left_of self.old)) }
        ensures begun { OnOk result
            ((given_of self.new ≡ given_of self.old) ⊎ (left_of self.new < left_of self.old)) }
        ensures reads { IsTrue (S.tells shelf.new) →
            let bytes = (file (S.world shelf.old) (file_of self.old)).bytes in
            Reads self.old bytes → OnOk result (Reads self.new bytes) }
        ensures nodes { IsTrue (S.tells shelf.new) →
            let bytes = (file (S.world shelf.old) (file_of self.old)).bytes in
            Reads self.old bytes → (xs : List Node) → AreLeft self.old bytes xs →
            OnOk result (AreLeft self.new bytes (take place xs)) }
        ensures sound { IsTrue (S.tells shelf.new) →
            let bytes = (file (S.world shelf.old) (file_of self.old)).bytes in
            Reads self.old bytes → (xs : List Node) → AreLeft self.old bytes xs →
            IfErr result (λ e. e ≡ StreamFault.Shelf) }
        ensures damage { IfErr result (IsDamageOf (file_of self.old)) }
        ensures damaged { IsTrue (S.tells shelf.new) →
            let bytes = (file (S.world shelf.old) (file_of self.old)).bytes in
            Reads self.old bytes → IfErr result (IsMetBetween (trailer_of self.old).n place (left_of self.old) bytes) }
        ensures content { Told S.tells shelf.old shelf.new
            (Looked (loads_of (left_of self.old - place)) (S.world shelf.old) (S.world shelf.new)) }
        ensures faults { OnlyShelf (S.faults shelf.old) (S.faults shelf.new) result }
    {
        'skip: while self.nodes.place() > place {
            self.next(shelf)?;
        }
        Ok(())
    }

    /// The node before the reader's place: the first one is the root, and identifiers ascend.
    pub fn next<S: Shelf>(&mut self, shelf: &mut S) -> Result<Option<Node>, StreamFault>
        ensures file { file_of self.new ≡ file_of self.old }
        ensures trailer { trailer_of self.new ≡ trailer_of self.old }
        ensures place { GoesUp self.old self.new result }
        ensures damage { IfErr result (IsNodePlace (file_of self.old) (left_of self.old) (given_of self.old)) }

        // of bytes that didn't change since the start
        ensures reads { IsTrue (S.tells shelf.new) →
            let bytes = (file (S.world shelf.old) (file_of self.old)).bytes in
            Reads self.old bytes → OnOk result (Reads self.new bytes) }
        ensures value { IsTrue (S.tells shelf.new) →
            let bytes = (file (S.world shelf.old) (file_of self.old)).bytes in
            Reads self.old bytes → IsNodeAnswer (trailer_of self.old).n (left_of self.old) bytes result }
        ensures items { IsTrue (S.tells shelf.new) →
            let bytes = (file (S.world shelf.old) (file_of self.old)).bytes in
            Reads self.old bytes → (xs : List Node) → AreLeft self.old bytes xs →
            GivesLast (AreLeft self.new bytes) xs result }

        // what waits afterwards, what the call leaves and what it costs
        ensures waits { Takes self.old self.new result }
        ensures calls { IsTrue (S.tells shelf.new) → 0 < waiting_of self.old →
            (S.world shelf.new).clock ≡ (S.world shelf.old).clock }
        ensures content { Told S.tells shelf.old shelf.new (Looked 1 (S.world shelf.old) (S.world shelf.new)) }
        ensures faults { OnlyShelf (S.faults shelf.old) (S.faults shelf.new) result }
    {
        let Some(node) = self.nodes.next(shelf)? else {
            return Ok(None);
        };
        let left = self.nodes.place();
        if let Some(place) = damaged_place(&node, self.given, left, self.trailer.n) {
            return Err(StreamFault::Damaged {
                file: self.nodes.file(),
                at: place * NODE_SIZE,
            });
        }
        self.given = Some(node.uid.ptr().word());
        Ok(Some(node))
    }

    /// What ends the file.
    pub fn trailer(&self) -> Trailer
        ensures { result ≡ trailer_of self.now }
    {
        self.trailer
    }

    /// The file that is read.
    pub fn file(&self) -> FileNo
        ensures { result ≡ file_of self.now }
    {
        self.nodes.file()
    }

    /// How many nodes are not yet given.
    pub fn place(&self) -> u64
        ensures { result ≡ left_of self.now }
    {
        self.nodes.place()
    }
}

// The place of the record that is damaged, where the node at a place can't stand there, or not before the one
// that was given.
fn damaged_place(node: &Node, given: Option<u64>, place: u64, n: u32) -> Option<u64>
    requires few { place < 2 ^ 63 }
    ensures { MatchOption result
        ((is_sound n node.now ≡ true) × IfSome given (λ g. g < node.now.uid))
        (λ at. ((at ≡ place) × (is_sound n node.now ≡ false)) ⊎
        ((at ≡ place + 1) × ((g : ℕ) × (given ≡ Some g) × (node.now.uid ≤ g)))) }
{
    if !is_sound_node(node, n) {
        return Some(place);
    }
    let Some(before) = given else {
        return None;
    };
    if node.uid.ptr().word() > before {
        None
    } else {
        Some(place + 1)
    }
}
