//! The reading of a pair of arc files.
use crate::kind::Kind;
use crate::stream::ArcStream;
use crate::{Arc, Unreduced};
use rec_words::{Ptr, Rec};
use shelf_model::{Shelf, StreamFault};

/// The arcs of a diagram, each of its two files from the end on.
///
/// After a refusal it isn't used again.
#[derive(Drop)]
pub struct ArcReader<'r> {
    root: Ptr,
    inner: ArcStream<'r>,
    ends: ArcStream<'r>,
}

impl<'r> ArcReader<'r> {
    ghost use Rattle.std.specs.Prelude.{◌≡◌, ℕ, ◌-◌, ◌*◌, ◌/◌, ◌<◌, ◌≤◌, List, length, OnOk, IsTrue, None};
    ghost use Rattle.shelf_model.specs.World.{file};
    ghost use Rattle.shelf_model.specs.Calls.{Told, longest};
    ghost use Rattle.shelf_model.specs.Faults.{OnlyShelf};
    ghost use Rattle.arc_file.specs.declared.arc.Arc.{Arc};
    ghost use Rattle.arc_file.specs.declared.kind.Kind.{Kind};
    ghost use Rattle.arc_file.specs.declared.kind.Kind.TheVariants.{Inner, End};
    ghost use Rattle.block_stream.specs.Reads.{Looked};
    ghost use Rattle.block_stream.specs.Items.{GivesLast};
    ghost use Rattle.arc_file.specs.Arcs.{arc_size};
    ghost use Rattle.arc_file.specs.Files.{HasArcs};
    ghost use Rattle.arc_file.specs.Streams.{file_of, given_of, waiting_of, room_of, Takes, Reads, AreLeft, GoesUp, IsArcAnswer};
    ghost use Rattle.arc_file.specs.Readers.{root_of, inner_of, ends_of, left_over_of};

    /// Begins with the last arcs of both files. The room is halved for them.
    pub fn start(made: Unreduced, room: &'r mut [Rec]) -> ArcReader<'r>
        requires enough { 16 ≤ length room.old }
        requires inner_fits { made.inner_count * arc_size ≤ longest }
        requires ends_fit { made.ends_count * arc_size ≤ longest }
        ensures left_over { left_over_of result ≡ made }
        ensures given { (given_of (inner_of result) ≡ None) × (given_of (ends_of result) ≡ None) }
        ensures waits { (waiting_of (inner_of result) ≡ 0) × (waiting_of (ends_of result) ≡ 0) }
        ensures rooms { (room_of (inner_of result) ≡ length room.entry.now / 2)
            × (room_of (ends_of result) ≡ length room.entry.now - length room.entry.now / 2) }
        ensures reads_inner { (bytes : List ℕ) → Reads Inner (inner_of result) bytes }
        ensures reads_ends { (bytes : List ℕ) → Reads End (ends_of result) bytes }
        ensures inner_arcs { (bytes : List ℕ) → (xs : List Arc) →
            HasArcs Inner xs made.inner_count bytes → AreLeft Inner (inner_of result) bytes xs }
        ensures end_arcs { (bytes : List ℕ) → (xs : List Arc) →
            HasArcs End xs made.ends_count bytes → AreLeft End (ends_of result) bytes xs }
    {
        let half = room.len() / 2;
        let (inner, ends) = room.split_at_mut(half);
        ArcReader {
            root: made.root,
            inner: ArcStream::start(made.inner, made.inner_count, inner),
            ends: ArcStream::start(made.ends, made.ends_count, ends),
        }
    }

    /// The next arc to a node from the end of its file on. None is answered after the file's first one.
    ///
    /// A record that isn't whole, that is no arc to a deeper node, or that isn't in order with the arc
    /// behind it is damaged where it is the next one.
    pub fn next_inner<S: Shelf>(&mut self, shelf: &mut S) -> Result<Option<Arc>, StreamFault>
        ensures root { root_of self.new ≡ root_of self.old }
        ensures ends { ends_of self.new ≡ ends_of self.old }
        ensures file { file_of (inner_of self.new) ≡ file_of (inner_of self.old) }
        ensures place { GoesUp Inner (inner_of self.old) (inner_of self.new) result }

        // of bytes that didn't change since the start
        ensures reads { IsTrue (S.tells shelf.new) → let s = inner_of self.old in
            let bytes = (file (S.world shelf.old) (file_of s)).bytes in
            Reads Inner s bytes → OnOk result (Reads Inner (inner_of self.new) bytes) }
        ensures value { IsTrue (S.tells shelf.new) → let s = inner_of self.old in
            let bytes = (file (S.world shelf.old) (file_of s)).bytes in
            Reads Inner s bytes → IsArcAnswer Inner s bytes result }
        ensures arcs { IsTrue (S.tells shelf.new) → let s = inner_of self.old in
            let bytes = (file (S.world shelf.old) (file_of s)).bytes in
            Reads Inner s bytes → (xs : List Arc) → AreLeft Inner s bytes xs →
            GivesLast (AreLeft Inner (inner_of self.new) bytes) xs result }

        // what waits afterwards, what the call leaves and what it costs
        ensures waits { Takes (inner_of self.old) (inner_of self.new) result }
        ensures calls { IsTrue (S.tells shelf.new) → 0 < waiting_of (inner_of self.old) →
            (S.world shelf.new).clock ≡ (S.world shelf.old).clock }
        ensures content { Told S.tells shelf.old shelf.new (Looked 1 (S.world shelf.old) (S.world shelf.new)) }
        ensures faults { OnlyShelf (S.faults shelf.old) (S.faults shelf.new) result }
    {
        self.inner.next(Kind::Inner, shelf)
    }

    /// The next arc to a truth value from the end of its file on. None is answered after the file's first
    /// one.
    ///
    /// A record that isn't whole, that is no arc to a truth value, or that isn't in order with the arc
    /// behind it is damaged where it is the next one.
    pub fn next_end<S: Shelf>(&mut self, shelf: &mut S) -> Result<Option<Arc>, StreamFault>
        ensures root { root_of self.new ≡ root_of self.old }
        ensures inner { inner_of self.new ≡ inner_of self.old }
        ensures file { file_of (ends_of self.new) ≡ file_of (ends_of self.old) }
        ensures place { GoesUp End (ends_of self.old) (ends_of self.new) result }

        // of bytes that didn't change since the start
        ensures reads { IsTrue (S.tells shelf.new) → let s = ends_of self.old in
            let bytes = (file (S.world shelf.old) (file_of s)).bytes in
            Reads End s bytes → OnOk result (Reads End (ends_of self.new) bytes) }
        ensures value { IsTrue (S.tells shelf.new) → let s = ends_of self.old in
            let bytes = (file (S.world shelf.old) (file_of s)).bytes in
            Reads End s bytes → IsArcAnswer End s bytes result }
        ensures arcs { IsTrue (S.tells shelf.new) → let s = ends_of self.old in
            let bytes = (file (S.world shelf.old) (file_of s)).bytes in
            Reads End s bytes → (xs : List Arc) → AreLeft End s bytes xs →
            GivesLast (AreLeft End (ends_of self.new) bytes) xs result }

        // what waits afterwards, what the call leaves and what it costs
        ensures waits { Takes (ends_of self.old) (ends_of self.new) result }
        ensures calls { IsTrue (S.tells shelf.new) → 0 < waiting_of (ends_of self.old) →
            (S.world shelf.new).clock ≡ (S.world shelf.old).clock }
        ensures content { Told S.tells shelf.old shelf.new (Looked 1 (S.world shelf.old) (S.world shelf.new)) }
        ensures faults { OnlyShelf (S.faults shelf.old) (S.faults shelf.new) result }
    {
        self.ends.next(Kind::End, shelf)
    }

    /// What is not yet read.
    pub fn left_over(&self) -> Unreduced
        ensures { result ≡ left_over_of self.now }
    {
        Unreduced {
            root: self.root,
            inner: self.inner.file(),
            inner_count: self.inner.place(),
            ends: self.ends.file(),
            ends_count: self.ends.place(),
        }
    }
}
