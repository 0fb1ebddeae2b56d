//! One arc file from its end on.
ghost use Rattle.std.specs.Prelude.{◌≡◌, ◌*◌, ◌≤◌};
ghost use Rattle.shelf_model.specs.Calls.{longest};
ghost use Rattle.block_stream.specs.Reads.{place_of};
ghost use Rattle.block_stream.specs.Backwards.{reading_of};
ghost use Rattle.arc_file.specs.Arcs.{arc_size};

use crate::kind::{Kind, may_stand};
use crate::{ARC_SIZE, Arc};
use block_stream::Backward;
use rec_words::Rec;
use shelf_model::{FileNo, Shelf, StreamFault};

/// The arcs of a file from its end on.
#[derive(Drop)]
pub(crate) struct ArcStream<'r> {
    arcs: Backward<'r, Arc>,
    // The arc that was given last.
    given: Option<Arc>,
    ghost width: { (reading_of arcs).words ≡ 2 },
    ghost front: { (reading_of arcs).bound ≡ 0 },
    ghost fits: { place_of (reading_of arcs) * arc_size ≤ longest },
}

impl<'r> ArcStream<'r> {
    ghost use Rattle.std.specs.Prelude.{ℕ, ◌<◌, List, length, OnOk, IfOk, IsTrue, None};
    ghost use Rattle.shelf_model.specs.World.{file};
    ghost use Rattle.shelf_model.specs.Calls.{Told};
    ghost use Rattle.shelf_model.specs.Faults.{OnlyShelf};
    ghost use Rattle.arc_file.specs.declared.arc.Arc.{Arc};
    ghost use Rattle.arc_file.specs.declared.kind.Kind.{Kind};
    ghost use Rattle.block_stream.specs.Reads.{Looked};
    ghost use Rattle.block_stream.specs.Items.{GivesLast};
    ghost use Rattle.arc_file.specs.Files.{HasArcs};
    ghost use Rattle.arc_file.specs.Streams.{file_of, left_of, given_of, waiting_of, room_of, Takes, Reads, AreLeft, GoesUp, IsArcAnswer};

    /// Begins with the last of so many arcs.
    pub fn start(f: FileNo, count: u64, window: &'r mut [Rec]) -> ArcStream<'r>
        requires enough { 8 ≤ length window.old }
        requires fits { count * arc_size ≤ longest }
        ensures file { file_of result ≡ f }
        ensures left { left_of result ≡ count }
        ensures given { given_of result ≡ None }
        ensures waits { (waiting_of result ≡ 0) × (room_of result ≡ length window.entry.now) }
        ensures reads { (kind : Kind) → (bytes : List ℕ) → Reads kind result bytes }
        ensures arcs { (kind : Kind) → (bytes : List ℕ) → (xs : List Arc) →
            HasArcs kind xs count bytes → AreLeft kind result bytes xs }
    {
        ArcStream {
            arcs: Backward::start(f, 0, count, window),
            given: None,
        }
    }

    /// The arc before the stream's place.
    pub fn next<S: Shelf>(&mut self, kind: Kind, shelf: &mut S) -> Result<Option<Arc>, StreamFault>
        ensures file { file_of self.new ≡ file_of self.old }
        ensures place { GoesUp kind self.old self.new result }

        // of bytes that didn't change since the start
        ensures reads { IsTrue (S.tells shelf.new) →
            let bytes = (file (S.world shelf.old) (file_of self.old)).bytes in
            Reads kind self.old bytes → OnOk result (Reads kind self.new bytes) }
        ensures value { IsTrue (S.tells shelf.new) →
            let bytes = (file (S.world shelf.old) (file_of self.old)).bytes in
            Reads kind self.old bytes → IsArcAnswer kind self.old bytes result }
        ensures items { IsTrue (S.tells shelf.new) →
            let bytes = (file (S.world shelf.old) (file_of self.old)).bytes in
            Reads kind self.old bytes → (xs : List Arc) → AreLeft kind self.old bytes xs →
            GivesLast (AreLeft kind self.new bytes) xs result }

        // what waits afterwards, what the call leaves and what it costs
        ensures waits { Takes self.old self.new result }
        ensures calls { IsTrue (S.tells shelf.new) → 0 < waiting_of self.old →
            (S.world shelf.new).clock ≡ (S.world shelf.old).clock }
        ensures content { Told S.tells shelf.old shelf.new (Looked 1 (S.world shelf.old) (S.world shelf.new)) }
        ensures faults { OnlyShelf (S.faults shelf.old) (S.faults shelf.new) result }
    {
        let Some(arc) = self.arcs.next(shelf)? else {
            return Ok(None);
        };
        if !may_stand(kind, &arc, self.given) {
            return Err(StreamFault::Damaged {
                file: self.arcs.file(),
                at: self.arcs.place() * ARC_SIZE,
            });
        }
        self.given = Some(arc);
        Ok(Some(arc))
    }

    /// The file that is read.
    pub fn file(&self) -> FileNo
        ensures { result ≡ file_of self.now }
    {
        self.arcs.file()
    }

    /// How many arcs are not yet given.
    pub fn place(&self) -> u64
        ensures { result ≡ left_of self.now }
    {
        self.arcs.place()
    }
}
