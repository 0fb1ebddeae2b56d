//! The writing of a pair of arc files.
ghost use Rattle.std.specs.Prelude.{◌≡◌, ◌≢◌};
ghost use Rattle.block_stream.specs.Appenders.{filling_of};

use crate::{Arc, Unreduced};
use block_stream::Appender;
use rec_words::{Ptr, Rec};
use shelf_model::{FileNo, Shelf, StreamFault};

/// Writes the arcs of a diagram into two files, those to nodes into one, and those to truth values into the
/// other.
///
/// For files that are to be read again, the arcs of each are put in its order. No other call changes the
/// files meanwhile. After a refusal it isn't used again.
#[derive(Drop)]
pub struct ArcWriter<'r> {
    inner_file: FileNo,
    inner: Appender<'r, Arc>,
    ends_file: FileNo,
    ends: Appender<'r, Arc>,
    ghost inner_is: { (filling_of inner).file ≡ inner_file },
    ghost inner_width: { (filling_of inner).words ≡ 2 },
    ghost ends_are: { (filling_of ends).file ≡ ends_file },
    ghost ends_width: { (filling_of ends).words ≡ 2 },
    ghost apart: { inner_file ≢ ends_file },
}

impl<'r> ArcWriter<'r> {
    ghost use Rattle.std.specs.Prelude.{◌+◌, ◌*◌, ◌^◌, ◌≤◌, ◌++◌, [], ◌∷◌, List, length, OnOk, IfOk, IfErr, IsTrue};
    ghost use Rattle.shelf_model.specs.World.{file};
    ghost use Rattle.shelf_model.specs.Calls.{Told};
    ghost use Rattle.shelf_model.specs.Faults.{OnlyShelf};
    ghost use Rattle.arc_file.specs.declared.arc.Arc.{Arc};
    ghost use Rattle.arc_file.specs.Arcs.{arc_size};
    ghost use Rattle.arc_file.specs.Files.{inner_arcs, end_arcs, BeginWith};
    ghost use Rattle.arc_file.specs.Pairs.{WroteBoth, CutBoth};
    ghost use Rattle.arc_file.specs.Writers.{inner_file, ends_file, inner_count, ends_count, made_of, SameFiles, AreInStep, HoldsArcs, HasSpace, IsFileOf, WereSettled, AreWhole, IsDamageOfEither, IsShortOfEither};

    /// Cuts two files to nothing, and begins with no arc. The room is halved for them.
    pub fn start<S: Shelf>(
        inner: FileNo,
        ends: FileNo,
        room: &'r mut [Rec],
        shelf: &mut S,
    ) -> Result<ArcWriter<'r>, StreamFault>
        requires enough { 16 ≤ length room.old }
        requires apart { inner ≢ ends }
        ensures files { IfOk result (λ w. (inner_file w ≡ inner) × (ends_file w ≡ ends)) }
        ensures counts { IfOk result (λ w. (inner_count w ≡ 0) × (ends_count w ≡ 0)) }
        ensures in_step { IfOk result (λ w. IsTrue (S.tells shelf.new) → AreInStep w (S.world shelf.new)) }
        ensures arcs { IfOk result (λ w. IsTrue (S.tells shelf.new) → HoldsArcs w (S.world shelf.new) [] []) }
        ensures cause { IfErr result (λ e. e ≡ StreamFault.Shelf) }
        ensures content { Told S.tells shelf.old shelf.new
            (CutBoth 2 inner 0 ends 0 (S.world shelf.old) (S.world shelf.new)) }
        ensures faults { OnlyShelf (S.faults shelf.old) (S.faults shelf.new) result }
    {
        let half = room.len() / 2;
        let (front, back) = room.split_at_mut(half);
        let to_nodes = Appender::start(inner, front, shelf)?;
        let to_values = Appender::start(ends, back, shelf)?;
        Ok(ArcWriter {
            inner_file: inner,
            inner: to_nodes,
            ends_file: ends,
            ends: to_values,
        })
    }

    /// Goes on behind the first arcs of two files, so many of each, and cuts off the others. The room is
    /// halved for them.
    pub fn resume<S: Shelf>(
        made: Unreduced,
        room: &'r mut [Rec],
        shelf: &mut S,
    ) -> Result<ArcWriter<'r>, StreamFault>
        requires enough { 16 ≤ length room.old }
        requires apart { made.inner ≢ made.ends }
        ensures files { IfOk result (λ w. made_of w made.root ≡ made) }
        ensures in_step { IfOk result (λ w. IsTrue (S.tells shelf.new) → AreInStep w (S.world shelf.new)) }
        ensures arcs { IfOk result (λ w. IsTrue (S.tells shelf.new) → (xs ys : List Arc) →
            BeginWith xs made.inner_count (file (S.world shelf.old) made.inner).bytes →
            BeginWith ys made.ends_count (file (S.world shelf.old) made.ends).bytes →
            HoldsArcs w (S.world shelf.new) xs ys) }
        ensures whole { OnOk result (IsTrue (S.tells shelf.new) → AreWhole made (S.world shelf.old)) }
        ensures damaged { IfErr result (IsDamageOfEither made.inner made.ends) }
        ensures short { IfErr result (λ e. IsTrue (S.tells shelf.new) →
            IsShortOfEither made (S.world shelf.old) e) }
        ensures content { Told S.tells shelf.old shelf.new
            (CutBoth 4 made.inner (made.inner_count * arc_size) made.ends (made.ends_count * arc_size)
            (S.world shelf.old) (S.world shelf.new)) }
        ensures faults { OnlyShelf (S.faults shelf.old) (S.faults shelf.new) result }
    {
        let half = room.len() / 2;
        let (front, back) = room.split_at_mut(half);
        let to_nodes = Appender::resume(made.inner, made.inner_count, front, shelf)?;
        let to_values = Appender::resume(made.ends, made.ends_count, back, shelf)?;
        Ok(ArcWriter {
            inner_file: made.inner,
            inner: to_nodes,
            ends_file: made.ends,
            ends: to_values,
        })
    }

    /// Puts an arc behind the others of the file that its target chooses.
    pub fn put<S: Shelf>(&mut self, arc: Arc, shelf: &mut S) -> Result<(), StreamFault>
        requires in_step { IsTrue (S.tells shelf.old) → AreInStep self.old (S.world shelf.old) }
        ensures same { SameFiles self.old self.new }
        ensures inner { OnOk result
            (inner_count self.new ≡ inner_count self.old + length (inner_arcs (arc ∷ []))) }
        ensures ends { OnOk result
            (ends_count self.new ≡ ends_count self.old + length (end_arcs (arc ∷ []))) }
        ensures in_step { OnOk result (IsTrue (S.tells shelf.new) → AreInStep self.new (S.world shelf.new)) }
        ensures arcs { OnOk result (IsTrue (S.tells shelf.new) → (xs ys : List Arc) →
            HoldsArcs self.old (S.world shelf.old) xs ys →
            HoldsArcs self.new (S.world shelf.new) (xs ++ inner_arcs (arc ∷ [])) (ys ++ end_arcs (arc ∷ []))) }
        ensures calls { IsTrue (S.tells shelf.new) → HasSpace self.old arc →
            (S.world shelf.new).clock ≡ (S.world shelf.old).clock }
        ensures cause { IfErr result (λ e. e ≡ StreamFault.Shelf) }
        ensures content { Told S.tells shelf.old shelf.new
            (WroteBoth 1 (inner_file self.old) (ends_file self.old) (S.world shelf.old) (S.world shelf.new)) }
        ensures faults { OnlyShelf (S.faults shelf.old) (S.faults shelf.new) result }
    {
        match arc.target.level() {
            Some(_level) => self.inner.put(arc, shelf),
            None => self.ends.put(arc, shelf),
        }
    }

    /// Makes all that was put stand in the files, whatever a stop leaves, and answers them as a diagram with
    /// that root.
    pub fn settle<S: Shelf>(&mut self, root: Ptr, shelf: &mut S) -> Result<Unreduced, StreamFault>
        requires in_step { IsTrue (S.tells shelf.old) → AreInStep self.old (S.world shelf.old) }
        ensures same { SameFiles self.old self.new }
        ensures made { IfOk result (λ made. made ≡ made_of self.old root) }
        ensures counts { OnOk result (made_of self.new root ≡ made_of self.old root) }
        ensures few { IfOk result (λ made. (made.inner_count ≤ 2 ^ 46) × (made.ends_count ≤ 2 ^ 46)) }
        ensures in_step { OnOk result (IsTrue (S.tells shelf.new) → AreInStep self.new (S.world shelf.new)) }
        ensures settled { OnOk result (IsTrue (S.tells shelf.new) →
            WereSettled self.old (S.world shelf.old) (S.world shelf.new)) }
        ensures arcs { IfOk result (λ made. IsTrue (S.tells shelf.new) → (xs ys : List Arc) →
            HoldsArcs self.old (S.world shelf.old) xs ys →
            HoldsArcs self.new (S.world shelf.new) xs ys
            × IsFileOf xs made.inner_count (file (S.world shelf.new) made.inner)
            × IsFileOf ys made.ends_count (file (S.world shelf.new) made.ends)) }
        ensures cause { IfErr result (λ e. e ≡ StreamFault.Shelf) }
        ensures content { Told S.tells shelf.old shelf.new
            (WroteBoth 4 (inner_file self.old) (ends_file self.old) (S.world shelf.old) (S.world shelf.new)) }
        ensures faults { OnlyShelf (S.faults shelf.old) (S.faults shelf.new) result }
    {
        self.inner.settle(shelf)?;
        self.ends.settle(shelf)?;
        Ok(Unreduced {
            root,
            inner: self.inner_file,
            inner_count: self.inner.count(),
            ends: self.ends_file,
            ends_count: self.ends.count(),
        })
    }
}
