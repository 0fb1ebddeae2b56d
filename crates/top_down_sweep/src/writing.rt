//! The calls of the writer of arcs.
use crate::machine::Machine;
use arc_file::Arc;
use rec_words::Ptr;
use shelf_model::{Shelf, SortFault};
use sweep_core::Turn;
use tuple_asks::Phase;

impl<'r> Machine<'r> {
    ghost use Rattle.std.specs.Prelude.{◌≡◌, ◌+◌, ◌^◌, ◌≤◌, IsTrue, OnOk, IfOk, length};
    ghost use Rattle.arc_file.specs.declared.arc.Arc.{Arc};
    ghost use Rattle.std.specs.Prelude.{[], ◌∷◌, List};
    ghost use Rattle.arc_file.specs.Files.{inner_arcs};
    ghost use Rattle.arc_file.specs.Writers.{inner_count, made_of, HoldsArcs};
    ghost use Rattle.sweep_core.specs.declared.turn.Turn.TheVariants as turns;
    ghost use Rattle.tuple_asks.specs.declared.place.Phase.TheVariants as phases;
    ghost use Rattle.top_down_sweep.specs.Sweeps.{IsSoundMachine};
    ghost use Rattle.top_down_sweep.specs.Calls.{Does, IsFit, IsMachineInStep, IsMachineTrusted, KeepsAsks};
    ghost use Rattle.top_down_sweep.specs.Ordered.{HoldsOrdered};
    ghost use Rattle.std.specs.Prelude.{Option};
    ghost use Rattle.top_down.specs.declared.tuple.Tuple.{Tuple};
    ghost use Rattle.top_down.specs.Rules.{Rule};
    ghost use Rattle.tuple_asks.specs.Knowing.{FileBytes};
    ghost use Rattle.std.specs.Prelude.{IfErr, ◌++◌, ◌||◌};
    ghost use Rattle.arc_file.specs.Files.{end_arcs};
    ghost use Rattle.sweep_core.specs.Sweeps.{IsNoDamage};
    ghost use Rattle.top_down_sweep.specs.Meaning.{Contents, StandsFor, AreFilesOf, leads_to_one};

    /// Puts an arc into the file that its target chooses.
    pub(crate) fn put<S: Shelf>(&mut self, arc: Arc, shelf: &mut S) -> Result<(), SortFault>
        requires fit { IsFit S.tells S.world shelf.old self.old }
        ensures does { Does S.tells S.world S.faults 1 0 shelf.old shelf.new self.old self.new result }
        ensures fit { OnOk result (IsFit S.tells S.world shelf.new self.new) }
        ensures holds { OnOk result (IsTrue (S.tells shelf.new) →
            (bytes : Option FileBytes) → KeepsAsks bytes self.old (S.world shelf.old) self.new (S.world shelf.new)) }
        ensures rest { self.new ≡ record self.old {
          place = record self.old.place { has_one = self.new.place.has_one };
          writer = self.new.writer;
        } }
        ensures one { self.new.place.has_one ≡ (self.old.place.has_one || leads_to_one arc) }
        ensures count { OnOk result
            (inner_count self.new.writer ≡ inner_count self.old.writer + length (inner_arcs (arc ∷ []))) }
        ensures written { OnOk result (IsTrue (S.tells shelf.new) → (k : Contents) →
            StandsFor self.old (S.world shelf.old) k → StandsFor self.new (S.world shelf.new)
            (record k { inner = k.inner ++ inner_arcs (arc ∷ []); ends = k.ends ++ end_arcs (arc ∷ []) })) }
        ensures arcs { OnOk result (IsTrue (S.tells shelf.new) → (xs ys : List Arc) →
            HoldsArcs self.old.writer (S.world shelf.old) xs ys → HoldsArcs self.new.writer (S.world shelf.new)
            (xs ++ inner_arcs (arc ∷ [])) (ys ++ end_arcs (arc ∷ []))) }
        ensures undamaged { IfErr result IsNoDamage }
    {
        self.place.has_one = self.place.has_one || arc.target == Ptr::terminal(true);
        self.writer.put(arc, shelf)?;
        Ok(())
    }

    /// Makes the arcs stand in their files, as those of a diagram with that root, and ends.
    pub(crate) fn end<S: Shelf>(&mut self, root: Ptr, shelf: &mut S) -> Result<Turn, SortFault>
        requires fit { IsFit S.tells S.world shelf.old self.old }
        ensures does { Does S.tells S.world S.faults 4 0 shelf.old shelf.new self.old self.new result }
        ensures sound { OnOk result (IsSoundMachine self.new) }
        ensures in_step { OnOk result (IsTrue (S.tells shelf.new) → IsMachineInStep self.new (S.world shelf.new)) }
        ensures trusts { OnOk result (IsTrue (S.tells shelf.new) →
            (rule : Rule) → (begins : Tuple → Tuple) → HoldsOrdered self.old.writer (S.world shelf.old) →
            IsMachineTrusted rule begins self.new (S.world shelf.new)) }
        ensures turn { IfOk result (λ turn. turn ≡ turns.Ended) }
        ensures one { self.new.place.has_one ≡ self.old.place.has_one }
        ensures made { OnOk result (self.new.place.phase ≡ phases.Ended (made_of self.new.writer root)) }
        ensures files { OnOk result (IsTrue (S.tells shelf.new) → (k : Contents) →
            StandsFor self.old (S.world shelf.old) k →
            AreFilesOf (made_of self.new.writer root) (S.world shelf.new) k.inner k.ends) }
        ensures undamaged { IfErr result IsNoDamage }
    {
        let made = self.writer.settle(root, shelf)?;
        self.place.phase = Phase::Ended(made);
        Ok(Turn::Ended)
    }
}
