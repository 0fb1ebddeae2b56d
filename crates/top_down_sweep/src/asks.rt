//! The calls of the queue.
use crate::machine::Machine;
use shelf_model::{Shelf, SortFault};
use tuple_asks::{Ask, SoundAsk};

impl<'r> Machine<'r> {
    ghost use Rattle.std.specs.Prelude.{◌≡◌, ◌≢◌, ◌+◌, true, false, IsTrue, Some, OnOk, IfOk, IfSome};
    ghost use Rattle.level_queue.specs.Queues.{shown, last_of, held, IsNoLess};
    ghost use Rattle.tuple_asks.specs.Items.{ask_cmp};
    ghost use Rattle.top_down_sweep.specs.Sweeps.{IsAsking};
    ghost use Rattle.std.specs.Prelude.{Option};
    ghost use Rattle.tuple_asks.specs.Knowing.{FileBytes};
    ghost use Rattle.tuple_asks.specs.Operands.{Fits};
    ghost use Rattle.top_down_sweep.specs.Waiting.{KnowsAsk, HoldsSome, HoldsFirst};
    ghost use Rattle.top_down_sweep.specs.Calls.{Does, IsFit, IsFirst, KeepsAsks};
    ghost use Rattle.std.specs.Prelude.{IfErr, [], ◌∷◌};
    ghost use Rattle.sweep_core.specs.Sweeps.{IsNoDamage};
    ghost use Rattle.top_down_sweep.specs.Meaning.{Contents, StandsFor};
    ghost use Rattle.top_down_sweep.specs.Changes.{ShowsAsk, TakesAsk, JoinAsks};
    ghost use Rattle.top_down_sweep.specs.Ordered.{KeepsArcs};

    /// The first ask, which stays.
    pub(crate) fn first_ask<S: Shelf>(
        &mut self,
        shelf: &mut S,
    ) -> Result<Option<SoundAsk>, SortFault>
        requires fit { IsFit S.tells S.world shelf.old self.old }
        ensures does { Does S.tells S.world S.faults 8 0 shelf.old shelf.new self.old self.new result }
        ensures fit { OnOk result (IsFit S.tells S.world shelf.new self.new) }
        ensures holds { IfOk result (λ found. IfSome found (λ a. IsTrue (S.tells shelf.new) →
            (bytes : Option FileBytes) → HoldsSome bytes self.old (S.world shelf.old) →
            HoldsFirst bytes a self.new (S.world shelf.new))) }
        ensures rest { self.new ≡ record self.old { queue = self.new.queue } }
        ensures last { last_of self.new.queue ≡ last_of self.old.queue }
        ensures load { OnOk result (held self.new.queue ≡ held self.old.queue) }
        ensures shown { IfOk result (λ found. IfSome found (IsFirst self.new)) }
        ensures list { IfOk result (λ found. IsTrue (S.tells shelf.new) → (k : Contents) →
            StandsFor self.old (S.world shelf.old) k → ShowsAsk self.new (S.world shelf.new) k found) }
        ensures arcs { OnOk result (IsTrue (S.tells shelf.new) →
            KeepsArcs self.old (S.world shelf.old) self.new (S.world shelf.new)) }
        ensures undamaged { IfErr result (λ e. IsTrue (S.tells shelf.new) →
            (bytes : Option FileBytes) →
            HoldsSome bytes self.old (S.world shelf.old) → IsNoDamage e) }
    {
        self.queue.peek(shelf)
    }

    /// Takes the first ask, which was shown.
    pub(crate) fn take<S: Shelf>(&mut self, ask: &Ask, shelf: &mut S) -> Result<(), SortFault>
        requires asking { IsAsking self.old.place.phase }
        requires shown { shown self.old.queue ≡ Some ask.now }
        requires fit { IsFit S.tells S.world shelf.old self.old }
        ensures does { Does S.tells S.world S.faults 8 0 shelf.old shelf.new self.old self.new result }
        ensures fit { OnOk result (IsFit S.tells S.world shelf.new self.new) }
        ensures holds { OnOk result (IsTrue (S.tells shelf.new) →
            (bytes : Option FileBytes) → KeepsAsks bytes self.old (S.world shelf.old) self.new (S.world shelf.new)) }
        ensures rest { self.new ≡ record self.old { queue = self.new.queue; parts = self.new.parts } }
        ensures load { OnOk result (held self.old.queue ≡ held self.new.queue + 1) }
        ensures last { OnOk result (last_of self.new.queue ≡ Some ask.now) }
        ensures list { OnOk result (IsTrue (S.tells shelf.new) → (k : Contents) →
            StandsFor self.old (S.world shelf.old) k → TakesAsk self.new (S.world shelf.new) k ask.now) }
        ensures arcs { OnOk result (IsTrue (S.tells shelf.new) →
            KeepsArcs self.old (S.world shelf.old) self.new (S.world shelf.new)) }
        ensures undamaged { IfErr result (λ e. IsTrue (S.tells shelf.new) →
            (bytes : Option FileBytes) →
            HoldsSome bytes self.old (S.world shelf.old) → IsNoDamage e) }
    {
        self.queue.take(&mut self.parts, shelf)?;
        Ok(())
    }

    /// Whether that ask was taken last.
    pub(crate) fn took_last(&self, ask: &Ask) -> bool
        ensures yes { result ≡ true → last_of self.now.queue ≡ Some ask.now }
        ensures no { result ≡ false → last_of self.now.queue ≢ Some ask.now }
    {
        match self.queue.last() {
            Some(last) => last.ask() == *ask,
            None => false,
        }
    }

    /// Puts an ask into the queue.
    pub(crate) fn push<S: Shelf>(&mut self, ask: SoundAsk, shelf: &mut S) -> Result<(), SortFault>
        requires order { IsNoLess ask_cmp (last_of self.old.queue) ask }
        requires fit { IsFit S.tells S.world shelf.old self.old }
        ensures does { Does S.tells S.world S.faults 48 3 shelf.old shelf.new self.old self.new result }
        ensures fit { OnOk result (IsFit S.tells S.world shelf.new self.new) }
        ensures holds { OnOk result (IsTrue (S.tells shelf.new) → Fits self.old.operands ask →
            (bytes : Option FileBytes) → KnowsAsk bytes ask →
            KeepsAsks bytes self.old (S.world shelf.old) self.new (S.world shelf.new)) }
        ensures rest { self.new ≡ record self.old { queue = self.new.queue; parts = self.new.parts } }
        ensures load { OnOk result (held self.new.queue ≡ held self.old.queue + 1) }
        ensures last { last_of self.new.queue ≡ last_of self.old.queue }
        ensures list { OnOk result (IsTrue (S.tells shelf.new) → (k : Contents) →
            StandsFor self.old (S.world shelf.old) k → JoinAsks self.new (S.world shelf.new) k (ask ∷ [])) }
        ensures arcs { OnOk result (IsTrue (S.tells shelf.new) →
            KeepsArcs self.old (S.world shelf.old) self.new (S.world shelf.new)) }
        ensures undamaged { IfErr result (λ e. IsTrue (S.tells shelf.new) →
            (bytes : Option FileBytes) →
            HoldsSome bytes self.old (S.world shelf.old) → IsNoDamage e) }
    {
        self.queue.push(ask, &mut self.parts, shelf)
    }
}
