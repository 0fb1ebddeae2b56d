//! The turns of a machine.
ghost use Rattle.std.specs.Prelude.{◌≡◌};

use crate::Operation;
use crate::checkpoint::checkpoint_fault;
use crate::machine::Machine;
use rec_words::{Ptr, Uid};
use shelf_model::{Shelf, SortFault};
use sweep_core::Turn;
use top_down::{Goal, Tuple};
use tuple_asks::{Ask, Asking, Members, NOBODY, Phase, SoundAsk, key_of, level_at};

impl<'r> Machine<'r> {
    ghost use Rattle.std.specs.Prelude.{◌<◌, ◌+◌, Some, None, true, IsTrue, OnOk, IfOk};
    ghost use Rattle.rec_words.specs.Words.{terminal_level};
    ghost use Rattle.top_down.specs.Tuples.{level_of_tuple};
    ghost use Rattle.level_queue.specs.Queues.{shown, last_of};
    ghost use Rattle.tuple_asks.specs.Members.{want};
    ghost use Rattle.sweep_core.specs.Sweeps.{Falls, StaysEnded};
    ghost use Rattle.top_down_sweep.specs.Sweeps.{IsSoundMachine, IsAsking, HasEnded, EndsAt};
    ghost use Rattle.top_down_sweep.specs.Fuel.{unread, weight, machine_fuel};
    ghost use Rattle.std.specs.Prelude.{Option, IfSome};
    ghost use Rattle.top_down.specs.declared.tuple.Tuple.{Tuple};
    ghost use Rattle.top_down.specs.Rules.{Rule};
    ghost use Rattle.tuple_asks.specs.Knowing.{FileBytes, KnowsTuple, StaysKnown};
    ghost use Rattle.top_down_sweep.specs.Waiting.{AreBytesOf, HoldsSome, HoldsFirst};
    ghost use Rattle.tuple_asks.specs.Operands.{HasNoHands};
    ghost use Rattle.top_down_sweep.specs.Calls.{Does, IsFit, IsFirst, KeepsAsks};
    ghost use Rattle.top_down_sweep.specs.Calls.{HoldsAsks, HoldsAskFirst, IsMachineInStep, IsTrustedAt, IsMachineTrusted};
    ghost use Rattle.top_down_sweep.specs.Damage.{IsMachineDamage};
    ghost use Rattle.std.specs.Prelude.{IfErr};
    ghost use Rattle.top_down_sweep.specs.Ordered.{IsOrdered, KeepsArcs};
    ghost use Rattle.sweep_core.specs.Sweeps.{IsNoDamage};
    ghost use Rattle.tuple_asks.specs.declared.place.Asking.{Asking};
    ghost use Rattle.top_down_sweep.specs.Meaning.{Task, StandsFor, first_contents, IsFresh, IsWorking, IsHandling, WorksOn, RemainsOf};
    ghost use Rattle.top_down_sweep.specs.Turns.{HasFewer, Advances, AdvancesAt, TurnsFall};

    /// Handles the first ask, or ends.
    pub(crate) fn turn<O: Operation, S: Shelf>(
        &mut self,
        operation: &O,
        shelf: &mut S,
    ) -> Result<Turn, SortFault>
        requires sound { IsSoundMachine self.old }
        requires in_step { IsTrue (S.tells shelf.old) → IsMachineInStep self.old (S.world shelf.old) }
        ensures does { Does S.tells S.world S.faults 113 6 shelf.old shelf.new self.old self.new result }
        ensures sound { OnOk result (IsSoundMachine self.new) }
        ensures in_step { OnOk result (IsTrue (S.tells shelf.new) → IsMachineInStep self.new (S.world shelf.new)) }
        ensures trusts { OnOk result (IsTrue (S.tells shelf.new) →
            IsMachineTrusted (O.rule operation.now) (O.begins operation.now) self.old (S.world shelf.old) →
            IsMachineTrusted (O.rule operation.now) (O.begins operation.now) self.new (S.world shelf.new)) }
        ensures falls { Falls (machine_fuel self.old) (machine_fuel self.new) result }
        ensures ends { IfOk result (λ turn. EndsAt turn self.new.place.phase) }
        ensures ended { HasEnded self.old.place.phase → StaysEnded shelf.old shelf.new self.old self.new result }
        ensures keeps { OnOk result (IsTrue (S.tells shelf.new) → (t : Task) → t.rule ≡ O.rule operation.now →
            RemainsOf t (O.begins operation.now) self.old (S.world shelf.old) →
            RemainsOf t (O.begins operation.now) self.new (S.world shelf.new)) }
        ensures fewer { IsTrue (S.tells shelf.new) → (t : Task) → t.rule ≡ O.rule operation.now →
            RemainsOf t (O.begins operation.now) self.old (S.world shelf.old) → TurnsFall t self.old.place.phase
            self.old (S.world shelf.old) self.new (S.world shelf.new) result }
        ensures damage { IfErr result (λ e. IsTrue (S.tells shelf.new) →
            IsMachineTrusted (O.rule operation.now) (O.begins operation.now) self.old (S.world shelf.old) →
            IsMachineDamage (O.rule operation.now) (O.begins operation.now) self.new (S.world shelf.new) e) }
        ensures undamaged { IfErr result (λ e. IsTrue (S.tells shelf.new) → (t : Task) →
            RemainsOf t (O.begins operation.now) self.old (S.world shelf.old) → IsNoDamage e) }
    {
        match self.place.phase {
            Phase::Fresh => self.begin(operation, shelf),
            Phase::Asking(asking) => self.go_on(operation, &asking, shelf),
            Phase::Ended(_made) => Ok(Turn::Ended),
        }
    }

    // Asks for the roots' tuple, or ends where it is constant.
    fn begin<O: Operation, S: Shelf>(
        &mut self,
        operation: &O,
        shelf: &mut S,
    ) -> Result<Turn, SortFault>
        requires phase { self.old.place.phase ≡ Phase.Fresh }
        requires fit { IsFit S.tells S.world shelf.old self.old }
        ensures does { Does S.tells S.world S.faults 48 3 shelf.old shelf.new self.old self.new result }
        ensures sound { OnOk result (IsSoundMachine self.new) }
        ensures in_step { OnOk result (IsTrue (S.tells shelf.new) → IsMachineInStep self.new (S.world shelf.new)) }
        ensures trusts { OnOk result (IsTrue (S.tells shelf.new) →
            IsTrustedAt (O.rule operation.now) (O.begins operation.now) Phase.Fresh self.old (S.world shelf.old) →
            IsMachineTrusted (O.rule operation.now) (O.begins operation.now) self.new (S.world shelf.new)) }
        ensures falls { Falls (machine_fuel self.old) (machine_fuel self.new) result }
        ensures ends { IfOk result (λ turn. EndsAt turn self.new.place.phase) }
        ensures keeps { OnOk result (IsTrue (S.tells shelf.new) → (t : Task) → t.rule ≡ O.rule operation.now →
            IsFresh t (O.begins operation.now) self.old (S.world shelf.old) →
            RemainsOf t (O.begins operation.now) self.new (S.world shelf.new)) }
        ensures fewer { IsTrue (S.tells shelf.new) → (t : Task) → t.rule ≡ O.rule operation.now →
            IsFresh t (O.begins operation.now) self.old (S.world shelf.old) → TurnsFall t Phase.Fresh
            self.old (S.world shelf.old) self.new (S.world shelf.new) result }
        ensures undamaged { IfErr result (λ e. IsTrue (S.tells shelf.new) →
            (bytes : Option FileBytes) →
            HoldsSome bytes self.old (S.world shelf.old) → IsNoDamage e) }
    {
        let roots = operation.roots(&self.operands.roots());
        match operation.goal(&roots) {
            Goal::End(value) => self.end(Ptr::terminal(value), shelf),
            Goal::Go(tuple) => {
                self.ask_first(&tuple, shelf)?;
                Ok(Turn::More)
            }
        }
    }

    // Asks for a tuple, which gets the number 0 of its level.
    fn ask_first<S: Shelf>(&mut self, tuple: &Tuple, shelf: &mut S) -> Result<(), SortFault>
        requires node { level_of_tuple tuple.now < terminal_level }
        requires none { last_of self.old.queue ≡ None }
        requires fit { IsFit S.tells S.world shelf.old self.old }
        requires fresh { self.old.place.phase ≡ Phase.Fresh }
        ensures does { Does S.tells S.world S.faults 48 3 shelf.old shelf.new self.old self.new result }
        ensures fit { OnOk result (IsFit S.tells S.world shelf.new self.new) }
        ensures phase { OnOk result (IsAsking self.new.place.phase) }
        ensures holds { OnOk result (IsTrue (S.tells shelf.new) → HasNoHands self.old.operands →
            (bytes : Option FileBytes) → IfSome bytes (λ b. KnowsTuple b tuple.now) →
            KeepsAsks bytes self.old (S.world shelf.old) self.new (S.world shelf.new)) }
        ensures weight { OnOk result (weight self.new ≡ weight self.old + 1) }
        ensures keeps { OnOk result (IsTrue (S.tells shelf.new) → (t : Task) →
            t.rule.goal t.roots ≡ Goal.Go tuple.now →
            StandsFor self.old (S.world shelf.old) (first_contents t) → WorksOn t self.new (S.world shelf.new)
            × HasFewer t Phase.Fresh self.old (S.world shelf.old) self.new.place.phase self.new (S.world shelf.new)) }
        ensures ordered { OnOk result (IsTrue (S.tells shelf.new) →
            IsOrdered self.old (S.world shelf.old) → IsOrdered self.new (S.world shelf.new)) }
        ensures undamaged { IfErr result (λ e. IsTrue (S.tells shelf.new) →
            (bytes : Option FileBytes) →
            HoldsSome bytes self.old (S.world shelf.old) → IsNoDamage e) }
    {
        let Some(key) = key_of(tuple) else {
            unreachable!();
        };
        let Some(root) = Uid::of(Ptr::node(level_at(key), 0)) else {
            unreachable!();
        };
        self.place.phase = Phase::Asking(Asking { root, last: None });
        let ask = Ask {
            key,
            members: Members::of(tuple),
            asker: NOBODY,
        };
        self.push(SoundAsk::new(ask), shelf)
    }

    // Handles the first ask, or ends where there is none.
    fn go_on<O: Operation, S: Shelf>(
        &mut self,
        operation: &O,
        asking: &Asking,
        shelf: &mut S,
    ) -> Result<Turn, SortFault>
        requires phase { self.old.place.phase ≡ Phase.Asking asking.now }
        requires fit { IsFit S.tells S.world shelf.old self.old }
        ensures does { Does S.tells S.world S.faults 113 6 shelf.old shelf.new self.old self.new result }
        ensures sound { OnOk result (IsSoundMachine self.new) }
        ensures in_step { OnOk result (IsTrue (S.tells shelf.new) → IsMachineInStep self.new (S.world shelf.new)) }
        ensures trusts { OnOk result (IsTrue (S.tells shelf.new) →
            IsTrustedAt (O.rule operation.now) (O.begins operation.now) (Phase.Asking asking.now)
            self.old (S.world shelf.old) →
            IsMachineTrusted (O.rule operation.now) (O.begins operation.now) self.new (S.world shelf.new)) }
        ensures falls { Falls (machine_fuel self.old) (machine_fuel self.new) result }
        ensures ends { IfOk result (λ turn. EndsAt turn self.new.place.phase) }
        ensures keeps { OnOk result (IsTrue (S.tells shelf.new) → (t : Task) → t.rule ≡ O.rule operation.now →
            IsWorking t asking.now self.old (S.world shelf.old) →
            RemainsOf t (O.begins operation.now) self.new (S.world shelf.new)) }
        ensures fewer { IsTrue (S.tells shelf.new) → (t : Task) → t.rule ≡ O.rule operation.now →
            IsWorking t asking.now self.old (S.world shelf.old) → TurnsFall t (Phase.Asking asking.now)
            self.old (S.world shelf.old) self.new (S.world shelf.new) result }
        ensures damage { IfErr result (λ e. IsTrue (S.tells shelf.new) →
            HoldsAsks (O.rule operation.now) (O.begins operation.now) self.old (S.world shelf.old) →
            IsMachineDamage (O.rule operation.now) (O.begins operation.now) self.new (S.world shelf.new) e) }
        ensures undamaged { IfErr result (λ e. IsTrue (S.tells shelf.new) → (t : Task) →
            IsWorking t asking.now self.old (S.world shelf.old) → IsNoDamage e) }
    {
        let Some(first) = self.first_ask(shelf)? else {
            return self.end(asking.root.ptr(), shelf);
        };
        self.handle(operation, asking, &first.ask(), shelf)?;
        Ok(Turn::More)
    }

    // Reads a node that the first ask wants, or takes the ask. One that was taken before is taken without effect, and
    // so is one that may not come then.
    fn handle<O: Operation, S: Shelf>(
        &mut self,
        operation: &O,
        asking: &Asking,
        ask: &Ask,
        shelf: &mut S,
    ) -> Result<(), SortFault>
        requires phase { self.old.place.phase ≡ Phase.Asking asking.now }
        requires shown { IsFirst self.old ask.now }
        requires fit { IsFit S.tells S.world shelf.old self.old }
        ensures does { Does S.tells S.world S.faults 105 6 shelf.old shelf.new self.old self.new result }
        ensures fit { OnOk result (IsFit S.tells S.world shelf.new self.new) }
        ensures phase { OnOk result (IsAsking self.new.place.phase) }
        ensures holds { OnOk result (IsTrue (S.tells shelf.new) →
            (bytes : Option FileBytes) →
            IfSome bytes (StaysKnown (O.rule operation.now) (O.begins operation.now)) →
            AreBytesOf bytes self.old (S.world shelf.old) →
            HoldsFirst bytes ask.now self.old (S.world shelf.old) → HoldsSome bytes self.new (S.world shelf.new)) }
        ensures falls { OnOk result (weight self.new < weight self.old) }
        ensures keeps { OnOk result (IsTrue (S.tells shelf.new) → (t : Task) → t.rule ≡ O.rule operation.now →
            IsHandling t asking.now ask.now self.old (S.world shelf.old) →
            Advances t asking.now self.old (S.world shelf.old) self.new (S.world shelf.new)) }
        ensures ordered { OnOk result (IsTrue (S.tells shelf.new) →
            IsOrdered self.old (S.world shelf.old) → IsOrdered self.new (S.world shelf.new)) }
        ensures damage { IfErr result (λ e. IsTrue (S.tells shelf.new) →
            HoldsAskFirst (O.rule operation.now) (O.begins operation.now) ask.now self.old (S.world shelf.old) →
            IsMachineDamage (O.rule operation.now) (O.begins operation.now) self.new (S.world shelf.new) e) }
        ensures undamaged { IfErr result (λ e. IsTrue (S.tells shelf.new) → (t : Task) →
            IsHandling t asking.now ask.now self.old (S.world shelf.old) → IsNoDamage e) }
    {
        if self.took_last(ask) {
            return self.take(ask, shelf);
        }
        if !asking.is_due(ask) {
            return self.take(ask, shelf);
        }
        if self.operands.want(ask) {
            return self.read_wanted(ask, shelf);
        }
        let members = self.operands.filled(ask);
        match members.next_key(level_at(ask.key)) {
            Some(key) => self.ask_again(ask, members, key, shelf),
            None => self.answer(operation, asking, ask, &members, shelf),
        }
    }

    // Reads the next node of an operand that the ask wants. Where one was read past it, as only a checkpoint may say
    // that stands for no sweep, the next node would be none that is missed.
    fn read_wanted<S: Shelf>(&mut self, ask: &Ask, shelf: &mut S) -> Result<(), SortFault>
        requires wanted { want self.old.operands ask.now ≡ true }
        requires shown { shown self.old.queue ≡ Some ask.now }
        requires fit { IsFit S.tells S.world shelf.old self.old }
        ensures does { Does S.tells S.world S.faults 1 0 shelf.old shelf.new self.old self.new result }
        ensures fit { OnOk result (IsFit S.tells S.world shelf.new self.new) }
        ensures rest { self.new ≡ record self.old { operands = self.new.operands } }
        ensures holds { OnOk result (IsTrue (S.tells shelf.new) →
            (bytes : Option FileBytes) →
            AreBytesOf bytes self.old (S.world shelf.old) →
            HoldsFirst bytes ask.now self.old (S.world shelf.old) → HoldsSome bytes self.new (S.world shelf.new)) }
        ensures falls { OnOk result (unread self.new.operands < unread self.old.operands) }
        ensures keeps { OnOk result (IsTrue (S.tells shelf.new) → (t : Task) → (s : Asking) →
            IsHandling t s ask.now self.old (S.world shelf.old) →
            AdvancesAt t s self.old (S.world shelf.old) self.new (S.world shelf.new)) }
        ensures arcs { OnOk result (IsTrue (S.tells shelf.new) →
            KeepsArcs self.old (S.world shelf.old) self.new (S.world shelf.new)) }
        ensures damage { IfErr result (λ e. IsTrue (S.tells shelf.new) →
            (rule : Rule) → (begins : Tuple → Tuple) → HoldsAskFirst rule begins ask.now self.old (S.world shelf.old) →
            IsMachineDamage rule begins self.new (S.world shelf.new) e) }
        ensures undamaged { IfErr result (λ e. IsTrue (S.tells shelf.new) → (t : Task) → (s : Asking) →
            IsHandling t s ask.now self.old (S.world shelf.old) → IsNoDamage e) }
    {
        if !self.operands.fits(ask) {
            return Err(checkpoint_fault(self.parts.step, shelf));
        }
        if self.operands.first.wants(&ask.members.first, ask.key) {
            return self.operands.first.read(ask.key, shelf);
        }
        if self.operands.second.wants(&ask.members.second, ask.key) {
            return self.operands.second.read(ask.key, shelf);
        }
        self.operands.third.read(ask.key, shelf)
    }
}
