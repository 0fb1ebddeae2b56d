//! The answering of an ask.
ghost use Rattle.std.specs.Prelude.{◌≡◌, ◌<◌, ◌≤◌};
ghost use Rattle.rec_words.specs.Words.{level_of};

use crate::Operation;
use crate::machine::Machine;
use arc_file::Arc;
use rec_words::{Ptr, Uid};
use shelf_model::{Shelf, SortFault};
use top_down::{Goal, Tuple};
use tuple_asks::{Ask, Asking, Members, Phase, SoundAsk, Source, key_of, level_at};

impl<'r> Machine<'r> {
    ghost use Rattle.std.specs.Prelude.{◌+◌, Some, OnOk, IfOk, IsTrue, true, false, cond};
    ghost use Rattle.rec_words.specs.Words.{terminal_level};
    ghost use Rattle.arc_file.specs.Writers.{inner_count, HoldsArcs};
    ghost use Rattle.level_queue.specs.Queues.{shown, last_of, held};
    ghost use Rattle.top_down.specs.Tuples.{level_of_tuple};
    ghost use Rattle.tuple_asks.specs.Members.{IsResolved};
    ghost use Rattle.tuple_asks.specs.Soundness.{is_due, is_sound, is_asker, next_numbered, identifier};
    ghost use Rattle.top_down_sweep.specs.Sweeps.{IsTakenTo, IsAsking};
    ghost use Rattle.std.specs.Prelude.{Option, IfSome};
    ghost use Rattle.tuple_asks.specs.Knowing.{FileBytes, KnowsTuple, KnowsMembers, StaysKnown};
    ghost use Rattle.tuple_asks.specs.Operands.{AreReadTo};
    ghost use Rattle.top_down_sweep.specs.Waiting.{HoldsSome, HoldsFirst};
    ghost use Rattle.top_down_sweep.specs.Calls.{Does, IsFit, IsFirst, KeepsAsks};
    ghost use Rattle.std.specs.Prelude.{IfErr, ◌++◌, [], ◌∷◌, ◌^◌, List};
    ghost use Rattle.arc_file.specs.declared.arc.Arc.{Arc};
    ghost use Rattle.top_down.specs.Asks.{side_arcs};
    ghost use Rattle.top_down_sweep.specs.Ordered.{IsOrdered, KeepsArcs};
    ghost use Rattle.sweep_core.specs.Sweeps.{IsNoDamage};
    ghost use Rattle.top_down_laws.specs.Remains.{answer_arcs};
    ghost use Rattle.top_down_laws.specs.Forms.{least};
    ghost use Rattle.tuple_asks.specs.Members.{want, all_filled, all_waiting};
    ghost use Rattle.top_down_sweep.specs.Meaning.{Task, Contents, StandsFor, IsHandling};
    ghost use Rattle.top_down_sweep.specs.Turns.{Advances};
    ghost use Rattle.tuple_asks.specs.Soundness.{asker_word};
    ghost use Rattle.top_down_sweep.specs.Changes.{AsksInstead, JoinAsks, ServesSide, ask_for, goal_below};

    /// Takes an ask, and asks again with the members that were read, for the next node.
    pub(crate) fn ask_again<S: Shelf>(
        &mut self,
        ask: &Ask,
        members: Members,
        key: Uid,
        shelf: &mut S,
    ) -> Result<(), SortFault>
        requires asking { IsAsking self.old.place.phase }
        requires shown { shown self.old.queue ≡ Some ask.now }
        requires later { ask.now.key < key }
        requires sound { is_sound (record { key = key; members = members; asker = ask.now.asker }) ≡ true }
        requires fit { IsFit S.tells S.world shelf.old self.old }
        ensures does { Does S.tells S.world S.faults 56 3 shelf.old shelf.new self.old self.new result }
        ensures fit { OnOk result (IsFit S.tells S.world shelf.new self.new) }
        ensures rest { self.new ≡ record self.old { queue = self.new.queue; parts = self.new.parts } }
        ensures holds { OnOk result (IsTrue (S.tells shelf.new) →
            (bytes : Option FileBytes) →
            IfSome bytes (λ b. KnowsMembers b members) →
            HoldsFirst bytes ask.now self.old (S.world shelf.old) → HoldsSome bytes self.new (S.world shelf.new)) }
        ensures load { OnOk result (held self.new.queue ≡ held self.old.queue) }
        ensures last { OnOk result (last_of self.new.queue ≡ Some ask.now) }
        ensures list { OnOk result (IsTrue (S.tells shelf.new) → (k : Contents) →
            StandsFor self.old (S.world shelf.old) k → AsksInstead self.new (S.world shelf.new) k ask.now
            (record { key = key; members = members; asker = ask.now.asker })) }
        ensures arcs { OnOk result (IsTrue (S.tells shelf.new) →
            KeepsArcs self.old (S.world shelf.old) self.new (S.world shelf.new)) }
        ensures undamaged { IfErr result (λ e. IsTrue (S.tells shelf.new) →
            (bytes : Option FileBytes) →
            HoldsFirst bytes ask.now self.old (S.world shelf.old) → IsNoDamage e) }
    {
        self.take(ask, shelf)?;
        let again = Ask {
            key,
            members,
            asker: ask.asker,
        };
        self.push(SoundAsk::new(again), shelf)
    }

    /// Takes an ask whose members were all read: the tuple that was numbered last answers it, or the next one.
    pub(crate) fn answer<O: Operation, S: Shelf>(
        &mut self,
        operation: &O,
        asking: &Asking,
        ask: &Ask,
        members: &Members,
        shelf: &mut S,
    ) -> Result<(), SortFault>
        requires phase { self.old.place.phase ≡ Phase.Asking asking.now }
        requires shown { IsFirst self.old ask.now }
        requires due { is_due asking.now.last ask.now ≡ true }
        requires resolved { IsResolved (level_of ask.now.key) members.now }
        requires fit { IsFit S.tells S.world shelf.old self.old }
        ensures does { Does S.tells S.world S.faults 105 6 shelf.old shelf.new self.old self.new result }
        ensures fit { OnOk result (IsFit S.tells S.world shelf.new self.new) }
        ensures holds { OnOk result (IsTrue (S.tells shelf.new) →
            (bytes : Option FileBytes) →
            IfSome bytes (StaysKnown (O.rule operation.now) (O.begins operation.now)) →
            IfSome bytes (λ b. KnowsMembers b members.now) →
            HoldsFirst bytes ask.now self.old (S.world shelf.old) → HoldsSome bytes self.new (S.world shelf.new)) }
        ensures phase { OnOk result (IsAsking self.new.place.phase) }
        ensures operands { self.new.operands ≡ self.old.operands }
        ensures load { OnOk result (held self.new.queue ≤ held self.old.queue + 1) }
        ensures last { OnOk result (last_of self.new.queue ≡ Some ask.now) }
        ensures keeps { OnOk result (IsTrue (S.tells shelf.new) → (t : Task) → t.rule ≡ O.rule operation.now →
            want self.old.operands ask.now ≡ false → members.now ≡ all_filled self.old.operands ask.now →
            (least (all_waiting (level_of ask.now.key) members.now) < 2 ^ 63 → ⊥) →
            IsHandling t asking.now ask.now self.old (S.world shelf.old) →
            Advances t asking.now self.old (S.world shelf.old) self.new (S.world shelf.new)) }
        ensures ordered { OnOk result (IsTrue (S.tells shelf.new) →
            IsOrdered self.old (S.world shelf.old) → IsOrdered self.new (S.world shelf.new)) }
        ensures undamaged { IfErr result (λ e. IsTrue (S.tells shelf.new) →
            (bytes : Option FileBytes) →
            HoldsFirst bytes ask.now self.old (S.world shelf.old) → IsNoDamage e) }
    {
        self.take(ask, shelf)?;
        if let Some(known) = asking.known(ask) {
            return self.put_inner(ask, known, shelf);
        }
        let uid = self.number(asking, ask, shelf)?;
        self.ask_side(operation, uid, false, members, shelf)?;
        self.ask_side(operation, uid, true, members, shelf)
    }

    // Gives the next number to the ask's tuple, which answers it.
    fn number<S: Shelf>(
        &mut self,
        asking: &Asking,
        ask: &Ask,
        shelf: &mut S,
    ) -> Result<Uid, SortFault>
        requires phase { self.old.place.phase ≡ Phase.Asking asking.now }
        requires due { is_due asking.now.last ask.now ≡ true }
        requires fit { IsFit S.tells S.world shelf.old self.old }
        ensures does { Does S.tells S.world S.faults 1 0 shelf.old shelf.new self.old self.new result }
        ensures fit { OnOk result (IsFit S.tells S.world shelf.new self.new) }
        ensures rest { self.new ≡ record self.old {
          place = record self.old.place { phase = self.new.place.phase };
          writer = self.new.writer;
        } }
        ensures phase { OnOk result (IsAsking self.new.place.phase) }
        ensures holds { OnOk result (IsTrue (S.tells shelf.new) →
            (bytes : Option FileBytes) → KeepsAsks bytes self.old (S.world shelf.old) self.new (S.world shelf.new)) }
        ensures number { IfOk result (λ uid. uid ≡ identifier (next_numbered asking.now ask.now)) }
        ensures level { IfOk result (λ uid. level_of uid ≡ level_of ask.now.key) }
        ensures placed { OnOk result (self.new.place.phase
            ≡ Phase.Asking (record { root = asking.now.root; last = Some (next_numbered asking.now ask.now) })) }
        ensures written { OnOk result (IsTrue (S.tells shelf.new) → (k : Contents) →
            StandsFor self.old (S.world shelf.old) k → StandsFor self.new (S.world shelf.new) (record k {
              inner =
                  k.inner ++ answer_arcs ask.now.asker (identifier (next_numbered asking.now ask.now));
            })) }
        ensures arcs { OnOk result (IsTrue (S.tells shelf.new) → (xs ys : List Arc) →
            HoldsArcs self.old.writer (S.world shelf.old) xs ys → HoldsArcs self.new.writer (S.world shelf.new)
            (xs ++ answer_arcs ask.now.asker (identifier (next_numbered asking.now ask.now))) ys) }
        ensures undamaged { IfErr result IsNoDamage }
    {
        let next = asking.next(ask);
        let uid = next.uid();
        self.put_inner(ask, uid, shelf)?;
        self.place.phase = Phase::Asking(Asking {
            root: asking.root,
            last: Some(next),
        });
        Ok(uid)
    }

    // Puts the arc from an ask's source, where it has one.
    fn put_inner<S: Shelf>(
        &mut self,
        ask: &Ask,
        target: Uid,
        shelf: &mut S,
    ) -> Result<(), SortFault>
        requires fit { IsFit S.tells S.world shelf.old self.old }
        ensures does { Does S.tells S.world S.faults 1 0 shelf.old shelf.new self.old self.new result }
        ensures fit { OnOk result (IsFit S.tells S.world shelf.new self.new) }
        ensures holds { OnOk result (IsTrue (S.tells shelf.new) →
            (bytes : Option FileBytes) → KeepsAsks bytes self.old (S.world shelf.old) self.new (S.world shelf.new)) }
        ensures rest { self.new ≡ record self.old { writer = self.new.writer } }
        ensures count { OnOk result (inner_count self.new.writer
            ≡ inner_count self.old.writer + cond (is_asker ask.now.asker) 1 0) }
        ensures written { OnOk result (IsTrue (S.tells shelf.new) → (k : Contents) →
            StandsFor self.old (S.world shelf.old) k → StandsFor self.new (S.world shelf.new)
            (record k { inner = k.inner ++ answer_arcs ask.now.asker target })) }
        ensures arcs { OnOk result (IsTrue (S.tells shelf.new) → (xs ys : List Arc) →
            HoldsArcs self.old.writer (S.world shelf.old) xs ys → HoldsArcs self.new.writer (S.world shelf.new)
            (xs ++ answer_arcs ask.now.asker target) ys) }
        ensures undamaged { IfErr result IsNoDamage }
    {
        let Some(source) = Source::of_word(ask.asker) else {
            return Ok(());
        };
        let arc = Arc {
            source: source.uid,
            high: source.high,
            target: target.ptr(),
        };
        self.put(arc, shelf)
    }

    // Puts the arc of a side that is constant, or asks for its tuple.
    fn ask_side<O: Operation, S: Shelf>(
        &mut self,
        operation: &O,
        uid: Uid,
        high: bool,
        members: &Members,
        shelf: &mut S,
    ) -> Result<(), SortFault>
        requires resolved { IsResolved (level_of uid) members.now }
        requires taken { IsTakenTo (level_of uid) (last_of self.old.queue) }
        requires fit { IsFit S.tells S.world shelf.old self.old }
        ensures does { Does S.tells S.world S.faults 48 3 shelf.old shelf.new self.old self.new result }
        ensures fit { OnOk result (IsFit S.tells S.world shelf.new self.new) }
        ensures holds { OnOk result (IsTrue (S.tells shelf.new) → AreReadTo (level_of uid) self.old.operands →
            (bytes : Option FileBytes) →
            IfSome bytes (StaysKnown (O.rule operation.now) (O.begins operation.now)) →
            IfSome bytes (λ b. KnowsMembers b members.now) →
            KeepsAsks bytes self.old (S.world shelf.old) self.new (S.world shelf.new)) }
        ensures place { self.new.place ≡ record self.old.place { has_one = self.new.place.has_one } }
        ensures operands { self.new.operands ≡ self.old.operands }
        ensures load { OnOk result (held self.new.queue ≤ held self.old.queue + 1) }
        ensures last { last_of self.new.queue ≡ last_of self.old.queue }
        ensures served { OnOk result (IsTrue (S.tells shelf.new) → (k : Contents) →
            StandsFor self.old (S.world shelf.old) k → ServesSide self.new (S.world shelf.new) k uid high
            (goal_below (O.rule operation.now) (level_of uid) high members.now)) }
        ensures arcs { OnOk result (IsTrue (S.tells shelf.new) → (xs ys : List Arc) →
            HoldsArcs self.old.writer (S.world shelf.old) xs ys → HoldsArcs self.new.writer (S.world shelf.new)
            xs (ys ++ side_arcs uid high
            (goal_below (O.rule operation.now) (level_of uid) high members.now))) }
        ensures undamaged { IfErr result (λ e. IsTrue (S.tells shelf.new) →
            (bytes : Option FileBytes) →
            HoldsSome bytes self.old (S.world shelf.old) → IsNoDamage e) }
    {
        let lows = members.on_side(false);
        let highs = members.on_side(true);
        let below = operation.below(level_at(uid), high, &lows, &highs);
        match operation.goal(&below) {
            Goal::End(value) => {
                let arc = Arc {
                    source: uid,
                    high,
                    target: Ptr::terminal(value),
                };
                self.put(arc, shelf)
            }
            Goal::Go(tuple) => self.ask_for(&tuple, Source { uid, high }, shelf),
        }
    }

    // Asks for a tuple on a side of a node.
    fn ask_for<S: Shelf>(
        &mut self,
        tuple: &Tuple,
        source: Source,
        shelf: &mut S,
    ) -> Result<(), SortFault>
        requires node { level_of_tuple tuple.now < terminal_level }
        requires deeper { level_of source.uid < level_of_tuple tuple.now }
        requires taken { IsTakenTo (level_of source.uid) (last_of self.old.queue) }
        requires fit { IsFit S.tells S.world shelf.old self.old }
        ensures does { Does S.tells S.world S.faults 48 3 shelf.old shelf.new self.old self.new result }
        ensures fit { OnOk result (IsFit S.tells S.world shelf.new self.new) }
        ensures rest { self.new ≡ record self.old { queue = self.new.queue; parts = self.new.parts } }
        ensures holds { OnOk result (IsTrue (S.tells shelf.new) →
            AreReadTo (level_of source.uid) self.old.operands →
            (bytes : Option FileBytes) → IfSome bytes (λ b. KnowsTuple b tuple.now) →
            KeepsAsks bytes self.old (S.world shelf.old) self.new (S.world shelf.new)) }
        ensures load { OnOk result (held self.new.queue ≡ held self.old.queue + 1) }
        ensures last { last_of self.new.queue ≡ last_of self.old.queue }
        ensures list { OnOk result (IsTrue (S.tells shelf.new) → (k : Contents) →
            StandsFor self.old (S.world shelf.old) k → JoinAsks self.new (S.world shelf.new) k
            (ask_for tuple.now (asker_word source) ∷ [])) }
        ensures arcs { OnOk result (IsTrue (S.tells shelf.new) →
            KeepsArcs self.old (S.world shelf.old) self.new (S.world shelf.new)) }
        ensures undamaged { IfErr result (λ e. IsTrue (S.tells shelf.new) →
            (bytes : Option FileBytes) →
            HoldsSome bytes self.old (S.world shelf.old) → IsNoDamage e) }
    {
        let Some(key) = key_of(tuple) else {
            unreachable!();
        };
        let ask = Ask {
            key,
            members: Members::of(tuple),
            asker: source.word(),
        };
        self.push(SoundAsk::new(ask), shelf)
    }
}
