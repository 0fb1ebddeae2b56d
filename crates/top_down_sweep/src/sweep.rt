//! A sweep from the root down, as it stands between two turns.
use crate::Operation;
use crate::machine::Machine;
use arc_file::Unreduced;
use rec_words::{Ptr, Rec};
use run_merge::Parts;
use saved_words::{value_of, words_of};
use shelf_model::{Shelf, SortFault};
use sweep_core::{Checkpoint, Sweep, Turn, fill_with_runs};
use tuple_asks::{Phase, SavedMachine};

/// An operation on diagrams, level by level from the root down. It makes the arcs of a diagram that isn't reduced.
///
/// After a refusal it isn't used again.
#[derive(Drop)]
pub struct TopDownSweep<'r, O> {
    pub(crate) operation: O,
    pub(crate) machine: Machine<'r>,
}

impl<'r, O> TopDownSweep<'r, O> {
    ghost use Rattle.std.specs.Prelude.{◌≡◌};
    ghost use Rattle.top_down_sweep.specs.Sweeps.{made_in, parts_of};

    /// The arcs that it made, once it has ended.
    pub fn made(&self) -> Option<Unreduced>
        ensures { result ≡ made_in self.now }
    {
        match self.machine.place.phase {
            Phase::Ended(made) => Some(made),
            _ => None,
        }
    }

    /// The part numbers that weren't taken.
    pub fn parts(&self) -> Parts
        ensures { result ≡ parts_of self.now }
    {
        self.machine.parts
    }
}

impl<'r, O: Operation> TopDownSweep<'r, O> {
    ghost use Rattle.std.specs.Prelude.{◌≡◌, true, false, IsTrue, IsSome, OnOk, IfOk, IfErr, IfSome};
    ghost use Rattle.shelf_model.specs.declared.file_no.FileNo.{FileNo};
    ghost use Rattle.shelf_model.specs.World.{World, file};
    ghost use Rattle.canon_file.specs.Members.{Has};
    ghost use Rattle.sweep_core.specs.Accounts.{Leaves};
    ghost use Rattle.sweep_core.specs.Sweeps.{Falls, AtEnd, IsFirm, StaysEnded};
    ghost use Rattle.top_down_sweep.specs.Sweeps.{files_of, task_of, made_in, accounts, meets_one, IsMade, HasMade, IsSound, MakesAtEnd, Refused};
    ghost use Rattle.top_down_sweep.specs.Fuel.{fuel_of};
    ghost use Rattle.top_down_sweep.specs.Damage.{IsDamage};
    ghost use Rattle.top_down_sweep.specs.Calls.{IsInStep, IsTrusted};
    ghost use Rattle.top_down_sweep.specs.Ordered.{AreOrdered};
    ghost use Rattle.sweep_core.specs.Sweeps.{IsNoDamage};
    ghost use Rattle.sweep_core.specs.Sweeps.{MovesOn};
    ghost use Rattle.top_down_sweep.specs.Meaning.{Task, Remains, IsMadeWhere, table_of};
    ghost use Rattle.top_down_sweep.specs.Turns.{Work, left_of};

    /// Whether the truth value 1 was met: an arc that was put leads to it or, once all is made, it is the root. The
    /// table that is made has a 1 then, and once all is made only then.
    pub fn meets_one(&self) -> bool
        ensures is { result ≡ meets_one self.now }
        ensures value { result ≡ true → (world : World) → (t : Task) →
            Remains O.rule O.begins self.now world t → Has true (table_of t) }
        ensures none { result ≡ false → IsSome (made_in self.now) → (world : World) → (t : Task) →
            Remains O.rule O.begins self.now world t → Has true (table_of t) → ⊥ }
    {
        self.machine.place.has_one
            || match self.machine.place.phase {
                Phase::Ended(made) => made.root == Ptr::terminal(true),
                _ => false,
            }
    }

    /// Ends, whether all is made or not. Where it wasn't, the arcs that were put stand in their files, and are no
    /// diagram.
    pub fn end_early<S: Shelf>(&mut self, shelf: &mut S) -> Result<(), SortFault>
        requires ready { IsSound self.old }
        requires in_step { IsTrue (S.tells shelf.old) → IsInStep self.old (S.world shelf.old) }
        ensures ready { OnOk result (IsSound self.new) }
        ensures in_step { OnOk result (IsTrue (S.tells shelf.new) → IsInStep self.new (S.world shelf.new)) }
        ensures trusts { OnOk result (IsTrue (S.tells shelf.new) →
            IsTrusted O.rule O.begins self.old (S.world shelf.old) →
            IsTrusted O.rule O.begins self.new (S.world shelf.new)) }
        ensures files { files_of self.new ≡ files_of self.old }
        ensures same { task_of self.new ≡ task_of self.old }
        ensures operation { self.new.operation ≡ self.old.operation }
        ensures made { OnOk result (IsSome (made_in self.new)) }
        ensures fuel { OnOk result (fuel_of self.new ≡ 0) }
        ensures firm { OnOk result (IsTrue (S.tells shelf.new) → (f : FileNo) → IsMade (files_of self.new) f →
            IsFirm (file (S.world shelf.new) f)) }
        ensures ordered { OnOk result (IsTrue (S.tells shelf.new) →
            IsTrusted O.rule O.begins self.old (S.world shelf.old) → IfSome (made_in self.new) (λ made. AreOrdered made (S.world shelf.new))) }
        ensures leaves { Leaves S.tells S.world S.faults
            (accounts O) 4 0 shelf.old shelf.new self.old self.new result }
        ensures refused { IfErr result (Refused self.new) }
        ensures undamaged { IfErr result IsNoDamage }
    {
        match self.machine.place.phase {
            Phase::Ended(_made) => Ok(()),
            _ => {
                self.machine.end(Ptr::terminal(true), shelf)?;
                Ok(())
            }
        }
    }

    /// Handles one ask or reads one node, or ends the sweep. Once it has ended, each further turn answers so and does
    /// nothing.
    pub fn turn<S: Shelf>(&mut self, shelf: &mut S) -> Result<Turn, SortFault>
        requires ready { IsSound self.old }
        requires in_step { IsTrue (S.tells shelf.old) → IsInStep self.old (S.world shelf.old) }
        ensures ready { OnOk result (IsSound self.new) }
        ensures in_step { OnOk result (IsTrue (S.tells shelf.new) → IsInStep self.new (S.world shelf.new)) }
        ensures trusts { OnOk result (IsTrue (S.tells shelf.new) →
            IsTrusted O.rule O.begins self.old (S.world shelf.old) →
            IsTrusted O.rule O.begins self.new (S.world shelf.new)) }
        ensures files { files_of self.new ≡ files_of self.old }
        ensures same { task_of self.new ≡ task_of self.old }
        ensures operation { self.new.operation ≡ self.old.operation }
        ensures ends { IfOk result (λ turn. MakesAtEnd turn (made_in self.new)) }
        ensures made { OnOk result (IfSome (made_in self.new)
            (HasMade (files_of self.new).inner (files_of self.new).ends)) }
        ensures falls { Falls (fuel_of self.old) (fuel_of self.new) result }
        ensures ended { IsSome (made_in self.old) → StaysEnded shelf.old shelf.new self.old self.new result }
        ensures firm { AtEnd result (IsTrue (S.tells shelf.new) → (f : FileNo) → IsMade (files_of self.new) f →
            IsFirm (file (S.world shelf.new) f)) }
        ensures ordered { OnOk result (IsTrue (S.tells shelf.new) →
            IsTrusted O.rule O.begins self.old (S.world shelf.old) → IfSome (made_in self.new) (λ made. AreOrdered made (S.world shelf.new))) }

        // what the call leaves, and what it costs
        ensures leaves { Leaves S.tells S.world S.faults
            (accounts O) 113 6 shelf.old shelf.new self.old self.new result }
        ensures refused { IfErr result (Refused self.new) }
        ensures damage { IfErr result (λ e. IsTrue (S.tells shelf.new) →
            IsTrusted O.rule O.begins self.old (S.world shelf.old) →
            IsDamage O.rule O.begins self.new (S.world shelf.new) e) }

        // what remains of a task: once all is done, the two files are a diagram of its table
        ensures keeps { OnOk result (IsTrue (S.tells shelf.new) → (t : Task) →
            Remains O.rule O.begins self.old (S.world shelf.old) t →
            Remains O.rule O.begins self.new (S.world shelf.new) t) }
        ensures whole { OnOk result (IsTrue (S.tells shelf.new) → (t : Task) →
            Remains O.rule O.begins self.old (S.world shelf.old) t →
            IsMadeWhere t (S.world shelf.new) (made_in self.new)) }
        ensures undamaged { IfErr result (λ e. IsTrue (S.tells shelf.new) → (t : Task) →
            Remains O.rule O.begins self.old (S.world shelf.old) t → IsNoDamage e) }
        ensures fewer { IsTrue (S.tells shelf.new) → (w : Work) →
            Remains O.rule O.begins self.old (S.world shelf.old) w.task → MovesOn 1
            (left_of self.old (S.world shelf.old) w) (left_of self.new (S.world shelf.new) w) result }
    {
        self.machine.turn(&self.operation, shelf)
    }
}

impl<'r, O: Operation> Sweep<'r> for TopDownSweep<'r, O> {
    ghost use Rattle.top_down_sweep.specs.Trusting.{sweep_trusted};
    ghost use Rattle.top_down_sweep.specs.Resumes.{top_saving, Blames};
    ghost use Rattle.top_down_sweep.specs.ResumeLaws.{stays, apart};
    ghost use Rattle.top_down_sweep.specs.Meaning.{Remains};
    ghost use Rattle.top_down_sweep.specs.Turns.{Work, left_of};
    ghost use Rattle.top_down_sweep.specs.Sweeps.{SweepTask, whole_task, accounts, IsSound};
    ghost use Rattle.top_down_sweep.specs.Fuel.{fuel_of};
    ghost use Rattle.top_down_sweep.specs.Damage.{IsDamage};
    ghost use Rattle.top_down_sweep.specs.Calls.{IsInStep, IsTrusted};

    ghost Job = { Work };

    ghost remains = { λ s world w. Remains O.rule O.begins s world w.task };

    ghost fuel = { fuel_of };

    ghost left = { left_of };

    ghost accounts = { accounts O };

    ghost damaged = { IsDamage O.rule O.begins };

    ghost blames = { Blames O.Carried };

    ghost Task = { SweepTask × O };

    ghost task = { whole_task };

    ghost saving = { top_saving O.Carried O.rule O.begins };

    ghost ready = { IsSound };

    ghost in_step = { IsInStep };

    ghost trusts = { IsTrusted O.rule O.begins };

    ghost trusted = { λ s world w remains. sweep_trusted O.rule O.begins s world w.task remains };

    fn turn<S: Shelf>(&mut self, shelf: &mut S) -> Result<Turn, SortFault> {
        TopDownSweep::turn(self, shelf)
    }

    fn carry<S: Shelf>(&mut self, shelf: &mut S, into: &mut Checkpoint) -> Result<(), SortFault> {
        let frozen = self.machine.freeze(shelf)?;
        let saved = self.machine.saved(&frozen.made);
        let words = words_of((saved, self.operation));
        fill_with_runs(into, self.machine.parts.next, words, &frozen.tables);
        Ok(())
    }

    fn rebuild<S: Shelf>(
        from: &Checkpoint,
        text: &'r [u8],
        room: &'r mut [Rec],
        shelf: &mut S,
    ) -> Result<TopDownSweep<'r, O>, SortFault> {
        let Some((saved, operation)) = value_of::<(SavedMachine, O)>(&from.carry) else {
            unreachable!();
        };
        let machine = Machine::rebuild(&saved, from, room, shelf)?;
        Ok(TopDownSweep { operation, machine })
    }

    ghost stays = { stays O.Carried.own O.rule O.begins };

    ghost apart = { apart O.Carried.own };
}
