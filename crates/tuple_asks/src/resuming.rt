//! Operands that are read on from where a checkpoint says, and where a sweep stands by it.
ghost use Rattle.std.specs.Prelude.{◌≡◌, ◌≢◌, ◌+◌, ◌*◌, ◌<◌, ◌≤◌, ℕ, List, IsTrue, IfOk, IfErr, IfSome, length};
ghost use Rattle.rec_words.specs.declared.node.Node.{Node};
ghost use Rattle.rec_words.specs.Words.{node_size};
ghost use Rattle.shelf_model.specs.Calls.{Told, longest};
ghost use Rattle.shelf_model.specs.Moments.{Ran, Stays};
ghost use Rattle.shelf_model.specs.World.{now};
ghost use Rattle.node_file.specs.Nodes.{HasNodes};
ghost use Rattle.run_tiers.specs.Faults.{OnlySortShelf};
ghost use Rattle.sweep_core.specs.Saving.{reads_of};
ghost use Rattle.sweep_core.specs.Sweeps.{IsNoDamage};
ghost use Rattle.top_down.specs.declared.tuple.Tuple.{Tuple};
ghost use Rattle.top_down_laws.specs.Readings.{Diagrams};
ghost use Rattle.tuple_asks.specs.Operands.{IsOperand, AreOperands, HaveFiles};
ghost use Rattle.tuple_asks.specs.Readings.{HaveNodes};
ghost use Rattle.tuple_asks.specs.Resuming.{saved_place, saved_files, IsReadAs, AreReadAs, reading_at, readings_at};
ghost use Rattle.tuple_asks.specs.Resuming.{IsAmong, AreAmong, arcs_of, IsOperandFault, IsCause, operand_calls};

use crate::operand::{Operand, Operands};
use crate::place::{Phase, Place};
use crate::saved::{SavedArcs, SavedMachine, SavedOperand};
use crate::starting::READING;
use arc_file::Unreduced;
use node_reading::{Unread, next_node, resume_at};
use rec_words::{Ptr, Rec};
use shelf_model::{FileNo, Shelf, SortFault};

impl SavedOperand {
    // Begins where the operand was read, with the node at hand, which its file gives again.
    fn resume<'r, S: Shelf>(
        &self,
        n: u32,
        step: u32,
        window: &'r mut [Rec],
        shelf: &mut S,
    ) -> Result<Operand<'r>, SortFault>
        requires enough { 8 ≤ length window.old }
        requires few { IfSome self.now.read (λ place. place * node_size ≤ longest) }
        ensures is { IfOk result (IsOperand n) }
        ensures file { IfOk result (λ o. o.file ≡ self.now.file) }
        ensures nodes { IfOk result (λ o. IsTrue (S.tells shelf.new) → (root : ℕ) (nodes : List Node) →
            HasNodes n root nodes (reads_of (S.world shelf.old) self.now.file) → IsAmong nodes self.now.read →
            IsReadAs o (S.world shelf.new) root (reading_at nodes self.now.read)) }
        ensures undamaged { IfErr result (λ e. IsTrue (S.tells shelf.new) → (root : ℕ) (nodes : List Node) →
            HasNodes n root nodes (reads_of (S.world shelf.old) self.now.file) → IsAmong nodes self.now.read →
            IsNoDamage e) }
        ensures damage { IfErr result (λ e. IsTrue (S.tells shelf.new) →
            IsOperandFault n step self.now.file self.now.read (S.world shelf.old) e) }
        ensures content { Told S.tells shelf.old shelf.new
            (Ran (Stays (now (S.world shelf.old))) (S.world shelf.old) (S.world shelf.new)) }
        ensures calls { IsTrue (S.tells shelf.new) → (S.world shelf.new).clock ≤ (S.world shelf.old).clock
            + operand_calls (reads_of (S.world shelf.old) self.now.file) }
        ensures kind { IfErr result (λ e. e ≢ SortFault.RunsSpent) }
        ensures faults { OnlySortShelf (S.faults shelf.old) (S.faults shelf.new) result }
    {
        match self.read {
            Some(place) => Operand::resume(self.file, place, n, step, window, shelf),
            None => Operand::start(self.file, n, window, shelf),
        }
    }
}

impl<'r> Operand<'r> {
    // Begins where so many nodes weren't read before the one at hand, which the file gives again.
    fn resume<S: Shelf>(
        file: FileNo,
        place: u64,
        n: u32,
        step: u32,
        window: &'r mut [Rec],
        shelf: &mut S,
    ) -> Result<Operand<'r>, SortFault>
        requires enough { 8 ≤ length window.old }
        requires few { place * node_size ≤ longest }
        ensures is { IfOk result (IsOperand n) }
        ensures file { IfOk result (λ o. o.file ≡ file) }
        ensures nodes { IfOk result (λ o. IsTrue (S.tells shelf.new) → (root : ℕ) (nodes : List Node) →
            HasNodes n root nodes (reads_of (S.world shelf.old) file) → place < length nodes →
            IsReadAs o (S.world shelf.new) root (reading_at nodes (Some place))) }
        ensures undamaged { IfErr result (λ e. IsTrue (S.tells shelf.new) → (root : ℕ) (nodes : List Node) →
            HasNodes n root nodes (reads_of (S.world shelf.old) file) → place < length nodes → IsNoDamage e) }
        ensures damage { IfErr result (λ e. IsTrue (S.tells shelf.new) →
            IsOperandFault n step file (Some place) (S.world shelf.old) e) }
        ensures content { Told S.tells shelf.old shelf.new
            (Ran (Stays (now (S.world shelf.old))) (S.world shelf.old) (S.world shelf.new)) }
        ensures calls { IsTrue (S.tells shelf.new) → (S.world shelf.new).clock ≤ (S.world shelf.old).clock
            + operand_calls (reads_of (S.world shelf.old) file) }
        ensures kind { IfErr result (λ e. e ≢ SortFault.RunsSpent) }
        ensures faults { OnlySortShelf (S.faults shelf.old) (S.faults shelf.new) result }
    {
        let unread = Unread {
            file,
            place: place + 1,
        };
        let mut reader = resume_at(unread, n, step, window, shelf)?;
        let hand = next_node(&mut reader, shelf)?;
        Ok(Operand { file, reader, hand })
    }
}

impl SavedMachine {
    /// Begins where the operands were read, in a room of three times [`READING`] records.
    pub fn operands<'r, S: Shelf>(
        &self,
        step: u32,
        room: &'r mut [Rec],
        shelf: &mut S,
    ) -> Result<Operands<'r>, SortFault>
        requires enough { 264 ≤ length room.old }
        requires first { IfSome self.now.first.read (λ place. place * node_size ≤ longest) }
        requires second { IfSome self.now.second.read (λ place. place * node_size ≤ longest) }
        requires third { IfSome self.now.third.read (λ place. place * node_size ≤ longest) }
        ensures are { IfOk result (AreOperands self.now.variables) }
        ensures files { IfOk result (HaveFiles (saved_files self.now)) }
        ensures nodes { IfOk result (λ o. IsTrue (S.tells shelf.new) → (roots : Tuple) → (d : Diagrams) →
            HaveNodes (saved_files self.now) (reads_of (S.world shelf.old)) self.now.variables roots d →
            AreAmong d self.now → AreReadAs o (S.world shelf.new) roots (readings_at d self.now)) }
        ensures undamaged { IfErr result (λ e. IsTrue (S.tells shelf.new) → (roots : Tuple) → (d : Diagrams) →
            HaveNodes (saved_files self.now) (reads_of (S.world shelf.old)) self.now.variables roots d →
            AreAmong d self.now → IsNoDamage e) }
        ensures damage { IfErr result (λ e. IsTrue (S.tells shelf.new) →
            IsCause step self.now (S.world shelf.old) e) }
        ensures content { Told S.tells shelf.old shelf.new
            (Ran (Stays (now (S.world shelf.old))) (S.world shelf.old) (S.world shelf.new)) }
        ensures calls { IsTrue (S.tells shelf.new) → (S.world shelf.new).clock ≤ (S.world shelf.old).clock
            + operand_calls (reads_of (S.world shelf.old) self.now.first.file)
            + operand_calls (reads_of (S.world shelf.old) self.now.second.file)
            + operand_calls (reads_of (S.world shelf.old) self.now.third.file) }
        ensures kind { IfErr result (λ e. e ≢ SortFault.RunsSpent) }
        ensures faults { OnlySortShelf (S.faults shelf.old) (S.faults shelf.new) result }
    {
        let (front, back) = room.split_at_mut(READING);
        let (middle, last) = back.split_at_mut(READING);
        let first = self.first.resume(self.variables, step, front, shelf)?;
        let second = self.second.resume(self.variables, step, middle, shelf)?;
        let third = self.third.resume(self.variables, step, last, shelf)?;
        Ok(Operands {
            first,
            second,
            third,
        })
    }

    /// Where the machine stands.
    pub fn place(&self) -> Place
        ensures { result ≡ saved_place self.now }
    {
        let phase = match &self.asking {
            Some(asking) => Phase::Asking(*asking),
            None => Phase::Fresh,
        };
        Place {
            variables: self.variables,
            phase,
            has_one: self.has_one,
        }
    }
}

impl SavedArcs {
    /// The arcs, with any root.
    pub fn made(&self) -> Unreduced
        ensures { result ≡ arcs_of self.now }
    {
        Unreduced {
            root: Ptr::terminal(false),
            inner: self.inner,
            inner_count: self.inner_count,
            ends: self.ends,
            ends_count: self.ends_count,
        }
    }
}
