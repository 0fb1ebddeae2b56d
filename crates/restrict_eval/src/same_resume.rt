//! What a checkpoint keeps of a comparison, and how that goes on from it.
ghost use Rattle.std.specs.Prelude.{◌≡◌, ◌≢◌, ◌↔◌, ◌+◌, ◌*◌, ◌<◌, ◌≤◌, ℕ, Bool, IsTrue, List, OnOk, IfOk, IfErr};
ghost use Rattle.shelf_model.specs.Calls.{Told, longest};
ghost use Rattle.shelf_model.specs.Moments.{Ran, Stays};
ghost use Rattle.shelf_model.specs.World.{now};
ghost use Rattle.rec_words.specs.Words.{node_size};
ghost use Rattle.node_file.specs.Readers.{file_of, trailer_of, left_of};
ghost use Rattle.run_tiers.specs.Faults.{OnlySortShelf};
ghost use Rattle.sweep_core.specs.Sweeps.{IsNoDamage};
ghost use Rattle.node_reading.specs.Reading.{bytes_of, IsBegun, IsReading, IsNodeFault};
ghost use Rattle.restrict_eval.specs.Canonical.{AreLeftBut};
ghost use Rattle.restrict_eval.specs.Same.{fuel_at};
ghost use Rattle.restrict_eval.specs.SameResumes.{Fits, Compares, KeepsRules, saved_of, behind_hand, at_hand, turns_of};
ghost use Rattle.restrict_eval.specs.SameResumes.{GoesOnFrom};
ghost use Rattle.rec_words.specs.declared.node.Node.{Node};

use crate::SameSweep;
use crate::comparing::Comparing;
use crate::saved::SavedSame;
use file_numbers::INNER_PART;
use node_file::NodeReader;
use node_reading::{Unread, next_node};
use rec_words::NODE_SIZE;
use saved_words::value_of;
use shelf_model::{FileNo, LONGEST, Shelf, SortFault};
use sweep_core::{Checkpoint, is_read_part};

impl<'r> SameSweep<'r> {
    /// Whether a checkpoint keeps the rules of a comparison's. It takes no memory.
    pub fn fits(point: &Checkpoint) -> bool
        ensures { IsTrue result ↔ Fits point.now }
    {
        match value_of::<SavedSame>(&point.carry) {
            Some(saved) => point.tables == 0 && saved.keeps_rules(point),
            None => false,
        }
    }

    /// Whether a checkpoint says that these two files of `n` variables are compared. It takes no memory.
    pub fn names(point: &Checkpoint, n: u32, left: FileNo, right: FileNo) -> bool
        ensures { IsTrue result ↔ Compares point.now n left right }
    {
        match value_of::<SavedSame>(&point.carry) {
            Some(saved) => saved.n == n && saved.left.file == left && saved.right.file == right,
            None => false,
        }
    }

    // What a checkpoint keeps of it.
    pub(crate) fn saved(&self) -> SavedSame
        ensures { result ≡ saved_of self.now }
    {
        let (ahead, answer) = match self.state {
            Comparing::Level => (false, None),
            Comparing::Ahead(_) => (true, None),
            Comparing::Answered(answer) => (false, Some(answer)),
        };
        SavedSame {
            n: self.left.trailer().n,
            left: Unread {
                file: self.left.file(),
                place: self.left.place(),
            },
            right: Unread {
                file: self.right.file(),
                place: self.right.place(),
            },
            ahead,
            answer,
        }
    }
}

impl SavedSame {
    // Whether it may stand in a checkpoint.
    fn keeps_rules(&self, point: &Checkpoint) -> bool
        ensures { IsTrue result ↔ KeepsRules point.now self.now }
    {
        let others = is_read_part(self.left.file, point.step, point.next_part)
            && is_read_part(self.right.file, point.step, point.next_part);
        let most = LONGEST / NODE_SIZE;
        let few = self.left.place <= most && self.right.place <= most;
        INNER_PART <= point.next_part && others && few
    }

    // The first file, from before the node at hand.
    pub(crate) fn behind_hand(&self) -> Unread
        requires few { self.now.left.place * node_size ≤ longest }
        ensures { result ≡ behind_hand self.now }
    {
        Unread {
            file: self.left.file,
            place: self.left.place + u64::from(self.ahead),
        }
    }

    // Where it goes on: with the node at hand, which the first file gives again, or with the answer.
    pub(crate) fn state<S: Shelf>(
        &self,
        left: &mut NodeReader<'_>,
        shelf: &mut S,
    ) -> Result<Comparing, SortFault>
        requires begun { IsBegun left.old }
        requires reads { IsTrue (S.tells shelf.old) → IsReading left.old (S.world shelf.old) }
        requires place { left_of left.old ≡ self.now.left.place + at_hand self.now.ahead }
        ensures file { file_of left.new ≡ file_of left.old }
        ensures trailer { trailer_of left.new ≡ trailer_of left.old }
        ensures begun { OnOk result (IsBegun left.new) }
        ensures reads { OnOk result (IsTrue (S.tells shelf.new) → IsReading left.new (S.world shelf.new)) }
        ensures turns { IfOk result (λ state. (k : ℕ) →
            fuel_at state (left_of left.new + k) ≡ turns_of self.now.answer (self.now.left.place + k)) }
        ensures goes_on { IfOk result (λ state. IsTrue (S.tells shelf.new) → (nodes given : List Node) →
            AreLeftBut left.old (bytes_of left.old (S.world shelf.old)) nodes given →
            GoesOnFrom self.now.answer state left.new (bytes_of left.new (S.world shelf.new)) nodes given) }
        ensures undamaged { IfErr result (λ e. IsTrue (S.tells shelf.new) → (nodes given : List Node) →
            AreLeftBut left.old (bytes_of left.old (S.world shelf.old)) nodes given → IsNoDamage e) }
        ensures damage { IfErr result (λ e. IsTrue (S.tells shelf.new) → IsNodeFault left.old (S.world shelf.old) e) }
        ensures content { Told S.tells shelf.old shelf.new
            (Ran (Stays (now (S.world shelf.old))) (S.world shelf.old) (S.world shelf.new)) }
        ensures calls { IsTrue (S.tells shelf.new) →
            (S.world shelf.new).clock ≤ (S.world shelf.old).clock + 1 }
        ensures kind { IfErr result (λ e. e ≢ SortFault.RunsSpent) }
        ensures faults { OnlySortShelf (S.faults shelf.old) (S.faults shelf.new) result }
    {
        if let Some(answer) = self.answer {
            return Ok(Comparing::Answered(answer));
        }
        if !self.ahead {
            return Ok(Comparing::Level);
        }
        let Some(node) = next_node(left, shelf)? else {
            unreachable!();
        };
        Ok(Comparing::Ahead(node))
    }
}
