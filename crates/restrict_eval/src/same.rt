//! Whether two diagrams stand for the same table.
use crate::comparing::Comparing;
use crate::resuming::begin_at;
use crate::saved::SavedSame;
use node_file::NodeReader;
use node_file::laws::canonical_files_are_read;
use node_reading::next_node;
use rec_words::{Node, Rec};
use run_merge::Parts;
use saved_words::{value_of, words_of};
use shelf_model::{FileNo, Shelf, SortFault};
use sweep_core::{Checkpoint, Sweep, Turn, fill_without_runs};

/// How many records of the room each of the two readers has.
const READING: usize = 88;

/// The comparison of two node files, node by node from the roots on.
///
/// Each file has a reader of its own, also where both are one. After a refusal the sweep isn't used again.
#[derive(Drop)]
pub struct SameSweep<'r> {
    pub(crate) left: NodeReader<'r>,
    pub(crate) right: NodeReader<'r>,
    pub(crate) state: Comparing,
    // The part numbers of its step, of which it takes none.
    pub(crate) parts: Parts,
}

impl<'r> SameSweep<'r> {
    ghost use Rattle.std.specs.Prelude.{◌≡◌, ◌⊎◌, ◌+◌, ◌≤◌, Bool, IsTrue, List, Some, None, OnOk, IfOk, IfErr, length};
    ghost use Rattle.bool_tables.specs.Tables.{same_bits};
    ghost use Rattle.shelf_model.specs.Calls.{Told};
    ghost use Rattle.shelf_model.specs.World.{file};
    ghost use Rattle.block_stream.specs.Reads.{Looked};
    ghost use Rattle.node_file.specs.Canonical.{IsCanonicalFile};
    ghost use Rattle.node_file.specs.Readers.{file_of, trailer_of};
    ghost use Rattle.run_tiers.specs.Faults.{OnlySortShelf};
    ghost use Rattle.sweep_core.specs.Accounts.{Leaves};
    ghost use Rattle.sweep_core.specs.Sweeps.{Falls, AtEnd, StaysEnded, IsNoDamage};
    ghost use Rattle.node_reading.specs.Reading.{count_of, IsTrailerFault};
    ghost use Rattle.restrict_eval.specs.Same.{accounts, parts_of, answer_of, turns_left, task_of, IsReady, IsInStep};
    ghost use Rattle.restrict_eval.specs.Same.{Tables, RemainsOf, IsDamage, IsFaultOfEither, comparisons};
    ghost use Rattle.restrict_eval.specs.Turns.{AnswersAtEnd, Turns};

    /// Begins the comparison of two node files of `n` variables. 176 records of the room are used.
    pub fn start<S: Shelf>(
        n: u32,
        f: FileNo,
        g: FileNo,
        parts: Parts,
        room: &'r mut [Rec],
        shelf: &mut S,
    ) -> Result<SameSweep<'r>, SortFault>
        requires room { 176 ≤ length room.old }
        ensures ready { IfOk result IsReady }
        ensures in_step { IfOk result (λ s. IsTrue (S.tells shelf.new) → IsInStep s (S.world shelf.new)) }
        ensures files { IfOk result (λ s. (file_of s.left ≡ f) × (file_of s.right ≡ g)) }
        ensures variables { IfOk result (λ s. ((trailer_of s.left).n ≡ n) × ((trailer_of s.right).n ≡ n)) }
        ensures parts { IfOk result (λ s. parts_of s ≡ parts) }
        ensures answer { IfOk result (λ s. answer_of s ≡ None) }
        ensures left { IfOk result (λ s. IsTrue (S.tells shelf.new) →
            turns_left s ≡ count_of (file (S.world shelf.old) f).bytes + count_of
            (file (S.world shelf.old) g).bytes + 1) }

        // what remains
        ensures remains { IfOk result (λ s. IsTrue (S.tells shelf.new) → (t u : List Bool) →
            IsCanonicalFile n t f (S.world shelf.old) → IsCanonicalFile n u g (S.world shelf.old) →
            RemainsOf s (S.world shelf.new) (record { n = n; first = t; second = u })) }
        ensures damage { IfErr result (λ e. IsTrue (S.tells shelf.new) →
            IsTrailerFault f n (S.world shelf.old) e ⊎ IsTrailerFault g n (S.world shelf.old) e) }
        ensures undamaged { IfErr result (λ e. IsTrue (S.tells shelf.new) → (t u : List Bool) →
            IsCanonicalFile n t f (S.world shelf.old) → IsCanonicalFile n u g (S.world shelf.old) →
            IsNoDamage e) }

        // what the call leaves, and what it costs
        ensures content { Told S.tells shelf.old shelf.new (Looked 4 (S.world shelf.old) (S.world shelf.new)) }
        ensures faults { OnlySortShelf (S.faults shelf.old) (S.faults shelf.new) result }
        ensures refused { IfErr result (IsFaultOfEither f g) }
    {
        // The file of a table holds the table's nodes.
        canonical_files_are_read();
        let (first, rest) = room.split_at_mut(READING);
        let (second, _rest) = rest.split_at_mut(READING);
        let left = NodeReader::start(f, n, first, shelf)?;
        let right = NodeReader::start(g, n, second, shelf)?;
        Ok(SameSweep {
            left,
            right,
            state: Comparing::Level,
            parts,
        })
    }

    /// Whether the two diagrams stand for the same table, once the comparison has ended.
    pub fn answer(&self) -> Option<bool>
        ensures { result ≡ answer_of self.now }
    {
        match self.state {
            Comparing::Answered(answer) => Some(answer),
            _ => None,
        }
    }

    /// The part numbers that weren't taken.
    pub fn parts(&self) -> Parts
        ensures { result ≡ parts_of self.now }
    {
        self.parts
    }

    /// Reads a node, or ends the comparison. Once it has ended, each further turn answers so and does nothing.
    pub fn turn<S: Shelf>(&mut self, shelf: &mut S) -> Result<Turn, SortFault>
        requires ready { IsReady self.old }
        requires in_step { IsTrue (S.tells shelf.old) → IsInStep self.old (S.world shelf.old) }
        ensures ready { OnOk result (IsReady self.new) }
        ensures in_step { OnOk result (IsTrue (S.tells shelf.new) → IsInStep self.new (S.world shelf.new)) }
        ensures falls { Falls (turns_left self.old) (turns_left self.new) result }
        ensures ended { turns_left self.old ≡ 0 → StaysEnded shelf.old shelf.new self.old self.new result }
        ensures ends { IfOk result (λ turn. AnswersAtEnd turn (answer_of self.new)) }

        // what remains
        ensures keeps { OnOk result (IsTrue (S.tells shelf.new) → (d : Tables) →
            RemainsOf self.old (S.world shelf.old) d → RemainsOf self.new (S.world shelf.new) d) }
        ensures answers { AtEnd result (IsTrue (S.tells shelf.new) → (d : Tables) →
            RemainsOf self.old (S.world shelf.old) d → answer_of self.new ≡ Some (same_bits d.first d.second)) }
        ensures damage { IfErr result (λ e. IsTrue (S.tells shelf.new) → IsDamage self.new (S.world shelf.new) e) }
        ensures undamaged { IfErr result (λ e. IsTrue (S.tells shelf.new) → (d : Tables) →
            RemainsOf self.old (S.world shelf.old) d → IsNoDamage e) }

        // what the call leaves, and what it costs
        ensures leaves { Leaves S.tells S.world S.faults accounts 1 0 shelf.old shelf.new self.old self.new result }
        ensures refused { IfErr result (IsFaultOfEither (file_of self.old.left) (file_of self.old.right)) }
        ensures same { task_of self.new ≡ task_of self.old }
    {
        match self.state {
            Comparing::Level => self.read_left(shelf),
            Comparing::Ahead(node) => self.read_right(node, shelf),
            Comparing::Answered(_) => Ok(Turn::Ended),
        }
    }

    // Reads a node of the first file. Where it has none left, both have the same nodes.
    fn read_left<S: Shelf>(&mut self, shelf: &mut S) -> Result<Turn, SortFault>
        requires state { self.old.state ≡ Comparing.Level }
        requires ready { IsReady self.old }
        requires in_step { IsTrue (S.tells shelf.old) → IsInStep self.old (S.world shelf.old) }
        ensures { Turns comparisons S.tells S.world S.faults shelf.old shelf.new self.old self.new result }
    {
        if self.left.trailer() != self.right.trailer() {
            self.state = Comparing::Answered(false);
            return Ok(Turn::Ended);
        }
        let Some(node) = next_node(&mut self.left, shelf)? else {
            self.state = Comparing::Answered(true);
            return Ok(Turn::Ended);
        };
        self.state = Comparing::Ahead(node);
        Ok(Turn::More)
    }

    // Reads the node of the second file that has to be the same as the first one's.
    fn read_right<S: Shelf>(&mut self, node: Node, shelf: &mut S) -> Result<Turn, SortFault>
        requires state { self.old.state ≡ Comparing.Ahead node }
        requires ready { IsReady self.old }
        requires in_step { IsTrue (S.tells shelf.old) → IsInStep self.old (S.world shelf.old) }
        ensures { Turns comparisons S.tells S.world S.faults shelf.old shelf.new self.old self.new result }
    {
        if next_node(&mut self.right, shelf)? != Some(node) {
            self.state = Comparing::Answered(false);
            return Ok(Turn::Ended);
        }
        self.state = Comparing::Level;
        Ok(Turn::More)
    }
}

impl<'r> Sweep<'r> for SameSweep<'r> {
    ghost use Rattle.restrict_eval.specs.SameResumes.{same_saving, Blames, stays, apart};
    ghost use Rattle.restrict_eval.specs.Same.{accounts, turns_left, Compared, task_of, IsReady, IsInStep, Tables};
    ghost use Rattle.restrict_eval.specs.Same.{RemainsOf, IsDamage};

    ghost Job = { Tables };

    ghost remains = { RemainsOf };

    ghost fuel = { turns_left };

    ghost left = { λ s world d. turns_left s };

    ghost accounts = { accounts };

    ghost damaged = { IsDamage };

    ghost blames = { Blames };

    ghost Task = { Compared };

    ghost task = { task_of };

    ghost saving = { same_saving };

    ghost ready = { IsReady };

    ghost in_step = { IsInStep };

    ghost trusts = { λ s world. Unit };

    ghost trusted = { λ s world d remains. tt };

    fn turn<S: Shelf>(&mut self, shelf: &mut S) -> Result<Turn, SortFault> {
        SameSweep::turn(self, shelf)
    }

    fn carry<S: Shelf>(&mut self, shelf: &mut S, into: &mut Checkpoint) -> Result<(), SortFault> {
        fill_without_runs(into, self.parts.next, words_of(self.saved()));
        Ok(())
    }

    fn rebuild<S: Shelf>(
        from: &Checkpoint,
        text: &'r [u8],
        room: &'r mut [Rec],
        shelf: &mut S,
    ) -> Result<SameSweep<'r>, SortFault> {
        let Some(saved) = value_of::<SavedSame>(&from.carry) else {
            unreachable!();
        };
        let (first, rest) = room.split_at_mut(READING);
        let (second, _rest) = rest.split_at_mut(READING);
        let mut left = begin_at(saved.behind_hand(), saved.n, from.step, first, shelf)?;
        let right = begin_at(saved.right, saved.n, from.step, second, shelf)?;
        let state = saved.state(&mut left, shelf)?;
        Ok(SameSweep {
            left,
            right,
            state,
            parts: Parts {
                step: from.step,
                next: from.next_part,
            },
        })
    }

    ghost stays = { stays };

    ghost apart = { apart };
}
