//! The value of a diagram at an assignment.
ghost use Rattle.std.specs.Prelude.{◌≡◌};
ghost use Rattle.rec_words.specs.Words.{level_of};

use crate::following::{Following, Next};
use node_file::NodeReader;
use node_file::laws::canonical_files_are_read;
use node_reading::next_node;
use rec_words::{NODE_SIZE, Node, Ptr, Rec};
use run_merge::Parts;
use saved_words::words_of;
use shelf_model::{FileNo, Shelf, SortFault};
use sweep_core::{Checkpoint, Sweep, Turn, fill_without_runs};

/// The evaluation of a diagram: its path is followed from the root on, in one reading of the file.
///
/// After a refusal the sweep isn't used again.
#[derive(Drop)]
pub struct EvalSweep<'r> {
    pub(crate) nodes: NodeReader<'r>,
    pub(crate) file: FileNo,
    // The bits are those bytes of the text that stand at a place and behind it.
    pub(crate) text: &'r [u8],
    pub(crate) at: u32,
    pub(crate) state: Following,
    // The part numbers of its step, of which it takes none.
    pub(crate) parts: Parts,
}

impl<'r> EvalSweep<'r> {
    ghost use Rattle.std.specs.Prelude.{◌≡◌, ◌+◌, ◌<◌, ◌≤◌, Bool, IsTrue, List, Some, None, OnOk, IfOk, IfErr, length};
    ghost use Rattle.std.specs.List.{list_all};
    ghost use Rattle.bool_tables.specs.Plans.{is_bit};
    ghost use Rattle.bool_tables.specs.Steps.{eval_at};
    ghost use Rattle.rec_words.specs.Words.{level_of};
    ghost use Rattle.shelf_model.specs.Calls.{Told};
    ghost use Rattle.shelf_model.specs.World.{file};
    ghost use Rattle.block_stream.specs.Reads.{Looked};
    ghost use Rattle.node_file.specs.Canonical.{IsCanonicalFile};
    ghost use Rattle.node_file.specs.Readers.{file_of, trailer_of, left_of};
    ghost use Rattle.run_tiers.specs.Faults.{OnlySortShelf};
    ghost use Rattle.sweep_core.specs.Accounts.{Leaves};
    ghost use Rattle.sweep_core.specs.Sweeps.{Falls, AtEnd, StaysEnded, IsNoDamage};
    ghost use Rattle.node_reading.specs.Reading.{count_of, IsTrailerFault, IsFaultOf};
    ghost use Rattle.restrict_eval.specs.Turns.{AnswersAtEnd, Turns};
    ghost use Rattle.restrict_eval.specs.Eval.{accounts, parts_of, bits_of, answer_of, turns_left, task_of, side_by};
    ghost use Rattle.restrict_eval.specs.Eval.{IsReady, IsInStep, HasCome, OneTable, RemainsOf, IsDamage, evaluations};

    /// Begins the evaluation of the node file of a diagram of `n` variables. The bits of the assignment are the `n`
    /// bytes of the text from `at` on, each `0` or `1`.
    pub fn start<S: Shelf>(
        n: u32,
        f: FileNo,
        text: &'r [u8],
        at: u32,
        parts: Parts,
        room: &'r mut [Rec],
        shelf: &mut S,
    ) -> Result<EvalSweep<'r>, SortFault>
        requires room { 8 ≤ length room.old }
        requires bits { at + n ≤ length text.now }
        ensures ready { IfOk result IsReady }
        ensures in_step { IfOk result (λ s. IsTrue (S.tells shelf.new) → IsInStep s (S.world shelf.new)) }
        ensures trusts { IfOk result (λ s. IsTrue (S.tells shelf.new) → HasCome s (S.world shelf.new)) }
        ensures file { IfOk result (λ s. file_of s.nodes ≡ f) }
        ensures variables { IfOk result (λ s. (trailer_of s.nodes).n ≡ n) }
        ensures bits { IfOk result (λ s. (s.text.now ≡ text.entry.now) × (s.at ≡ at)) }
        ensures parts { IfOk result (λ s. parts_of s ≡ parts) }
        ensures answer { IfOk result (λ s. answer_of s ≡ None) }
        ensures left { IfOk result (λ s. IsTrue (S.tells shelf.new) →
            turns_left s ≡ count_of (file (S.world shelf.old) f).bytes + 1) }

        // what remains
        ensures remains { IfOk result (λ s. IsTrue (S.tells shelf.new) → (t : List Bool) →
            IsCanonicalFile n t f (S.world shelf.old) →
            RemainsOf s (S.world shelf.new) (record { n = n; table = t })) }
        ensures damage { IfErr result (λ e. IsTrue (S.tells shelf.new) → IsTrailerFault f n (S.world shelf.old) e) }
        ensures undamaged { IfErr result (λ e. IsTrue (S.tells shelf.new) → (t : List Bool) →
            IsCanonicalFile n t f (S.world shelf.old) → IsNoDamage e) }

        // what the call leaves, and what it costs
        ensures content { Told S.tells shelf.old shelf.new (Looked 2 (S.world shelf.old) (S.world shelf.new)) }
        ensures faults { OnlySortShelf (S.faults shelf.old) (S.faults shelf.new) result }
        ensures refused { IfErr result (IsFaultOf f) }
    {
        // The file of a table holds the table's nodes, and these lead to its values.
        canonical_files_are_read();
        let nodes = NodeReader::start(f, n, room, shelf)?;
        let root = nodes.trailer().root;
        Ok(EvalSweep {
            nodes,
            file: f,
            text,
            at,
            state: Following::To(Next { pointer: root }),
            parts,
        })
    }

    /// The table's value at the assignment, once the evaluation has ended.
    pub fn answer(&self) -> Option<bool>
        ensures { result ≡ answer_of self.now }
    {
        match self.state {
            Following::Answered(answer) => Some(answer),
            _ => None,
        }
    }

    /// The part numbers that weren't taken.
    pub fn parts(&self) -> Parts
        ensures { result ≡ parts_of self.now }
    {
        self.parts
    }

    /// Reads a node, or ends the evaluation. Once it has ended, each further turn answers so and does nothing.
    ///
    /// Where the path leads to a node that isn't there, all that are left are read before the place is named.
    pub fn turn<S: Shelf>(&mut self, shelf: &mut S) -> Result<Turn, SortFault>
        requires ready { IsReady self.old }
        requires in_step { IsTrue (S.tells shelf.old) → IsInStep self.old (S.world shelf.old) }
        ensures ready { OnOk result (IsReady self.new) }
        ensures in_step { OnOk result (IsTrue (S.tells shelf.new) → IsInStep self.new (S.world shelf.new)) }
        ensures falls { Falls (turns_left self.old) (turns_left self.new) result }
        ensures ended { turns_left self.old ≡ 0 → StaysEnded shelf.old shelf.new self.old self.new result }
        ensures ends { IfOk result (λ turn. AnswersAtEnd turn (answer_of self.new)) }

        // what remains
        ensures keeps { OnOk result (IsTrue (S.tells shelf.new) → (d : OneTable) →
            RemainsOf self.old (S.world shelf.old) d → RemainsOf self.new (S.world shelf.new) d) }
        ensures answers { AtEnd result (IsTrue (S.tells shelf.new) → (d : OneTable) →
            RemainsOf self.old (S.world shelf.old) d →
            answer_of self.new ≡ Some (eval_at d.n self.old.text.now d.table self.old.at)) }
        ensures trusts { OnOk result (IsTrue (S.tells shelf.new) →
            HasCome self.old (S.world shelf.old) → HasCome self.new (S.world shelf.new)) }
        ensures damage { IfErr result (λ e. IsTrue (S.tells shelf.new) → HasCome self.old (S.world shelf.old) →
            IsDamage self.new (S.world shelf.new) e) }
        ensures undamaged { IfErr result (λ e. IsTrue (S.tells shelf.new) → (d : OneTable) →
            RemainsOf self.old (S.world shelf.old) d → IsNoDamage e) }

        // what the call leaves, and what it costs
        ensures leaves { Leaves S.tells S.world S.faults accounts 1 0 shelf.old shelf.new self.old self.new result }
        ensures refused { IfErr result (IsFaultOf (file_of self.old.nodes)) }
        ensures same { task_of self.new ≡ task_of self.old }
    {
        match self.state {
            Following::To(next) => self.follow(next.pointer, shelf),
            Following::Past(place) => self.read_on(place, shelf),
            Following::Answered(_) => Ok(Turn::Ended),
        }
    }

    // Ends at a truth value, or reads a node, which may be the one that the pointer leads to.
    fn follow<S: Shelf>(&mut self, pointer: Ptr, shelf: &mut S) -> Result<Turn, SortFault>
        requires state { self.old.state ≡ Following.To (record { pointer = pointer }) }
        requires ready { IsReady self.old }
        requires in_step { IsTrue (S.tells shelf.old) → IsInStep self.old (S.world shelf.old) }
        ensures turns { Turns evaluations S.tells S.world S.faults shelf.old shelf.new self.old self.new result }
        ensures text { OnOk result (self.new.text ≡ self.old.text) }
        ensures at { OnOk result (self.new.at ≡ self.old.at) }
    {
        if let Some(value) = pointer.value() {
            self.state = Following::Answered(value);
            return Ok(Turn::Ended);
        }
        let Some(node) = next_node(&mut self.nodes, shelf)? else {
            return Err(SortFault::Damaged {
                file: self.file,
                at: 0,
            });
        };
        self.state = self.after(pointer, &node);
        Ok(Turn::More)
    }

    // Reads a node where the one that the path leads to isn't there. The place is damaged where all that are left
    // can be read.
    fn read_on<S: Shelf>(&mut self, place: u64, shelf: &mut S) -> Result<Turn, SortFault>
        requires state { self.old.state ≡ Following.Past place }
        requires ready { IsReady self.old }
        requires in_step { IsTrue (S.tells shelf.old) → IsInStep self.old (S.world shelf.old) }
        ensures turns { Turns evaluations S.tells S.world S.faults shelf.old shelf.new self.old self.new result }
        ensures text { OnOk result (self.new.text ≡ self.old.text) }
        ensures at { OnOk result (self.new.at ≡ self.old.at) }
    {
        match next_node(&mut self.nodes, shelf)? {
            Some(_) => Ok(Turn::More),
            None => Err(SortFault::Damaged {
                file: self.file,
                at: place * NODE_SIZE,
            }),
        }
    }

    // Where a path to a pointer goes on once a node was read.
    fn after(&self, pointer: Ptr, node: &Node) -> Following
        requires bits { self.now.at + (trailer_of self.now.nodes).n ≤ length self.now.text.now }
        requires level { level_of node.now.uid < (trailer_of self.now.nodes).n }
        ensures found { node.now.uid ≡ pointer → result ≡ Following.To
            (record { pointer = side_by (bits_of self.now) node.now }) }
        ensures above { node.now.uid < pointer → result ≡ Following.To (record { pointer = pointer }) }
        ensures past { pointer < node.now.uid → result ≡ Following.Past (left_of self.now.nodes) }
    {
        let uid = node.uid.ptr().word();
        if uid == pointer.word() {
            Following::To(Next {
                pointer: self.side(node),
            })
        } else if uid < pointer.word() {
            Following::To(Next { pointer })
        } else {
            Following::Past(self.nodes.place())
        }
    }

    // The pointer of the node on the side that the bit of its level names.
    fn side(&self, node: &Node) -> Ptr
        requires bits { self.now.at + (trailer_of self.now.nodes).n ≤ length self.now.text.now }
        requires level { level_of node.now.uid < (trailer_of self.now.nodes).n }
        ensures { result ≡ side_by (bits_of self.now) node.now }
    {
        if self.text[self.at as usize + level_at(node)] == b'1' {
            node.high
        } else {
            node.low
        }
    }
}

// The level of a node.
fn level_at(node: &Node) -> usize
    ensures { result ≡ level_of node.now.uid }
{
    match node.uid.ptr().level() {
        Some(level) => usize::from(level),
        None => 0,
    }
}

impl<'r> Sweep<'r> for EvalSweep<'r> {
    ghost use Rattle.restrict_eval.specs.EvalResumes.{eval_saving, Blames, stays, apart};
    ghost use Rattle.restrict_eval.specs.Eval.{accounts, turns_left, Evaluated, task_of, IsReady, IsInStep, HasCome};
    ghost use Rattle.restrict_eval.specs.Eval.{OneTable, RemainsOf, IsDamage};

    ghost Job = { OneTable };

    ghost remains = { RemainsOf };

    ghost fuel = { turns_left };

    ghost left = { λ s world d. turns_left s };

    ghost accounts = { accounts };

    ghost damaged = { IsDamage };

    ghost blames = { Blames };

    ghost Task = { Evaluated };

    ghost task = { task_of };

    ghost saving = { eval_saving };

    ghost ready = { IsReady };

    ghost in_step = { IsInStep };

    ghost trusts = { HasCome };

    ghost trusted = { λ s world d remains. remains.come };

    fn turn<S: Shelf>(&mut self, shelf: &mut S) -> Result<Turn, SortFault> {
        EvalSweep::turn(self, shelf)
    }

    fn carry<S: Shelf>(&mut self, shelf: &mut S, into: &mut Checkpoint) -> Result<(), SortFault> {
        fill_without_runs(into, self.parts.next, words_of(self.saved()));
        Ok(())
    }

    fn rebuild<S: Shelf>(
        from: &Checkpoint,
        text: &'r [u8],
        room: &'r mut [Rec],
        shelf: &mut S,
    ) -> Result<EvalSweep<'r>, SortFault> {
        EvalSweep::rebuild(from, text, room, shelf)
    }

    ghost stays = { stays };

    ghost apart = { apart };
}
