//! The operands of a sweep, of each of which one node is at hand.
ghost use Rattle.std.specs.Prelude.{◌≡◌, ℕ};

use crate::ask::{Ask, Member, Members};
use node_file::NodeReader;
use rec_words::{NODE_SIZE, Node, Uid};
use shelf_model::{FileNo, Shelf, SortFault};
use top_down::Tuple;

/// The diagram that a member's pointers are of, and the node of it that was read last.
#[derive(Drop)]
pub struct Operand<'r> {
    pub file: FileNo,
    pub reader: NodeReader<'r>,
    pub hand: Option<Node>,
}

impl<'r> Operand<'r> {
    ghost use Rattle.std.specs.Prelude.{◌+◌, ◌*◌, ◌<◌, true, false, IsTrue, OnOk, IfErr, IfSome};
    ghost use Rattle.shelf_model.specs.Calls.{Told};
    ghost use Rattle.block_stream.specs.Reads.{Looked};
    ghost use Rattle.run_tiers.specs.Faults.{OnlySortShelf};
    ghost use Rattle.node_file.specs.Readers.{trailer_of, left_of};
    ghost use Rattle.tuple_asks.specs.Members.{wants};
    ghost use Rattle.node_reading.specs.Reading.{IsReading, IsFaultOf};
    ghost use Rattle.tuple_asks.specs.Operands.{IsOperand};
    ghost use Rattle.shelf_model.specs.World.{file};
    ghost use Rattle.tuple_asks.specs.Knowing.{KnowsBelow};
    ghost use Rattle.tuple_asks.specs.Operands.{IsReadTo};
    ghost use Rattle.tuple_asks.specs.Damage.{IsReadDamage};
    ghost use Rattle.sweep_core.specs.Sweeps.{IsNoDamage};
    ghost use Rattle.top_down_laws.specs.Readings.{Reading};
    ghost use Rattle.tuple_asks.specs.Readings.{IsReadOf};
    ghost use Rattle.tuple_asks.specs.Readings.{HasNext, ReadsNext};

    /// Whether the member is that node, which isn't at hand.
    pub fn wants(&self, member: &Member, key: Uid) -> bool
        ensures { result ≡ wants key self.now.hand member.now }
    {
        match &self.hand {
            Some(node) if node.uid == key => false,
            _ => member.is_node(key),
        }
    }

    /// Whether the node at hand comes no later than that one.
    pub fn is_read_to(&self, key: Uid) -> bool
        ensures yes { result ≡ true → IsReadTo key self.now }
        ensures no { result ≡ false → ¬ IsReadTo key self.now }
    {
        match &self.hand {
            Some(node) => node.uid <= key,
            None => true,
        }
    }

    /// Reads the next node. That there is none, or that it comes behind the wanted one, is damage.
    pub fn read<S: Shelf>(&mut self, key: Uid, shelf: &mut S) -> Result<(), SortFault>
        ensures file { self.new.file ≡ self.old.file }
        ensures fewer { OnOk result (left_of self.old.reader ≡ left_of self.new.reader + 1) }
        ensures is { OnOk result ((n : ℕ) → IsOperand n self.old → IsOperand n self.new) }
        ensures hand { OnOk result (IsReadTo key self.new) }
        ensures damage { IfErr result (λ e. (n : ℕ) → IsOperand n self.old → IsFaultOf self.old.file e) }

        // what its file holds
        ensures reads { OnOk result (IsTrue (S.tells shelf.new) → (n : ℕ) → IsOperand n self.old →
            IsReading self.old.reader (S.world shelf.old) → IsReading self.new.reader (S.world shelf.new)) }
        ensures damaged { IfErr result (λ e. IsTrue (S.tells shelf.new) → (n : ℕ) → IsOperand n self.old →
            IsReading self.old.reader (S.world shelf.old) → IfSome self.old.hand (λ x. x.uid < key) →
            IsReadDamage n self.old.file key (S.world shelf.new) e) }
        ensures below { OnOk result (IsTrue (S.tells shelf.new) → (n : ℕ) → IsOperand n self.old →
            IsReading self.old.reader (S.world shelf.old) →
            KnowsBelow (file (S.world shelf.old) self.old.file).bytes self.new.hand) }
        ensures next { OnOk result (IsTrue (S.tells shelf.new) → (r : Reading) →
            IsReadOf self.old (S.world shelf.old) r → ReadsNext self.new (S.world shelf.new) r) }
        ensures undamaged { IfErr result (λ e. IsTrue (S.tells shelf.new) → (r : Reading) →
            IsReadOf self.old (S.world shelf.old) r → HasNext key r → IsNoDamage e) }
        ensures content { Told S.tells shelf.old shelf.new (Looked 1 (S.world shelf.old) (S.world shelf.new)) }
        ensures faults { OnlySortShelf (S.faults shelf.old) (S.faults shelf.new) result }
    {
        let hand = self.reader.next(shelf)?;
        self.hand = hand;
        match hand {
            Some(node) if node.uid <= key => Ok(()),
            _ => Err(self.damage()),
        }
    }

    /// Damage at the node that was read last, or at the front where there is none.
    pub fn damage(&self) -> SortFault
        ensures place { result ≡ SortFault.Damaged self.now.file (left_of self.now.reader * 24) }
        ensures damage { IsFaultOf self.now.file result }
    {
        SortFault::Damaged {
            file: self.file,
            at: self.reader.place().saturating_mul(NODE_SIZE),
        }
    }
}

/// The operands, one for each pointer of a tuple.
#[derive(Drop)]
pub struct Operands<'r> {
    pub first: Operand<'r>,
    pub second: Operand<'r>,
    pub third: Operand<'r>,
}

impl<'r> Operands<'r> {
    ghost use Rattle.tuple_asks.specs.Members.{want, all_filled};
    ghost use Rattle.tuple_asks.specs.Readings.{roots_of};
    ghost use Rattle.std.specs.Prelude.{true, false};
    ghost use Rattle.tuple_asks.specs.Operands.{Fits};

    /// The roots of the diagrams.
    pub fn roots(&self) -> Tuple
        ensures { result ≡ roots_of self.now }
    {
        Tuple {
            first: self.first.reader.trailer().root,
            second: self.second.reader.trailer().root,
            third: self.third.reader.trailer().root,
        }
    }

    /// Whether the ask's key isn't at hand for each member that is that node.
    pub fn want(&self, ask: &Ask) -> bool
        ensures { result ≡ want self.now ask.now }
    {
        self.first.wants(&ask.members.first, ask.key)
            || self.second.wants(&ask.members.second, ask.key)
            || self.third.wants(&ask.members.third, ask.key)
    }

    /// Whether no operand was read past the ask's node.
    pub fn fits(&self, ask: &Ask) -> bool
        ensures yes { result ≡ true → Fits self.now ask.now }
        ensures no { result ≡ false → ¬ Fits self.now ask.now }
    {
        self.first.is_read_to(ask.key)
            && self.second.is_read_to(ask.key)
            && self.third.is_read_to(ask.key)
    }

    /// The members of an ask, with the pointers of its key for those that are that node.
    pub fn filled(&self, ask: &Ask) -> Members
        ensures { result ≡ all_filled self.now ask.now }
    {
        Members {
            first: ask.members.first.filled(ask.key, &self.first.hand),
            second: ask.members.second.filled(ask.key, &self.second.hand),
            third: ask.members.third.filled(ask.key, &self.third.hand),
        }
    }
}
