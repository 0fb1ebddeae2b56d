//! The beginning of the reading of operands.
ghost use Rattle.std.specs.Prelude.{◌≡◌, ◌≤◌, None, length};

use crate::files::Files;
use crate::operand::{Operand, Operands};
use node_file::NodeReader;
use rec_words::Rec;
use shelf_model::{FileNo, Shelf, SortFault};

/// How many records of the room the reader of an operand has.
pub const READING: usize = 88;

impl<'r> Operands<'r> {
    ghost use Rattle.std.specs.Prelude.{IsTrue, IfOk, IfErr};
    ghost use Rattle.shelf_model.specs.Calls.{Told};
    ghost use Rattle.block_stream.specs.Reads.{Looked};
    ghost use Rattle.run_tiers.specs.Faults.{OnlySortShelf};
    ghost use Rattle.tuple_asks.specs.Operands.{AreOperands, HaveFiles, IsStartDamage};
    ghost use Rattle.tuple_asks.specs.Operands.{HasNoHands, AreReading};
    ghost use Rattle.tuple_asks.specs.Damage.{IsStartFault};
    ghost use Rattle.sweep_core.specs.Sweeps.{IsNoDamage};
    ghost use Rattle.top_down.specs.declared.tuple.Tuple.{Tuple};
    ghost use Rattle.top_down_laws.specs.Readings.{Diagrams};
    ghost use Rattle.tuple_asks.specs.Readings.{AreNodeFiles, AreUnread};

    /// Begins with no node at hand, in a room of three times [`READING`] records.
    pub fn start<S: Shelf>(
        files: &Files,
        n: u32,
        room: &'r mut [Rec],
        shelf: &mut S,
    ) -> Result<Operands<'r>, SortFault>
        requires enough { 264 ≤ length room.old }
        ensures are { IfOk result (AreOperands n) }
        ensures files { IfOk result (HaveFiles files.now) }
        ensures unread { IfOk result HasNoHands }
        ensures reading { IfOk result (λ o. IsTrue (S.tells shelf.new) → AreReading o (S.world shelf.new)) }
        ensures damage { IfErr result (IsStartDamage files.now) }
        ensures trailer { IfErr result (λ e. IsTrue (S.tells shelf.new) →
            IsStartFault files.now n (S.world shelf.old) e) }
        ensures nodes { IfOk result (λ o. IsTrue (S.tells shelf.new) → (roots : Tuple) → (d : Diagrams) →
            AreNodeFiles files.now (S.world shelf.old) n roots d → AreUnread o (S.world shelf.new) roots d) }
        ensures undamaged { IfErr result (λ e. IsTrue (S.tells shelf.new) → (roots : Tuple) → (d : Diagrams) →
            AreNodeFiles files.now (S.world shelf.old) n roots d → IsNoDamage e) }
        ensures content { Told S.tells shelf.old shelf.new (Looked 6 (S.world shelf.old) (S.world shelf.new)) }
        ensures faults { OnlySortShelf (S.faults shelf.old) (S.faults shelf.new) result }
    {
        let (front, back) = room.split_at_mut(READING);
        let (middle, last) = back.split_at_mut(READING);
        let first = Operand::start(files.first, n, front, shelf)?;
        let second = Operand::start(files.second, n, middle, shelf)?;
        let third = Operand::start(files.third, n, last, shelf)?;
        Ok(Operands {
            first,
            second,
            third,
        })
    }
}

impl<'r> Operand<'r> {
    ghost use Rattle.std.specs.Prelude.{IsTrue, IfOk, IfErr};
    ghost use Rattle.shelf_model.specs.Calls.{Told};
    ghost use Rattle.block_stream.specs.Reads.{Looked};
    ghost use Rattle.run_tiers.specs.Faults.{OnlySortShelf};
    ghost use Rattle.node_reading.specs.Reading.{IsReading, IsTrailerFault, IsFaultOf};
    ghost use Rattle.tuple_asks.specs.Operands.{IsOperand};
    ghost use Rattle.std.specs.Prelude.{ℕ, List};
    ghost use Rattle.rec_words.specs.declared.node.Node.{Node};
    ghost use Rattle.sweep_core.specs.Sweeps.{IsNoDamage};
    ghost use Rattle.tuple_asks.specs.Readings.{IsNodeFile, IsUnread};

    /// Begins with no node at hand.
    pub fn start<S: Shelf>(
        file: FileNo,
        n: u32,
        window: &'r mut [Rec],
        shelf: &mut S,
    ) -> Result<Operand<'r>, SortFault>
        requires enough { 8 ≤ length window.old }
        ensures is { IfOk result (IsOperand n) }
        ensures file { IfOk result (λ o. o.file ≡ file) }
        ensures unread { IfOk result (λ o. o.hand ≡ None) }
        ensures reading { IfOk result (λ o. IsTrue (S.tells shelf.new) → IsReading o.reader (S.world shelf.new)) }
        ensures damage { IfErr result (IsFaultOf file) }
        ensures trailer { IfErr result (λ e. IsTrue (S.tells shelf.new) →
            IsTrailerFault file n (S.world shelf.old) e) }
        ensures nodes { IfOk result (λ o. IsTrue (S.tells shelf.new) → (root : ℕ) → (nodes : List Node) →
            IsNodeFile file (S.world shelf.old) n root nodes → IsUnread o (S.world shelf.new) root nodes) }
        ensures undamaged { IfErr result (λ e. IsTrue (S.tells shelf.new) → (root : ℕ) → (nodes : List Node) →
            IsNodeFile file (S.world shelf.old) n root nodes → IsNoDamage e) }
        ensures content { Told S.tells shelf.old shelf.new (Looked 2 (S.world shelf.old) (S.world shelf.new)) }
        ensures faults { OnlySortShelf (S.faults shelf.old) (S.faults shelf.new) result }
    {
        let reader = NodeReader::start(file, n, window, shelf)?;
        Ok(Operand {
            file,
            reader,
            hand: None,
        })
    }
}
