//! What is saved of an operand.
use crate::operand::Operand;
use crate::saved::SavedOperand;

impl<'r> Operand<'r> {
    ghost use Rattle.std.specs.Prelude.{◌≡◌};
    ghost use Rattle.tuple_asks.specs.Resuming.{saved_operand};

    /// What is saved of it.
    pub fn saved(&self) -> SavedOperand
        ensures { result ≡ saved_operand self.now }
    {
        let read = match self.hand {
            Some(_node) => Some(self.reader.place()),
            None => None,
        };
        SavedOperand {
            file: self.file,
            read,
        }
    }
}
