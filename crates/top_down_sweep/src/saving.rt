//! What is saved of a machine.
use crate::machine::Machine;
use arc_file::Unreduced;
use tuple_asks::{Phase, SavedArcs, SavedMachine};

impl<'r> Machine<'r> {
    ghost use Rattle.std.specs.Prelude.{◌≡◌};
    ghost use Rattle.top_down_sweep.specs.Rebuilds.{saved_machine};

    /// What is saved of it, where its files have these arcs.
    pub(crate) fn saved(&self, made: &Unreduced) -> SavedMachine
        ensures { result ≡ saved_machine self.now made.now }
    {
        let asking = match &self.place.phase {
            Phase::Asking(asking) => Some(*asking),
            _ => None,
        };
        SavedMachine {
            variables: self.place.variables,
            has_one: self.place.has_one,
            first: self.operands.first.saved(),
            second: self.operands.second.saved(),
            third: self.operands.third.saved(),
            arcs: SavedArcs {
                inner: made.inner,
                inner_count: made.inner_count,
                ends: made.ends,
                ends_count: made.ends_count,
            },
            asking,
            taken: self.queue.last(),
        }
    }
}
