//! How a sweep that answers an implication is saved, and how far one is that was rebuilt.
ghost use Rattle.std.specs.Prelude.{◌≡◌, IsTrue};
ghost use Rattle.product_sweep.specs.Implications.{IsReady, IsInStep};
ghost use Rattle.product_sweep.specs.LeqSaving.{Carried, leq_saving};
ghost use Rattle.product_sweep.specs.LeqPhases.{IsPhaseOf};

use crate::ProductSweep;
use crate::leq::{LeqPhase, LeqSweep};
use shelf_model::{Shelf, SortFault};
use sweep_core::{Checkpoint, Sweep};

impl<'r> LeqSweep<'r> {
    ghost use Rattle.sweep_core.specs.Saving.{IsOfStep};
    ghost use Rattle.product_sweep.specs.Implications.{accounts, task_of};

    // Saves the sweep that makes the arcs.
    pub(crate) fn carry_arcs<S: Shelf>(
        &mut self,
        shelf: &mut S,
        into: &mut Checkpoint,
    ) -> Result<(), SortFault>
        requires phase { self.old.phase ≡ LeqPhase.Making }
        requires ready { IsReady self.old }
        requires in_step { IsTrue (S.tells shelf.old) → IsInStep self.old (S.world shelf.old) }
        requires files { IsOfStep (accounts.makes self.old) (leq_saving.operands (task_of self.old))
            (accounts.step self.old) (accounts.next self.old) }
        requires step { into.old.step ≡ accounts.step self.old }
        ensures { Carried S.tells S.world S.faults shelf.old shelf.new self.old self.new into.old into.new result }
    {
        self.product.carry(shelf, into)
    }
}

// How far a sweep is whose arcs are made so far.
pub(crate) fn phase_of(product: &ProductSweep) -> LeqPhase
    ensures { IsPhaseOf product.now result }
{
    match product.made() {
        Some(_made) => LeqPhase::Answered(!product.sweep.meets_one()),
        None => LeqPhase::Making,
    }
}
