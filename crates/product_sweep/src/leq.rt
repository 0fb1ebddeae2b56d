//! Whether one function implies another, as a sweep.
use crate::ProductSweep;
use crate::resume::phase_of;
use bool_tables::Bin;
use rec_words::Rec;
use run_merge::Parts;
use shelf_model::{FileNo, Shelf, SortFault};
use sweep_core::{Checkpoint, Sweep, Turn};
use table_work::TableSweep;

/// Whether the left function implies the right one everywhere: the arcs of "left and not right" are made, until one
/// leads to 1 or there are no more.
///
/// After a refusal it isn't used again.
#[derive(Drop)]
pub struct LeqSweep<'r> {
    pub(crate) product: ProductSweep<'r>,
    pub(crate) phase: LeqPhase,
}

/// How far it is.
#[derive(Clone, Copy, Debug, PartialEq, Eq)]
pub(crate) enum LeqPhase {
    /// The arcs are made.
    Making,
    /// All is done.
    Answered(bool),
}

impl<'r> LeqSweep<'r> {
    ghost use Rattle.std.specs.Prelude.{◌≡◌, ◌+◌, ◌*◌, ◌≤◌, ◌∷◌, [], Bool, List, IsTrue, IfOk, IfErr, length};
    ghost use Rattle.bool_tables.specs.declared.steps.Step.TheVariants.{Leq};
    ghost use Rattle.step_work.specs.Works.{work_for};
    ghost use Rattle.sweep_core.specs.Accounts.{CanBeTaken};
    ghost use Rattle.sweep_core.specs.Sweeps.{IsNoDamage};
    ghost use Rattle.top_down_sweep.specs.Beginning.{after_two, files_from, Begun, Starts};
    ghost use Rattle.product_sweep.specs.Products.{rule_of, begins_of};
    ghost use Rattle.top_down_sweep.specs.Sweeps.{parts_of, variables_of};
    ghost use Rattle.node_file.specs.Canonical.{IsCanonicalFile};
    ghost use Rattle.table_work.specs.Tables.{operand_files};
    ghost use Rattle.product_sweep.specs.Implications.{IsReady, IsInStep, IsTrusted, product_in, Refutes, turns_left};
    ghost use Rattle.product_sweep.specs.Implications.{TellsAnswer, Turned};

    /// Begins with the files of two diagrams of `n` variables, which may be one file. The next two parts are its files
    /// of arcs, and those behind them are for its queue.
    pub fn start<S: Shelf>(
        n: u32,
        f: FileNo,
        g: FileNo,
        parts: Parts,
        room: &'r mut [Rec],
        shelf: &mut S,
    ) -> Result<LeqSweep<'r>, SortFault>
        requires room { 16384 ≤ length room.old }
        requires past_made { 3 ≤ parts.next }
        ensures ready { IfOk result IsReady }
        ensures in_step { IfOk result (λ s. IsTrue (S.tells shelf.new) → IsInStep s (S.world shelf.new)) }
        ensures trusts { IfOk result (λ s. IsTrue (S.tells shelf.new) → IsTrusted s (S.world shelf.new)) }
        ensures begun { IfOk result (λ s. Begun rule_of begins_of S.tells S.world
            (files_from (operand_files f g g) parts) (after_two parts) shelf.old shelf.new (product_in s)) }
        ensures variables { IfOk result (λ s. variables_of (product_in s) ≡ n) }
        ensures leaves { Starts S.tells S.world S.faults n (files_from (operand_files f g g) parts) parts
            shelf.old shelf.new result }
        ensures few_calls { IsTrue (S.tells shelf.new) →
            (S.world shelf.new).clock ≤ (S.world shelf.old).clock + 8 }

        // of canonical files it remains to be answered whether the left function implies the right one, within half of
        // the step's work, and none of them is damaged
        ensures means { IfOk result (λ s. IsTrue (S.tells shelf.new) → (t u : List Bool) →
            IsCanonicalFile n t f (S.world shelf.old) → IsCanonicalFile n u g (S.world shelf.old) →
            ¬ CanBeTaken parts.step 3 f → ¬ CanBeTaken parts.step 3 g →
            Refutes s (S.world shelf.new) (record { n = n; left = t; right = u })) }
        ensures half { IfOk result (λ s. IsTrue (S.tells shelf.new) → (t u : List Bool) →
            IsCanonicalFile n t f (S.world shelf.old) → IsCanonicalFile n u g (S.world shelf.old) →
            ¬ CanBeTaken parts.step 3 f → ¬ CanBeTaken parts.step 3 g →
            2 * turns_left s (S.world shelf.new) (record { n = n; left = t; right = u })
            ≤ work_for n (Leq 0 1) (t ∷ u ∷ [])) }
        ensures undamaged { IfErr result (λ e. IsTrue (S.tells shelf.new) → (t u : List Bool) →
            IsCanonicalFile n t f (S.world shelf.old) → IsCanonicalFile n u g (S.world shelf.old) →
            ¬ CanBeTaken parts.step 3 f → ¬ CanBeTaken parts.step 3 g → IsNoDamage e) }
    {
        let refuting = Bin {
            v00: false,
            v01: false,
            v10: true,
            v11: false,
        };
        let product = ProductSweep::start(refuting, n, f, g, parts, room, shelf)?;
        Ok(LeqSweep {
            product,
            phase: LeqPhase::Making,
        })
    }

    /// Whether the left function implies the right one everywhere, once the sweep has ended.
    pub fn answer(&self) -> Option<bool>
        ensures { TellsAnswer self.now result }
    {
        match self.phase {
            LeqPhase::Answered(answer) => Some(answer),
            _ => None,
        }
    }

    /// The part numbers that weren't taken.
    pub fn parts(&self) -> Parts
        ensures { result ≡ parts_of (product_in self.now) }
    {
        self.product.parts()
    }

    // Makes arcs on. Where one was made that leads to 1, or all are made, it is answered.
    fn make<S: Shelf>(&mut self, shelf: &mut S) -> Result<Turn, SortFault>
        requires phase { self.old.phase ≡ LeqPhase.Making }
        requires ready { IsReady self.old }
        requires in_step { IsTrue (S.tells shelf.old) → IsInStep self.old (S.world shelf.old) }
        ensures { Turned S.tells S.world S.faults shelf.old shelf.new self.old self.new result }
    {
        if self.product.sweep.meets_one() {
            self.product.sweep.end_early(shelf)?;
            self.phase = LeqPhase::Answered(false);
            return Ok(Turn::Ended);
        }
        let turn = self.product.turn(shelf)?;
        if turn == Turn::Ended {
            self.phase = LeqPhase::Answered(!self.product.sweep.meets_one());
        }
        Ok(turn)
    }
}

impl<'r> Sweep<'r> for LeqSweep<'r> {
    ghost use Rattle.table_work.specs.TableSaving.{table_stays};
    ghost use Rattle.top_down_sweep.specs.Resumes.{Blames, top_saving};
    ghost use Rattle.top_down_sweep.specs.ResumeLaws.{stays, apart};
    ghost use Rattle.top_down_sweep.specs.Sweeps.{SweepTask};
    ghost use Rattle.product_sweep.specs.Implications.{Implication, Refutes, fuel_of, turns_left, accounts, IsDamage};
    ghost use Rattle.product_sweep.specs.Implications.{task_of, IsReady, IsInStep, IsTrusted};
    ghost use Rattle.product_sweep.specs.LeqSaving.{leq_saving, product_words, leq_stays};
    ghost use Rattle.product_sweep.specs.Products.{rule_of, begins_of};
    ghost use Rattle.product_sweep.specs.Trusting.{refutes_trusted};

    ghost Job = { Implication };

    ghost remains = { Refutes };

    ghost fuel = { fuel_of };

    ghost left = { turns_left };

    ghost accounts = { accounts };

    ghost damaged = { IsDamage };

    ghost blames = { Blames product_words };

    ghost Task = { SweepTask };

    ghost task = { task_of };

    ghost saving = { leq_saving };

    ghost ready = { IsReady };

    ghost in_step = { IsInStep };

    ghost trusts = { IsTrusted };

    ghost trusted = { refutes_trusted };

    fn turn<S: Shelf>(&mut self, shelf: &mut S) -> Result<Turn, SortFault> {
        match self.phase {
            LeqPhase::Making => self.make(shelf),
            LeqPhase::Answered(_) => Ok(Turn::Ended),
        }
    }

    fn carry<S: Shelf>(&mut self, shelf: &mut S, into: &mut Checkpoint) -> Result<(), SortFault> {
        match self.phase {
            LeqPhase::Making => self.carry_arcs(shelf, into),
            LeqPhase::Answered(_) => unreachable!(),
        }
    }

    fn rebuild<S: Shelf>(
        from: &Checkpoint,
        text: &'r [u8],
        room: &'r mut [Rec],
        shelf: &mut S,
    ) -> Result<LeqSweep<'r>, SortFault> {
        let product = TableSweep::rebuild(from, text, room, shelf)?;
        let phase = phase_of(&product);
        Ok(LeqSweep { product, phase })
    }

    ghost stays = { leq_stays (table_stays (top_saving product_words rule_of begins_of)
        (stays product_words rule_of begins_of)) };

    ghost apart = { apart product_words };
}
