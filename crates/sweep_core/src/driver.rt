ghost use Rattle.std.specs.Prelude.{◌≡◌, ◌+◌, ◌*◌, ◌-◌, ◌^◌, ◌<◌, ◌≤◌, min, IsTrue, IsErrOf, OnOk, IfOk, IfErr};
ghost use Rattle.shelf_model.specs.declared.file_no.FileNo.{FileNo};
ghost use Rattle.shelf_model.specs.World.{file};
ghost use Rattle.sweep_core.specs.Accounts.{Leaves};
ghost use Rattle.sweep_core.specs.Sweeps.{MovesOn, AtEnd, IsFirm, IsNoDamage};
ghost use Rattle.sweep_core.specs.Counted.{Costs, WereMade, MadeOf, turn_of};

use crate::{Sweep, Turn};
use shelf_model::{Shelf, SortFault};

/// How many turns were made, and how the last of them ended: `More` where there was none.
#[derive(Clone, Copy, Debug, PartialEq, Eq)]
pub struct Made {
    pub turns: u64,
    pub turn: Turn,
}

/// Makes turns of a sweep until one ends it, or so many were made, and answers how many they were.
///
/// What a turn refuses is handed on as it is.
pub fn run_some<'r, P: Sweep<'r>, S: Shelf>(
    sweep: &mut P,
    most: u64,
    shelf: &mut S,
) -> Result<Made, SortFault>
    requires ready { P.ready sweep.old }
    requires in_step { IsTrue (S.tells shelf.old) → P.in_step sweep.old (S.world shelf.old) }
    ensures ready { OnOk result (P.ready sweep.new) }
    ensures in_step { OnOk result (IsTrue (S.tells shelf.new) → P.in_step sweep.new (S.world shelf.new)) }
    ensures made { IfOk result (WereMade most) }
    ensures moves { IfOk result (MadeOf (P.fuel sweep.old) (P.fuel sweep.new)) }
    ensures works { IfOk result (λ made. made.turn ≡ Turn.More → 0 < made.turns → 0 < P.fuel sweep.new) }
    ensures firm { AtEnd (turn_of result) (IsTrue (S.tells shelf.new) → (f : FileNo) →
        P.accounts.makes sweep.new f → IsFirm (file (S.world shelf.new) f)) }

    // what remains
    ensures keeps { OnOk result (IsTrue (S.tells shelf.new) → (job : P.Job) →
        P.remains sweep.old (S.world shelf.old) job → P.remains sweep.new (S.world shelf.new) job) }
    ensures fewer { IsTrue (S.tells shelf.new) → (job : P.Job) → P.remains sweep.old (S.world shelf.old) job →
        IfOk result (MadeOf (P.left sweep.old (S.world shelf.old) job) (P.left sweep.new (S.world shelf.new) job)) }
    ensures trusts { OnOk result (IsTrue (S.tells shelf.new) →
        P.trusts sweep.old (S.world shelf.old) → P.trusts sweep.new (S.world shelf.new)) }
    ensures damage { IfErr result (λ e. IsTrue (S.tells shelf.new) →
        P.trusts sweep.old (S.world shelf.old) → P.damaged sweep.new (S.world shelf.new) e) }
    ensures undamaged { IfErr result (λ e. IsTrue (S.tells shelf.new) → (job : P.Job) →
        P.remains sweep.old (S.world shelf.old) job → IsNoDamage e) }

    // what the turns leave; what they cost by their number, by what is known to remain, and whatever the folder holds
    ensures leaves { Leaves S.tells S.world S.faults P.accounts (224 * min most (P.fuel sweep.old + 1))
        (12 * min most (P.fuel sweep.old + 1)) shelf.old shelf.new sweep.old sweep.new result }
    ensures counted { IfOk result (λ made.
        Costs S.tells S.world P.accounts made.turns shelf.old shelf.new sweep.old sweep.new) }
    ensures few { IsTrue (S.tells shelf.new) → (job : P.Job) → P.remains sweep.old (S.world shelf.old) job →
        Costs S.tells S.world P.accounts (min most (P.left sweep.old (S.world shelf.old) job + 1))
        shelf.old shelf.new sweep.old sweep.new }
    ensures same { P.task sweep.new ≡ P.task sweep.old }
    ensures spent { IsErrOf result SortFault.RunsSpent → 2 ^ 32 ≤ P.accounts.next sweep.new }
{
    for turn in 0..most {
        if sweep.turn(shelf)? == Turn::Ended {
            return Ok(Made {
                turns: turn + 1,
                turn: Turn::Ended,
            });
        }
    }
    Ok(Made {
        turns: most,
        turn: Turn::More,
    })
}

/// Makes turns of a sweep until one ends it, or so many were made.
///
/// What a turn refuses is handed on as it is.
pub fn drive<'r, P: Sweep<'r>, S: Shelf>(
    sweep: &mut P,
    turns: u64,
    shelf: &mut S,
) -> Result<Turn, SortFault>
    requires ready { P.ready sweep.old }
    requires in_step { IsTrue (S.tells shelf.old) → P.in_step sweep.old (S.world shelf.old) }
    ensures ready { OnOk result (P.ready sweep.new) }
    ensures in_step { OnOk result (IsTrue (S.tells shelf.new) → P.in_step sweep.new (S.world shelf.new)) }
    ensures moves { MovesOn turns (P.fuel sweep.old) (P.fuel sweep.new) result }
    ensures firm { AtEnd result (IsTrue (S.tells shelf.new) → (f : FileNo) →
        P.accounts.makes sweep.new f → IsFirm (file (S.world shelf.new) f)) }

    // what remains
    ensures keeps { OnOk result (IsTrue (S.tells shelf.new) → (job : P.Job) →
        P.remains sweep.old (S.world shelf.old) job → P.remains sweep.new (S.world shelf.new) job) }
    ensures fewer { IsTrue (S.tells shelf.new) → (job : P.Job) → P.remains sweep.old (S.world shelf.old) job →
        MovesOn turns (P.left sweep.old (S.world shelf.old) job) (P.left sweep.new (S.world shelf.new) job) result }
    ensures trusts { OnOk result (IsTrue (S.tells shelf.new) →
        P.trusts sweep.old (S.world shelf.old) → P.trusts sweep.new (S.world shelf.new)) }
    ensures damage { IfErr result (λ e. IsTrue (S.tells shelf.new) →
        P.trusts sweep.old (S.world shelf.old) → P.damaged sweep.new (S.world shelf.new) e) }
    ensures undamaged { IfErr result (λ e. IsTrue (S.tells shelf.new) → (job : P.Job) →
        P.remains sweep.old (S.world shelf.old) job → IsNoDamage e) }

    // what the turns leave, and what they cost
    ensures leaves { Leaves S.tells S.world S.faults P.accounts (224 * turns) (12 * turns)
        shelf.old shelf.new sweep.old sweep.new result }
    ensures same { P.task sweep.new ≡ P.task sweep.old }
    ensures spent { IsErrOf result SortFault.RunsSpent → 2 ^ 32 ≤ P.accounts.next sweep.new }
{
    let made = run_some(sweep, turns, shelf)?;
    Ok(made.turn)
}

/// Makes turns of a sweep until it ends, and answers how many they were: at least one, and as many as 64 bits count.
///
/// What a turn refuses is handed on as it is.
pub fn run_to_end<'r, P: Sweep<'r>, S: Shelf>(
    sweep: &mut P,
    shelf: &mut S,
) -> Result<u64, SortFault>
    requires ready { P.ready sweep.old }
    requires in_step { IsTrue (S.tells shelf.old) → P.in_step sweep.old (S.world shelf.old) }
    ensures ready { OnOk result (P.ready sweep.new) }
    ensures in_step { OnOk result (IsTrue (S.tells shelf.new) → P.in_step sweep.new (S.world shelf.new)) }
    ensures ended { OnOk result (P.fuel sweep.new ≡ 0) }
    ensures firm { OnOk result (IsTrue (S.tells shelf.new) → (f : FileNo) →
        P.accounts.makes sweep.new f → IsFirm (file (S.world shelf.new) f)) }

    // what remains
    ensures keeps { OnOk result (IsTrue (S.tells shelf.new) → (job : P.Job) →
        P.remains sweep.old (S.world shelf.old) job → P.remains sweep.new (S.world shelf.new) job) }
    ensures trusts { OnOk result (IsTrue (S.tells shelf.new) →
        P.trusts sweep.old (S.world shelf.old) → P.trusts sweep.new (S.world shelf.new)) }
    ensures damage { IfErr result (λ e. IsTrue (S.tells shelf.new) →
        P.trusts sweep.old (S.world shelf.old) → P.damaged sweep.new (S.world shelf.new) e) }
    ensures undamaged { IfErr result (λ e. IsTrue (S.tells shelf.new) → (job : P.Job) →
        P.remains sweep.old (S.world shelf.old) job → IsNoDamage e) }

    // what the turns leave; what they cost by their number, by what is known to remain, and whatever the folder holds
    ensures leaves { Leaves S.tells S.world S.faults P.accounts
        (224 * (P.fuel sweep.old + 1)) (12 * (P.fuel sweep.old + 1)) shelf.old shelf.new sweep.old sweep.new result }
    ensures counted { IfOk result (λ turns. (0 < turns) × (turns < 2 ^ 64 - 1 →
        Costs S.tells S.world P.accounts turns shelf.old shelf.new sweep.old sweep.new)) }
    ensures few { IsTrue (S.tells shelf.new) → (job : P.Job) → P.remains sweep.old (S.world shelf.old) job →
        IfOk result (λ turns. turns ≤ P.left sweep.old (S.world shelf.old) job + 1)
        × Costs S.tells S.world P.accounts (P.left sweep.old (S.world shelf.old) job + 1)
        shelf.old shelf.new sweep.old sweep.new }
    ensures same { P.task sweep.new ≡ P.task sweep.old }
    ensures spent { IsErrOf result SortFault.RunsSpent → 2 ^ 32 ≤ P.accounts.next sweep.new }
{
    let mut turns: u64 = 0;
    'turns: loop {
        let made = run_some(sweep, u64::MAX, shelf)?;
        turns = turns.saturating_add(made.turns);
        if made.turn == Turn::Ended {
            return Ok(turns);
        }
    }
}
