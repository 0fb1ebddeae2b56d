//! The second half of a step that makes a diagram: from its arcs to its node file.
ghost use Rattle.std.specs.Prelude.{◌≡◌, ◌↔◌, ◌-◌, ◌≤◌, ◌^◌, min, IsTrue, Some, Err, IfOk, IfErr, length};
ghost use Rattle.reduce_sweep.specs.Sweeps.{out_of, inner_file, ends_file, count_in, parts_of, turns_left};
ghost use Rattle.step_sweeps.specs.Given.{AreEarlier};
ghost use Rattle.step_sweeps.specs.Made.{HasArcFiles, node_file};
ghost use Rattle.step_sweeps.specs.Makes.{work_for};
ghost use Rattle.step_sweeps.specs.Reduced.{ReducesTo};
ghost use Rattle.step_sweeps.specs.Kinds.{reduce_kind};
ghost use Rattle.step_sweeps.specs.Started.{Starts};
ghost use Rattle.step_sweeps.specs.Sweeping.{MayReduce, MayResume, Reduces, Sweeps, IsReductionFor};
ghost use Rattle.step_sweeps.specs.Stops.{sweep_stop, reduce_stop};

use crate::MadeDiagram;
use crate::arcs::MadeArcs;
use crate::ended::keep_if_due;
use crate::foreign::foreign_point;
use crate::in_room::reduce_few;
use crate::task::Making;
use arc_diagrams::laws::reducing_gives_the_canonical_form;
use file_numbers::node_file;
use rec_words::Rec;
use reduce_sweep::ReduceSweep;
use shelf_model::{Shelf, SortFault};
use sweep_checkpoint::{Going, run_saved};
use sweep_core::{Checkpoint, Sweep};

/// How many part numbers a step has.
pub(crate) const PARTS: u64 = 1 << 32;

/// The most arcs that are reduced in the room. Their sources are half as many, and two of them take no longer than a
/// turn of a sweep, so that these turns are fewer than a checkpoint's interval has.
const FEW_ARCS: u64 = (1 << 18) - 8;

/// Reduces the arcs of a diagram to the step's node file, behind the turns that made them: in the room where they are
/// few and it holds what that takes, which is saved where that is due, and else by a sweep, for which an attempt in the
/// room counts first.
pub(crate) fn reduce_arcs<S: Shelf>(
    making: Making,
    made: MadeArcs,
    going: &mut Going,
    room: &mut [Rec],
    shelf: &mut S,
) -> Result<MadeDiagram, SortFault>
    requires variables { making.n ≤ 65535 }
    requires room { 16384 ≤ length room.old }
    requires files { HasArcFiles making.number made.arcs }
    requires may { MayReduce making.number going.old made.parts }
    ensures reduces { Reduces S.tells S.world S.faults making made going.old 10
        (reduce_stop going.old made.parts.next) shelf.old shelf.new result }
{
    let arcs = made.arcs.inner_count + made.arcs.ends_count;
    if arcs == 0 || arcs > FEW_ARCS {
        return sweep_arcs(making, made, going, room, shelf);
    }
    let tried = reduce_few(making.n, &made.arcs, making.number, room, shelf)?;
    if let Some(reduced) = tried {
        going.turns = going.turns.saturating_add(reduced.turns);
        let next = made.parts.next;
        keep_if_due(making, reduced.turns, reduced.nodes, next, going, shelf)?;
        return Ok(MadeDiagram {
            nodes: reduced.nodes,
            turns: going.turns,
            next,
        });
    }
    // The attempt's calls are paid by a turn for each 64 arcs, and one.
    going.turns = going.turns.saturating_add(1 + arcs / 64);
    sweep_arcs(making, made, going, room, shelf)
}

/// Reduces them by a sweep.
fn sweep_arcs<S: Shelf>(
    making: Making,
    made: MadeArcs,
    going: &mut Going,
    room: &mut [Rec],
    shelf: &mut S,
) -> Result<MadeDiagram, SortFault>
    requires variables { making.n ≤ 65535 }
    requires room { 16384 ≤ length room.old }
    requires files { HasArcFiles making.number made.arcs }
    requires may { MayReduce making.number going.old made.parts }
    ensures reduces { Reduces S.tells S.world S.faults making made going.old 8
        (sweep_stop going.old made.parts.next) shelf.old shelf.new result }
{
    // A diagram of so few arcs has a canonical form.
    reducing_gives_the_canonical_form();
    going.sweep = 1;
    let out = node_file(making.number);
    let mut sweep = ReduceSweep::start(making.n, made.arcs, out, made.parts, room, shelf)?;
    run_saved(&mut sweep, going, shelf)?;
    Ok(reduced(&sweep, going.turns))
}

/// Goes on with such a sweep from the step's last checkpoint, which has to be one of it.
pub(crate) fn reduce_on<S: Shelf>(
    making: Making,
    going: &mut Going,
    room: &mut [Rec],
    shelf: &mut S,
) -> Result<MadeDiagram, SortFault>
    requires variables { making.n ≤ 65535 }
    requires room { 16384 ≤ length room.old }
    requires earlier { AreEarlier making.number making.operands }
    requires going { MayResume making.number going.old }
    requires second { going.old.sweep ≡ 1 }
    ensures sweeps { Sweeps S.tells S.world S.faults making going.old shelf.old shelf.new result }
{
    // A diagram of so few arcs has a canonical form.
    reducing_gives_the_canonical_form();
    let mut sweep = rebuild_reduction(making, going, room, shelf)?;
    run_saved(&mut sweep, going, shelf)?;
    Ok(reduced(&sweep, going.turns))
}

// The reduction of which the step's last checkpoint has to be one.
fn rebuild_reduction<'r, S: Shelf>(
    making: Making,
    going: &Going,
    room: &'r mut [Rec],
    shelf: &mut S,
) -> Result<ReduceSweep<'r>, SortFault>
    requires room { 16384 ≤ length room.old }
    requires earlier { AreEarlier making.number making.operands }
    requires going { MayResume making.number going.now }
    requires second { going.now.sweep ≡ 1 }
    ensures starts { IfOk result (Starts S.tells S.world S.faults reduce_kind
        (λ g job s. ReducesTo making g job s) (λ g. work_for making g - 1) 0 making going.now shelf.old shelf.new) }
    ensures task { IfOk result (λ s. (out_of s ≡ node_file making.number) × (s.place.variables ≡ making.n)) }
    ensures own { IfOk result (λ s. ((inner_file s).step ≡ making.number) × ((ends_file s).step ≡ making.number)) }
    ensures refused { IfErr result (λ e. Sweeps S.tells S.world S.faults making going.now
        shelf.old shelf.new (Err e)) }
{
    let Some(point) = &going.last else {
        unreachable!();
    };
    if !is_of(point, making) || !ReduceSweep::fits(point) {
        return Err(foreign_point(making.number, shelf));
    }
    ReduceSweep::rebuild(point, &[], room, shelf)
}

// Whether a checkpoint says that arcs in files of the step are reduced to its node file.
fn is_of(point: &Checkpoint, making: Making) -> bool
    ensures { IsTrue result ↔ IsReductionFor making point.now }
{
    let out = node_file(making.number);
    ReduceSweep::names(point, out, making.n) && ReduceSweep::reads_arcs_of(point, making.number)
}

// What a reduction made that has ended, behind so many turns.
fn reduced(sweep: &ReduceSweep, turns: u64) -> MadeDiagram
    requires ended { turns_left sweep.now ≡ 0 }
    ensures nodes { Some result.nodes ≡ count_in sweep.now }
    ensures turns { result.turns ≡ turns }
    ensures next { result.next ≡ min (parts_of sweep.now).next (2 ^ 32) }
{
    let Some(nodes) = sweep.count() else {
        unreachable!();
    };
    MadeDiagram {
        nodes,
        turns,
        // None is given from there on.
        next: sweep.parts().next.min(PARTS),
    }
}
