//! The lines that a run says.
ghost use Rattle.std.specs.Prelude.{◌≡◌, ◌⊎◌, ◌+◌, ◌-◌, ◌*◌, ◌<◌, ◌≤◌, [], ◌∷◌, IsTrue, IfOk, IfErr, length};
ghost use Rattle.std.specs.Prelude.{take, drop, get_or, nat_le, nat_lt};
ghost use Rattle.std.specs.List.{list_all};
ghost use Rattle.shelf_model.specs.World.{now};
ghost use Rattle.shelf_model.specs.Calls.{Told};
ghost use Rattle.shelf_model.specs.Moments.{Ran, Stays};
ghost use Rattle.catalogue.specs.Counts.{count_in, present};
ghost use Rattle.catalogue.specs.Commits.{IsReady};
ghost use Rattle.catalogue.specs.Entries.{IsEntryOf};
ghost use Rattle.step_work.specs.Plans.{no_step};
ghost use Rattle.sound_image.specs.Entries.{kind_of};
ghost use Rattle.script_reader.specs.Lines.{rise_from, shows_past};
ghost use Rattle.script_runner.specs.StepRuns.{SaysLines, IsReadFault};
ghost use Rattle.script_runner.specs.Causes.{StopHasCause};

use crate::Finish;
use crate::line::answer_line;
use bool_tables::Planned;
use catalogue::Entry;
use script_reader::LineEnd;
use shelf_model::{Shelf, Station, StreamFault};
use step_engine::{entry_of_kind, kind_of};

/// How many lines come before a step: as they rise, these are the first of them.
pub(crate) fn count_before(step: u32, lines: &[LineEnd]) -> usize
    requires { IsTrue (rise_from 0 lines.now) }
    ensures within { result ≤ length lines.now }
    ensures front { IsTrue (list_all (λ line. nat_lt line.last step) (take result lines.now)) }
    ensures rest { IsTrue (rise_from step (drop result lines.now)) }
{
    for (count, line) in lines.iter().enumerate() {
        if line.last >= step {
            return count;
        }
    }
    lines.len()
}

/// Behind which step the next line is said, or how many steps there are where none is left: no line is said between
/// `step` and the one before it.
pub(crate) fn next_end(step: u32, steps: u32, rest: &[LineEnd]) -> u32
    requires within { step < steps }
    requires rise { IsTrue (rise_from step rest.now) }
    requires shown { IsTrue (list_all (shows_past steps) rest.now) }
    ensures within { (step < result) × (result ≤ steps) }
    ensures none { IsTrue (rise_from (result - 1) rest.now) }
{
    match rest.first() {
        Some(line) => line.last + 1,
        None => steps,
    }
}

/// The entry of a committed step: the one at hand, or as it is read from the folder.
fn shown_entry<S: Shelf>(
    steps: &[Planned],
    k: u32,
    made: &Entry,
    shelf: &mut S,
) -> Result<Entry, Finish>
    requires within { k < length steps.now }
    requires committed { IsTrue (S.tells shelf.old) → k < count_in (present (now (S.world shelf.old)).folder) }
    ensures content { Told S.tells shelf.old shelf.new
        (Ran (Stays (now (S.world shelf.old))) (S.world shelf.old) (S.world shelf.new)) }
    ensures calls { IsTrue (S.tells shelf.new)
        → (S.world shelf.new).clock ≤ (S.world shelf.old).clock + 1 }
    ensures shown { IfOk result (λ e. (k ≡ made.now.number × (e ≡ made.now))
        ⊎ (IsTrue (S.tells shelf.new) → IsEntryOf k (present (now (S.world shelf.old)).folder) e)) }
    ensures damaged { IfErr result (λ finish. IsTrue (S.tells shelf.new) →
        IsReadFault k (kind_of (get_or steps.now k no_step).step) (present (now (S.world shelf.old)).folder) finish) }
    ensures causes { StopHasCause (S.faults shelf.old) (S.faults shelf.new) result }
{
    if k == made.number {
        return Ok(*made);
    }
    match entry_of_kind(k, kind_of(steps[k as usize].step), shelf) {
        Ok(entry) => Ok(entry),
        Err(StreamFault::Damaged { file, at }) => Err(Finish::Damaged { file, at }),
        Err(StreamFault::Shelf) => Err(Finish::FolderFault),
    }
}

/// Says the line that shows the answer of a committed step, the last of which has the entry at hand.
fn say_line<W: Station>(
    steps: &[Planned],
    line: &LineEnd,
    made: &Entry,
    station: &mut W,
) -> Result<(), Finish>
    requires within { line.now.shows < length steps.now }
    requires ready { IsTrue (W.tells station.old) → IsReady (made.now.number + 1) (now (W.world station.old)).folder }
    requires stands { IsTrue (W.tells station.old)
        → IsEntryOf made.now.number (present (now (W.world station.old)).folder) made.now }
    requires shown { line.now.shows ≤ made.now.number }
    ensures content { Told W.tells station.old station.new
        (SaysLines steps.now (made.now.number + 1) (line.now ∷ []) made.now result (W.world station.old)
        (W.world station.new)) }
    ensures calls { IsTrue (W.tells station.new)
        → (W.world station.new).clock ≤ (W.world station.old).clock + 2 }
    ensures causes { StopHasCause (W.faults station.old) (W.faults station.new) result }
{
    let entry = shown_entry(steps, line.shows, made, station)?;
    let text = answer_line(
        line.line,
        steps[line.shows as usize].step,
        entry.answer,
        entry.count,
    );
    match station.say(text.as_str().as_bytes()) {
        Ok(()) => Ok(()),
        Err(_) => Err(Finish::SayFault),
    }
}

/// Says lines, each of which shows the answer of a committed step, the last of which has the entry at hand.
pub(crate) fn say_lines<W: Station>(
    steps: &[Planned],
    lines: &[LineEnd],
    made: &Entry,
    station: &mut W,
) -> Result<(), Finish>
    requires within { made.now.number < length steps.now }
    requires ready { IsTrue (W.tells station.old) → IsReady (made.now.number + 1) (now (W.world station.old)).folder }
    requires stands { IsTrue (W.tells station.old)
        → IsEntryOf made.now.number (present (now (W.world station.old)).folder) made.now }
    requires shown { IsTrue (list_all (λ line. nat_le line.shows made.now.number) lines.now) }
    ensures content { Told W.tells station.old station.new
        (SaysLines steps.now (made.now.number + 1) lines.now made.now result (W.world station.old)
        (W.world station.new)) }
    ensures calls { IsTrue (W.tells station.new)
        → (W.world station.new).clock ≤ (W.world station.old).clock + 2 * length lines.now }
    ensures causes { StopHasCause (W.faults station.old) (W.faults station.new) result }
{
    for line in lines {
        say_line(steps, line, made, station)?;
    }
    Ok(())
}
