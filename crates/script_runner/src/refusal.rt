//! Lines that say why a call of the program ends.
ghost use Rattle.std.specs.Prelude.{◌≡◌, ◌≢◌, ◌⊎◌, ◌+◌, ◌<◌, ◌≤◌, ◌++◌, length, IsTrue};
ghost use Rattle.shelf_model.specs.World.{said};
ghost use Rattle.shelf_model.specs.Calls.{Told};
ghost use Rattle.script_runner.specs.Running.{SaysOnly};
ghost use Rattle.script_runner.specs.Entered.{EndingHasCause};

use crate::ending::Ending;
use shelf_model::Station;

/// Says a line of refusal, and answers the ending that it stands for, unless it couldn't be said.
pub(crate) fn say_refusal<W: Station>(line: &[u8], ending: Ending, station: &mut W) -> Ending
    requires small { (0 < length line.now) × (length line.now ≤ 2048) }
    requires refusal { (ending ≢ Ending.FolderFault) × (ending ≢ Ending.SayFault) }
    ensures content { Told W.tells station.old station.new
        (SaysOnly line.now (W.world station.old) (W.world station.new)) }
    ensures calls { IsTrue (W.tells station.new)
        → (W.world station.new).clock ≤ (W.world station.old).clock + 1 }
    ensures whole { result ≡ ending → IsTrue (W.tells station.new) →
        said (W.world station.new) ≡ said (W.world station.old) ++ line.now }
    ensures which { (result ≡ ending) ⊎ (result ≡ Ending.SayFault) }
    ensures cause { EndingHasCause (W.faults station.old) (W.faults station.new) result }
{
    match station.say(line) {
        Ok(()) => ending,
        Err(_) => Ending::SayFault,
    }
}
