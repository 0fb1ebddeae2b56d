//! What the words give: the values of the command's places and options.
ghost use Rattle.std.specs.Prelude.{◌≡◌, ◌≢◌, map, Some, None, string_bytes, IfOk, IsErrOf};
ghost use Rattle.command_words.specs.Readings.{given_of};
ghost use Rattle.command_words.specs.Views.{view_of};

use crate::command::matches_for;
use crate::fault::WordsFault;
use std::alloc::Global;

/// The action, the folder, and the value of each option that is there.
#[derive(Clone, Copy, Debug)]
pub(crate) struct Given<'a> {
    pub action: Option<&'a str>,
    pub folder: Option<&'a str>,
    pub script: Option<&'a str>,
    pub netlist: Option<&'a str>,
    pub budget: Option<&'a str>,
    pub size: Option<&'a str>,
}

/// What the words give.
pub(crate) fn given_for<'a>(alloc: Global, words: &'a [String]) -> Result<Given<'a>, WordsFault>
    ensures given { IfOk result (λ g. given_of (map (λ word. string_bytes word) words.entry.now) ≡ Some (view_of g)) }
    ensures usage { IsErrOf result WordsFault.Usage
        → given_of (map (λ word. string_bytes word) words.entry.now) ≡ None }
{
    let matches = matches_for(alloc, words)?;
    Ok(Given {
        action: matches.get_str("action"),
        folder: matches.get_str("folder"),
        script: matches.get_str("script"),
        netlist: matches.get_str("netlist"),
        budget: matches.get_str("budget"),
        size: matches.get_str("size"),
    })
}
