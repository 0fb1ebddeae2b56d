ghost use Rattle.bool_tables.specs.Plans.{IsWellFormed};
ghost use Rattle.script_reader.specs.Lines.{AreLines};

use bool_tables::Planned;
use script_reader::LineEnd;

/// The job of a run: a plan for `n` variables over a script's text, the lines that its run says, and the bytes by
/// which a folder tells it from others, with the budget of the run.
#[derive(Clone, Copy)]
pub(crate) struct Job<'a> {
    pub(crate) n: u32,
    pub(crate) text: &'a [u8],
    pub(crate) steps: &'a [Planned],
    pub(crate) lines: &'a [LineEnd],
    pub(crate) bytes: &'a [u8],
    ghost well_formed: { IsWellFormed n text.now steps.now },
    ghost are_lines: { AreLines steps.now lines.now },
}
