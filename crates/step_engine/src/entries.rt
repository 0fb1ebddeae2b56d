//! The entries of steps.
ghost use Rattle.std.specs.Prelude.{◌≡◌, IsTrue};
ghost use Rattle.bool_tables.specs.Plans.{has_name};
ghost use Rattle.catalogue.specs.Entries.{IsEntry};
ghost use Rattle.step_engine.specs.StepEntries.{diagram_entry, nameless_entry, answer_entry, one_turn};

use bool_tables::Planned;
use catalogue::Entry;
use file_numbers::INNER_PART;
use step_sweeps::Answered;

/// What a step took: its turns, and the next part number.
#[derive(Clone, Copy, Debug, PartialEq, Eq)]
pub(crate) struct Spent {
    pub(crate) turns: u64,
    pub(crate) parts: u64,
}

impl Spent {
    /// One turn, and no part of those that are taken while a step sweeps.
    pub(crate) const ONE_TURN: Spent = Spent {
        turns: 1,
        parts: INNER_PART,
    };
}

/// The entry of a diagram with so many nodes.
pub(crate) fn diagram_entry(
    text: &[u8],
    planned: &Planned,
    number: u32,
    nodes: u64,
    spent: Spent,
) -> Entry
    requires named { IsTrue (has_name text.now planned.now) }
    ensures { result ≡ diagram_entry text.now planned.now number nodes spent }
{
    let at = planned.name_at as usize;
    let len = planned.name_len as usize;
    let mut name = [0; 63];
    name[..len].copy_from_slice(&text[at..at + len]);
    Entry {
        number,
        kind: 1,
        answer: 0,
        count: nodes,
        turns: spent.turns,
        parts: spent.parts,
        name_len: planned.name_len as u8,
        name,
    }
}

/// The entry of a drop or a size, with what it counts.
pub(crate) fn nameless_entry(number: u32, kind: u8, count: u64) -> Entry
    ensures { result ≡ nameless_entry number kind 0 count Spent.ONE_TURN }
{
    Entry {
        number,
        kind,
        answer: 0,
        count,
        turns: Spent::ONE_TURN.turns,
        parts: Spent::ONE_TURN.parts,
        name_len: 0,
        name: [0; 63],
    }
}

/// The entry of a drop of that step's diagram. It wants no call of the folder, so that drops can be committed together
/// with the step before them.
pub fn drop_entry(number: u32, gone: u32) -> Entry
    ensures is { result ≡ nameless_entry number 2 0 gone one_turn }
    ensures entry { IsEntry result }
{
    nameless_entry(number, 2, u64::from(gone))
}

/// The entry of a yes or a no, or of a value.
pub(crate) fn answer_entry(number: u32, answered: Answered) -> Entry
    ensures { result ≡ answer_entry number answered.answer
        (record { turns = answered.turns; parts = answered.next }) }
{
    Entry {
        number,
        kind: 3,
        answer: u8::from(answered.answer),
        count: 0,
        turns: answered.turns,
        parts: answered.next,
        name_len: 0,
        name: [0; 63],
    }
}
