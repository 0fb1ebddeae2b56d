//! The words of a netlist by what they are for, in the order of the text.

ghost use Rattle.std.specs.Prelude.{◌≡◌, ◌<◌, ◌≤◌, ◌∷◌, MatchOption, List, ℕ, map, take, drop, length};
ghost use Rattle.blif_reader.specs.Statements.{statement_of};
ghost use Rattle.blif_reader.specs.Parts.{part_words, uses_in};
ghost use Rattle.blif_reader.specs.Lines.{words_left};
ghost use Rattle.blif_reader.specs.Words.{use_of, uses_left};

use crate::grammar::Kind;
use crate::lines::JoinedWords;
use crate::statement::Statement;

/// What words are wanted: inputs, outputs, the outputs of blocks, what is driven, what is used.
#[derive(Clone, Copy, Debug, PartialEq, Eq)]
pub(crate) enum Part {
    Inputs,
    Outputs,
    Blocks,
    Drivers,
    Uses,
}

/// A word, and the line that it stands on.
#[derive(Clone, Copy)]
pub(crate) struct Use<'a> {
    pub line: u32,
    pub word: &'a [u8],
}

/// The words of one part that are left: of the line at hand so many, and those of the statements behind it.
#[derive(Drop)]
pub(crate) struct Uses<'a> {
    part: Part,
    line: u32,
    words: JoinedWords<'a>,
    left: usize,
    behind: &'a [Statement<'a>],
}

/// From which word of a line on its words are of a part, and how many are.
#[tactic(auto, using(crate::proofs::Windows::takes_last, crate::proofs::Windows::takes_rest))]
fn window(part: Part, kind: Kind, count: usize) -> (usize, usize)
    requires { 0 < count }
    ensures { (words : List (List ℕ)) → length words ≡ count
        → take result.1 (drop result.0 words) ≡ part_words part kind words }
{
    match (part, kind) {
        (Part::Inputs | Part::Drivers, Kind::Inputs)
        | (Part::Outputs | Part::Uses, Kind::Outputs) => (1, count - 1),
        (Part::Blocks | Part::Drivers, Kind::Names) => (count - 1, 1),
        (Part::Uses, Kind::Names) => (1, (count - 1).saturating_sub(1)),
        _ => (0, 0),
    }
}

/// Passes so many words.
fn skip(words: &mut JoinedWords<'_>, count: usize)
    ensures { words_left words.new ≡ drop count (words_left words.old) }
{
    for _word in 0..count {
        words.next();
    }
}

/// The words of a part of one line, as words of which so many count.
fn begin<'a>(part: Part, statement: &Statement<'a>) -> (JoinedWords<'a>, usize)
    ensures { take result.1 (words_left result.0)
        ≡ part_words part statement.now.kind (statement_of statement.now).words }
{
    let mut words = statement.words();
    match statement.kind {
        Kind::Inputs | Kind::Outputs | Kind::Names => {
            let (from, count) = window(part, statement.kind, statement.shape().count);
            skip(&mut words, from);
            (words, count)
        }
        _ => (words, 0),
    }
}

impl<'a> Uses<'a> {
    /// The words of one part of all statements.
    pub(crate) fn of(part: Part, statements: &'a [Statement<'a>]) -> Uses<'a>
        ensures { uses_left result ≡ uses_in part (map statement_of statements.entry.now) }
    {
        Uses {
            part,
            line: 0,
            words: JoinedWords::none(),
            left: 0,
            behind: statements,
        }
    }

    /// The next word of the line at hand.
    fn next_here(&mut self) -> Option<&'a [u8]>
        ensures here { MatchOption result
            ((uses_left self.old ≡ uses_in self.old.part (map statement_of self.old.behind.now))
            × (uses_left self.new ≡ uses_in self.old.part (map statement_of self.old.behind.now)))
            (λ w. uses_left self.old ≡ record { line = self.old.line; word = w.now } ∷ uses_left self.new) }
        ensures same { (self.new.part ≡ self.old.part) × (self.new.line ≡ self.old.line)
            × (self.new.behind ≡ self.old.behind) }
    {
        if self.left == 0 {
            return None;
        }
        self.left -= 1;
        self.words.next()
    }
}

impl<'a> Iterator for Uses<'a> {
    ghost use Rattle.std.specs.Iterator.{YieldsFirstBy, item_count};

    type Item = Use<'a>;

    ghost next_gives = { YieldsFirstBy use_of uses_left };

    ghost remaining = { item_count uses_left };

    fn next(&mut self) -> Option<Use<'a>> {
        'lines: loop {
            if let Some(word) = self.next_here() {
                return Some(Use {
                    line: self.line,
                    word,
                });
            }
            let statements = self.behind;
            let (statement, behind) = statements.split_first()?;
            let (words, left) = begin(self.part, statement);
            *self = Uses {
                part: self.part,
                line: statement.line,
                words,
                left,
                behind,
            };
        }
    }
}
