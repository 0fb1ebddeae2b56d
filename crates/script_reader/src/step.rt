//! The step that a line asks for.

ghost use Rattle.std.specs.Prelude.{◌≡◌};
ghost use Rattle.std.specs.List.{list_all};
ghost use Rattle.bool_tables.specs.Plans.{is_bit};

use crate::fault::ScriptKind;
use crate::keyword::Keyword;
use crate::line::is_one;
use crate::planning::Planning;
use bool_tables::Step;
use net_plan::NOT_BOTH;
use text_words::Word;

/// Whether each byte is the character 0 or 1.
fn all_bits(bytes: &[u8]) -> bool
    ensures { result ≡ list_all is_bit bytes.now }
{
    bytes.iter().all(|b| *b == b'0' || *b == b'1')
}

impl<'a> Planning<'a> {
    ghost use Rattle.std.specs.Prelude.{◌<◌, ◌≤◌, length, true, false};
    ghost use Rattle.text_words.specs.Left.{word_of};
    ghost use Rattle.script_reader.specs.Keywords.{word_at, wanted, is_one, gives_name};
    ghost use Rattle.script_reader.specs.Names.{live, level_of, level_or};
    ghost use Rattle.script_reader.specs.Requests.{bits_in, bits_at, step_of};
    ghost use Rattle.script_reader.specs.Views.{words_of, state_of};
    ghost use Rattle.script_reader.specs.declared.keyword.Keyword.TheVariants.{Not};

    /// The step that made the diagram of a name.
    fn live(&self, word: &Word<'_>) -> Result<u32, ScriptKind>
        ensures { result ≡ live (state_of self.now) (word_of word.now) }
    {
        let Some(named) = self.named.get(word.bytes) else {
            return Err(ScriptKind::UnknownName);
        };
        if named.dropped {
            return Err(ScriptKind::Dropped);
        }
        Ok(named.step)
    }

    /// The step that made the diagram of a name, the word of a line at a place.
    #[tactic(auto, using(crate::proofs::Tests::at_word))]
    fn live_at(&self, words: &[Word<'_>], k: usize) -> Result<u32, ScriptKind>
        requires { k < length words.now }
        ensures { result ≡ live (state_of self.now) (word_at k (words_of words.now)) }
    {
        self.live(&words[k])
    }

    /// The level of a variable with a name.
    pub(crate) fn level_named(&self, name: &[u8]) -> Result<u32, ScriptKind>
        ensures { result ≡ level_or ((state_of self.now).level name.now) }
    {
        self.levels.get(name).copied().ok_or(ScriptKind::Variable)
    }

    /// The level of a variable.
    fn level(&self, word: &Word<'_>) -> Result<u32, ScriptKind>
        ensures { result ≡ level_of (state_of self.now) (word_of word.now) }
    {
        self.level_named(word.bytes)
    }

    /// The level of a variable, the word of a line at a place.
    #[tactic(auto, using(crate::proofs::Tests::at_word))]
    fn level_at(&self, words: &[Word<'_>], k: usize) -> Result<u32, ScriptKind>
        requires { k < length words.now }
        ensures { result ≡ level_of (state_of self.now) (word_at k (words_of words.now)) }
    {
        self.level(&words[k])
    }

    /// Whether a word of a line is 1.
    #[tactic(auto, using(crate::proofs::Tests::at_word))]
    fn one_at(words: &[Word<'_>], k: usize) -> bool
        requires { k < length words.now }
        ensures { result ≡ is_one (word_at k (words_of words.now)) }
    {
        is_one(&words[k])
    }

    /// Where the bits of a word stand: one for each variable.
    fn bits_in(&self, word: &Word<'_>) -> Result<u32, ScriptKind>
        ensures { result ≡ bits_in self.now.n (word_of word.now) }
    {
        if word.bytes.len() == self.n as usize && all_bits(word.bytes) {
            Ok(word.at)
        } else {
            Err(ScriptKind::Bits)
        }
    }

    /// Where the bits of an evaluation stand, the third word of its line; 0 where it is left out.
    #[tactic(auto, using(crate::proofs::Tests::at_word))]
    fn bits(&self, words: &[Word<'_>]) -> Result<u32, ScriptKind>
        ensures { result ≡ bits_at self.now.n (words_of words.now) }
    {
        if words.len() == 3 {
            return self.bits_in(&words[2]);
        }
        Ok(0)
    }

    /// The step that a line with these words asks for.
    pub(crate) fn step(&self, keyword: Keyword, words: &[Word<'_>]) -> Result<Step, ScriptKind>
        requires { wanted keyword ≤ length words.now }
        ensures { result ≡ step_of (state_of self.now) keyword (words_of words.now) }
    {
        if keyword.gives_name() {
            self.diagram_step(keyword, words)
        } else {
            self.other_step(keyword, words)
        }
    }

    /// The complement of a diagram, the third word of its line.
    fn complement(&self, words: &[Word<'_>]) -> Result<Step, ScriptKind>
        requires { 3 ≤ length words.now }
        ensures { result ≡ step_of (state_of self.now) Not (words_of words.now) }
    {
        let of = self.live_at(words, 2)?;
        Ok(Step::Pair {
            op: NOT_BOTH,
            left: of,
            right: of,
        })
    }

    /// The step of a line that gives a name to a diagram.
    fn diagram_step(&self, keyword: Keyword, words: &[Word<'_>]) -> Result<Step, ScriptKind>
        requires words { wanted keyword ≤ length words.now }
        requires named { gives_name keyword ≡ true }
        ensures { result ≡ step_of (state_of self.now) keyword (words_of words.now) }
    {
        match keyword {
            Keyword::Const => Ok(Step::Const {
                value: Planning::one_at(words, 2),
            }),
            Keyword::Var => {
                let level = self.level_at(words, 2)?;
                Ok(Step::Var { level })
            }
            Keyword::Not => self.complement(words),
            Keyword::Pair(op) => {
                let left = self.live_at(words, 2)?;
                let right = self.live_at(words, 3)?;
                Ok(Step::Pair { op, left, right })
            }
            Keyword::Ite => {
                let test = self.live_at(words, 2)?;
                let yes = self.live_at(words, 3)?;
                let no = self.live_at(words, 4)?;
                Ok(Step::Ite { test, yes, no })
            }
            Keyword::Quantify(kind) => {
                let of = self.live_at(words, 2)?;
                let level = self.level_at(words, 3)?;
                Ok(Step::Quantify { kind, of, level })
            }
            Keyword::Restrict => {
                let of = self.live_at(words, 2)?;
                let level = self.level_at(words, 3)?;
                let value = Planning::one_at(words, 4);
                Ok(Step::Restrict { of, level, value })
            }
            Keyword::Vars
            | Keyword::Inputs
            | Keyword::Net
            | Keyword::Drop
            | Keyword::Same
            | Keyword::Leq
            | Keyword::Eval
            | Keyword::Size => Err(ScriptKind::Word),
        }
    }

    /// The step of a line that gives no name: a drop, or a question.
    fn other_step(&self, keyword: Keyword, words: &[Word<'_>]) -> Result<Step, ScriptKind>
        requires words { wanted keyword ≤ length words.now }
        requires unnamed { gives_name keyword ≡ false }
        ensures { result ≡ step_of (state_of self.now) keyword (words_of words.now) }
    {
        match keyword {
            Keyword::Drop => {
                let gone = self.live_at(words, 1)?;
                Ok(Step::Drop { gone })
            }
            Keyword::Same => {
                let left = self.live_at(words, 1)?;
                let right = self.live_at(words, 2)?;
                Ok(Step::Same { left, right })
            }
            Keyword::Leq => {
                let left = self.live_at(words, 1)?;
                let right = self.live_at(words, 2)?;
                Ok(Step::Leq { left, right })
            }
            Keyword::Eval => {
                let of = self.live_at(words, 1)?;
                let at = self.bits(words)?;
                Ok(Step::Eval { of, at })
            }
            Keyword::Size => {
                let of = self.live_at(words, 1)?;
                Ok(Step::Size { of })
            }
            Keyword::Vars
            | Keyword::Inputs
            | Keyword::Net
            | Keyword::Const
            | Keyword::Var
            | Keyword::Not
            | Keyword::Pair(_)
            | Keyword::Ite
            | Keyword::Quantify(_)
            | Keyword::Restrict => Err(ScriptKind::Word),
        }
    }
}
