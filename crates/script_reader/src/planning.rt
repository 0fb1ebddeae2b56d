//! The plan as far as the lines that were read ask for.

ghost use Rattle.std.specs.Prelude.{◌≡◌, ◌≤◌, length, Bool, true};
ghost use Rattle.script_reader.specs.Keywords.{word_at, gives_name};
ghost use Rattle.script_reader.specs.Requests.{planned_of};
ghost use Rattle.script_reader.specs.Views.{words_of};

use crate::fault::{Refusal, ScriptKind};
use crate::keyword::{Keyword, read_keyword};
use crate::line::is_formed;
use crate::netlists::NetTables;
use crate::places::{bytes_of, places_of};
use crate::plan::{LineEnd, Plan};
use blif_reader::Netlist;
use bool_tables::{Items, Planned, Step};
use net_plan::MOST_STEPS;
use rec_words::MOST_VARIABLES;
use std::alloc::{AllocError, Global};
use std::collections::BTreeMap;
use text_words::Word;

/// The most bytes that a name of a diagram may have.
pub(crate) const MOST_NAME_BYTES: usize = 63;

/// The step of a line, with the name that the line gives.
#[tactic(auto, using(crate::proofs::Tests::at_word))]
fn planned(keyword: Keyword, words: &[Word<'_>], step: Step) -> Planned
    requires words { 2 ≤ length words.now }
    requires short { gives_name keyword ≡ true → length (word_at 1 (words_of words.now)).bytes ≤ 63 }
    ensures { result ≡ planned_of keyword (words_of words.now) step }
{
    if keyword.gives_name() {
        return Planned {
            step,
            name_at: words[1].at,
            name_len: words[1].bytes.len() as u32,
        };
    }
    Planned {
        step,
        name_at: 0,
        name_len: 0,
    }
}

/// What a name was given to: the step that makes the diagram, and whether a later line dropped it.
#[derive(Clone, Copy, Debug, PartialEq, Eq)]
pub(crate) struct Named {
    pub step: u32,
    pub dropped: bool,
}

/// Whether a line was read, the variables, the names that were given, and the steps and said lines so far.
#[derive(Drop)]
pub(crate) struct Planning<'a> {
    pub begun: bool,
    pub n: u32,
    pub levels: BTreeMap<&'a [u8], u32>,
    pub named: BTreeMap<&'a [u8], Named>,
    pub steps: Vec<Planned>,
    pub lines: Vec<LineEnd>,
}

impl<'a> Planning<'a> {
    ghost use Rattle.std.specs.Prelude.{◌<◌, ◌+◌, ◌^◌, take, false, IsTrue, Ok, Some, IfOk, OnOk};
    ghost use Rattle.std.specs.Str.{bytes_eq};
    ghost use Rattle.std.specs.Map.{update};
    ghost use Rattle.text_words.specs.Left.{word_of};
    ghost use Rattle.script_reader.specs.Keywords.{wanted, is_formed};
    ghost use Rattle.script_reader.specs.Names.{nothing};
    ghost use Rattle.script_reader.specs.Requests.{new_name, name_fits};
    ghost use Rattle.script_reader.specs.Requests.{name_behind, with_planned, plan_step};
    ghost use Rattle.script_reader.specs.Script.{begin, plan_vars, keyword_in, plan_words, plan_of};
    ghost use Rattle.script_reader.specs.Views.{texts, state_of, given, Leads, IsKept};

    /// Where no line was read.
    pub(crate) fn new(alloc: Global) -> Planning<'a>
        ensures { state_of result ≡ nothing }
    {
        Planning {
            begun: false,
            n: 0,
            levels: BTreeMap::new(alloc),
            named: BTreeMap::new(alloc),
            steps: Vec::new(alloc),
            lines: Vec::new(alloc),
        }
    }

    /// The plan of the lines that were read.
    pub(crate) fn plan(self) -> Plan
        ensures { plan_of (Ok (state_of self.entry)) ≡ Ok result }
    {
        Plan {
            n: self.n,
            steps: Items::of(self.steps),
            lines: Items::of(self.lines),
        }
    }

    /// Names the variables, in order. The first word is the keyword.
    #[tactic(auto, using(crate::proofs::Tests::rest_texts))]
    fn declare(&mut self, alloc: Global, words: &[Word<'a>]) -> Result<(), Refusal>
        requires some { 1 ≤ length words.now }
        requires few { length words.now < 2 ^ 32 }
        ensures { Leads (state_of self.new) result (plan_vars (state_of self.old) (words_of words.now)) }
    {
        let names = bytes_of(alloc, &words[1..])?;
        let Some(levels) = places_of(alloc, names.as_slice())? else {
            return Err(Refusal::Fault(ScriptKind::Variable));
        };
        if words.len() > MOST_VARIABLES as usize + 1 {
            return Err(Refusal::Fault(ScriptKind::TooManyVariables));
        }
        self.n = words.len() as u32 - 1;
        self.levels = levels;
        Ok(())
    }

    /// What the first word of a line asks for, where the line has the words of such a request.
    #[tactic(auto, using(crate::proofs::Tests::at_word))]
    fn begin_line(&mut self, known: &[&[u8]], words: &[Word<'_>]) -> Result<Keyword, ScriptKind>
        requires { 1 ≤ length words.now }
        ensures keyword { result ≡ keyword_in (texts known.now) (state_of self.old) (words_of words.now) }
        ensures begun { OnOk result (state_of self.new ≡ begin (state_of self.old)) }
    {
        let keyword = read_keyword(known, words[0].bytes)?;
        if !is_formed(self.begun, self.n, keyword, words) {
            return Err(ScriptKind::Word);
        }
        self.begun = true;
        Ok(keyword)
    }

    /// Plans what a line with words asks for.
    pub(crate) fn plan_line(
        &mut self,
        alloc: Global,
        known: &[&[u8]],
        netlist: Option<&'a Netlist>,
        kept: &mut Option<NetTables>,
        line: u32,
        words: &[Word<'a>],
    ) -> Result<(), Refusal>
        requires some { 1 ≤ length words.now }
        requires few { length words.now < 2 ^ 32 }
        requires kept { IsKept (given netlist) (state_of self.old) kept.old }
        ensures read { Leads (state_of self.new) result
            (plan_words (texts known.now) (given netlist.entry) (state_of self.old) line (words_of words.now)) }
        ensures kept { OnOk result (IsKept (given netlist.entry) (state_of self.new) kept.new) }
    {
        let keyword = self.begin_line(known, words)?;
        match keyword {
            Keyword::Vars => self.declare(alloc, words),
            Keyword::Inputs => self.take_inputs(alloc, netlist),
            Keyword::Net => self.plan_net(alloc, netlist, kept, line, words),
            _ => self.plan_step(line, keyword, words),
        }
    }

    /// Whether a new diagram may have the name.
    fn test_name(&self, name: &Word<'_>) -> Result<(), ScriptKind>
        ensures { result ≡ new_name (state_of self.now) (word_of name.now) }
    {
        if name.bytes.len() > MOST_NAME_BYTES {
            return Err(ScriptKind::NameLength);
        }
        if self.named.contains_key(name.bytes) {
            return Err(ScriptKind::NameTaken);
        }
        Ok(())
    }

    /// Whether a line may give its name, where it gives one.
    #[tactic(auto, using(crate::proofs::Tests::at_word))]
    fn test_names(&self, keyword: Keyword, words: &[Word<'_>]) -> Result<(), ScriptKind>
        requires { wanted keyword ≤ length words.now }
        ensures { result ≡ name_fits (state_of self.now) keyword (words_of words.now) }
    {
        if keyword.gives_name() {
            return self.test_name(&words[1]);
        }
        Ok(())
    }

    /// Gives a name, or notes that it is dropped.
    pub(crate) fn put_name(&mut self, name: &'a [u8], named: Named) -> Result<(), AllocError>
        ensures { OnOk result (state_of self.new ≡ record (state_of self.old) {
          named = update bytes_eq (state_of self.old).named name.entry.now (Some named);
        }) }
    {
        self.named.insert(name, named)?;
        Ok(())
    }

    /// Notes which name the line with a step gives or drops.
    #[tactic(auto, using(crate::proofs::Tests::at_word))]
    fn note_name(
        &mut self,
        keyword: Keyword,
        words: &[Word<'a>],
        step: Step,
    ) -> Result<(), AllocError>
        requires words { 2 ≤ length words.now }
        requires few { length self.old.steps.items < 2 ^ 32 }
        ensures { OnOk result
            (state_of self.new ≡ name_behind (state_of self.old) keyword (words_of words.now) step) }
    {
        let number = self.steps.len() as u32;
        match step {
            Step::Drop { gone } => self.put_name(
                words[1].bytes,
                Named {
                    step: gone,
                    dropped: true,
                },
            ),
            _ => {
                if keyword.gives_name() {
                    self.put_name(
                        words[1].bytes,
                        Named {
                            step: number,
                            dropped: false,
                        },
                    )?;
                }
                Ok(())
            }
        }
    }

    /// Puts a step, and its said line.
    fn put_step(&mut self, line: u32, planned: Planned) -> Result<(), AllocError>
        requires few { length self.old.steps.items < 2 ^ 32 }
        ensures { OnOk result (state_of self.new ≡ with_planned (state_of self.old) line planned) }
    {
        let number = self.steps.len() as u32;
        self.steps.push(planned)?;
        self.lines.push(LineEnd {
            line,
            last: number,
            shows: number,
        })?;
        Ok(())
    }

    /// Plans a line that is one step.
    #[tactic(auto, using(crate::proofs::Formed::fits_short))]
    fn plan_step(&mut self, line: u32, keyword: Keyword, words: &[Word<'a>]) -> Result<(), Refusal>
        requires wanted { wanted keyword ≤ length words.now }
        requires two { 2 ≤ length words.now }
        ensures { Leads (state_of self.new) result (plan_step (state_of self.old) line keyword (words_of words.now)) }
    {
        let step = self.step(keyword, words)?;
        self.test_names(keyword, words)?;
        if self.steps.len() >= MOST_STEPS {
            return Err(Refusal::Fault(ScriptKind::TooManySteps));
        }
        self.note_name(keyword, words, step)?;
        self.put_step(line, planned(keyword, words, step))?;
        Ok(())
    }
}
