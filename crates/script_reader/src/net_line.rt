//! Lines that take a netlist's inputs as variables, or ask for the diagrams of its signals.

use crate::fault::{Refusal, ScriptKind};
use crate::netlists::{NetTables, are_short, every_second, input_names, signals_named, signals_of};
use crate::places::{bytes_of, places_of};
use crate::plan::LineEnd;
use crate::planning::{Named, Planning};
use blif_reader::Netlist;
use bool_tables::{Planned, Step};
use net_plan::{MOST_STEPS, NetPlan, PlanFault, Planner};
use std::alloc::{AllocError, Global};
use text_words::Word;

impl<'a> Planning<'a> {
    ghost use Rattle.std.specs.Prelude.{◌≡◌, ◌<◌, ◌≤◌, ◌+◌, ◌-◌, ◌^◌, ◌++◌, ◌∷◌, [], List, Bool, true, not, ◌&&◌};
    ghost use Rattle.std.specs.Prelude.{length, map, is_some, Some, Ok, IfOk, OnOk, slice_index, ℕ};
    ghost use Rattle.std.specs.List.{list_all, list_any};
    ghost use Rattle.script_reader.specs.Requests.{is_short};
    ghost use Rattle.std.specs.Str.{bytes_eq};
    ghost use Rattle.std.specs.Map.{update};
    ghost use Rattle.blif_reader.specs.Answers.{net_of};
    ghost use Rattle.net_plan.specs.Plan.{plan_steps, plan_made};
    ghost use Rattle.text_words.specs.Left.{word_of};
    ghost use Rattle.script_reader.specs.Names.{all_differ, level_or};
    ghost use Rattle.script_reader.specs.Keywords.{texts_of};
    ghost use Rattle.script_reader.specs.Nets.{is_given, nameless, name_step, give_name, give_names};
    ghost use Rattle.script_reader.specs.Nets.{with_steps, put_plan};
    ghost use Rattle.script_reader.specs.Nets as nets;
    ghost use Rattle.script_reader.specs.Views.{texts, words_of, state_of, numbers_in, given, Leads, Gives};
    ghost use Rattle.script_reader.specs.Views.{AreTablesOf, IsKept, GivesTables};
    ghost use Rattle.script_reader.specs.declared.netlists.NetTables.{NetTables};
    ghost use Rattle.net_plan.specs.Planners.{signals_of as signals_served};
    ghost use Rattle.script_reader.specs.declared.fault.ScriptKind.TheVariants as kind;

    /// Takes the inputs of the netlist as variables.
    pub(crate) fn take_inputs(
        &mut self,
        alloc: Global,
        netlist: Option<&'a Netlist>,
    ) -> Result<(), Refusal>
        ensures { Leads (state_of self.new) result (nets.plan_inputs (given netlist.entry) (state_of self.old)) }
    {
        let Some(net) = netlist else {
            return Err(Refusal::Fault(ScriptKind::NoNetlist));
        };
        let names = input_names(alloc, net)?;
        let Some(levels) = places_of(alloc, names.as_slice())? else {
            return Err(Refusal::Memory);
        };
        self.n = net.input_count();
        self.levels = levels;
        Ok(())
    }

    /// The levels of the inputs.
    fn levels_of(&self, alloc: Global, net: &Netlist) -> Result<Vec<u32>, Refusal>
        ensures { Gives numbers_in result (nets.levels_of (state_of self.now) (net_of net.now)) }
    {
        let mut levels = Vec::new(alloc);
        for signal in 0..net.input_count() {
            levels.push(self.level_named(net.name(signal))?)?;
        }
        Ok(levels)
    }

    /// The levels of a netlist's inputs, and new tables to plan with.
    fn net_tables(&self, alloc: Global, net: &Netlist) -> Result<NetTables, Refusal>
        ensures { GivesTables (net_of net.now) (state_of self.now) result }
    {
        Ok(NetTables {
            levels: self.levels_of(alloc, net)?,
            planner: Planner::new(alloc, net)?,
        })
    }

    /// What is kept of a netlist, or the same made anew where nothing is.
    fn tables_of(
        &self,
        alloc: Global,
        net: &Netlist,
        kept: Option<NetTables>,
    ) -> Result<NetTables, Refusal>
        requires { (tables : NetTables) → kept ≡ Some tables
            → AreTablesOf (net_of net.now) (state_of self.now) tables }
        ensures { GivesTables (net_of net.now) (state_of self.now) result }
    {
        match kept {
            Some(tables) => Ok(tables),
            None => self.net_tables(alloc, net),
        }
    }

    /// Whether one of the names was given on an earlier line.
    fn any_given(&self, names: &[Word<'_>]) -> bool
        ensures { result ≡ list_any (is_given (state_of self.now)) (words_of names.now) }
    {
        for name in names {
            if self.named.contains_key(name.bytes) {
                return true;
            }
        }
        false
    }

    /// Whether a line may give its names.
    fn test_all_names(&self, alloc: Global, names: &[Word<'_>]) -> Result<(), Refusal>
        requires { length names.now < 2 ^ 32 }
        ensures { Gives (λ u. u) result (nets.names_fit (state_of self.now) (words_of names.now)) }
    {
        if !are_short(names) {
            return Err(Refusal::Fault(ScriptKind::NameLength));
        }
        let bytes = bytes_of(alloc, names)?;
        let differ = places_of(alloc, bytes.as_slice())?.is_some();
        if self.any_given(names) || !differ {
            return Err(Refusal::Fault(ScriptKind::NameTaken));
        }
        Ok(())
    }

    /// Puts steps without names.
    fn put_steps(&mut self, steps: &[Step]) -> Result<(), AllocError>
        ensures { OnOk result (state_of self.new ≡ with_steps (state_of self.old) steps.now) }
    {
        for step in steps {
            self.steps.push(Planned {
                step: *step,
                name_at: 0,
                name_len: 0,
            })?;
        }
        Ok(())
    }

    /// Gives the step with a number its name.
    fn name_step(&mut self, number: u32, name: &Word<'a>)
        requires { length name.now.bytes.now < 2 ^ 32 }
        ensures { state_of self.new ≡ record (state_of self.old) {
          steps = name_step number (word_of name.now) (state_of self.old).steps;
        } }
    {
        if (number as usize) < self.steps.len() {
            let old = self.steps[number as usize];
            self.steps[number as usize] = Planned {
                step: old.step,
                name_at: name.at,
                name_len: name.bytes.len() as u32,
            };
        }
    }

    /// Gives the name of a pair, and says its line.
    fn give_name(
        &mut self,
        line: u32,
        last: u32,
        name: &Word<'a>,
        made: u32,
    ) -> Result<(), AllocError>
        requires { length name.now.bytes.now < 2 ^ 32 }
        ensures { OnOk result (state_of self.new ≡ give_name (state_of self.old) line last (word_of name.now) made) }
    {
        self.put_name(
            name.bytes,
            Named {
                step: made,
                dropped: false,
            },
        )?;
        self.name_step(made, name);
        self.lines.push(LineEnd {
            line,
            last,
            shows: made,
        })?;
        Ok(())
    }

    /// Gives the names of a line's pairs, and says their lines.
    fn give_names(
        &mut self,
        line: u32,
        last: u32,
        names: &[Word<'a>],
        made: &[u32],
    ) -> Result<(), AllocError>
        requires { list_all is_short (words_of names.now) ≡ true }
        ensures { OnOk result (state_of self.new
            ≡ give_names (state_of self.old) line last (words_of names.now) made.now) }
    {
        for (place, name) in names.iter().enumerate() {
            if place >= made.len() {
                return Ok(());
            }
            self.give_name(line, last, name, made[place])?;
        }
        Ok(())
    }

    /// Puts the steps of a line's signals.
    fn put_plan(&mut self, line: u32, names: &[Word<'a>], plan: &NetPlan) -> Result<(), AllocError>
        requires short { list_all is_short (words_of names.now) ≡ true }
        requires few { length self.old.steps.items + length plan.now.steps ≤ 1048576 }
        ensures { OnOk result (state_of self.new ≡ give_names (with_steps (state_of self.old) plan.now.steps) line
            (length (state_of self.old).steps + length plan.now.steps - 1) (words_of names.now) plan.now.made) }
    {
        self.put_steps(plan.steps.items())?;
        let last = (self.steps.len() as u32).saturating_sub(1);
        self.give_names(line, last, names, plan.made.items())
    }

    /// Plans the signals of a line with these names.
    fn plan_signals(
        &mut self,
        alloc: Global,
        line: u32,
        names: &[Word<'a>],
        net: &Netlist,
        tables: &mut NetTables,
        wanted: &[u32],
    ) -> Result<(), Refusal>
        requires few { length names.now < 2 ^ 32 }
        requires serves { signals_served tables.old.planner ≡ length (net_of net.now).names }
        requires levels { length tables.old.levels.items ≡ (net_of net.now).inputs }
        requires wanted { (i : ℕ) → i < length wanted.now → slice_index wanted.now i < length (net_of net.now).names }
        ensures read { Leads (state_of self.new) result
            (nets.plan_signals (state_of self.old) line (words_of names.now) (net_of net.now) tables.old.levels.items
            wanted.now) }
        ensures levels { tables.new.levels ≡ tables.old.levels }
        ensures serves { signals_served tables.new.planner ≡ signals_served tables.old.planner }
    {
        self.test_all_names(alloc, names)?;
        let first = self.steps.len();
        if first > MOST_STEPS {
            return Err(Refusal::Fault(ScriptKind::TooManySteps));
        }
        let levels = tables.levels.as_slice();
        match tables
            .planner
            .plan(alloc, net, levels, wanted, first as u32)
        {
            Ok(plan) => Ok(self.put_plan(line, names, &plan)?),
            Err(PlanFault::Memory) => Err(Refusal::Memory),
            Err(PlanFault::TooManySteps) => Err(Refusal::Fault(ScriptKind::TooManySteps)),
        }
    }

    /// Plans a line that asks for signals.
    pub(crate) fn plan_net(
        &mut self,
        alloc: Global,
        netlist: Option<&Netlist>,
        kept: &mut Option<NetTables>,
        line: u32,
        words: &[Word<'a>],
    ) -> Result<(), Refusal>
        requires some { 2 ≤ length words.now }
        requires few { length words.now < 2 ^ 32 }
        requires begun { self.old.begun ≡ true }
        requires kept { IsKept (given netlist) (state_of self.old) kept.old }
        ensures read { Leads (state_of self.new) result
            (nets.plan_net (given netlist.entry) (state_of self.old) line (words_of words.now)) }
        ensures kept { OnOk result (IsKept (given netlist.entry) (state_of self.new) kept.new) }
    {
        let signals = signals_named(alloc, words)?;
        let Some(net) = netlist else {
            return Err(Refusal::Fault(ScriptKind::NoNetlist));
        };
        let wanted = signals_of(alloc, net, signals.as_slice())?;
        let mut tables = self.tables_of(alloc, net, kept.take())?;
        let names = every_second(alloc, words, 1)?;
        self.plan_signals(
            alloc,
            line,
            names.as_slice(),
            net,
            &mut tables,
            wanted.as_slice(),
        )?;
        *kept = Some(tables);
        Ok(())
    }
}
