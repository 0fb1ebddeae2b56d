ghost use Rattle.std.specs.Prelude.{◌≡◌, ◌<◌, ◌≤◌, length};
ghost use Rattle.script_runner.specs.Text.{start_line, resume_line, nodes_line, dropped_line, truth_line, value_line};
ghost use Rattle.script_runner.specs.Text.{answer_line, other_job_line, damaged_line, runs_spent_line, kind_name};
ghost use Rattle.script_runner.specs.Text.{refused_line, netlist_kind_name, netlist_line};

use arrayvec::ArrayString;
use blif_reader::{BlifFault, BlifKind};
use bool_tables::Step;
use itoa::Buffer;
use script_reader::{ScriptFault, ScriptKind};
use shelf_model::FileNo;

/// A line that the program says, its line feed with it.
pub(crate) type Line = ArrayString<64>;

/// How many lines a run will say.
pub(crate) fn start_line(count: u64) -> Line
    ensures text { result.bytes ≡ start_line count }
    ensures some { 0 < length result.bytes }
{
    let mut line = Line::new();
    line.push_str("start ");
    line.push_str(Buffer::new().format(count));
    line.push_str("\n");
    line
}

/// What a line of the script asked for: the answer and the count of its step's entry.
pub(crate) fn answer_line(script_line: u32, step: Step, answer: u8, count: u64) -> Line
    ensures text { result.bytes ≡ answer_line script_line step answer count }
    ensures some { 0 < length result.bytes }
{
    match step {
        Step::Const { .. }
        | Step::Var { .. }
        | Step::Pair { .. }
        | Step::Ite { .. }
        | Step::Quantify { .. }
        | Step::Restrict { .. }
        | Step::Size { .. } => nodes_line(script_line, count),
        Step::Drop { .. } => dropped_line(script_line),
        Step::Same { .. } | Step::Leq { .. } => truth_line(script_line, answer),
        Step::Eval { .. } => value_line(script_line, answer),
    }
}

/// The number of nodes of a diagram.
fn nodes_line(script_line: u32, count: u64) -> Line
    ensures text { result.bytes ≡ nodes_line script_line count }
    ensures some { 0 < length result.bytes }
{
    let mut line = Line::new();
    line.push_str(Buffer::new().format(script_line));
    line.push_str(": nodes ");
    line.push_str(Buffer::new().format(count));
    line.push_str("\n");
    line
}

/// That a diagram was dropped.
fn dropped_line(script_line: u32) -> Line
    ensures text { result.bytes ≡ dropped_line script_line }
    ensures some { 0 < length result.bytes }
{
    let mut line = Line::new();
    line.push_str(Buffer::new().format(script_line));
    line.push_str(": dropped");
    line.push_str("\n");
    line
}

/// Whether two functions are equal, or one implies the other.
fn truth_line(script_line: u32, answer: u8) -> Line
    ensures text { result.bytes ≡ truth_line script_line answer }
    ensures some { 0 < length result.bytes }
{
    let mut line = Line::new();
    line.push_str(Buffer::new().format(script_line));
    line.push_str(if answer == 1 { ": yes" } else { ": no" });
    line.push_str("\n");
    line
}

/// A function's value.
fn value_line(script_line: u32, answer: u8) -> Line
    ensures text { result.bytes ≡ value_line script_line answer }
    ensures some { 0 < length result.bytes }
{
    let mut line = Line::new();
    line.push_str(Buffer::new().format(script_line));
    line.push_str(if answer == 1 { ": 1" } else { ": 0" });
    line.push_str("\n");
    line
}

/// How many lines were said before, and how many there are.
pub(crate) fn resume_line(before: u64, count: u64) -> Line
    ensures text { result.bytes ≡ resume_line before count }
    ensures some { 0 < length result.bytes }
{
    let mut line = Line::new();
    line.push_str("resume ");
    line.push_str(Buffer::new().format(before));
    line.push_str(" of ");
    line.push_str(Buffer::new().format(count));
    line.push_str("\n");
    line
}

/// Where the stored job differs.
pub(crate) fn other_job_line(at: u64) -> Line
    ensures text { result.bytes ≡ other_job_line at }
    ensures some { 0 < length result.bytes }
{
    let mut line = Line::new();
    line.push_str("other job at ");
    line.push_str(Buffer::new().format(at));
    line.push_str("\n");
    line
}

/// Which step has no part number left.
pub(crate) fn runs_spent_line(step: u32) -> Line
    ensures text { result.bytes ≡ runs_spent_line step }
    ensures some { 0 < length result.bytes }
{
    let mut line = Line::new();
    line.push_str("runs spent at step ");
    line.push_str(Buffer::new().format(step));
    line.push_str("\n");
    line
}

/// Which file is damaged, and from which byte on.
pub(crate) fn damaged_line(file: FileNo, at: u64) -> Line
    ensures text { result.bytes ≡ damaged_line file at }
    ensures some { 0 < length result.bytes }
{
    let mut line = Line::new();
    line.push_str("damaged ");
    line.push_str(Buffer::new().format(file.step));
    line.push_str(" ");
    line.push_str(Buffer::new().format(file.part));
    line.push_str(" ");
    line.push_str(Buffer::new().format(at));
    line.push_str("\n");
    line
}

/// The name of a fault's kind.
fn kind_name(kind: ScriptKind) -> &'static str
    ensures { result.now ≡ kind_name kind }
{
    match kind {
        ScriptKind::Memory => "Memory",
        ScriptKind::Word => "Word",
        ScriptKind::UnknownName => "UnknownName",
        ScriptKind::NameTaken => "NameTaken",
        ScriptKind::Variable => "Variable",
        ScriptKind::Bits => "Bits",
        ScriptKind::Dropped => "Dropped",
        ScriptKind::NameLength => "NameLength",
        ScriptKind::TooLong => "TooLong",
        ScriptKind::TooManySteps => "TooManySteps",
        ScriptKind::NoNetlist => "NoNetlist",
        ScriptKind::TooManyVariables => "TooManyVariables",
    }
}

/// The first faulty line of a script, and what is wrong with it.
pub(crate) fn refused_line(fault: ScriptFault) -> Line
    ensures text { result.bytes ≡ refused_line fault }
    ensures some { 0 < length result.bytes }
{
    let mut line = Line::new();
    line.push_str("script: line ");
    line.push_str(Buffer::new().format(fault.line));
    line.push_str(": ");
    line.push_str(kind_name(fault.kind));
    line.push_str("\n");
    line
}

/// The name of a netlist's fault.
fn netlist_kind_name(kind: BlifKind) -> &'static str
    ensures { result.now ≡ netlist_kind_name kind }
{
    match kind {
        BlifKind::Memory => "Memory",
        BlifKind::Keyword => "Keyword",
        BlifKind::NoModel => "NoModel",
        BlifKind::NoInputs => "NoInputs",
        BlifKind::Row => "Row",
        BlifKind::MixedOutputs => "MixedOutputs",
        BlifKind::Undriven => "Undriven",
        BlifKind::DrivenTwice => "DrivenTwice",
        BlifKind::Cycle => "Cycle",
        BlifKind::TooLong => "TooLong",
        BlifKind::TooManyVariables => "TooManyVariables",
    }
}

/// The first faulty line of a netlist, and what is wrong with it.
pub(crate) fn netlist_line(fault: BlifFault) -> Line
    ensures text { result.bytes ≡ netlist_line fault }
    ensures some { 0 < length result.bytes }
{
    let mut line = Line::new();
    line.push_str("netlist: line ");
    line.push_str(Buffer::new().format(fault.line));
    line.push_str(": ");
    line.push_str(netlist_kind_name(fault.kind));
    line.push_str("\n");
    line
}
