//! Reading a script line by line.

ghost use Rattle.std.specs.Prelude.{◌≡◌, ◌⊎◌, ◌≤◌, length, map, IfOk, IfErr, OnOk};
ghost use Rattle.bool_tables.specs.Plans.{IsWellFormed};
ghost use Rattle.text_words.specs.Text.{words_in};
ghost use Rattle.text_words.specs.Left.{word_of, line_of};
ghost use Rattle.script_reader.specs.Reads.{Reads, Refuses};
ghost use Rattle.script_reader.specs.Lines.{AreLines};
ghost use Rattle.script_reader.specs.Names.{nothing};
ghost use Rattle.script_reader.specs.Script.{plan_line, read};
ghost use Rattle.script_reader.specs.Views.{texts, words_of, state_of, given, Leads, IsKept, AnswersRead, fault_on};

use crate::fault::{Refusal, ScriptFault, ScriptKind};
use crate::netlists::NetTables;
use crate::plan::Plan;
use crate::planning::Planning;
use blif_reader::Netlist;
use std::alloc::{AllocError, Global};
use text_words::{Line, Lines, Word};

/// The most bytes of a script.
pub const MOST_BYTES: usize = 1_048_576;

/// The words of a line.
fn words_of<'a>(alloc: Global, line: &Line<'a>) -> Result<Vec<Word<'a>>, AllocError>
    ensures { IfOk result (λ v. map word_of v.items ≡ words_in (line_of line.now)) }
{
    line.words().collect(alloc)
}

/// The plan of a script, where lines may begin with the known words alone. The plan keeps nothing of the netlist.
///
/// Refuses a script by its first faulty line, and for want of memory on line 0. A known word that is no word of the
/// language is refused as any other: `Word`. Nothing is left of the plan then.
pub fn read_script_with<'s, 'n>(
    alloc: Global,
    bytes: &'s [u8],
    known: &[&[u8]],
    netlist: Option<&'n Netlist>,
) -> Result<Plan, ScriptFault>
    ensures read { AnswersRead result (read (texts known.now) (given netlist.entry) bytes.entry.now) }

    // what every plan that is given keeps
    ensures steps { IfOk result (λ plan. IsWellFormed plan.n bytes.entry.now plan.steps) }
    ensures lines { IfOk result (λ plan. AreLines plan.steps plan.lines) }
{
    if bytes.len() > MOST_BYTES {
        return Err(ScriptFault {
            line: 0,
            kind: ScriptKind::TooLong,
        });
    }
    let mut planning = Planning::new(alloc);
    let mut kept = None;
    for line in Lines::of(bytes) {
        if let Err(refusal) = read_line(alloc, &mut planning, known, netlist, &mut kept, &line) {
            return Err(fault_of(line.number, refusal));
        }
    }
    Ok(planning.plan())
}

/// The fault of a line. Where memory ran out, it is of no line.
fn fault_of(line: u32, refusal: Refusal) -> ScriptFault
    ensures { result ≡ fault_on line refusal }
{
    match refusal {
        Refusal::Memory => ScriptFault {
            line: 0,
            kind: ScriptKind::Memory,
        },
        Refusal::Fault(kind) => ScriptFault { line, kind },
    }
}

/// Plans what a line asks for, where it has words.
#[tactic(auto, using(crate::proofs::Few::few_words))]
fn read_line<'a>(
    alloc: Global,
    planning: &mut Planning<'a>,
    known: &[&[u8]],
    netlist: Option<&'a Netlist>,
    kept: &mut Option<NetTables>,
    line: &Line<'a>,
) -> Result<(), Refusal>
    requires short { length line.now.bytes.now ≤ 1048576 }
    requires kept { IsKept (given netlist) (state_of planning.old) kept.old }
    ensures read { Leads (state_of planning.new) result
        (plan_line (texts known.now) (given netlist.entry) (state_of planning.old) line.now.number
        (words_in (line_of line.now))) }
    ensures kept { OnOk result (IsKept (given netlist.entry) (state_of planning.new) kept.new) }
{
    let words = words_of(alloc, line)?;
    if words.is_empty() {
        return Ok(());
    }
    planning.plan_line(alloc, known, netlist, kept, line.number, words.as_slice())
}

/// The plan of a script, where lines may begin with the words of all requests.
///
/// Refuses a script by its first faulty line, and for want of memory on line 0. `inputs` and `net` are refused where
/// no netlist is given: `NoNetlist`. Nothing is left of the plan then.
pub fn read_script(
    alloc: Global,
    bytes: &[u8],
    netlist: Option<&Netlist>,
) -> Result<Plan, ScriptFault>
    ensures read { IfOk result (λ plan. Reads (given netlist.entry) bytes.now plan) }
    ensures refused { IfErr result (λ fault. Refuses (given netlist.entry) bytes.now fault
        ⊎ (fault ≡ record { line = 0; kind = ScriptKind.Memory })) }

    // what every plan that is given keeps
    ensures well_formed { IfOk result (λ plan. IsWellFormed plan.n bytes.now plan.steps) }
    ensures lines { IfOk result (λ plan. AreLines plan.steps plan.lines) }
{
    let known = [
        b"vars".as_slice(),
        b"inputs".as_slice(),
        b"net".as_slice(),
        b"const".as_slice(),
        b"var".as_slice(),
        b"not".as_slice(),
        b"and".as_slice(),
        b"or".as_slice(),
        b"xor".as_slice(),
        b"nand".as_slice(),
        b"nor".as_slice(),
        b"xnor".as_slice(),
        b"imp".as_slice(),
        b"ite".as_slice(),
        b"exists".as_slice(),
        b"forall".as_slice(),
        b"restrict".as_slice(),
        b"drop".as_slice(),
        b"same".as_slice(),
        b"leq".as_slice(),
        b"eval".as_slice(),
        b"size".as_slice(),
    ];
    read_script_with(alloc, bytes, known.as_slice(), netlist)
}
