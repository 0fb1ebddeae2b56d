// Scripts read as the program reads them, with the words of all requests, and what their plans are compared with.
use blif_reader::Netlist;
use bool_tables::{Planned, Step};
use script_reader::{LineEnd, Plan, ScriptFault, ScriptKind, read_script};
use std::alloc::Global;

/// The plan of a script, or its first fault, where no netlist is given.
pub(crate) fn read_whole(alloc: Global, bytes: &[u8]) -> Result<Plan, ScriptFault> {
    read_with(alloc, bytes, None)
}

/// The same where one may be given.
pub(crate) fn read_with(
    alloc: Global,
    bytes: &[u8],
    netlist: Option<&Netlist>,
) -> Result<Plan, ScriptFault> {
    read_script(alloc, bytes, netlist)
}

/// Whether an answer is a fault of this line and this kind.
pub(crate) fn is_fault(answer: Result<Plan, ScriptFault>, line: u32, kind: ScriptKind) -> bool {
    match answer {
        Ok(_) => false,
        Err(fault) => fault.line == line && fault.kind == kind,
    }
}

/// Whether the first fault of a script has this line and this kind.
pub(crate) fn refuses(alloc: Global, bytes: &[u8], line: u32, kind: ScriptKind) -> bool {
    is_fault(read_whole(alloc, bytes), line, kind)
}

/// A step, and the place and the length of its name.
pub(crate) type Made = (Step, u32, u32);

/// The line, the last step and the step that is shown of a said line.
pub(crate) type Said = (u32, u32, u32);

/// Whether a plan has these steps and no others.
fn has_steps(plan: &Plan, made: &[Made]) -> bool {
    let steps = plan.steps.items();
    for (place, (step, name_at, name_len)) in made.iter().enumerate() {
        let wanted = Planned {
            step: *step,
            name_at: *name_at,
            name_len: *name_len,
        };
        if steps.get(place) != Some(&wanted) {
            return false;
        }
    }
    steps.len() == made.len()
}

/// Whether it says these lines and no others.
fn has_lines(plan: &Plan, said: &[Said]) -> bool {
    let lines = plan.lines.items();
    for (place, (line, last, shows)) in said.iter().enumerate() {
        let wanted = LineEnd {
            line: *line,
            last: *last,
            shows: *shows,
        };
        if lines.get(place) != Some(&wanted) {
            return false;
        }
    }
    lines.len() == said.len()
}

/// Whether an answer is a plan with so many variables and these steps, which says these lines.
pub(crate) fn is_plan(
    answer: Result<Plan, ScriptFault>,
    n: u32,
    made: &[Made],
    said: &[Said],
) -> bool {
    match answer {
        Ok(plan) => plan.n == n && has_steps(&plan, made) && has_lines(&plan, said),
        Err(_) => false,
    }
}
