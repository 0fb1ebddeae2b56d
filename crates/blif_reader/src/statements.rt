//! The lines of a netlist as statements, or the first line that is none.

ghost use Rattle.std.specs.Prelude.{◌≡◌, ◌<◌, ◌≤◌, ◌+◌, ◌^◌, [], IfOk, map, length};
ghost use Rattle.text_words.specs.Left.{lines_left};
ghost use Rattle.blif_reader.specs.Text.{lines_of};
ghost use Rattle.blif_reader.specs.Lines.{line_of, IsShown};
ghost use Rattle.blif_reader.specs.Statements.{Gives, Fails, statement_of, statement, after_statement, at_end, statements, parsed};

use crate::fault::{BlifFault, BlifKind, Refusal};
use crate::grammar::{Context, context_after, line_kind};
use crate::line::Line;
use crate::lines::next_line;
use crate::statement::Statement;
use std::alloc::Global;
use text_words::Lines;

/// A line with words as a statement, behind what stands before it.
fn read_line<'a>(context: Context, line: &Line<'a>) -> Result<Statement<'a>, Refusal>
    requires worded { 0 < line.now.shape.count }
    requires same { IsShown line.now }
    ensures { Gives statement_of result (statement context (line_of line.now)) }
{
    match line_kind(context, &line.shape) {
        Ok(kind) => Ok(Statement {
            line: line.number,
            kind,
            text: line.text,
        }),
        Err(kind) => Err(Refusal::Fault(BlifFault {
            line: line.number,
            kind,
        })),
    }
}

/// The end of the text, which is a fault where no model stands before it.
fn read_end(context: Context) -> Result<(), Refusal>
    ensures { Gives (λ _. []) result (at_end context) }
{
    match context {
        Context::Start => Err(Refusal::Fault(BlifFault {
            line: 0,
            kind: BlifKind::NoModel,
        })),
        _ => Ok(()),
    }
}

/// All statements of a text.
pub(crate) fn read_statements<'a>(
    alloc: Global,
    bytes: &'a [u8],
) -> Result<Vec<Statement<'a>>, Refusal>
    requires { length bytes.now ≤ 4194304 }
    ensures read { Gives (λ v. map statement_of v.items) result (parsed bytes.entry.now) }
    ensures few { IfOk result (λ v. length v.items ≤ length bytes.entry.now + 1) }
{
    let mut found = Vec::new(alloc);
    let mut lines = Lines::of(bytes);
    let mut context = Context::Start;
    'lines: while let Some(line) = next_line(&mut lines) {
        if line.shape.count == 0 {
            continue;
        }
        let next = read_line(context, &line)?;
        context = context_after(context, next.kind, line.shape.count);
        found.push(next)?;
    }
    read_end(context)?;
    Ok(found)
}
