//! What a run of a plan has to say and to leave, by the tables of its steps.
ghost use Rattle.std.specs.Prelude.{◌≤◌};

use bool_tables::{Items, Planned, Step, Table};
use canon_file::plain_canon;
use itoa::Buffer;
use script_reader::Plan;
use std::alloc::{AllocError, Global};

/// The bytes of a file.
pub(crate) type Bytes = Items<u8>;

/// The canonical file of each step's table. A step that makes no diagram has no bytes.
pub(crate) fn files_of(alloc: Global, n: u32, tables: &[Table]) -> Result<Vec<Bytes>, AllocError>
    requires { n ≤ 20 }
{
    let mut files = Vec::new(alloc);
    for table in tables {
        let values = table.items();
        let bytes = if values.len() == 1usize << n {
            plain_canon(alloc, n, values)?
        } else {
            Vec::new(alloc)
        };
        files.push(Items::of(bytes))?;
    }
    Ok(files)
}

/// The number of nodes in a step's file, which has 24 bytes for each and as many more.
fn nodes_in(files: &[Bytes], step: u32) -> u64 {
    match files.get(step as usize) {
        Some(file) => (file.items().len() as u64 / 24).saturating_sub(1),
        None => 0,
    }
}

/// The table of a step.
fn table_of(tables: &[Table], step: u32) -> &[bool] {
    match tables.get(step as usize) {
        Some(table) => table.items(),
        None => &[],
    }
}

/// Whether a table is nowhere 1 where another is 0.
fn is_leq(left: &[bool], right: &[bool]) -> bool {
    for (place, value) in left.iter().enumerate() {
        if *value && right.get(place).copied() != Some(true) {
            return false;
        }
    }
    true
}

/// The place of an assignment whose values stand in the script from this byte on, the first variable's first.
fn place_of(script: &[u8], at: u32, n: u32) -> usize {
    let mut place = 0usize;
    for k in 0..n {
        let one = script
            .get((at as usize).saturating_add(k as usize))
            .copied()
            == Some(b'1');
        place = place
            .saturating_mul(2)
            .saturating_add(if one { 1 } else { 0 });
    }
    place
}

/// Adds a number.
fn add_number(number: u64, text: &mut Vec<u8>) -> Result<(), AllocError> {
    text.extend_from_slice(Buffer::new().format(number).as_bytes())
}

/// Adds a number of nodes.
fn add_nodes(count: u64, text: &mut Vec<u8>) -> Result<(), AllocError> {
    text.extend_from_slice(b"nodes ")?;
    add_number(count, text)
}

/// Adds what is said of a step.
fn add_said(
    script: &[u8],
    n: u32,
    tables: &[Table],
    files: &[Bytes],
    number: u32,
    step: Step,
    text: &mut Vec<u8>,
) -> Result<(), AllocError> {
    match step {
        Step::Drop { .. } => text.extend_from_slice(b"dropped"),
        Step::Same { left, right } => {
            let same = table_of(tables, left) == table_of(tables, right);
            text.extend_from_slice(if same { b"yes" } else { b"no" })
        }
        Step::Leq { left, right } => {
            let leq = is_leq(table_of(tables, left), table_of(tables, right));
            text.extend_from_slice(if leq { b"yes" } else { b"no" })
        }
        Step::Eval { of, at } => {
            let place = place_of(script, at, n);
            let one = table_of(tables, of).get(place).copied() == Some(true);
            text.push(if one { b'1' } else { b'0' })?;
            Ok(())
        }
        Step::Size { of } => add_nodes(nodes_in(files, of), text),
        _ => add_nodes(nodes_in(files, number), text),
    }
}

/// The whole text of a run in an empty folder.
pub(crate) fn text_of(
    alloc: Global,
    script: &[u8],
    plan: &Plan,
    tables: &[Table],
    files: &[Bytes],
) -> Result<Vec<u8>, AllocError> {
    let mut text = Vec::from_slice(alloc, b"start ")?;
    add_number(plan.lines.items().len() as u64, &mut text)?;
    text.push(b'\n')?;
    for line in plan.lines.items() {
        add_number(line.line as u64, &mut text)?;
        text.extend_from_slice(b": ")?;
        if let Some(planned) = plan.steps.items().get(line.shows as usize) {
            add_said(
                script,
                plan.n,
                tables,
                files,
                line.shows,
                planned.step,
                &mut text,
            )?;
        }
        text.push(b'\n')?;
    }
    text.extend_from_slice(b"done\n")?;
    Ok(text)
}

/// Whether some step drops the diagram of that one.
pub(crate) fn is_dropped(steps: &[Planned], number: u32) -> bool {
    for planned in steps {
        if let Step::Drop { gone } = planned.step {
            if gone == number {
                return true;
            }
        }
    }
    false
}
