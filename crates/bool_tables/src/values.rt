//! The value of a step's table at one place.
ghost use Rattle.std.specs.Prelude.{◌≡◌, ◌<◌, ◌≤◌, ◌^◌};
ghost use Rattle.bool_tables.specs.Tables.{value_at, weight, digit, with_digit};
ghost use Rattle.bool_tables.specs.Steps.{quant_value, table_of_step, step_value};
ghost use Rattle.bool_tables.specs.Plans.{makes_diagram};

use crate::{Bin, Quant, Step, Table};

/// Whether the step makes a diagram, rather than an answer or a dropped diagram.
pub fn is_diagram_step(step: Step) -> bool
    ensures { result ≡ makes_diagram step }
{
    match step {
        Step::Const { .. } | Step::Var { .. } | Step::Pair { .. } => true,
        Step::Ite { .. } | Step::Quantify { .. } | Step::Restrict { .. } => true,
        Step::Drop { .. } | Step::Same { .. } | Step::Leq { .. } => false,
        Step::Eval { .. } | Step::Size { .. } => false,
    }
}

/// The value at a place of the table that a step makes, where the tables of the steps before are known.
pub fn value_in_step(n: u32, tables: &[Table], step: Step, place: usize) -> bool
    requires few { n ≤ 20 }
    requires within { place < 2 ^ 20 }
    ensures { result ≡ step_value n tables.now step place }
{
    match step {
        Step::Const { value } => value,
        Step::Var { level } => has_digit(n, level, place),
        Step::Pair { op, left, right } => op.value(
            look_up(tables, left, place),
            look_up(tables, right, place),
        ),
        Step::Ite { test, yes, no } => {
            if look_up(tables, test, place) {
                look_up(tables, yes, place)
            } else {
                look_up(tables, no, place)
            }
        }
        Step::Quantify { kind, of, level } => {
            let low = look_up(tables, of, place_with(n, level, false, place));
            let high = look_up(tables, of, place_with(n, level, true, place));
            quantified(kind, low, high)
        }
        Step::Restrict { of, level, value } => look_up(
            tables,
            of,
            place_with(n, level, value, place),
        ),
        Step::Drop { .. }
        | Step::Same { .. }
        | Step::Leq { .. }
        | Step::Eval { .. }
        | Step::Size { .. } => false,
    }
}

fn quantified(kind: Quant, low: bool, high: bool) -> bool
    ensures { result ≡ quant_value kind low high }
{
    match kind {
        Quant::Exists => low || high,
        Quant::Forall => low && high,
    }
}

fn look_up(tables: &[Table], step: u32, place: usize) -> bool
    ensures { result ≡ value_at (table_of_step tables.now step) place }
{
    match tables.get(step as usize) {
        Some(table) => table.items().get(place).copied().unwrap_or(false),
        None => false,
    }
}

fn weight_of(n: u32, level: u32) -> usize
    requires { n ≤ 20 }
    ensures value { result ≡ weight n level }
    ensures below { result ≤ 2 ^ 20 }
{
    1 << n.saturating_sub(1).saturating_sub(level)
}

fn has_digit(n: u32, level: u32, place: usize) -> bool
    requires { n ≤ 20 }
    ensures { result ≡ digit n level place }
{
    place / weight_of(n, level) % 2 == 1
}

fn place_with(n: u32, level: u32, value: bool, place: usize) -> usize
    requires few { n ≤ 20 }
    requires within { place < 2 ^ 20 }
    ensures { result ≡ with_digit n level value place }
{
    let weight = weight_of(n, level);
    let others = if has_digit(n, level, place) {
        place - weight
    } else {
        place
    };
    others + if value { weight } else { 0 }
}
