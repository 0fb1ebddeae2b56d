// The tables of steps, worked by hand.
ghost use Rattle.std.specs.Prelude.{◌≡◌};

use bool_tables::{Bin, Planned, Quant, Step, Table, TableFault, eval_steps};
use std::test::Fail;

const AND: Bin = Bin {
    v00: false,
    v01: false,
    v10: false,
    v11: true,
};

const fn unnamed(step: Step) -> Planned
    ensures { result ≡ record { step = step; name_at = 0; name_len = 0 } }
{
    Planned {
        step,
        name_at: 0,
        name_len: 0,
    }
}

#[test]
fn refuses_more_than_twenty_variables(rt: HostRuntime) {
    let steps = [unnamed(Step::Var { level: 1 })];
    let refused = matches!(
        eval_steps(rt.alloc(), 21, b"", &steps),
        Err(TableFault::TooManyVariables)
    );
    let numbers = (TableFault::Memory as u8, TableFault::TooManyVariables as u8);
    assert!(rt; refused && numbers == (1, 2));
}

/// The first step whose table hasn't these values, or that there isn't one for each.
fn first_difference(tables: &[Table], wanted: &[&[bool]]) -> Option<usize> {
    for (step, values) in wanted.iter().enumerate() {
        match tables.get(step) {
            Some(table) if table.items() == *values => {}
            _ => return Some(step),
        }
    }
    if tables.len() == wanted.len() {
        None
    } else {
        Some(wanted.len())
    }
}

#[test]
fn makes_the_table_of_each_step(rt: HostRuntime) -> Result<(), Fail> {
    let steps = [
        unnamed(Step::Var { level: 0 }),
        unnamed(Step::Var { level: 1 }),
        unnamed(Step::Pair {
            op: AND,
            left: 0,
            right: 1,
        }),
        unnamed(Step::Ite {
            test: 0,
            yes: 2,
            no: 1,
        }),
        unnamed(Step::Quantify {
            kind: Quant::Exists,
            of: 2,
            level: 0,
        }),
        unnamed(Step::Quantify {
            kind: Quant::Forall,
            of: 2,
            level: 0,
        }),
        unnamed(Step::Restrict {
            of: 2,
            level: 1,
            value: true,
        }),
        unnamed(Step::Const { value: true }),
        unnamed(Step::Eval { of: 2, at: 1 }),
        unnamed(Step::Drop { gone: 2 }),
    ];
    let wanted: [&[bool]; 10] = [
        &[false, false, true, true],
        &[false, true, false, true],
        &[false, false, false, true],
        &[false, true, false, true],
        &[false, true, false, true],
        &[false, false, false, false],
        &[false, false, true, true],
        &[true, true, true, true],
        &[],
        &[],
    ];
    let tables = eval_steps(rt.alloc(), 2, b" 10", &steps)?;
    let other = first_difference(tables.as_slice(), &wanted);
    assert!(rt; other.is_none(), "step {other:?}");
    Ok(())
}
