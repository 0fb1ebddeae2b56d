ghost use Rattle.std.specs.Prelude.{◌≡◌, ◌<◌, ◌≤◌, ◌↔◌, IfOk, IsErrOf};
ghost use Rattle.bool_tables.specs.Steps.{step_table, plan_tables};
ghost use Rattle.bool_tables.specs.Plans.{IsWellFormed};

use crate::values::{is_diagram_step, value_in_step};
use crate::{Items, Planned, Step};
use std::alloc::{AllocError, AllocFailed, Global};
use thiserror::Error;

/// A truth table: one value for each place.
pub type Table = Items<bool>;

/// Why tables are not made.
#[derive(Clone, Copy, Debug, PartialEq, Eq, Error)]
pub enum TableFault {
    #[error("out of memory")]
    Memory = 1,
    /// A table of more than 20 variables has more than a million values.
    #[error("more than 20 variables")]
    TooManyVariables = 2,
}

impl From<AllocError> for TableFault {
    ghost use Rattle.std.specs.Prelude.{◌≡◌};
    ghost use Rattle.bool_tables.specs.declared.eval.TableFault.TheVariants.{Memory};

    ghost from_gives = { λ _ e. e ≡ Memory };

    fn from(_error: AllocError) -> TableFault {
        TableFault::Memory
    }
}

impl<T: Drop> From<AllocFailed<T>> for TableFault {
    ghost use Rattle.std.specs.Prelude.{◌≡◌};
    ghost use Rattle.bool_tables.specs.declared.eval.TableFault.TheVariants.{Memory};

    ghost from_gives = { λ _ e. e ≡ Memory };

    fn from(_error: AllocFailed<T>) -> TableFault {
        TableFault::Memory
    }
}

/// The table of each step, made place by place: slow, and meant for tests. A step that makes no
/// diagram has the empty table.
pub fn eval_steps(
    alloc: Global,
    n: u32,
    text: &[u8],
    steps: &[Planned],
) -> Result<Vec<Table>, TableFault>
    requires { IsWellFormed n text.now steps.now }
    ensures tables { IfOk result (λ tables. tables.items ≡ plan_tables n steps.now) }
    ensures refused { IsErrOf result TableFault.TooManyVariables ↔ (20 < n) }
{
    let _ = text;
    if n > 20 {
        return Err(TableFault::TooManyVariables);
    }
    let mut tables: Vec<Table> = Vec::new(alloc);
    for planned in steps {
        let values = values_of(alloc, n, tables.as_slice(), planned.step)?;
        tables.push(Items::of(values))?;
    }
    Ok(tables)
}

fn values_of(alloc: Global, n: u32, tables: &[Table], step: Step) -> Result<Vec<bool>, AllocError>
    requires { n ≤ 20 }
    ensures { IfOk result (λ values. values.items ≡ step_table n tables.now step) }
{
    let mut values = Vec::new(alloc);
    if is_diagram_step(step) {
        for place in 0..1usize << n {
            values.push(value_in_step(n, tables, step, place))?;
        }
    }
    Ok(values)
}
