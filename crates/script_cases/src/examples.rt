// The example script of each size is accepted.
ghost use Rattle.std.specs.Prelude.{◌≤◌};

use crate::whole::read_whole;
use example_script::gen_script;
use std::alloc::{AllocError, Global};

/// Whether the script of a size has two variables for each bit, and so many steps, each with a said line, the last of
/// which is of the line behind its number.
fn plans_example(alloc: Global, size: u32, steps: u32) -> Result<bool, AllocError>
    requires { (1 ≤ size) × (size ≤ 16) × (steps ≤ 100) }
{
    let script = gen_script(alloc, size)?;
    let Ok(plan) = read_whole(alloc, script.as_slice()) else {
        return Ok(false);
    };
    let lines = plan.lines.items();
    let all = steps as usize;
    let counts = plan.n == 2 * size && plan.steps.items().len() == all && lines.len() == all;
    match lines.last() {
        Some(line) => Ok(counts && line.line == steps + 1),
        None => Ok(false),
    }
}

#[test]
fn accepts_examples(rt: HostRuntime) -> Result<(), AllocError> {
    for size in 1..9 {
        assert!(rt; plans_example(rt.alloc(), size, 5 * size + 4)?, "{size}");
    }
    Ok(())
}

#[test]
fn says_44_lines_of_8_bits(rt: HostRuntime) -> Result<(), AllocError> {
    assert!(rt; plans_example(rt.alloc(), 8, 44)?);
    Ok(())
}
