// The script of the two smallest sizes, line by line.
ghost use Rattle.std.specs.Prelude.{◌≤◌};

use crate::gen_script;
use std::alloc::{AllocError, Global};

/// Whether that text is the script of the size.
fn is_script(alloc: Global, size: u32, text: &str) -> Result<bool, AllocError>
    requires { (1 ≤ size) × (size ≤ 16) }
{
    let script = gen_script(alloc, size)?;
    Ok(script.as_slice() == text.as_bytes())
}

#[test]
fn compares_one_bit(rt: HostRuntime) -> Result<(), AllocError> {
    let text = "vars x1 y1\nconst p0 1\nvar a1 x1\nvar b1 y1\nxnor e1 a1 b1\nand p1 p0 e1\n\
        const r0 1\nand r1 r0 e1\nsame p1 r1\nsize p1\n";
    assert!(rt; is_script(rt.alloc(), 1, text)?);
    Ok(())
}

#[test]
fn compares_two_bits(rt: HostRuntime) -> Result<(), AllocError> {
    let text = "vars x1 x2 y1 y2\nconst p0 1\n\
        var a1 x1\nvar b1 y1\nxnor e1 a1 b1\nand p1 p0 e1\n\
        var a2 x2\nvar b2 y2\nxnor e2 a2 b2\nand p2 p1 e2\n\
        const r0 1\nand r1 r0 e2\nand r2 r1 e1\nsame p2 r2\nsize p2\n";
    assert!(rt; is_script(rt.alloc(), 2, text)?);
    Ok(())
}
