// Scripts with as many bytes and variables as there may be, and with more.
use crate::whole::{read_whole, refuses};
use script_reader::ScriptKind;
use std::alloc::{AllocError, Global};

/// A line that names variables, so many as are asked for: their names are their numbers.
fn variables(alloc: Global, count: u32) -> Result<Vec<u8>, AllocError> {
    let mut bytes = Vec::new(alloc);
    bytes.extend_from_slice(b"vars")?;
    for number in 0..count {
        bytes.push(b' ')?;
        for digit in [
            number / 10000,
            number / 1000 % 10,
            number / 100 % 10,
            number / 10 % 10,
            number % 10,
        ] {
            bytes.push(b'0' + (digit % 10) as u8)?;
        }
    }
    Ok(bytes)
}

/// Whether a script has so many variables, and no steps.
fn declares(alloc: Global, bytes: &[u8], n: u32) -> bool {
    match read_whole(alloc, bytes) {
        Ok(plan) => plan.n == n && plan.steps.items().is_empty() && plan.lines.items().is_empty(),
        Err(_) => false,
    }
}

/// Whether 65,535 variables are accepted, one more is refused, before a fault of the next line, and
/// a name that stands twice before that.
fn counts_variables(alloc: Global) -> Result<bool, AllocError> {
    let most = variables(alloc, 65535)?;
    let mut more = variables(alloc, 65536)?;
    let refused = refuses(alloc, more.as_slice(), 1, ScriptKind::TooManyVariables);
    let mut behind = variables(alloc, 65536)?;
    behind.extend_from_slice(b"\nfoo")?;
    more.extend_from_slice(b" 00000")?;
    Ok(
        refused
            && refuses(alloc, behind.as_slice(), 1, ScriptKind::TooManyVariables)
            && declares(alloc, most.as_slice(), 65535)
            && refuses(alloc, more.as_slice(), 1, ScriptKind::Variable),
    )
}

/// Whether too many variables are refused for their place where they don't stand on the first line
/// with words.
fn refuses_late_variables(alloc: Global) -> Result<bool, AllocError> {
    let mut late = Vec::new(alloc);
    late.extend_from_slice(b"const z 0\n")?;
    late.extend_from_slice(variables(alloc, 65536)?.as_slice())?;
    Ok(refuses(alloc, late.as_slice(), 2, ScriptKind::Word))
}

#[test]
fn refuses_many_variables_on_a_later_line_as_words(rt: HostRuntime) -> Result<(), AllocError> {
    assert!(rt; refuses_late_variables(rt.alloc())?);
    Ok(())
}

#[test]
fn refuses_more_variables_than_there_may_be(rt: HostRuntime) -> Result<(), AllocError> {
    assert!(rt; counts_variables(rt.alloc())?);
    Ok(())
}

/// Whether 1,048,576 bytes are read, one more is refused, and that before all other faults.
fn counts_bytes(alloc: Global) -> Result<bool, AllocError> {
    let empty = vec![in alloc; b'\n'; 1048576]?;
    let word = vec![in alloc; b'x'; 1048576]?;
    let more = vec![in alloc; b'\n'; 1048577]?;
    let longer = vec![in alloc; b'x'; 1048577]?;
    Ok(
        declares(alloc, empty.as_slice(), 0)
            && refuses(alloc, word.as_slice(), 1, ScriptKind::Word)
            && refuses(alloc, more.as_slice(), 0, ScriptKind::TooLong)
            && refuses(alloc, longer.as_slice(), 0, ScriptKind::TooLong),
    )
}

#[test]
fn refuses_more_bytes_than_there_may_be(rt: HostRuntime) -> Result<(), AllocError> {
    assert!(rt; counts_bytes(rt.alloc())?);
    Ok(())
}
