//! Reading and writing as many bytes as are asked for.
ghost use Rattle.std.specs.Prelude.{◌≤◌, IfOk, length};

use std::io;
use std::io::{ErrorKind, Read, Write};

/// How often one call is made again that a signal interrupted.
const MOST_INTERRUPTS: u32 = 64;

/// How often one write is made again that was interrupted, or found no room where it doesn't wait.
const MOST_REFUSALS: u32 = 65_536;

/// Fills a buffer, or as much of it as there are bytes, and answers how many were read.
pub(crate) fn read_full<F: Read>(file: &mut F, buf: &mut [u8]) -> io::Result<usize>
    ensures { IfOk result (λ count. count ≤ length buf.old) }
{
    let mut done = 0;
    let mut tries = MOST_INTERRUPTS;
    while done < buf.len() {
        match file.read(&mut buf[done..]) {
            Ok(0) => return Ok(done),
            Ok(count) => done += count,
            Err(e) if tries > 0 && e.kind() == ErrorKind::Interrupted => tries -= 1,
            Err(e) => return Err(e),
        }
    }
    Ok(done)
}

/// Writes all of the bytes. A write that takes nothing is a fault.
pub(crate) fn write_full<F: Write>(file: &mut F, bytes: &[u8]) -> io::Result<()> {
    let mut done = 0;
    let mut tries = MOST_REFUSALS;
    while done < bytes.len() {
        match file.write(&bytes[done..]) {
            Ok(0) => return Err(io::Error::from(ErrorKind::WriteZero)),
            Ok(count) => done += count,
            Err(e) if tries > 0 && is_passing(&e) => tries -= 1,
            Err(e) => return Err(e),
        }
    }
    Ok(())
}

/// Whether the same write may go through when it is made again.
fn is_passing(e: &io::Error) -> bool {
    e.kind() == ErrorKind::Interrupted || e.kind() == ErrorKind::WouldBlock
}
