// Texts of several lines, written on one.
use std::alloc::{AllocError, Global};

/// A line feed for a slash.
fn unslashed(byte: u8) -> u8 {
    if byte == b'/' { b'\n' } else { byte }
}

/// The text with line feeds for slashes.
pub(crate) fn text(alloc: Global, slashed: &str) -> Result<Vec<u8>, AllocError> {
    let mut bytes = Vec::new(alloc);
    for byte in slashed.as_bytes() {
        bytes.push(unslashed(*byte))?;
    }
    Ok(bytes)
}
