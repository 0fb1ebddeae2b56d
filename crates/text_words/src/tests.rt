//! The lines and words of one text, worked out by hand.

use crate::Lines;
use std::test::Fail;

const TEXT: &[u8] = b"and f\tg#no\r\n\n \x0Bh\xFF # i\nlast";

/// Each word's line, place and length.
const WORDS: [(u32, u32, usize); 5] = [(1, 0, 3), (1, 4, 1), (1, 6, 1), (3, 14, 3), (4, 22, 4)];

/// The words of the text stand where the table says, and the text has four lines.
fn words_are_placed(alloc: std::alloc::Global) -> Result<bool, Fail> {
    let mut found: Vec<(u32, u32, usize)> = Vec::new(alloc);
    let mut last = 0;
    for line in Lines::of(TEXT) {
        for word in line.words() {
            found.push((line.number, word.at, word.bytes.len()))?;
        }
        last = line.number;
    }
    Ok(last == 4 && found.as_slice() == WORDS.as_slice())
}

#[test]
fn places_each_word(rt: HostRuntime) -> Result<(), Fail> {
    assert!(rt; words_are_placed(rt.alloc())?);
    Ok(())
}
