//! What a run said that was stopped, and what the next run goes on with.

/// How many lines a text has.
pub fn line_count(text: &[u8]) -> usize {
    let mut count = 0usize;
    for byte in text {
        if *byte == b'\n' {
            count = count.saturating_add(1);
        }
    }
    count
}

/// How many lines were said, where they are whole and the first ones of the text.
pub fn lines_said(text: &[u8], said: &[u8]) -> Option<usize> {
    let whole = match said.last() {
        Some(byte) => *byte == b'\n',
        None => true,
    };
    if whole && text.starts_with(said) {
        Some(line_count(said))
    } else {
        None
    }
}

/// Whether a text has this part.
pub fn has_part(text: &[u8], part: &[u8]) -> bool {
    for first in 0..text.len() {
        if text[first..].starts_with(part) {
            return true;
        }
    }
    false
}

/// A digit of a number.
fn digit(number: usize) -> u8 {
    b'0' + (number % 10) as u8
}

/// What is behind so many lines of a text.
fn behind(text: &[u8], lines: usize) -> &[u8] {
    let (mut passed, mut start) = (0usize, 0usize);
    for (k, byte) in text.iter().enumerate() {
        if passed < lines {
            start = k.saturating_add(1);
        }
        if *byte == b'\n' {
            passed = passed.saturating_add(1);
        }
    }
    match text.get(start..) {
        Some(rest) => rest,
        None => b"",
    }
}

/// Whether this is what a run says that counts so many of less than ten lines as said before: of a text whose first
/// line tells how many lines follow before the last, the lines behind those.
fn is_resumed(text: &[u8], said: &[u8], count: usize, all: usize) -> bool {
    let front = [
        b'r',
        b'e',
        b's',
        b'u',
        b'm',
        b'e',
        b' ',
        digit(count),
        b' ',
        b'o',
        b'f',
        b' ',
        digit(all),
        b'\n',
    ];
    said.starts_with(&front) && said.get(14..) == Some(behind(text, count.saturating_add(1)))
}

/// Whether what was said is so many bytes of the text, and behind them what a run says that goes on where so many lines
/// of the text were said: the whole text where no job is stored, and no line was said then, and else the lines that
/// don't end with committed steps, where none of those that were said is among them.
pub fn goes_on(
    text: &[u8],
    said: &[u8],
    before: usize,
    lines: usize,
    committed: Option<usize>,
) -> bool {
    let (Some(front), Some(rest)) = (text.get(..before), said.get(before..)) else {
        return false;
    };
    let all = line_count(text).saturating_sub(2);
    said.starts_with(front)
        && match committed {
            Some(count) => {
                lines.saturating_sub(1).min(all) <= count && is_resumed(text, rest, count, all)
            }
            None => lines == 0 && rest == text,
        }
}
