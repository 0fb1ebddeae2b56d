//! Where the bytes of a node file are damaged, by a plain look at all of its records.

/// The bytes of a record: three words of eight.
const RECORD: usize = 24;

/// The level of the truth values, deeper than any node's.
const DEEPEST: u64 = 65_535;

/// The word at a byte, the first byte being the greatest; bytes that aren't there count as 0.
pub(crate) fn word_at(bytes: &[u8], at: usize) -> u64 {
    let mut word = 0;
    for place in at..at.saturating_add(8) {
        word = (word << 8) | u64::from(bytes.get(place).copied().unwrap_or(0));
    }
    word
}

// The words of the record at a place.
fn words_at(bytes: &[u8], place: usize) -> [u64; 3] {
    let at = place.saturating_mul(RECORD);
    [
        word_at(bytes, at),
        word_at(bytes, at.saturating_add(8)),
        word_at(bytes, at.saturating_add(16)),
    ]
}

// How many records stand in front of the last one.
fn count_of(bytes: &[u8]) -> usize {
    (bytes.len() / RECORD).saturating_sub(1)
}

fn level_of(word: u64) -> u64 {
    DEEPEST.min(word >> 47)
}

fn is_node(word: u64) -> bool {
    level_of(word) < DEEPEST
}

fn is_value(word: u64) -> bool {
    word == 1 << 63 || word == (1 << 63) + 1
}

// Whether a node may point to what has this word.
fn is_below(word: u64, node: u64) -> bool {
    (is_node(word) || is_value(word)) && level_of(word) > level_of(node)
}

// Whether the words are those of a node that may stand in a file for so many variables.
fn is_sound(n: u32, words: [u64; 3]) -> bool {
    let [node, low, high] = words;
    is_node(node)
        && level_of(node) < u64::from(n)
        && low != high
        && is_below(low, node)
        && is_below(high, node)
}

// Whether the bytes are whole records, the last of which is a trailer: the root, the number of nodes and of variables.
fn has_trailer(n: u32, bytes: &[u8]) -> bool {
    let count = count_of(bytes);
    let [root, nodes, variables] = words_at(bytes, count);
    let [last, _low, _high] = words_at(bytes, count.saturating_sub(1));
    let leads = if count == 0 {
        is_value(root)
    } else {
        is_node(root) && root == last
    };
    !bytes.is_empty()
        && bytes.len() % RECORD == 0
        && nodes == count as u64
        && variables == u64::from(n)
        && leads
}

// The place of the first record, from the last one on, that is of no node or not in order: it has to come before the
// one in front of it.
fn first_damage(n: u32, bytes: &[u8]) -> Option<usize> {
    let mut found = None;
    for place in 0..count_of(bytes) {
        let words = words_at(bytes, place);
        let behind = place.saturating_add(1);
        if !is_sound(n, words) {
            found = Some(place);
        } else if behind < count_of(bytes) && words[0] <= words_at(bytes, behind)[0] {
            found = Some(behind);
        }
    }
    found
}

// Whether some record is that of the node.
fn has_node(bytes: &[u8], node: u64) -> bool {
    for place in 0..count_of(bytes) {
        if words_at(bytes, place)[0] == node {
            return true;
        }
    }
    false
}

// Whether a node would have to stand between the record at a place and the one behind it, or in front of all.
fn belongs_at(bytes: &[u8], place: usize, node: u64) -> bool {
    let [above, _low, _high] = words_at(bytes, place);
    let behind = place.saturating_add(1);
    let [below, _low, _high] = words_at(bytes, behind);
    (place == 0 && node > above) || (behind < count_of(bytes) && below < node && node < above)
}

// Whether a word names a node that no record has, and that would have to stand there.
fn is_missed(bytes: &[u8], place: usize, named: u64) -> bool {
    is_node(named) && !has_node(bytes, named) && belongs_at(bytes, place, named)
}

// Whether a record from a place on names a node that no record has, and that would have to stand there.
fn is_missed_at(bytes: &[u8], place: usize) -> bool {
    for from in place..count_of(bytes) {
        let [_node, low, high] = words_at(bytes, from);
        if is_missed(bytes, place, low) || is_missed(bytes, place, high) {
            return true;
        }
    }
    false
}

/// Whether the bytes of a node file for so many variables are damaged at that one: the trailer where it isn't one, else
/// the first record that is damaged, else one at which a node is missing.
pub(crate) fn is_damaged_at(n: u32, bytes: &[u8], at: u64) -> bool {
    if !has_trailer(n, bytes) {
        return at == bytes.len().saturating_sub(RECORD) as u64;
    }
    if let Some(place) = first_damage(n, bytes) {
        return at == (place.saturating_mul(RECORD)) as u64;
    }
    let place = at / RECORD as u64;
    at % RECORD as u64 == 0 && place < count_of(bytes) as u64 && is_missed_at(bytes, place as usize)
}
